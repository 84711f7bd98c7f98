// Numbers without a plain pattern, by Marsaglia's 32-bit xorshift.
#![tactic(auto)]

ghost use Rattle.std.specs.Prelude.{◌≡◌};
ghost use Rattle.xorshift.specs.Xorshift.{next};

// The number after x: three times x is mixed with itself shifted, bits above 32 dropped.
pub fn next(x: u32) -> u32
    ensures next { result ≡ next x }
{
    let a = x ^ (x << 13);
    let b = a ^ (a >> 17);
    b ^ (b << 5)
}
