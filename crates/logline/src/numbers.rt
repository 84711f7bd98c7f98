// Decimal text of a number, read.
ghost use Rattle.std.specs.Prelude.{◌≡◌, ◌<◌, length, Decides, slice_index};
ghost use Rattle.logline.specs.Steps.{Extends, NumberOf};

// The number with one more digit, unless the byte is none or the number would pass the largest.
fn with_digit(number: u32, byte: u8) -> Option<u32>
    ensures told { Extends number byte result }
{
    if !byte.is_ascii_digit() {
        return None;
    }
    number.checked_mul(10)?.checked_add(u32::from(byte - b'0'))
}

// Whether a text begins with a zero that other bytes follow.
// A function of its own: tried as a pattern in `number`, and the check does not see there that the first byte is no zero.
fn has_leading_zero(text: &[u8]) -> bool
    ensures decided { Decides result ((slice_index text.now 0 ≡ 48) × (1 < length text.now)) }
{
    matches!(text, [b'0', _, ..])
}

// The number that a text writes: decimal, at most the largest, and with no leading zero.
// No `parse`: it wants the bytes checked as text first, and takes signs and leading zeros.
pub(crate) fn number(text: &[u8]) -> Option<u32>
    ensures found { NumberOf text.now result }
{
    if text.is_empty() {
        return None;
    }
    if has_leading_zero(text) {
        return None;
    }
    let mut number = 0;
    for byte in text {
        number = with_digit(number, *byte)?;
    }
    Some(number)
}
