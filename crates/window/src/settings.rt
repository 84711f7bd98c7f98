// The settings that a counter is made with, and their ranges. Both stay plain numbers: a counter's
// record may hold any, so a type of their own would only be made from them again, call by call.
ghost use Rattle.std.specs.Prelude.{◌≡◌, min, max};
ghost use Rattle.window.specs.Settings.{in_range};

// A window of 0 is made 1.
pub fn window_from(asked: u32) -> u32
    ensures ranged { result ≡ max 1 asked }
{
    asked.max(1)
}

// A fineness is brought to the nearer of 1 and 6.
pub fn fineness_from(asked: u8) -> u8
    ensures ranged { result ≡ max 1 (min 6 asked) }
{
    asked.clamp(1, 6)
}

// Whether a window and a fineness are in their ranges; no number of 32 bits is above the largest window.
pub fn in_range(window: u32, fineness: u8) -> bool
    ensures ranges { result ≡ in_range window fineness }
{
    window >= 1 && (1..=6).contains(&fineness)
}
