// Which stamps are live.
ghost use Rattle.std.specs.Prelude.{◌≡◌, ◌^◌, ◌<◌, length};
ghost use Rattle.window.specs.Stamps.{is_live, live_count};

// Whether stamp s is live at t over v.
pub fn is_live(s: u32, t: u32, v: u32) -> bool
    ensures live { result ≡ is_live t v s }
{
    s <= t && t - s < v
}

// How many of the stamps are live at t over v.
pub fn live_among(stamps: &[u32], t: u32, v: u32) -> u32
    requires few { length stamps.now < 2 ^ 32 }
    ensures counted { result ≡ live_count t v stamps.now }
{
    stamps.iter().map(|s| u32::from(is_live(*s, t, v))).sum()
}
