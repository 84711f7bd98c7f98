// What follows from the definitions of the wave alone.
ghost use Rattle.std.specs.Prelude.{◌≡◌, ℕ, ◌*◌, ◌^◌, ◌≤◌, true, ◌≢◌, List, Decides, nat_le};
ghost use Rattle.wave.specs.declared.Wave.{Wave};
ghost use Rattle.wave.specs.Ranks.{top, keeps, kept, Newest};
ghost use Rattle.wave.specs.Waves.{place, wave_stands};
ghost use Rattle.wave.specs.Soundness.{StandsFor};
ghost use Rattle.wave.specs.Worked.{WorkedCases};

// The levels of a rank are those whose gap divides it, each keeps its newest 2m + 1 ranks, and
// what one of them keeps the highest level of the rank keeps too.
pub fn levels_stand()
    ensures belongs { (j r : ℕ) → j ≤ 11 → Decides (nat_le j (top r)) ((a : ℕ) × (r ≡ a * 2 ^ j)) }
    ensures newest { (n m j r : ℕ) → j ≤ 11 → Decides (keeps n m j r) (Newest n m j r) }
    ensures highest { (n m j r : ℕ) → keeps n m j r ≡ true → keeps n m (top r) r ≡ true }
{}

// Ranks that are kept together have places apart, and a wave stands for the lists that its parts say.
pub fn meaning_stands()
    ensures apart { (n m a b : ℕ) → m ≤ 6 → kept n m a ≡ true → kept n m b ≡ true → a ≢ b → place a ≢ place b }
    ensures stands { (c : Wave) (xs : List ℕ) → Decides (wave_stands c xs) (StandsFor c xs) }
{}

// The worked cases stand, by computation.
pub fn worked_cases_stand()
    ensures stand { WorkedCases }
{}
