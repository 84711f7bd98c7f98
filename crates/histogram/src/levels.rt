// The buckets of one size, and those of all sizes.
ghost use Rattle.std.specs.Prelude.{◌≡◌, ℕ, ◌+◌, ◌<◌, ◌≤◌, true, not, ◌∷◌, length, take};
ghost use Rattle.std.specs.List.{AllByRecursion, suffix_len};
ghost use Rattle.window.specs.Stamps.{is_live};
ghost use Rattle.histogram.specs.declared.levels.Level.{Level as OneLevel};
ghost use Rattle.histogram.specs.Buckets.{bucket, total, falling, live_buckets, settle};
ghost use Rattle.histogram.specs.Histograms.{in_use, buckets_from, Places, Trimmed, Inserted};

use window::stamps::is_live;

// How many buckets of one size there are, and their stamps, newest first. The record lies in lent
// memory and may hold anything: so a number beside seven fixed places.
#[derive(Clone, Copy, PartialEq, Eq, Debug)]
pub struct Level {
    pub number: u8,
    pub stamps: [u32; 7],
}

impl Level {
    // The stamps of the buckets.
    pub(crate) fn in_use(&self) -> &[u32]
        requires places { self.now.number ≤ 7 }
        ensures used { result.now ≡ in_use self.now }
        ensures places { Places self.now }
    {
        &self.stamps[..usize::from(self.number)]
    }

    // How many buckets are dead at t over v, from the oldest on.
    fn dead(&self, t: u32, v: u32) -> usize
        requires places { self.now.number ≤ 7 }
        ensures counted { result ≡ suffix_len (λ s. not (is_live t v s)) (in_use self.now) }
    {
        self.in_use()
            .iter()
            .rev()
            .take_while(|s| !is_live(**s, t, v))
            .count()
    }

    // Drops the buckets dead at t over v: the oldest ones, as stamps never rise.
    fn trim(&mut self, t: u32, v: u32)
        requires places { self.old.number ≤ 7 }
        ensures stamps { self.new.stamps ≡ self.old.stamps }
        ensures fewer { self.new.number ≤ self.old.number }
        ensures trimmed { Trimmed t v self.old self.new }
    {
        self.number -= self.dead(t, v) as u8;
    }

    // Puts t in front of the first `kept` stamps, and lets the others go.
    fn push(&mut self, kept: u8, t: u32)
        requires places { kept < 7 }
        ensures places { length self.new.stamps ≡ 7 }
        ensures number { self.new.number ≡ kept + 1 }
        ensures stamps { in_use self.new ≡ t ∷ take kept self.old.stamps }
    {
        self.stamps.copy_within(..usize::from(kept), 1);
        self.stamps[0] = t;
        self.number = kept + 1;
    }

    // One more bucket in front; where the level was full, the stamp of the two oldest merged, which leave it: the newer one's.
    fn insert(&mut self, fineness: u8, t: u32) -> Option<u32>
        requires some { 0 < fineness }
        requires fine { fineness ≤ 6 }
        requires few { self.old.number ≤ fineness + 1 }
        ensures places { Places self.new }
        ensures inserted { Inserted fineness t self.old self.new result }
    {
        if self.number <= fineness {
            self.push(self.number, t);
            return None;
        }
        let merged = self.stamps[usize::from(fineness) - 1];
        self.push(fineness - 1, t);
        Some(merged)
    }
}

// Drops the buckets dead at t over v.
pub(crate) fn drop_dead(levels: &mut [Level; 12], t: u32, v: u32)
    requires places { AllByRecursion Places levels.old }
    ensures places { AllByRecursion Places levels.new }
    ensures fewer { (n : ℕ) → AllByRecursion (λ (l : OneLevel). l.number ≤ n) levels.old → AllByRecursion (λ (l : OneLevel). l.number ≤ n) levels.new }
    ensures live { (s top : ℕ) → top ≤ t → falling top (buckets_from s levels.old) ≡ true → buckets_from s levels.new ≡ live_buckets t v (buckets_from s levels.old) }
{
    for level in levels.iter_mut() {
        level.trim(t, v);
    }
}

// Puts a bucket of size 1 with stamp t in front; of a size that then has too many the two oldest go on as one of double size.
pub(crate) fn carry_in(levels: &mut [Level; 12], fineness: u8, t: u32)
    requires some { 0 < fineness }
    requires fine { fineness ≤ 6 }
    requires places { AllByRecursion Places levels.old }
    requires few { AllByRecursion (λ (l : OneLevel). l.number ≤ fineness + 1) levels.old }
    requires room { total (buckets_from 1 levels.old) < 4095 }
    ensures twelve { length levels.new ≡ 12 }
    ensures places { AllByRecursion Places levels.new }
    ensures settled { buckets_from 1 levels.new ≡ settle fineness 1 (bucket 1 t) (buckets_from 1 levels.old) }
{
    let mut arriving = t;
    for level in levels.iter_mut() {
        let Some(merged) = level.insert(fineness, arriving) else {
            return;
        };
        arriving = merged;
    }
}
