// Seed words from one number, by 32-bit xorshift.
ghost use Rattle.std.specs.Prelude.{◌≡◌, ◌<◌};
ghost use Rattle.std.specs.List.{AllByRecursion};
ghost use Rattle.desk.specs.Seeds.{top_bits, words_from};
ghost use Rattle.desk.specs.Worked.{WorkedSeeds};

use xorshift::next;

// The two highest bits of a number.
fn top_bits(x: u32) -> u16
    ensures top { result ≡ top_bits x }
    ensures below { result < 4 }
{
    (x >> 30) as u16
}

// The seed words that a board of 32 keys, two rows and four columns wants, from a seed: each below four.
pub fn seed_words(seed: u32) -> [u16; 60]
    ensures drawn { result ≡ words_from 60 seed }
    ensures below { AllByRecursion (λ word. word < 4) result }
{
    let mut words = [0; 60];
    let mut x = seed;
    for word in words.iter_mut() {
        x = next(x);
        *word = top_bits(x);
    }
    words
}

// The definitions give the published numbers for seed 1.
pub fn worked_seeds_stand()
    ensures stand { WorkedSeeds }
{}
