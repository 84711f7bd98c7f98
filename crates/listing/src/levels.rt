// The nodes of a key, from the top down, as keys rise.
ghost use Rattle.std.specs.Prelude.{◌≡◌, ◌+◌, ◌<◌, ◌≤◌};
ghost use Rattle.sketch.specs.Layout.{shape_of, first_key, node_of};
ghost use Rattle.listing.specs.Answers.{new_levels, MissesAnswer, MissAnswer};

use sketch::faults::CellFault;
use sketch::question::Question;
use window::Counter;

// How many levels have a new node at a key: above them its nodes are those of the key before.
fn new_levels(key: u32, bits: u32) -> u32
    requires small { bits ≤ 10 }
    ensures many { result ≡ new_levels bits key }
{
    key.trailing_zeros().min(bits) + 1
}

// The first key after those of the node of a key at a level.
pub(crate) fn key_after(key: u32, level: u32) -> u32
    requires key { key < 1024 }
    requires level { level ≤ 10 }
    ensures next { result ≡ first_key level (node_of level key + 1) }
{
    ((key >> level) + 1) << level
}

// Whether the node of a key at a level has a high below g.
fn misses<C: Counter>(
    question: &Question<C>,
    level: u32,
    key: u32,
    g: u32,
) -> Result<bool, CellFault>
    requires level { level ≤ question.now.sketch.now.bits }
    ensures answered { MissesAnswer C.Counter.model (shape_of question.now.sketch.now) question.now.cells.now question.now.t question.now.v g key level result }
{
    let high = question.high(level, key >> level)?;
    Ok(high < g)
}

// The highest level above 0, of those with a new node at the key, where the node's high is below g.
pub(crate) fn highest_miss<C: Counter>(
    question: &Question<C>,
    key: u32,
    g: u32,
) -> Result<Option<u32>, CellFault>
    ensures answered { MissAnswer C.Counter.model (shape_of question.now.sketch.now) question.now.cells.now question.now.t question.now.v g key result }
{
    for level in (1..new_levels(key, question.sketch.bits)).rev() {
        if misses(question, level, key, g)? {
            return Ok(Some(level));
        }
    }
    Ok(None)
}
