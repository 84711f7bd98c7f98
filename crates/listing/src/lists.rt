// The list of the keys whose nodes reach a threshold, in key order.
ghost use Rattle.sketch.specs.Layout.{shape_of};
ghost use Rattle.listing.specs.Answers.{EntryAnswer, with_found, ListAnswer};

use crate::Listed;
use crate::levels::{highest_miss, key_after};
use arrayvec::ArrayVec;
use sketch::faults::CellFault;
use sketch::question::Question;
use window::Counter;

// The most keys that a list can name: as many as there can be keys.
pub const MOST: usize = 1024;

// What a list has for a key whose own node has a high of g or more.
fn entry<C: Counter>(question: &Question<C>, key: u32, g: u32) -> Result<Option<Listed>, CellFault>
    ensures answered { EntryAnswer C.Counter.model (shape_of question.now.sketch.now) question.now.cells.now question.now.enrolled question.now.t question.now.v g key result }
{
    let reached = question.node_reaching(0, key, g)?;
    Ok(reached.map(|(low, high)| Listed { key, low, high }))
}

// Finds the keys whose nodes all have a high of g or more. Where a node misses g, every key under it
// is passed over, and no node is counted twice. The vector is lent: one that was handed out would be
// moved, 12 KB, whatever it holds.
pub fn list<C: Counter>(
    question: &Question<C>,
    g: u32,
    found: &mut ArrayVec<Listed, MOST>,
) -> Result<(), CellFault>
    ensures answered { ListAnswer C.Counter.model (shape_of question.now.sketch.now) question.now.cells.now question.now.enrolled question.now.t question.now.v g (with_found found.new result) }
{
    found.clear();
    let mut key = 0;
    // a `while`, since a miss passes over many keys at once
    while key < question.enrolled {
        if let Some(level) = highest_miss(question, key, g)? {
            key = key_after(key, level);
            continue;
        }
        if let Some(listed) = entry(question, key, g)? {
            found.push(listed);
        }
        key += 1;
    }
    Ok(())
}
