// Log lines: an event read from a line of named fields, and written as one.
#![tactic(auto)]

ghost use Rattle.logline.specs.Events.{said};
ghost use Rattle.logline.specs.Reading.{ReadAs, Decided};
ghost use Rattle.logline.specs.Writing.{WroteAs, ReadsBack, WritesBack};

mod events;
mod faults;
mod fields;
mod forms;
mod numbers;
mod pieces;
mod texts;

pub use events::Event;
use events::event_of;
pub use faults::LineFault;
pub use fields::{Field, LONGEST, MOST, fields_of};
pub use forms::{Kind, Name, Shape, UnknownLetter, Word};
use texts::{Draft, put_event};

// The event that a line says, or the place where the line departs from every form.
pub fn read<'a>(line: &'a [u8]) -> Result<Event<'a>, LineFault>
    ensures answered { ReadAs line.now result }
    ensures decided { Decided line.now }
    ensures writes_back { WritesBack line.now result }
{
    let (word, list) = fields_of(line)?;
    Ok(event_of(word, &list).unwrap())
}

// Writes the line of an event to the front of the places lent, and gives its length.
// The line is drafted apart, so that a refusal leaves the places as they were.
pub fn write(event: &Event, out: &mut [u8]) -> Result<usize, LineFault>
    ensures answered { WroteAs (said event.now) out.old out.new result }
    ensures reads_back { ReadsBack (said event.now) out.new result }
{
    if out.len() < LONGEST {
        return Err(LineFault::Room { needed: LONGEST });
    }
    let mut line = Draft::new();
    put_event(&mut line, event)?;
    out[..line.len()].copy_from_slice(&line);
    Ok(line.len())
}
