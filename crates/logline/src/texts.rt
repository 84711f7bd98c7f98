// The text of an event, put into bytes.
ghost use Rattle.std.specs.Prelude.{◌≡◌, [], ◌∷◌, decimal};
ghost use Rattle.logline.specs.Events.{content_text, Sound, field_text, said};
ghost use Rattle.logline.specs.Steps.{value_content, PutWhen, drafted, PutSaid};

use crate::events::{Event, Value};
use crate::faults::LineFault;
use crate::fields::LONGEST;
use crate::forms::Name;
use arrayvec::ArrayVec;
use itoa::Buffer;

// A line that is being written. What finds no room there makes the line too long.
pub(crate) type Draft = ArrayVec<u8, LONGEST>;

// Puts bytes behind those that are there.
fn put(line: &mut Draft, bytes: &[u8]) -> Result<(), LineFault>
    ensures put { PutWhen (Unit {0}) line.old.items bytes.now line.new.items result }
{
    line.try_extend_from_slice(bytes)
        .map_err(|_| LineFault::Form { place: LONGEST })
}

// Puts a number. One digit wants no buffer.
fn put_number(line: &mut Draft, number: u32) -> Result<(), LineFault>
    ensures put { PutWhen (Unit {0}) line.old.items (decimal number) line.new.items result }
{
    if number < 10 {
        return put(line, &[b'0' + number as u8]);
    }
    put(line, Buffer::new().format(number).as_bytes())
}

// Puts what a field holds.
fn put_value(line: &mut Draft, value: Value) -> Result<(), LineFault>
    ensures put { PutWhen (Sound (value_content value.entry)) line.old.items (content_text (value_content value.entry)) line.new.items result }
{
    match value {
        Value::Number(number) => put_number(line, number),
        Value::Serial(serial) => {
            if serial.contains(&b' ') {
                return Err(LineFault::Form { place: LONGEST });
            }
            put(line, serial)
        }
        Value::Letter(kind) => put(line, &[char::from(kind) as u8]),
    }
}

// Puts a field, after a blank.
fn put_field(line: &mut Draft, name: Name, value: Value) -> Result<(), LineFault>
    ensures put { PutWhen (Sound (value_content value.entry)) line.old.items (32 ∷ field_text name (value_content value.entry)) line.new.items result }
{
    put(line, b" ")?;
    put(line, name.label())?;
    put_value(line, value)
}

// Puts the whole line of an event into an empty draft.
pub(crate) fn put_event(line: &mut Draft, event: &Event) -> Result<(), LineFault>
    requires empty { line.old.items ≡ [] }
    ensures put { PutSaid (said event.now) (drafted line.new result) }
{
    let word = event.word();
    let mut values = ArrayVec::new();
    event.list_values(&mut values);
    put(line, word.head())?;
    for (name, value) in word.names().iter().zip(values.as_slice()) {
        put_field(line, *name, *value)?;
    }
    Ok(())
}
