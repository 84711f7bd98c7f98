// What a line says.
ghost use Rattle.std.specs.Prelude.{IsSomeAnd, MatchOption, ◌≡◌, ◌<◌, [], ◌++◌, map, length};
ghost use Rattle.logline.specs.Forms.{names, required};
ghost use Rattle.logline.specs.Events as Content;
ghost use Rattle.logline.specs.Events.{Filled, said, saying, left_out};
ghost use Rattle.logline.specs.Fields.{content_of};
ghost use Rattle.logline.specs.Steps.{value_content, NoneAt, StandsAt};

use crate::fields::{Field, MOST};
use crate::forms::{Kind, Shape, Word};
use arrayvec::ArrayVec;

// An event: what one line asks for. `span` is remembered as left out where it was.
#[derive(Clone, Copy)]
pub enum Event<'a> {
    Open {
        kind: Kind,
        window: u32,
        fine: u32,
        seed: u32,
    },
    Enrol {
        cab: &'a [u8],
    },
    Play {
        cab: &'a [u8],
        t: u32,
    },
    Ask {
        cab: &'a [u8],
        t: u32,
        span: Option<u32>,
    },
    Range {
        from: u32,
        to: u32,
        t: u32,
        span: Option<u32>,
    },
    List {
        least: u32,
        t: u32,
        span: Option<u32>,
    },
}

// What one field of an event holds.
#[derive(Clone, Copy)]
pub(crate) enum Value<'a> {
    Number(u32),
    Serial(&'a [u8]),
    Letter(Kind),
}

// What fills the places of a list that are not taken.
impl Default for Value<'_> {
    fn default() -> Self {
        Value::Number(0)
    }
}

impl<'a> Event<'a> {
    // The word that its line begins with.
    pub(crate) fn word(&self) -> Word
        ensures told { result ≡ (said self.now).word }
    {
        match self {
            Event::Open { .. } => Word::Open,
            Event::Enrol { .. } => Word::Enrol,
            Event::Play { .. } => Word::Play,
            Event::Ask { .. } => Word::Ask,
            Event::Range { .. } => Word::Range,
            Event::List { .. } => Word::List,
        }
    }

    // Lists what its fields after the first hold. The list is lent, so that it is not moved.
    pub(crate) fn list_values(&self, values: &mut ArrayVec<Value<'a>, MOST>)
        requires empty { values.old.items ≡ [] }
        ensures held { map value_content values.new.items ≡ (said self.now).contents }
    {
        match *self {
            Event::Open {
                kind,
                window,
                fine,
                seed,
            } => {
                values.push(Value::Letter(kind));
                values.push(Value::Number(window));
                values.push(Value::Number(fine));
                values.push(Value::Number(seed));
            }
            Event::Enrol { cab } => values.push(Value::Serial(cab)),
            Event::Play { cab, t } => {
                values.push(Value::Serial(cab));
                values.push(Value::Number(t));
            }
            Event::Ask { cab, t, span } => {
                values.push(Value::Serial(cab));
                values.push(Value::Number(t));
                list_last(values, span);
            }
            Event::Range { from, to, t, span } => {
                values.push(Value::Number(from));
                values.push(Value::Number(to));
                values.push(Value::Number(t));
                list_last(values, span);
            }
            Event::List { least, t, span } => {
                values.push(Value::Number(least));
                values.push(Value::Number(t));
                list_last(values, span);
            }
        }
    }
}

// Lists the value of a last field, unless it is left out.
fn list_last(values: &mut ArrayVec<Value, MOST>, last: Option<u32>)
    requires room { length values.old.items < 4 }
    ensures held { map value_content values.new.items ≡ map value_content values.old.items ++ left_out last }
{
    if let Some(number) = last {
        values.push(Value::Number(number));
    }
}

// The number in the field at this place, if there is such a field and it holds one.
fn number_at(list: &[Field], i: usize) -> Option<u32>
    ensures held { MatchOption result (NoneAt Shape.Number (map content_of list.now) i) (λ n. StandsAt (map content_of list.now) i (Content.number n)) }
{
    let Field::Number { value, .. } = *list.get(i)? else {
        return None;
    };
    Some(value)
}

// The serial in the field at this place, if there is such a field and it holds one.
fn serial_at<'a>(list: &[Field<'a>], i: usize) -> Option<&'a [u8]>
    ensures held { MatchOption result (NoneAt Shape.Serial (map content_of list.now) i) (λ s. StandsAt (map content_of list.now) i (Content.serial s.now)) }
{
    let Field::Serial { text, .. } = *list.get(i)? else {
        return None;
    };
    Some(text)
}

// The kind in the field at this place, if there is such a field and it holds one.
fn kind_at(list: &[Field], i: usize) -> Option<Kind>
    ensures held { MatchOption result (NoneAt Shape.Letter (map content_of list.now) i) (λ k. StandsAt (map content_of list.now) i (Content.letter k)) }
{
    let Field::Letter { kind, .. } = *list.get(i)? else {
        return None;
    };
    Some(kind)
}

// The event that a word and its fields make, if the fields are those of its form. A span may be left out.
// Field by field, not by one pattern a form: tried, and the check does not see there why a pattern of several fields failed.
pub(crate) fn event_of<'a>(word: Word, list: &[Field<'a>]) -> Option<Event<'a>>
    ensures held { Filled (map content_of list.now) (names word) (length (required word)) → IsSomeAnd result (λ e. said e ≡ saying word (map content_of list.now)) }
{
    match word {
        Word::Open => Some(Event::Open {
            kind: kind_at(list, 0)?,
            window: number_at(list, 1)?,
            fine: number_at(list, 2)?,
            seed: number_at(list, 3)?,
        }),
        Word::Enrol => Some(Event::Enrol {
            cab: serial_at(list, 0)?,
        }),
        Word::Play => Some(Event::Play {
            cab: serial_at(list, 0)?,
            t: number_at(list, 1)?,
        }),
        Word::Ask => Some(Event::Ask {
            cab: serial_at(list, 0)?,
            t: number_at(list, 1)?,
            span: number_at(list, 2),
        }),
        Word::Range => Some(Event::Range {
            from: number_at(list, 0)?,
            to: number_at(list, 1)?,
            t: number_at(list, 2)?,
            span: number_at(list, 3),
        }),
        Word::List => Some(Event::List {
            least: number_at(list, 0)?,
            t: number_at(list, 1)?,
            span: number_at(list, 2),
        }),
    }
}
