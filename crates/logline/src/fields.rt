// The fields of a line, each a part of it.
ghost use Rattle.std.specs.Prelude.{◌≡◌, ◌-◌, ◌≤◌, [], ◌∷◌, length, MatchOption, ◌≢◌};
ghost use Rattle.logline.specs.Forms.{letter_of};
ghost use Rattle.logline.specs.Pieces.{NoBlank};
ghost use Rattle.logline.specs.Events as Content;
ghost use Rattle.logline.specs.Refusals.{IsField};
ghost use Rattle.logline.specs.Fields.{content_of, Found};
ghost use Rattle.logline.specs.Steps.{ReadFrom, Ends, TakenFrom};

use crate::faults::LineFault;
use crate::forms::{Kind, Name, Shape, Word};
use crate::numbers::number;
use crate::pieces::first_piece;
use arrayvec::ArrayVec;

// A line has at most this many bytes.
pub const LONGEST: usize = 96;

// A line has at most this many fields after its first.
pub const MOST: usize = 4;

// A field of a line. It borrows the bytes of its value, and `place` is that of its first byte, the first of its name.
// Both stand in each variant, so that one pattern has all that a field tells.
#[derive(Clone, Copy)]
pub enum Field<'a> {
    Number {
        place: usize,
        text: &'a [u8],
        value: u32,
    },
    Serial {
        place: usize,
        text: &'a [u8],
    },
    Letter {
        place: usize,
        text: &'a [u8],
        kind: Kind,
    },
}

// The kind whose letter is the whole text.
fn kind_of(text: &[u8]) -> Option<Kind>
    ensures found { MatchOption result ((k : Kind) → text.now ≢ letter_of k ∷ []) (λ k. text.now ≡ letter_of k ∷ []) }
{
    let [letter] = text else {
        return None;
    };
    Kind::try_from(char::from(*letter)).ok()
}

impl<'a> Field<'a> {
    // The field of this name that a piece is, if it is one.
    fn read(name: Name, place: usize, piece: &'a [u8]) -> Option<Field<'a>>
        requires { NoBlank piece.now }
        ensures found { MatchOption result (IsField name piece.now → ⊥) (λ f. ReadFrom name place piece.now f) }
    {
        let text = piece.strip_prefix(name.label())?;
        match name.shape() {
            Shape::Number => {
                let value = number(text)?;
                Some(Field::Number { place, text, value })
            }
            Shape::Serial => Some(Field::Serial { place, text }),
            Shape::Letter => {
                let kind = kind_of(text)?;
                Some(Field::Letter { place, text, kind })
            }
        }
    }
}

// An empty field, such as fills the places of a list that are not taken.
impl Default for Field<'_> {
    ghost use Rattle.logline.specs.Fields.{place_of};

    ghost is_default = { λ f. (place_of f ≡ 0) × (content_of f ≡ Content.serial []) };

    fn default() -> Self {
        Field::Serial {
            place: 0,
            text: b"",
        }
    }
}

// The place in a line of what is left of it.
fn place_of(line: &[u8], rest: &[u8]) -> usize
    requires { length rest.now ≤ length line.now }
    ensures told { result ≡ length line.now - length rest.now }
{
    line.len() - rest.len()
}

// Takes the fields of a word from what is left of a line, as long as there are names.
fn take_fields<'a>(
    line: &'a [u8],
    start: Option<&'a [u8]>,
    word: Word,
) -> Result<ArrayVec<Field<'a>, MOST>, LineFault>
    requires { Ends line.now start }
    ensures taken { TakenFrom line.now start.entry word result }
{
    let mut rest = start;
    let mut list = ArrayVec::new();
    for name in word.names() {
        let Some(bytes) = rest else {
            break;
        };
        let place = place_of(line, bytes);
        let (piece, behind) = first_piece(bytes);
        let Some(field) = Field::read(*name, place, piece) else {
            return Err(LineFault::Form { place });
        };
        list.push(field);
        rest = behind;
    }
    if let Some(bytes) = rest {
        return Err(LineFault::Form {
            place: place_of(line, bytes),
        });
    }
    if list.len() < word.required() {
        return Err(LineFault::Form { place: line.len() });
    }
    Ok(list)
}

// The word that the first field of a line gives, and the fields after it.
pub fn fields_of<'a>(line: &'a [u8]) -> Result<(Word, ArrayVec<Field<'a>, MOST>), LineFault>
    ensures found { Found line.now result }
{
    if line.len() > LONGEST {
        return Err(LineFault::Form { place: LONGEST });
    }
    let (first, rest) = first_piece(line);
    let Some(word) = Word::read(first) else {
        return Err(LineFault::Form { place: 0 });
    };
    Ok((word, take_fields(line, rest, word)?))
}
