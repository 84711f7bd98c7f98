// The lines of an evening: `settings WINDOW FINENESS`, `play TIME`, `ask TIME SPAN`, a comment after `#`, or nothing.
use std::fmt;
use std::str::FromStr;

#[derive(Clone, Copy)]
pub enum Entry {
    Settings { window: u32, fineness: u8 },
    Play { t: u32 },
    Ask { t: u32, span: u32 },
}

// What is wrong with a line.
#[derive(Clone, Copy)]
pub enum Trouble {
    NotText,
    UnknownWord,
    NumberMissing,
    NotANumber,
    WordTooMany,
    SettingsTooLate,
}

impl fmt::Display for Trouble {
    fn fmt<W: fmt::Write>(&self, f: &mut fmt::Formatter<W>) -> fmt::Result {
        let text = match self {
            Trouble::NotText => "this is no UTF-8 text",
            Trouble::UnknownWord => "a line begins with settings, play, ask or #",
            Trouble::NumberMissing => "a number is missing",
            Trouble::NotANumber => "a number in range is wanted here",
            Trouble::WordTooMany => "there is a word too many",
            Trouble::SettingsTooLate => "settings stand before the first play and question",
        };
        write!(f, "{text}")
    }
}

// A number of the line, where there is one.
fn number<N: FromStr<Err: Drop>>(word: Option<&str>) -> Result<N, Trouble> {
    let digits = word.ok_or(Trouble::NumberMissing)?;
    digits.parse().map_err(|_| Trouble::NotANumber)
}

// What a line says; an empty one and a comment say nothing.
pub(crate) fn entry_of(line: &[u8]) -> Result<Option<Entry>, Trouble> {
    let text = std::str::from_utf8(line).map_err(|_| Trouble::NotText)?;
    let mut words = text.split_whitespace();
    let Some(word) = words.next() else {
        return Ok(None);
    };
    if word.starts_with('#') {
        return Ok(None);
    }
    let entry = match word {
        "settings" => Entry::Settings {
            window: number(words.next())?,
            fineness: number(words.next())?,
        },
        "play" => Entry::Play {
            t: number(words.next())?,
        },
        "ask" => Entry::Ask {
            t: number(words.next())?,
            span: number(words.next())?,
        },
        _ => return Err(Trouble::UnknownWord),
    };
    match words.next() {
        Some(_) => Err(Trouble::WordTooMany),
        None => Ok(Some(entry)),
    }
}
