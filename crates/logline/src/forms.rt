// The forms of a line as data: words, the fields that follow each, and what a field holds.
ghost use Rattle.std.specs.Prelude.{◌≡◌, length, MatchOption, MatchResult, ◌≢◌};
ghost use Rattle.logline.specs.Forms.{head, names, required, label, shape_of, letter_of};

// What a line asks for: the word after `do=`.
#[derive(Clone, Copy, PartialEq, Debug)]
pub enum Word {
    Open,
    Enrol,
    Play,
    Ask,
    Range,
    List,
}

// Every word.
const WORDS: [Word; 6] = [
    Word::Open,
    Word::Enrol,
    Word::Play,
    Word::Ask,
    Word::Range,
    Word::List,
];

// The name of a field.
#[derive(Clone, Copy, PartialEq, Debug)]
pub enum Name {
    Kind,
    Window,
    Fine,
    Seed,
    Cab,
    T,
    Span,
    From,
    To,
    Least,
}

// What stands after a field's name.
#[derive(Clone, Copy, PartialEq, Debug)]
pub enum Shape {
    Number,
    Serial,
    Letter,
}

// The counters that a board can be opened with.
#[derive(Clone, Copy, PartialEq, Debug)]
pub enum Kind {
    Ring,
    Histogram,
    Wave,
}

impl Word {
    // The first field of a line with this word.
    pub(crate) fn head(self) -> &'static [u8]
        ensures bytes { result.now ≡ head self }
    {
        match self {
            Word::Open => b"do=open",
            Word::Enrol => b"do=enrol",
            Word::Play => b"do=play",
            Word::Ask => b"do=ask",
            Word::Range => b"do=range",
            Word::List => b"do=list",
        }
    }

    // The fields that follow it, in order.
    pub(crate) fn names(self) -> &'static [Name]
        ensures listed { result.now ≡ names self }
    {
        match self {
            Word::Open => &[Name::Kind, Name::Window, Name::Fine, Name::Seed],
            Word::Enrol => &[Name::Cab],
            Word::Play => &[Name::Cab, Name::T],
            Word::Ask => &[Name::Cab, Name::T, Name::Span],
            Word::Range => &[Name::From, Name::To, Name::T, Name::Span],
            Word::List => &[Name::Least, Name::T, Name::Span],
        }
    }

    // How many of them have to be there; the others may be left out at the end.
    pub(crate) fn required(self) -> usize
        ensures counted { result ≡ length (required self) }
    {
        match self {
            Word::Open => 4,
            Word::Enrol => 1,
            Word::Play => 2,
            Word::Ask => 2,
            Word::Range => 3,
            Word::List => 2,
        }
    }

    // The word that a line's first field gives.
    pub(crate) fn read(field: &[u8]) -> Option<Word>
        ensures found { MatchOption result ((w : Word) → field.now ≢ head w) (λ w. field.now ≡ head w) }
    {
        WORDS.iter().find(|word| word.head() == field).copied()
    }
}

impl Name {
    // The name with its equals sign, as it begins a field.
    pub(crate) fn label(self) -> &'static [u8]
        ensures bytes { result.now ≡ label self }
    {
        match self {
            Name::Kind => b"kind=",
            Name::Window => b"window=",
            Name::Fine => b"fine=",
            Name::Seed => b"seed=",
            Name::Cab => b"cab=",
            Name::T => b"t=",
            Name::Span => b"span=",
            Name::From => b"from=",
            Name::To => b"to=",
            Name::Least => b"least=",
        }
    }

    // What stands after it.
    pub(crate) fn shape(self) -> Shape
        ensures told { result ≡ shape_of self }
    {
        match self {
            Name::Kind => Shape::Letter,
            Name::Cab => Shape::Serial,
            _ => Shape::Number,
        }
    }
}

// A letter that stands for no kind.
#[derive(Clone, Copy, PartialEq, Debug)]
pub struct UnknownLetter(pub char);

// The letter that stands for a kind.
impl From<Kind> for char {
    ghost from_gives = { λ k letter. letter ≡ letter_of k };

    fn from(kind: Kind) -> char {
        match kind {
            Kind::Ring => 'r',
            Kind::Histogram => 'h',
            Kind::Wave => 'w',
        }
    }
}

// The kind that a letter stands for.
impl TryFrom<char> for Kind {
    ghost use Rattle.logline.specs.declared.forms.Kind.{Kind};

    type Error = UnknownLetter;

    ghost try_from_gives = { λ letter r. MatchResult r (λ k. letter ≡ letter_of k) (λ e. (e.0 ≡ letter) × ((k : Kind) → letter ≢ letter_of k)) };

    fn try_from(letter: char) -> Result<Kind, UnknownLetter> {
        match letter {
            'r' => Ok(Kind::Ring),
            'h' => Ok(Kind::Histogram),
            'w' => Ok(Kind::Wave),
            _ => Err(UnknownLetter(letter)),
        }
    }
}
