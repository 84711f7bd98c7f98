// The pieces that a reply is made of, put into bytes one after another.
ghost use Rattle.std.specs.Prelude.{◌≡◌, ◌+◌, ◌^◌, ◌<◌, ◌≤◌, map, length, decimal};
ghost use Rattle.reply.specs.Pieces.{piece_text};
ghost use Rattle.reply.specs.Steps.{piece_of, piece_room, line_room, Unfilled, Writes, WritesLine};

use itoa::Buffer;

// A piece of a line: bytes as they stand, or a number in decimal.
#[derive(Clone, Copy)]
pub(crate) enum Piece<'a> {
    Bytes(&'a [u8]),
    Number(u64),
}

// A number of 32 bits is one in decimal.
impl From<u32> for Piece<'_> {
    ghost use Rattle.reply.specs.declared.pieces.Piece.TheVariants.{Number};

    ghost from_gives = { λ n p. p ≡ Number n };

    fn from(number: u32) -> Self {
        Piece::Number(u64::from(number))
    }
}

// A pen over lent places, and the place that it has come to.
//
// Over too few places it still goes on, without writing, so that it tells how many it wants: it measures as it writes.
#[derive(Drop)]
pub(crate) struct Pen<'a> {
    out: &'a mut [u8],
    at: usize,
}

impl<'a> Pen<'a> {
    // A pen at the first of the places.
    pub(crate) fn new(out: &'a mut [u8]) -> Pen<'a>
        ensures same { result.out.ghost_name ≡ out.entry.ghost_name }
        ensures places { result.out.now ≡ out.old }
        ensures first { result.at ≡ 0 }
    {
        Pen { out, at: 0 }
    }

    // How many bytes it has come to.
    pub(crate) fn at(&self) -> usize
        ensures told { result ≡ self.now.at }
    {
        self.at
    }

    // Puts bytes, if they still fit.
    fn put(&mut self, bytes: &[u8])
        requires fits { self.old.at + length bytes.now < 2 ^ 64 }
        ensures put { Writes self.old bytes.now self.new }
        ensures short { Unfilled self.old.out.now self.new.out.now self.new.at }
    {
        let end = self.at + bytes.len();
        let out = &mut *self.out;
        if end <= out.len() {
            out[self.at..end].copy_from_slice(bytes);
        }
        self.at = end;
    }

    // Puts a number. One digit wants no buffer, and small numbers are what replies tell most. Never
    // inlined: a line whose pieces are known where it is put is small without it, and is inlined there.
    #[inline(never)]
    fn put_number(&mut self, number: u64)
        requires fits { self.old.at + 20 < 2 ^ 64 }
        ensures put { Writes self.old (decimal number) self.new }
        ensures within { self.new.at ≤ self.old.at + 20 }
    {
        if number < 10 {
            self.put(&[b'0' + number as u8]);
        } else {
            self.put(Buffer::new().format(number).as_bytes());
        }
    }

    // Puts a piece.
    fn put_piece(&mut self, piece: Piece)
        requires fits { self.old.at + piece_room (piece_of piece) < 2 ^ 64 }
        ensures put { Writes self.old (piece_text (piece_of piece.entry)) self.new }
        ensures within { self.new.at ≤ self.old.at + piece_room (piece_of piece.entry) }
    {
        match piece {
            Piece::Bytes(bytes) => self.put(bytes),
            Piece::Number(number) => self.put_number(number),
        }
    }

    // Puts a line: its pieces, then a newline.
    pub(crate) fn put_line(&mut self, pieces: &[Piece])
        requires fits { self.old.at + line_room (map piece_of pieces.now) < 2 ^ 64 }
        ensures line { WritesLine self.old (map piece_of pieces.now) self.new }
    {
        for piece in pieces {
            self.put_piece(*piece);
        }
        self.put(b"\n");
    }
}
