// Lines of any bytes, read one by one. Empty ones are passed over.
ghost use Rattle.std.specs.Prelude.{◌≡◌};
ghost use Rattle.hall.specs.Lines.{without_newline};

use std::alloc::Global;
use std::io::{BufRead, BufReader, Read, Result};

// The bytes of a line without the newline at its end, where it has one.
pub fn without_newline<'a>(bytes: &'a [u8]) -> &'a [u8]
    ensures cut { result.now ≡ without_newline bytes.now }
{
    match bytes {
        [front @ .., b'\n'] => front,
        _ => bytes,
    }
}

#[derive(Drop)]
pub struct Lines<R: Read + Drop> {
    input: BufReader<R>,
    held: Vec<u8>,
    // how many lines were read, the empty ones too
    pub number: u64,
}

impl<R: Read + Drop> Lines<R> {
    pub fn new(heap: Global, input: R) -> Result<Self> {
        Ok(Lines {
            input: BufReader::new(heap, input)?,
            held: Vec::new(heap),
            number: 0,
        })
    }

    // Reads the next line that has bytes: its number, and the line without its newline. None where the input ends before.
    pub fn next(&mut self) -> Result<Option<(u64, &[u8])>> {
        // a count, the form for a loop that waits on input
        for _ in 0..u64::MAX {
            self.held.clear();
            if self.input.read_until(b'\n', &mut self.held)? == 0 {
                return Ok(None);
            }
            self.number = self.number.saturating_add(1);
            if !self.line().is_empty() {
                return Ok(Some((self.number, self.line())));
            }
        }
        Ok(None)
    }

    // The line read last, without its newline.
    pub fn line(&self) -> &[u8] {
        without_newline(self.held.as_slice())
    }

    // Whether the next line may have to be waited for: it is not whole in the buffer.
    pub fn may_wait(&self) -> bool {
        !self.input.buffer().contains(&b'\n')
    }
}
