// A board with all that is lent to it, and beside it the plays that it accepted.
use crate::ledger::{Entry, true_count};
use board::calls::{Answer, Call};
use board::faults::Fault;
use board::held::Board;
use board::openings::Dimensions;
use board::records::Record;
use desk::seeds::seed_words;
use listing::Listed;
use std::alloc::{AllocError, Global};
use std::io::Write;
use window::Counter;

#[derive(Drop)]
pub struct Stand<C: Counter> {
    board: Board,
    cells: Vec<C>,
    register: Vec<Record>,
    places: Vec<Listed>,
    entries: Vec<Entry>,
    refused: u32,
}

const SHAPE: Dimensions = Dimensions {
    window: 3600,
    fineness: 3,
    bits: 5,
    rows: 2,
    spread: 2,
};

// The serial of a cabinet.
fn serial_of(cabinet: u32) -> [u8; 16] {
    let mut serial = *b"HALL00000000000A";
    serial[15] = b'A' + (cabinet % 26) as u8;
    serial
}

impl<C: Counter> Stand<C> {
    // A board that is not opened yet.
    pub fn new(heap: Global) -> Result<Self, AllocError> {
        Ok(Stand {
            board: Board::closed(),
            cells: vec![in heap; C::make(1, 1); 48]?,
            register: vec![in heap; Record { serial: [0; 16] }; 32]?,
            places: vec![in heap; Listed::default(); 32]?,
            entries: Vec::new(heap),
            refused: 0,
        })
    }

    fn serve(&mut self, call: Call) -> Result<Answer, Fault> {
        self.board.serve(
            self.cells.as_mut_slice(),
            self.register.as_mut_slice(),
            self.places.as_mut_slice(),
            call,
        )
    }

    pub fn open<W: Write>(&mut self, out: &mut W) -> anyhow::Result<()> {
        let words = seed_words(8);
        let answer = self.board.open(
            SHAPE,
            &words,
            self.cells.as_mut_slice(),
            self.register.as_mut_slice(),
        );
        match answer {
            Ok(cells) => writeln!(out, "  opened with {cells} cells")?,
            Err(fault) => refused(out, "open", fault)?,
        }
        Ok(())
    }

    pub fn enrol<W: Write>(&mut self, out: &mut W, cabinet: u32) -> anyhow::Result<()> {
        let serial = serial_of(cabinet);
        match self.serve(Call::Enrol { serial: &serial }) {
            Ok(_) => Ok(()),
            Err(fault) => refused(out, "enrol", fault),
        }
    }

    // A play: an accepted one is entered in the ledger.
    pub fn play(&mut self, cabinet: u32, t: u32) -> anyhow::Result<()> {
        let serial = serial_of(cabinet);
        match self.serve(Call::Play { serial: &serial, t }) {
            Ok(_) => self.entries.push(Entry {
                key: cabinet,
                stamp: t,
            })?,
            Err(_) => self.refused = self.refused.saturating_add(1),
        }
        Ok(())
    }

    // How many plays were taken and refused so far.
    pub fn tell_plays<W: Write>(&self, out: &mut W) -> anyhow::Result<()> {
        let taken = self.board.accepted;
        let refused = self.refused;
        writeln!(out, "  {taken} plays taken, {refused} refused")?;
        Ok(())
    }

    pub fn ask<W: Write>(
        &mut self,
        out: &mut W,
        cabinet: u32,
        t: u32,
        v: u32,
    ) -> anyhow::Result<()> {
        let serial = serial_of(cabinet);
        match self.serve(Call::Ask {
            serial: &serial,
            t,
            v,
        }) {
            Ok(answer) => self.tell(out, cabinet, cabinet, answer, t, v),
            Err(fault) => refused(out, "ask", fault),
        }
    }

    pub fn range<W: Write>(
        &mut self,
        out: &mut W,
        first: u32,
        last: u32,
        t: u32,
        v: u32,
    ) -> anyhow::Result<()> {
        match self.serve(Call::Range { first, last, t, v }) {
            Ok(answer) => self.tell(out, first, last, answer, t, v),
            Err(fault) => refused(out, "range", fault),
        }
    }

    // An estimate beside the truth.
    fn tell<W: Write>(
        &self,
        out: &mut W,
        first: u32,
        last: u32,
        answer: Answer,
        t: u32,
        v: u32,
    ) -> anyhow::Result<()> {
        let truth = true_count(self.entries.as_slice(), first, last, t, v);
        if let Answer::Estimate(low, high) = answer {
            writeln!(
                out,
                "    keys {first:>2} to {last:>2}  truth {truth:>3}  low {low:>3}  high {high:>3}"
            )?;
        }
        Ok(())
    }

    // The keys that stand in the first places.
    fn tell_list<W: Write>(&self, out: &mut W, least: u32, count: u32) -> anyhow::Result<()> {
        write!(out, "    listed for {least}: {count} keys")?;
        for Listed { key, low, high } in self.places.iter().take(count as usize) {
            write!(out, ", {key} ({low} to {high})")?;
        }
        writeln!(out)?;
        Ok(())
    }

    pub fn list<W: Write>(
        &mut self,
        out: &mut W,
        least: u32,
        t: u32,
        v: u32,
    ) -> anyhow::Result<()> {
        match self.serve(Call::List { least, t, v }) {
            Ok(Answer::Count(count)) => self.tell_list(out, least, count),
            Ok(_) => Ok(()),
            Err(fault) => refused(out, "list", fault),
        }
    }
}

// A refusal, by its number.
fn refused<W: Write>(out: &mut W, call: &str, fault: Fault) -> anyhow::Result<()> {
    let number = fault.number();
    writeln!(out, "  {call} refused with {number}")?;
    Ok(())
}
