// What a board answers to a line, put into bytes line by line.
ghost use Rattle.std.specs.Prelude.{◌≡◌, ◌+◌, ◌^◌, ◌<◌, ◌≤◌, map};
ghost use Rattle.std.specs.List.{flat_map};
ghost use Rattle.reply.specs.Faults as Told;
ghost use Rattle.reply.specs.Pieces.{line_text};
ghost use Rattle.reply.specs.Replies.{head, cabinet_line, cabinet_with, cabinet_of, refused, said, text};
ghost use Rattle.reply.specs.Writing.{Tellable, Known, Brief};
ghost use Rattle.reply.specs.Steps.{Puts, Writes, WritesLine};

use crate::faults::DeskFault;
use crate::pieces::{Pen, Piece};
use board::faults::Fault;
use board::records::Record;
use listing::Listed;
use logline::LineFault;
use sketch::faults::CellFault;
use window::CounterFault;

// A reply: what is written, so a refusal is one too, and no error. A list borrows the register, for the serials, and the places where the listed keys stand.
#[derive(Clone, Copy)]
pub enum Reply<'a> {
    Cells(u32),
    Key(u32),
    Taken(u32),
    Pair(u64, u64),
    List {
        register: &'a [Record],
        listed: &'a [Listed],
    },
    No(DeskFault),
}

// Puts the line of a refusal by a cell: for a full one its level and row, and the stamp that it refused.
fn put_cell(pen: &mut Pen, cell: CellFault)
    requires first { pen.old.at ≡ 0 }
    ensures head { WritesLine pen.old (head (refused (Told.number (DeskFault.Board (Fault.Cell cell))) (Told.values (DeskFault.Board (Fault.Cell cell))))) pen.new }
{
    let no = Piece::Bytes(b"no=");
    let number = Piece::from(u32::from(cell.fault.number()));
    match cell.fault {
        CounterFault::Full => pen.put_line(&[
            no,
            number,
            Piece::Bytes(b" level="),
            Piece::from(cell.level),
            Piece::Bytes(b" row="),
            Piece::from(cell.row),
            Piece::Bytes(b" t="),
            Piece::from(cell.stamp),
        ]),
        _ => pen.put_line(&[no, number]),
    }
}

// Puts the line of a refusal: its number, and for a line of no form the place.
fn put_refusal(pen: &mut Pen, fault: DeskFault)
    requires first { pen.old.at ≡ 0 }
    ensures head { WritesLine pen.old (head (refused (Told.number fault) (Told.values fault))) pen.new }
{
    let no = Piece::Bytes(b"no=");
    let number = Piece::from(fault.number());
    match fault {
        DeskFault::Board(Fault::Cell(cell)) => put_cell(pen, cell),
        DeskFault::Line(LineFault::Form { place }) => pen.put_line(&[
            no,
            number,
            Piece::Bytes(b" place="),
            Piece::Number(place as u64),
        ]),
        _ => pen.put_line(&[no, number]),
    }
}

// Puts the first line of a reply: at the first place, so that no length can pass the largest number.
fn put_head(pen: &mut Pen, reply: &Reply)
    requires first { pen.old.at ≡ 0 }
    ensures head { WritesLine pen.old (head (said reply.now)) pen.new }
{
    match *reply {
        Reply::Cells(cells) => pen.put_line(&[Piece::Bytes(b"ok cells="), Piece::from(cells)]),
        Reply::Key(key) => pen.put_line(&[Piece::Bytes(b"ok key="), Piece::from(key)]),
        Reply::Taken(taken) => pen.put_line(&[Piece::Bytes(b"ok taken="), Piece::from(taken)]),
        Reply::Pair(low, high) => pen.put_line(&[
            Piece::Bytes(b"ok low="),
            Piece::Number(low),
            Piece::Bytes(b" high="),
            Piece::Number(high),
        ]),
        Reply::List { listed, .. } => pen.put_line(&[
            Piece::Bytes(b"ok count="),
            Piece::Number(listed.len() as u64),
        ]),
        Reply::No(fault) => put_refusal(pen, fault),
    }
}

// Puts the line of a listed cabinet.
fn put_cabinet(pen: &mut Pen, record: &Record, listed: Listed)
    requires fits { pen.old.at + 72 < 2 ^ 64 }
    ensures put { Writes pen.old (line_text (cabinet_line (cabinet_with «record».now.serial listed))) pen.new }
    ensures within { pen.new.at ≤ pen.old.at + 72 }
{
    pen.put_line(&[
        Piece::Bytes(b"cab="),
        Piece::Bytes(&record.serial),
        Piece::Bytes(b" low="),
        Piece::from(listed.low),
        Piece::Bytes(b" high="),
        Piece::from(listed.high),
    ]);
}

// Puts a line for each listed cabinet, one after another.
fn put_cabinets(pen: &mut Pen, register: &[Record], listed: &[Listed])
    requires fits { pen.old.at ≤ 99 }
    requires known { Known register.now listed.now }
    ensures put { Writes pen.old (flat_map line_text (map cabinet_line (map (cabinet_of register.now) listed.now))) pen.new }
{
    for one in listed {
        put_cabinet(pen, &register[one.key as usize], *one);
    }
}

// Puts a reply, and gives how many bytes it has.
pub(crate) fn put_reply(out: &mut [u8], reply: &Reply) -> usize
    requires tellable { Tellable reply.now }
    ensures put { Puts out.old 0 (text (said reply.now)) out.new result }
    ensures brief { Brief (said reply.now) }
{
    let mut pen = Pen::new(out);
    put_head(&mut pen, reply);
    if let Reply::List { register, listed } = *reply {
        put_cabinets(&mut pen, register, listed);
    }
    pen.at()
}
