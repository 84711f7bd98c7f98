// Answers each line of the input: what it says, the places of its fields and the line written again, or why it is refused.
#![tactic(auto)]

use hall::lines::without_newline;
use logline::{Event, Field, LONGEST, LineFault, fields_of, read, write};
use std::alloc::{AllocError, Global};
use std::io::{BufRead, BufReader, BufWriter, Write};

// What an event says, value by value; of a serial, how many bytes it has.
fn described(heap: Global, event: Event) -> Result<String, AllocError> {
    match event {
        Event::Open {
            kind,
            window,
            fine,
            seed,
        } => {
            let letter = char::from(kind);
            format!(in heap; "open {letter} {window} {fine} {seed}")
        }
        Event::Enrol { cab } => {
            let long = cab.len();
            format!(in heap; "enrol of {long}")
        }
        Event::Play { cab, t } => {
            let long = cab.len();
            format!(in heap; "play of {long} at {t}")
        }
        Event::Ask { cab, t, span } => {
            let long = cab.len();
            format!(in heap; "ask of {long} at {t} over {span:?}")
        }
        Event::Range { from, to, t, span } => format!(in heap;
            "range {from} to {to} at {t} over {span:?}"
        ),
        Event::List { least, t, span } => format!(in heap; "list {least} at {t} over {span:?}"),
    }
}

// The place of a field, and how many bytes its value has.
fn place_and_length(field: &Field) -> (usize, usize) {
    match *field {
        Field::Number { place, text, .. }
        | Field::Serial { place, text }
        | Field::Letter { place, text, .. } => (place, text.len()),
    }
}

// The places of the fields of a line.
fn places(heap: Global, line: &[u8]) -> Result<String, AllocError> {
    let mut text = String::new(heap);
    if let Ok((_, list)) = fields_of(line) {
        for field in list.as_slice() {
            let (place, long) = place_and_length(field);
            text.push_str(format!(in heap; " {place}+{long}")?.as_str())?;
        }
    }
    Ok(text)
}

// Why a line or an event is refused.
fn refused(heap: Global, fault: LineFault) -> Result<String, AllocError> {
    let number = fault.number();
    match fault {
        LineFault::Room { needed } => format!(in heap; "no={number} needed={needed}"),
        LineFault::Form { place } => format!(in heap; "no={number} place={place}"),
    }
}

// What a line is answered: two lines for one that is read, else one.
fn answer(heap: Global, line: &[u8]) -> Result<Vec<u8>, AllocError> {
    let mut reply = Vec::new(heap);
    match read(line) {
        Err(fault) => reply.extend_from_slice(refused(heap, fault)?.as_bytes())?,
        Ok(event) => {
            reply.extend_from_slice(described(heap, event)?.as_bytes())?;
            reply.extend_from_slice(places(heap, line)?.as_bytes())?;
            reply.extend_from_slice(b"\n")?;
            reply.extend_from_slice(written(heap, event)?.as_slice())?;
        }
    }
    reply.extend_from_slice(b"\n")?;
    Ok(reply)
}

// The line that is written again, with the places behind it cut off.
fn written(heap: Global, event: Event) -> Result<Vec<u8>, AllocError> {
    let mut out = vec![in heap; b'.'; LONGEST]?;
    match write(&event, out.as_mut_slice()) {
        Ok(n) => out.truncate(n),
        Err(fault) => {
            let mut reply = Vec::from_slice(heap, refused(heap, fault)?.as_bytes())?;
            reply.extend_from_slice(out.as_slice())?;
            return Ok(reply);
        }
    }
    Ok(out)
}

// What writing into so many places answers, and what every place then holds.
fn trial(heap: Global, event: Event, places: usize) -> Result<Vec<u8>, AllocError> {
    let mut out = vec![in heap; b'.'; places]?;
    let told = match write(&event, out.as_mut_slice()) {
        Ok(n) => format!(in heap; "length={n}")?,
        Err(fault) => refused(heap, fault)?,
    };
    let mut reply = Vec::from_slice(heap, told.as_bytes())?;
    reply.extend_from_slice(b"\n")?;
    reply.extend_from_slice(out.as_slice())?;
    reply.extend_from_slice(b"\n")?;
    Ok(reply)
}

// Events written into more, enough and too few places, with a blank in the serial, and too long by one byte.
fn trials(heap: Global) -> Result<Vec<u8>, AllocError> {
    let mut reply = Vec::new(heap);
    let long = [b'A'; 84];
    let one = Event::Enrol { cab: b"A" };
    let blank = Event::Play { cab: b"A B", t: 1 };
    for places in [0, 95, 96, 97] {
        reply.extend_from_slice(trial(heap, one, places)?.as_slice())?;
        reply.extend_from_slice(trial(heap, blank, places)?.as_slice())?;
    }
    for length in [83, 84] {
        let event = Event::Enrol {
            cab: &long[..length],
        };
        reply.extend_from_slice(trial(heap, event, 96)?.as_slice())?;
    }
    Ok(reply)
}

// Answers the lines of the input, and then tries to write events.
fn run(rt: &HostRuntime) -> anyhow::Result<()> {
    let heap = rt.alloc();
    let mut input = BufReader::new(heap, rt.stdin())?;
    let mut output = BufWriter::new(heap, rt.stdout())?;
    let mut bytes = Vec::new(heap);
    // A count, since a loop that waits on input has no other end: the lines end first.
    for _ in 0..u64::MAX {
        bytes.clear();
        if input.read_until(b'\n', &mut bytes)? == 0 {
            break;
        }
        output.write_all(answer(heap, without_newline(bytes.as_slice()))?.as_slice())?;
    }
    output.write_all(trials(heap)?.as_slice())?;
    output.flush()?;
    Ok(())
}

fn main(rt: HostRuntime) -> anyhow::Result<()> {
    run(&rt)
}
