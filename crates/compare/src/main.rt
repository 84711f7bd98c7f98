// One cabinet's evening: play times and questions in, each counter's answers beside the truth out.
#![tactic(auto)]

mod answer;
mod course;
mod lane;
mod script;

use course::Course;
use hall::lines::Lines;
use script::{Entry, Trouble, entry_of};
use std::alloc::Global;
use std::io::{BufWriter, Write};

const WINDOW: u32 = 3600;

const FINENESS: u8 = 2;

// Every counter there is, each on its own course. Three fields, as three known types need no list of boxes.
#[derive(Drop)]
struct Evening {
    ring: Course<ring::Ring>,
    histogram: Course<histogram::Histogram>,
    wave: Course<wave::Wave>,
    // a flag, as the courses are the same before and after the first play or question
    begun: bool,
}

impl Evening {
    fn new(heap: Global, window: u32, fineness: u8) -> Self {
        Evening {
            ring: Course::new(heap, "ring", window, fineness),
            histogram: Course::new(heap, "histogram", window, fineness),
            wave: Course::new(heap, "wave", window, fineness),
            begun: false,
        }
    }

    fn play<W: Write>(&mut self, out: &mut W, line: u64, t: u32) -> anyhow::Result<()> {
        self.begun = true;
        self.ring.play(out, line, t)?;
        self.histogram.play(out, line, t)?;
        self.wave.play(out, line, t)
    }

    fn ask<W: Write>(&mut self, out: &mut W, line: u64, t: u32, span: u32) -> anyhow::Result<()> {
        self.begun = true;
        writeln!(out, "at {t} over {span}")?;
        self.ring.ask(out, line, t, span)?;
        self.histogram.ask(out, line, t, span)?;
        self.wave.ask(out, line, t, span)
    }

    fn close<W: Write>(&self, out: &mut W) -> anyhow::Result<()> {
        writeln!(out, "the evening")?;
        self.ring.close(out)?;
        self.histogram.close(out)?;
        self.wave.close(out)
    }
}

// One line of the input.
fn step<W: Write>(
    heap: Global,
    evening: &mut Evening,
    out: &mut W,
    line: u64,
    text: &[u8],
) -> anyhow::Result<()> {
    match entry_of(text) {
        Ok(None) => {}
        Ok(Some(Entry::Settings { window, fineness })) => {
            if evening.begun {
                let trouble = Trouble::SettingsTooLate;
                writeln!(out, "line {line}: {trouble}")?;
            } else {
                *evening = Evening::new(heap, window, fineness);
            }
        }
        Ok(Some(Entry::Play { t })) => evening.play(out, line, t)?,
        Ok(Some(Entry::Ask { t, span })) => evening.ask(out, line, t, span)?,
        Err(trouble) => writeln!(out, "line {line}: {trouble}")?,
    }
    Ok(())
}

fn run(rt: &HostRuntime) -> anyhow::Result<()> {
    let heap = rt.alloc();
    let mut lines = Lines::new(heap, rt.stdin())?;
    let mut out = BufWriter::new(heap, rt.stdout())?;
    let mut evening = Evening::new(heap, WINDOW, FINENESS);
    // a count, the form for a loop that waits on input
    for _ in 0..u64::MAX {
        let Some((number, line)) = lines.next()? else {
            break;
        };
        step(heap, &mut evening, &mut out, number, line)?;
    }
    evening.close(&mut out)?;
    out.flush()?;
    Ok(())
}

fn main(rt: HostRuntime) -> anyhow::Result<()> {
    run(&rt)
}
