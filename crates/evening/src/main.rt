// An evening in a hall of six cabinets: all calls of a board, over each counter, beside the truth.
#![tactic(auto)]

mod ledger;
mod stand;

use histogram::Histogram;
use ring::Ring;
use stand::Stand;
use std::io::{BufWriter, Write};
use wave::Wave;
use window::Counter;

const CABINETS: u32 = 6;

const PLAYS: u32 = 900;

// The cabinet of a play, drawn so that the first ones are the busier ones.
fn drawn_cabinet(x: u32) -> u32 {
    let a = (x >> 8) % CABINETS;
    let b = (x >> 16) % CABINETS;
    a.min(b)
}

// An evening: opening, enrolments, plays a few seconds apart, and questions at half time and at the end.
// One enrolment is made twice, and the last play comes too late: both are refused.
fn spend<C: Counter, W: Write>(
    out: &mut W,
    name: &str,
    stand: &mut Stand<C>,
) -> anyhow::Result<()> {
    writeln!(out, "{name}")?;
    stand.open(out)?;
    for cabinet in 0..CABINETS {
        stand.enrol(out, cabinet)?;
    }
    stand.enrol(out, 2)?;
    let mut x: u32 = 1;
    let mut t: u32 = 1000;
    for n in 0..PLAYS {
        x = x.wrapping_mul(1_664_525).wrapping_add(1_013_904_223);
        t = t.saturating_add((x >> 24) % 31);
        stand.play(drawn_cabinet(x), t)?;
        if n == PLAYS / 2 {
            question(out, stand, t, 1800)?;
        }
    }
    stand.play(0, 999)?;
    question(out, stand, t, 3600)
}

// Every question at one time: each cabinet, two ranges, and a list.
fn question<C: Counter, W: Write>(
    out: &mut W,
    stand: &mut Stand<C>,
    t: u32,
    v: u32,
) -> anyhow::Result<()> {
    stand.tell_plays(out)?;
    writeln!(out, "  at {t} over {v}")?;
    for cabinet in 0..CABINETS {
        stand.ask(out, cabinet, t, v)?;
    }
    stand.range(out, 0, 31, t, v)?;
    stand.range(out, 1, 4, t, v)?;
    stand.list(out, 60, t, v)
}

fn main(rt: HostRuntime) -> anyhow::Result<()> {
    let heap = rt.alloc();
    let mut out = BufWriter::new(heap, rt.stdout())?;
    spend(&mut out, "ring", &mut Stand::<Ring>::new(heap)?)?;
    spend(&mut out, "histogram", &mut Stand::<Histogram>::new(heap)?)?;
    spend(&mut out, "wave", &mut Stand::<Wave>::new(heap)?)?;
    out.flush()?;
    Ok(())
}
