// Replays traces, and prints a line for each: its name; `good`, or the file that is refused; the refusal's number, index and place;
// the steps taken; whether the machine is complete, and whether it is so with the asked outcome; the state after the steps.
//
// A row of standard input has a name and the bytes of a trace of the program that the lines with = and + above it give.
#![tactic(auto)]

use cases_rows::file::File;
use cases_rows::row::{Row, Rows};
use cases_rows::show::State;
use cases_rows::{input, unread};
use std::io;
use trace_replay::{ReplayRefusal, replay};

fn yes_or_no(b: bool) -> &'static str {
    if b { "yes" } else { "no" }
}

fn replayed(rt: &impl Print, name: &[u8], file: &[u8], trace: &[u8]) -> io::Result<()> {
    let r = replay(file, trace);
    let (said, refusal, index, place) = match r.answer {
        Ok(()) => ("good", 0, 0, 0),
        Err(ReplayRefusal::Program(e)) => ("program", e.refusal.number(), 0, e.place),
        Err(ReplayRefusal::Trace(e, index)) => ("trace", e.refusal.number(), index, e.place),
    };
    let steps = r.steps;
    let complete = yes_or_no(r.complete);
    let holds = yes_or_no(r.holds);
    let after = State(r.machine);
    rt.write_all(name)?;
    println!(rt; " {said} {refusal} {index} {place} {steps} {complete} {holds}{after}")
}

fn row(rt: &impl Print, r: Row) -> io::Result<()> {
    let trace = File::none().add(r.says);
    match (r.file.readable(), trace.readable()) {
        (Some(file), Some(trace)) => replayed(rt, r.name, file, trace),
        _ => unread(rt, r.name),
    }
}

fn main(rt: HostRuntime) -> io::Result<()> {
    let mut buffer = [0u8; 65536];
    let n = input(&rt, &mut buffer)?;
    for r in Rows::of(&buffer[..n]) {
        row(&rt, r)?;
    }
    Ok(())
}
