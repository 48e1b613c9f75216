// Replay: the records of a trace file are taken one by one on the machine of a program file; the first refusal ends it.
#![tactic(auto)]

ghost use Rattle.std.specs.Prelude.{◌≡◌, List, ℕ, ◌*◌};
ghost use Rattle.program.specs.File.{refused};
ghost use Rattle.machine.specs.Inner.{Formed};
ghost use Rattle.trace_replay.specs.Replay.{ended, broken, replay_from};
ghost use Rattle.trace_replay.specs.Answers.{replayed, on_program, refused_with, replay};

use file_reader::read;
use machine::Machine;
use machine::machines::fresh;
use program::{Program, Refusal, Refused};
use step::rule_step;
use step_ending::{asked, complete};
use trace_record::{marked_at, step_at};

// A refusal in either file; in the trace with the index of its record, from 0.
#[derive(Clone, Copy)]
pub enum ReplayRefusal {
    Program(Refused),
    Trace(Refused, usize),
}

// The steps taken and the machine after them, also where a later record is refused; whether it is complete, and complete with the asked outcome.
#[derive(Clone, Copy)]
pub struct Replayed {
    pub answer: Result<(), ReplayRefusal>,
    pub program: Program,
    pub steps: usize,
    pub machine: Machine,
    pub complete: bool,
    pub holds: bool,
}

fn finished(p: Program, n: usize, x: Machine) -> Replayed
    requires { Formed p x }
    ensures { result ≡ replayed p (ended n x) }
{
    Replayed {
        answer: Ok(()),
        program: p,
        steps: n,
        machine: x,
        complete: complete(p, x),
        holds: asked(p, x),
    }
}

// A refusal in either file: both yes-or-no answers are no.
fn refused_with(refusal: ReplayRefusal, p: Program, n: usize, x: Machine) -> Replayed
    ensures { result ≡ refused_with refusal p n x }
{
    Replayed {
        answer: Err(refusal),
        program: p,
        steps: n,
        machine: x,
        complete: false,
        holds: false,
    }
}

// The record after n steps is refused, at its place.
fn stopped(p: Program, e: Refused, n: usize, x: Machine) -> Replayed
    requires { e.place ≡ 6 * n }
    ensures { result ≡ replayed p (broken e.refusal n x) }
{
    refused_with(ReplayRefusal::Trace(e, n), p, n, x)
}

// Whole records are taken one by one, the first on the machine `start`; then the trace may end inside another.
fn replay_from(p: Program, start: Machine, trace: &[u8]) -> Replayed
    requires { Formed p start }
    ensures { result ≡ replayed p (replay_from p 0 start trace.now) }
{
    let records = trace.len() / 6;
    let mut x = start;
    for n in 0..records {
        let at = 6 * n;
        if !marked_at(trace, at) {
            return stopped(p, Refusal::OtherMark.at(at), n, x);
        }
        match rule_step(p, x, step_at(trace, at)) {
            Ok(y) => x = y,
            Err(refusal) => return stopped(p, refusal.at(at), n, x),
        }
    }
    if trace.len() % 6 != 0 {
        return stopped(p, Refusal::InputEnds.at(6 * records), records, x);
    }
    finished(p, records, x)
}

fn no_program(e: Refused) -> Replayed
    ensures { (t : List ℕ) → result ≡ on_program (refused e.refusal e.place) t }
{
    refused_with(ReplayRefusal::Program(e), Program::default(), 0, fresh())
}

pub fn replay(file: &[u8], trace: &[u8]) -> Replayed
    ensures { result ≡ replay file.now trace.now }
{
    match read(file) {
        Ok(p) => replay_from(p, fresh(), trace),
        Err(e) => no_program(e),
    }
}
