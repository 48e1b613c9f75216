// How long the calls take: each is made many times over, never twice on the same value. A sum of the answers goes to standard output,
// the processor time to standard error.
#![tactic(auto)]

ghost use Rattle.std.specs.Prelude.{◌≡◌, length};

use certify::certify;
use file_reader::read;
use machine::Machine;
use machine::machines::fresh;
use program::Program;
use std::io;
use std::time::{CpuClock, Duration};
use step::{TraceStep, step};

// The processor time used so far; 0 where it cannot be had.
fn used(rt: &impl CpuClock) -> Duration {
    rt.process_cpu_time().unwrap_or(Duration::ZERO)
}

fn report(
    rt: &(impl CpuClock + Print + Eprint),
    name: &str,
    calls: u64,
    sum: u64,
    before: Duration,
) -> io::Result<()> {
    let spent = used(rt).saturating_sub(before).as_micros();
    println!(rt; "{name} {sum}")?;
    eprintln!(rt; "{name}: {calls} calls, {spent} microseconds")
}

// ---- reading: the longest good file, with another value in its last condition each time
fn longest_file() -> [u8; 647]
    ensures { length result ≡ 647 }
{
    *b"\
        PG\x01\x04\
        TH\x00\x10IN\x01\x01\x00\x00\x00\x01\x02IN\x00\x02\x01\x01\x03\x01\x03IN\x04\x01\x00\x00\x00\x00\x00IN\x02\x00\x00\x00\x00\x00\x03\
        IN\x01\x01\x04\x00\x00\x01\x02IN\x00\x02\x05\x01\x03\x01\x03IN\x04\x01\x00\x00\x00\x00\x00IN\x02\x00\x00\x00\x00\x00\x07\
        IN\x01\x01\x00\x00\x00\x01\x02IN\x00\x02\x01\x01\x03\x01\x03IN\x04\x01\x00\x00\x00\x00\x00IN\x02\x00\x00\x00\x00\x00\x0b\
        IN\x01\x01\x04\x00\x00\x01\x02IN\x00\x02\x05\x01\x03\x01\x03IN\x04\x01\x00\x00\x00\x00\x00IN\x02\x00\x00\x00\x00\x00\x0f\
        TH\x01\x10IN\x01\x01\x00\x00\x01\x01\x02IN\x00\x02\x01\x01\x03\x01\x03IN\x04\x01\x00\x00\x00\x00\x00IN\x02\x00\x00\x00\x01\x00\x03\
        IN\x01\x01\x04\x00\x01\x01\x02IN\x00\x02\x05\x01\x03\x01\x03IN\x04\x01\x00\x00\x00\x00\x00IN\x02\x00\x00\x00\x01\x00\x07\
        IN\x01\x01\x00\x00\x01\x01\x02IN\x00\x02\x01\x01\x03\x01\x03IN\x04\x01\x00\x00\x00\x00\x00IN\x02\x00\x00\x00\x01\x00\x0b\
        IN\x01\x01\x04\x00\x01\x01\x02IN\x00\x02\x05\x01\x03\x01\x03IN\x04\x01\x00\x00\x00\x00\x00IN\x02\x00\x00\x00\x01\x00\x0f\
        TH\x02\x10IN\x01\x01\x00\x00\x02\x01\x02IN\x00\x02\x01\x01\x03\x01\x03IN\x04\x01\x00\x00\x00\x00\x00IN\x02\x00\x00\x00\x02\x00\x03\
        IN\x01\x01\x04\x00\x02\x01\x02IN\x00\x02\x05\x01\x03\x01\x03IN\x04\x01\x00\x00\x00\x00\x00IN\x02\x00\x00\x00\x02\x00\x07\
        IN\x01\x01\x00\x00\x02\x01\x02IN\x00\x02\x01\x01\x03\x01\x03IN\x04\x01\x00\x00\x00\x00\x00IN\x02\x00\x00\x00\x02\x00\x0b\
        IN\x01\x01\x04\x00\x02\x01\x02IN\x00\x02\x05\x01\x03\x01\x03IN\x04\x01\x00\x00\x00\x00\x00IN\x02\x00\x00\x00\x02\x00\x0f\
        TH\x03\x10IN\x01\x01\x00\x00\x03\x01\x02IN\x00\x02\x01\x01\x03\x01\x03IN\x04\x01\x00\x00\x00\x00\x00IN\x02\x00\x00\x00\x03\x00\x03\
        IN\x01\x01\x04\x00\x03\x01\x02IN\x00\x02\x05\x01\x03\x01\x03IN\x04\x01\x00\x00\x00\x00\x00IN\x02\x00\x00\x00\x03\x00\x07\
        IN\x01\x01\x00\x00\x03\x01\x02IN\x00\x02\x01\x01\x03\x01\x03IN\x04\x01\x00\x00\x00\x00\x00IN\x02\x00\x00\x00\x03\x00\x0b\
        IN\x01\x01\x04\x00\x03\x01\x02IN\x00\x02\x05\x01\x03\x01\x03IN\x04\x01\x00\x00\x00\x00\x00IN\x02\x00\x00\x00\x03\x00\x0f\
        QU\x08CN\x00\x00\x00\x00CN\x00\x01\x01\x00CN\x00\x02\x02\x00CN\x00\x03\x03\x00CN\x00\x00\x04\x00CN\x00\x01\x05\x00\
        CN\x00\x02\x06\x00CN\x00\x03\x07\x00\
    "
}

fn readings(rt: &(impl CpuClock + Print + Eprint), calls: u64) -> io::Result<()> {
    let before = used(rt);
    let mut file = longest_file();
    let mut sum = 0u64;
    for i in 0..calls {
        file[646] = (i % 256) as u8;
        let p = read(&file).unwrap_or_default();
        sum = sum.wrapping_add(u64::from(p.question[7].value));
    }
    report(rt, "read", calls, sum, before)
}

// ---- steps: store buffering, both threads from the start to the end, with another value in a register each time
fn store_buffering() -> Program {
    read(
        b"PG\x01\x02\
        TH\x00\x02IN\x02\x00\x00\x00\x00\x00\x01IN\x01\x00\x00\x00\x01\x00\x00\
        TH\x01\x02IN\x02\x00\x00\x00\x01\x00\x01IN\x01\x00\x00\x00\x00\x00\x00\
        QU\x00",
    )
    .unwrap_or_default()
}

fn with_value(x: Machine, i: u64) -> Machine {
    let s = x.thread_of(0);
    x.moved(0, x.memory, s.with_register(7, (i % 256) as u8, 0))
}

fn promise(thread: u8, a: u8, b: u8) -> TraceStep {
    TraceStep {
        kind: 1,
        thread,
        a,
        b,
    }
}

fn execute(thread: u8, a: u8) -> TraceStep {
    TraceStep {
        kind: 0,
        thread,
        a,
        b: 0,
    }
}

fn run(p: Program, mut x: Machine, all: &[TraceStep]) -> Machine {
    for k in all {
        x = step(p, x, *k).unwrap_or(x);
    }
    x
}

// Six steps are accepted.
fn one_run(p: Program, x: Machine) -> Machine {
    let first = [promise(0, 0, 1), execute(0, 1), execute(0, 0)];
    let second = [promise(1, 1, 1), execute(1, 2), execute(1, 0)];
    run(p, run(p, x, &first), &second)
}

fn steps(rt: &(impl CpuClock + Print + Eprint), runs: u64) -> io::Result<()> {
    let before = used(rt);
    let p = store_buffering();
    let mut sum = 0u64;
    for i in 0..runs {
        let x = one_run(p, with_value(fresh(), i));
        sum = sum.wrapping_add(u64::from(x.memory.count) + u64::from(x.threads[1].position));
    }
    report(rt, "six steps", runs, sum, before)
}

// ---- certification: a load before the promised store, with another value in a register each time
fn load_buffering() -> Program {
    read(
        b"PG\x01\x02\
        TH\x00\x02IN\x01\x00\x00\x00\x01\x00\x00IN\x02\x00\x00\x00\x00\x00\x01\
        TH\x01\x02IN\x01\x00\x00\x00\x00\x00\x00IN\x02\x00\x00\x00\x01\x00\x01\
        QU\x00",
    )
    .unwrap_or_default()
}

fn certifications(rt: &(impl CpuClock + Print + Eprint), calls: u64) -> io::Result<()> {
    let before = used(rt);
    let p = load_buffering();
    let x = run(p, fresh(), &[promise(0, 0, 1), promise(1, 1, 1)]);
    let mut sum = 0u64;
    for i in 0..calls {
        let n = match certify(p, with_value(x, i), 0) {
            Ok(Some(_)) => 1,
            Ok(None) => 0,
            Err(refusal) => refusal.number(),
        };
        sum = sum.wrapping_add(u64::from(n));
    }
    report(rt, "certify", calls, sum, before)
}

fn main(rt: HostRuntime) -> io::Result<()> {
    readings(&rt, 100000)?;
    steps(&rt, 100000)?;
    certifications(&rt, 100000)
}
