// The next steps of one thread that are worth a try, by their number: 0 to 16 execute at that time, from 17 on promise
// location l with value v as 17 + 256 · l + v.
#![tactic(auto)]

pub mod threads;

ghost use Rattle.std.specs.Prelude.{◌≡◌, ◌+◌, ◌≤◌, ◌<◌};
ghost use Rattle.std.proofs.Math.Option.{some};
ghost use Rattle.program.specs.Program.{instr_at};
ghost use Rattle.machine.specs.Rules.{next, execute};
ghost use Rattle.step.specs.Inner.{Settles, Executes, Moves};
ghost use Rattle.step.specs.Order.{execution, promise};
ghost use Rattle.certify_runs.specs.Inner.{Ready, Sound};
ghost use Rattle.search_tries.specs.Steps.{step_numbered, NextStep, Numbered};
ghost use Rattle.search_tries.specs.Worthwhile.{Worth, Narrowed, NextTime, Foreseen, Keepable};

use certify::reach::search_runs;
use certify_ahead::fewer_stores;
use certify_cares::Cares;
use certify_sought::Sought;
use certify_vain::passed_over;
use machine::promises::is_empty;
use machine::{Memory, Thread};
use program::{Code, Instr, Refusal};
use rules::execute;
use rules::operands::{address_of_sum, value_of};
use rules_times::{after, at_zero, later_times};
use search_promises::next_reached;
use step::{TraceStep, promise_kept};

// What is worth a try of a thread: its next instruction at time 0 and at the times of a set, and promises.
#[derive(Clone, Copy)]
pub struct Attempts {
    pub zero: bool,
    pub later: u16,
    pub promises: bool,
}

// The next number that is worth a try, and the one after it if that is known already, else 0: an exploration may find two promises at once.
#[derive(Clone, Copy)]
pub struct Ahead {
    pub next: u16,
    pub then: u16,
}

// A step tried of one thread: its next state, or why it is refused; and what is worth a try of it then.
#[derive(Clone, Copy)]
pub struct Attempted {
    pub moved: Result<Thread, Refusal>,
    pub left: Attempts,
}

fn execution(i: u8, t: u8) -> TraceStep
    ensures { result ≡ execution i t }
{
    TraceStep {
        kind: 0,
        thread: i,
        a: t,
        b: 0,
    }
}

fn promise(i: u8, l: u8, v: u8) -> TraceStep
    ensures { result ≡ promise i l v }
{
    TraceStep {
        kind: 1,
        thread: i,
        a: l,
        b: v,
    }
}

pub fn step_at(i: u8, k: u16) -> TraceStep
    requires { k < 4113 }
    ensures { result ≡ step_numbered i k }
{
    if k < 17 {
        return execution(i, k as u8);
    }
    let n = k - 17;
    promise(i, (n / 256) as u8, (n % 256) as u8)
}

// What is worth a try of a thread with the next instruction x: time 0, later times, and promises unless each store that is left
// has one.
pub fn tries_of(x: Instr, c: Code, m: Memory, s: Thread) -> Attempts
    requires { Ready c m s × (instr_at c s.position ≡ some x) }
    ensures { Worth c m s result }
{
    Attempts {
        zero: at_zero(x),
        later: later_times(x, m, s),
        promises: !fewer_stores(c, s.position, u16::count_ones(s.promises) + 1),
    }
}

fn next_time(t: Attempts, from: u8) -> u8
    requires { from ≤ 17 }
    ensures { NextTime t from result }
{
    if from == 0 {
        if t.zero {
            return 0;
        }
        return after(t.later, 0);
    }
    after(t.later, from - 1)
}

// The next promises that are worth a try, from the promise 256 · l + v on: those that a run of the thread alone could keep. With 16
// messages there is no room for one.
fn next_promises(t: Attempts, c: Code, m: Memory, s: Thread, from: u16) -> Ahead
    requires { Ready c m s × Worth c m s t }
    ensures { NextStep step_numbered 4113 c m s (from + 17) result.next × Foreseen c m s result }
{
    if !t.promises {
        return Ahead {
            next: 4113,
            then: 0,
        };
    }
    if 16 <= m.count {
        return Ahead {
            next: 4113,
            then: 0,
        };
    }
    let met = next_reached(c, m, s, from);
    let next = met.least + 17;
    if met.second == 0 {
        return Ahead {
            next: next,
            then: 0,
        };
    }
    Ahead {
        next: next,
        then: met.second + 17,
    }
}

// The next step that is worth a try.
pub fn next_try(t: Attempts, c: Code, m: Memory, s: Thread, from: u16) -> Ahead
    requires { Ready c m s × Worth c m s t }
    ensures { NextStep step_numbered 4113 c m s from result.next × Foreseen c m s result }
{
    if 17 <= from {
        return next_promises(t, c, m, s, from - 17);
    }
    let k = next_time(t, from as u8);
    if k < 17 {
        return Ahead {
            next: k as u16,
            then: 0,
        };
    }
    next_promises(t, c, m, s, 0)
}

// The step after k .next that is worth a try.
pub fn after_try(t: Attempts, c: Code, m: Memory, s: Thread, k: Ahead) -> Ahead
    requires { Ready c m s × (Worth c m s t × (Foreseen c m s k × (k.next < 4113))) }
    ensures { NextStep step_numbered 4113 c m s (k.next + 1) result.next × Foreseen c m s result }
{
    if k.then != 0 {
        return Ahead {
            next: k.then,
            then: 0,
        };
    }
    next_try(t, c, m, s, k.next + 1)
}

// What is left to try where the thread is not certified after x at a time: for a load, times that are no better would leave it so too, and
// each would be certified in vain. Of another instruction nothing is known.
fn narrowed(t: Attempts, x: Instr, m: Memory, s: Thread, time: u8, k: Cares) -> Attempts
    requires { time ≤ 16 }
    ensures { Narrowed t x m s time k.of result }
{
    match x {
        Instr::Load(_, r, a, b) => {
            let l = address_of_sum(value_of(s, a), value_of(s, b));
            Attempts {
                zero: t.zero,
                later: passed_over(t.later, m, s, l, time, k.of_register(r)),
                promises: t.promises,
            }
        }
        Instr::Store(_, _, _) => t,
        Instr::Compute(_, _, _, _) => t,
        Instr::Branch(_, _, _) => t,
        Instr::Fence(_) => t,
    }
}

// Thread i, which x at a time has brought from s to y, if it is certified there. If not, what that rests on rules out other times.
fn settled(
    t: Attempts,
    x: Instr,
    c: Code,
    i: u8,
    m: Memory,
    s: Thread,
    time: u8,
    y: Thread,
) -> Attempted
    requires { Ready c m y × (instr_at c s.position ≡ some x) × (execute x m time s ≡ next y) × Worth c m s t }
    ensures { Settles c i m y result.moved × Worth c m s result.left }
{
    let taken = Attempted {
        moved: Ok(y),
        left: t,
    };
    if is_empty(y.promises) {
        return taken;
    }
    let found = search_runs(c, i, m, y, Sought::certified());
    if found.met.least == 0 {
        return taken;
    }
    let rests = found.cares;
    Attempted {
        moved: Err(Refusal::NotCertified),
        left: narrowed(t, x, m, s, time, rests),
    }
}

// Thread i executes x, its next instruction, at a time. That the rule refuses one time rules out no other.
fn execute_at(t: Attempts, x: Instr, c: Code, i: u8, m: Memory, s: Thread, time: u8) -> Attempted
    requires { Ready c m s × (instr_at c s.position ≡ some x) × Worth c m s t }
    ensures { Executes c i m s time result.moved × Worth c m s result.left }
{
    match execute(x, m, time, s) {
        Ok(y) => settled(t, x, c, i, m, s, time, y),
        Err(refusal) => Attempted {
            moved: Err(refusal),
            left: t,
        },
    }
}

// The step of a thread with the next instruction x; t is worth a try before it. A step that has a number is of one of the two kinds. That a
// promise can be kept is known from the exploration: it is not certified once more.
#[inline(never)]
pub fn attempt(t: Attempts, x: Instr, c: Code, m: Memory, s: Thread, k: TraceStep) -> Attempted
    requires { Ready c m s × (instr_at c s.position ≡ some x) × Numbered k × Sound m s × Keepable c m s k × Worth c m s t }
    ensures { Moves c m s k result.moved × Worth c m s result.left }
{
    if k.kind == 0 {
        return execute_at(t, x, c, k.thread, m, s, k.a);
    }
    let y = promise_kept(k.thread, m, s, k.a, k.b);
    Attempted {
        moved: Ok(y),
        left: t,
    }
}
