// One step of the machine: the next machine, or why the step is refused; the machine that it is asked of stays its caller's.
#![tactic(auto)]

mod checked;

ghost use Rattle.std.specs.Prelude.{◌≡◌, ◌+◌, ◌^◌, ◌<◌, ◌≤◌, Ok};
ghost use Rattle.std.proofs.Math.Option.{some};
ghost use Rattle.program.specs.Program.{instr_at};
ghost use Rattle.machine.specs.State.{with, with_promises};
ghost use Rattle.machine.specs.Inner.{Formed};
ghost use Rattle.certify_runs.specs.Inner.{Ready};
ghost use Rattle.step.specs.Step.{rule_step};
ghost use Rattle.step.specs.Answers.{stepped};
ghost use Rattle.step.specs.Inner.{Settles, Executes, Promises, PromisesKept, Moves, Remembers, without_newest};

use certify::is_certified;
pub use checked::step;
use machine::promises::{is_empty, with};
use machine::{Machine, Memory, Message, Thread};
use program::{Code, Instr, Program, Refusal};
use rules::execute;

// As a trace has it: kind 0 is an execution at time a, with b 0; kind 1 is a promise of the value b at location a.
#[derive(Clone, Copy)]
pub struct TraceStep {
    pub kind: u8,
    pub thread: u8,
    pub a: u8,
    pub b: u8,
}

// Thread i becomes s on memory m, if it is certified there. Without a promise it is.
fn settle(c: Code, i: u8, m: Memory, s: Thread) -> Result<Thread, Refusal>
    requires { Ready c m s }
    ensures { Settles c i m s result }
{
    if is_empty(s.promises) {
        return Ok(s);
    }
    if is_certified(c, i, m, s) {
        Ok(s)
    } else {
        Err(Refusal::NotCertified)
    }
}

// Thread i executes x, its next instruction, at time t.
fn execute_at(x: Instr, c: Code, i: u8, m: Memory, s: Thread, t: u8) -> Result<Thread, Refusal>
    requires { Ready c m s × (instr_at c s.position ≡ some x) }
    ensures { Executes c i m s t result }
{
    let y = execute(x, m, t, s)?;
    settle(c, i, m, y)
}

// Thread i executes its next instruction, if there is one, at time t.
fn execute_step(c: Code, i: u8, m: Memory, s: Thread, t: u8) -> Result<Thread, Refusal>
    requires { Ready c m s }
    ensures { Executes c i m s t result }
{
    let n = s.position;
    if c.count <= n {
        return Err(Refusal::AtEnd);
    }
    execute_at(c.instr_at(n), c, i, m, s, t)
}

// The thread with a promise of the next message.
fn promised(m: Memory, s: Thread) -> Thread
    requires { (m.count < 16) × (s.promises < 2 ^ m.count) }
    ensures { result ≡ with_promises (with s.promises (m.count + 1)) s }
{
    s.with_promises(with(s.promises, m.count + 1))
}

// Thread i promises location l and value v.
fn promise_step(c: Code, i: u8, m: Memory, s: Thread, l: u8, v: u8) -> Result<Thread, Refusal>
    requires { Ready c m s }
    ensures { Promises c i m s l v result }
{
    if 15 < l {
        return Err(Refusal::NoLocation);
    }
    if 16 <= m.count {
        return Err(Refusal::MemoryFull);
    }
    let q = promised(m, s);
    let w = Message {
        location: l,
        value: v,
        thread: i,
    };
    let after = m.append(w);
    settle(c, i, after, q)
}

// The same where the promise is known to leave the thread certified: nothing is left to ask.
pub fn promise_kept(i: u8, m: Memory, s: Thread, l: u8, v: u8) -> Thread
    requires { (l < 16) × ((m.count < 16) × (s.promises < 2 ^ m.count)) }
    ensures { PromisesKept i m s l v (Ok result) }
{
    promised(m, s)
}

// The step of a thread that has code c and state s, on memory m.
fn thread_step(c: Code, m: Memory, s: Thread, k: TraceStep) -> Result<Thread, Refusal>
    requires { Ready c m s }
    ensures { Moves c m s k result }
{
    if k.kind == 0 {
        if k.b != 0 {
            return Err(Refusal::StepKind);
        }
        return execute_step(c, k.thread, m, s, k.a);
    }
    if k.kind != 1 {
        return Err(Refusal::StepKind);
    }
    promise_step(c, k.thread, m, s, k.a, k.b)
}

// The memory after a step that is taken: a promise appends its message.
pub fn memory_after(m: Memory, k: TraceStep) -> Memory
    ensures { Remembers m k result }
{
    if k.kind == 0 {
        return m;
    }
    if 16 <= m.count {
        return m;
    }
    let w = Message {
        location: k.a,
        value: k.b,
        thread: k.thread,
    };
    m.append(w)
}

// The memory before a promise, from the one after it: the newest message is taken off.
pub fn memory_before(mut m: Memory) -> Memory
    requires { (0 < m.count) × (m.count ≤ 16) }
    ensures { result ≡ without_newest m }
{
    let n = m.count - 1;
    m.messages[n as usize] = Message::default();
    m.count = n;
    m
}

// The step on a program and a machine that are well formed.
pub fn rule_step(p: Program, x: Machine, k: TraceStep) -> Result<Machine, Refusal>
    requires { Formed p x }
    ensures { result ≡ stepped (rule_step p x k) }
{
    let i = k.thread;
    if p.threads <= i {
        return Err(Refusal::NoThread);
    }
    let s = thread_step(p.code_of(i), x.memory, x.thread_of(i), k)?;
    Ok(x.moved(i, memory_after(x.memory, k), s))
}
