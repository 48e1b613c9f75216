// Well formed: a machine of a program, as refusal 20 asks. Each function computes a definition of machine's specs/WellFormed.antt, or a part of one.
// A test of an array's length is not computed: an array always has its length.
#![tactic(auto)]

ghost use Rattle.std.specs.Prelude.{◌≡◌, not, cond, ◌&&◌, ◌||◌, suc, ◌<◌, ◌≤◌, ◌^◌, eqb, leb, ltb, get_or};
ghost use Rattle.theory_views.specs.Views.{view_at};
ghost use Rattle.program.specs.Tests.{below};
ghost use Rattle.program.specs.Program.{code_of};
ghost use Rattle.program.specs.WellFormed.{program_test};
ghost use Rattle.machine.specs.State.{fresh_register, fresh_forward, thread_of, has};
ghost use Rattle.machine.specs.WellFormed.{message_test, unused_message, memory_test, views_test, own_test, thread_test, unused_thread, machine_test};

use machine::{Machine, Memory, Message, Thread, Views};
use program::{Code, Program};
use program_form::program_formed;

// ---- memory
fn message_test(threads: u8, w: Message) -> bool
    ensures { result ≡ message_test threads w }
{
    (w.location < 16) & (w.thread < threads)
}

fn unused_message(w: Message) -> bool
    ensures { result ≡ unused_message w }
{
    (w.location == 0) & (w.value == 0) & (w.thread == 0)
}

fn memory_test(threads: u8, m: Memory) -> bool
    ensures { result ≡ memory_test threads m }
{
    let Some((used, spare)) = m.messages.split_at_checked(m.count as usize) else {
        return false;
    };
    used.iter().all(|w| message_test(threads, *w)) & spare.iter().all(|w| unused_message(*w))
}

// ---- a thread's views: each is at most `n`
fn views_test(n: u8, w: Views) -> bool
    ensures { result ≡ views_test n w }
{
    (w.rOld <= n) & (w.wOld <= n) & (w.rNew <= n) & (w.wNew <= n) & (w.cap <= n) & (w.rel <= n)
}

fn registers_test(n: u8, s: Thread) -> bool
    ensures { result ≡ below (λ k. leb (get_or s.registers k fresh_register).view n) 8 }
{
    s.registers.iter().all(|w| w.view <= n)
}

fn coherence_test(n: u8, s: Thread) -> bool
    ensures { result ≡ below (λ k. leb (view_at s.coherence k) n) 16 }
{
    s.coherence.iter().all(|v| *v <= n)
}

fn forward_test(n: u8, s: Thread) -> bool
    ensures { result ≡ below (λ k. let w = get_or s.forward k fresh_forward in leb w.time n && leb w.view n) 16 }
{
    s.forward.iter().all(|w| (w.time <= n) & (w.view <= n))
}

// ---- a thread's promises
// Every promise is at a time up to `n`.
fn promises_test(n: u8, p: u16) -> bool
    requires { n ≤ 16 }
    ensures { result ≡ ltb p (2 ^ n) }
{
    (p as u32) < (1u32 << n)
}

// A promise at time `k` + 1 is at a message of thread `i`.
fn own_entry(i: u8, p: u16, k: u8, w: Message) -> bool
    requires { k < 16 }
    ensures { result ≡ (not (has p (suc k)) || eqb w.thread i) }
{
    ((p >> k) % 2 != 1) | (w.thread == i)
}

fn own_test(i: u8, m: Memory, p: u16) -> bool
    requires { m.count ≤ 16 }
    ensures { result ≡ below (λ k. own_test i m p (suc k)) m.count }
{
    m.messages[..m.count as usize]
        .iter()
        .enumerate()
        .all(|(k, w)| own_entry(i, p, k as u8, *w))
}

// ---- a thread
fn thread_test(c: Code, i: u8, m: Memory, s: Thread) -> bool
    requires { m.count ≤ 16 }
    ensures { result ≡ thread_test c i m s }
{
    let n = m.count;
    let w = s.views;
    (s.position <= c.count)
        & registers_test(n, s)
        & coherence_test(n, s)
        & forward_test(n, s)
        & views_test(n, w)
        & promises_test(n, s.promises)
        & own_test(i, m, s.promises)
}

// ---- a thread that is not used
fn unused_registers(s: Thread) -> bool
    ensures { result ≡ below (λ k. let w = get_or s.registers k fresh_register in eqb w.value 0 && eqb w.view 0) 8 }
{
    s.registers.iter().all(|w| (w.value == 0) & (w.view == 0))
}

// A view or a time that is at most 0 is 0.
fn unused_thread(s: Thread) -> bool
    ensures { result ≡ unused_thread s }
{
    let w = s.views;
    (s.position == 0)
        & unused_registers(s)
        & coherence_test(0, s)
        & forward_test(0, s)
        & views_test(0, w)
        & (s.promises == 0)
}

// ---- the threads
// Thread `i`: one of the program's, or not used.
fn thread_entry(p: Program, i: u8, m: Memory, s: Thread) -> bool
    requires { (i < 4) × (m.count ≤ 16) }
    ensures { result ≡ cond (ltb i p.threads) (thread_test (code_of p i) i m s) (unused_thread s) }
{
    if i < p.threads {
        thread_test(p.code_of(i), i, m, s)
    } else {
        unused_thread(s)
    }
}

fn threads_test(p: Program, x: Machine) -> bool
    requires { x.memory.count ≤ 16 }
    ensures { result ≡ below (λ i. cond (ltb i p.threads) (thread_test (code_of p i) i x.memory (thread_of x i)) (unused_thread (thread_of x i))) 4 }
{
    x.threads
        .iter()
        .enumerate()
        .all(|(i, s)| thread_entry(p, i as u8, x.memory, *s))
}

// ---- THE MACHINE
// Memory first: the tests of the threads rely on there being at most 16 messages.
pub fn machine_formed(p: Program, x: Machine) -> bool
    ensures { result ≡ machine_test p x }
{
    let m = x.memory;
    memory_test(p.threads, m) && threads_test(p, x)
}

// Program and machine, as refusal 20 asks.
pub fn both_formed(p: Program, x: Machine) -> bool
    ensures { result ≡ (program_test p && machine_test p x) }
{
    program_formed(p) && machine_formed(p, x)
}
