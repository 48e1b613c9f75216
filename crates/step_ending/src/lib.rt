// Complete, and the question asked at the end.
#![tactic(auto)]

ghost use Rattle.std.specs.Prelude.{◌≡◌, ◌&&◌, ◌≤◌, eqb};
ghost use Rattle.machine.specs.Inner.{Formed};
ghost use Rattle.step.specs.Outcome.{complete, last_value, question_holds, asked};
ghost use Rattle.step_ending.specs.Conditions.{HoldsWith, all_hold, Askable};

use machine::{Machine, Memory, Thread};
use program::{Code, Condition, Program};

fn thread_done(c: Code, s: Thread) -> bool
    ensures { result ≡ (eqb s.position c.count && eqb s.promises 0) }
{
    (s.position == c.count) & (s.promises == 0)
}

// All threads are at their end, and no promise is left. Written out for four threads, so that only the few bytes that are looked at
// are read: the search asks this of every state.
pub fn complete(p: Program, x: Machine) -> bool
    requires { Formed p x }
    ensures { result ≡ complete p x }
{
    let n = p.threads;
    let a = (n < 1) | thread_done(p.codes[0], x.threads[0]);
    let b = (n < 2) | thread_done(p.codes[1], x.threads[1]);
    let c = (n < 3) | thread_done(p.codes[2], x.threads[2]);
    let d = (n < 4) | thread_done(p.codes[3], x.threads[3]);
    d & (c & (b & a))
}

// The newest message at l decides: messages are looked at from the newest on.
fn last_value(m: Memory, l: u8) -> u8
    requires { m.count ≤ 16 }
    ensures { result ≡ last_value m l }
{
    let mut t = m.count;
    while 0 < t {
        let w = m.message_at(t);
        if w.location == l {
            return w.value;
        }
        t -= 1;
    }
    0
}

fn holds(m: Memory, s: Thread, q: Condition) -> bool
    requires { m.count ≤ 16 }
    ensures { HoldsWith m s q result }
{
    if q.kind == 0 {
        let r = s.register_at(q.index);
        r.value == q.value
    } else {
        last_value(m, q.index) == q.value
    }
}

// The first n conditions, until one fails. They come without the program, which would be copied for them.
fn all_hold(n: u8, question: [Condition; 8], x: Machine) -> bool
    requires { Askable n question x }
    ensures { result ≡ all_hold question x n }
{
    let mut k = 0u8;
    while k < n {
        let q = question[k as usize];
        let i = q.thread;
        if holds(x.memory, x.threads[i as usize], q) {
            k += 1;
        } else {
            return false;
        }
    }
    true
}

pub fn question_holds(p: Program, x: Machine) -> bool
    requires { Formed p x }
    ensures { result ≡ question_holds p x }
{
    let question = p.question;
    all_hold(p.conditions, question, x)
}

// Complete, with the asked outcome.
pub fn asked(p: Program, x: Machine) -> bool
    requires { Formed p x }
    ensures { result ≡ asked p x }
{
    complete(p, x) && question_holds(p, x)
}
