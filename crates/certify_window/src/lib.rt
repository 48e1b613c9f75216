// The times at which an instruction is worth a try, one by one.
#![tactic(auto)]

pub mod idle;

ghost use Rattle.std.specs.Prelude.{◌≤◌};
ghost use Rattle.certify_window.specs.Window.{Earliest, Following, NextKept, NextMessage, Stands};

use machine::merge::{larger, smaller};
use machine::{Memory, Thread};
use program::Instr;
use rules::operands::{address, address_of_sum, value_of, view_of_both};
use rules_loads::load_pre;
use rules_times::after;

// The newest time up to v at which a message to l stands, or 0.
fn newest(m: Memory, l: u8, v: u8) -> u8
    requires { m.count ≤ 16 }
    ensures { Stands m l v result }
{
    for t in (0..smaller(v, m.count)).rev() {
        if m.messages[t as usize].location == l {
            return t + 1;
        }
    }
    0
}

// The next promise after time t of location l and value v, or 17.
fn next_kept(m: Memory, p: u16, l: u8, v: u8, t: u8) -> u8
    requires { (m.count ≤ 16) × (t ≤ 16) }
    ensures { NextKept m p l v t result }
{
    let mut u = after(p, t);
    // No `for`: the times of a set come from `after`, and an iterator over them would be a type of its own for the same lines.
    while u <= m.count {
        let w = m.message_at(u);
        if (w.location == l) & (w.value == v) {
            return u;
        }
        u = after(p, u);
    }
    17
}

// The first time at which the instruction is worth a try, or 17. A load reads nothing older than the newest message that its views have
// come up to; a store fulfils a promise of its location and value.
pub fn earliest(x: Instr, m: Memory, s: Thread) -> u8
    requires { m.count ≤ 16 }
    ensures { Earliest x m s result }
{
    match x {
        Instr::Load(k, _, a, b) => {
            let l = address_of_sum(value_of(s, a), value_of(s, b));
            let pre = load_pre(k, view_of_both(s, a, b), s.views);
            newest(m, l, larger(pre, s.coherence_at(l)))
        }
        Instr::Store(_, a, d) => {
            let l = address(value_of(s, a));
            next_kept(m, s.promises, l, value_of(s, d), 0)
        }
        Instr::Compute(_, _, _, _) => 0,
        Instr::Branch(_, _, _) => 0,
        Instr::Fence(_) => 0,
    }
}

// The time of the next message to l after time t, or 17.
pub fn next_message(m: Memory, l: u8, t: u8) -> u8
    requires { (m.count ≤ 16) × (t ≤ 16) }
    ensures { NextMessage m l t result }
{
    for u in t..m.count {
        if m.messages[u as usize].location == l {
            return u + 1;
        }
    }
    17
}

// The next time after t at which the instruction is worth a try, or 17.
pub fn following(x: Instr, m: Memory, s: Thread, t: u8) -> u8
    requires { (m.count ≤ 16) × (t ≤ 16) }
    ensures { Following x m s t result }
{
    match x {
        Instr::Load(_, _, a, b) => next_message(
            m,
            address_of_sum(value_of(s, a), value_of(s, b)),
            t,
        ),
        Instr::Store(_, a, d) => {
            let l = address(value_of(s, a));
            next_kept(m, s.promises, l, value_of(s, d), t)
        }
        Instr::Compute(_, _, _, _) => 17,
        Instr::Branch(_, _, _) => 17,
        Instr::Fence(_) => 17,
    }
}
