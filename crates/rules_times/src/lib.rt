// The times at which an instruction is worth a try: time 0, and the later times as a set like that of the promises.
#![tactic(auto)]

ghost use Rattle.std.specs.Prelude.{◌≤◌};
ghost use Rattle.rules_times.specs.Times.{Later, AtZero, After};

use machine::promises::{first, is_empty};
use machine::{Memory, Thread};
use program::Instr;
use rules::operands::{address_of_sum, value_of};

// A load reads a message to its location; a store fulfils a promise; nothing else executes after time 0.
pub fn later_times(x: Instr, m: Memory, s: Thread) -> u16
    requires { m.count ≤ 16 }
    ensures { Later x m s result }
{
    match x {
        Instr::Load(_, _, a, b) => {
            let l = address_of_sum(value_of(s, a), value_of(s, b));
            m.times_at(l)
        }
        Instr::Store(_, _, _) => s.promises,
        Instr::Compute(_, _, _, _) => 0,
        Instr::Branch(_, _, _) => 0,
        Instr::Fence(_) => 0,
    }
}

// A store has no promise at time 0.
pub fn at_zero(x: Instr) -> bool
    ensures { AtZero x result }
{
    match x {
        Instr::Store(_, _, _) => false,
        Instr::Load(_, _, _, _) => true,
        Instr::Compute(_, _, _, _) => true,
        Instr::Branch(_, _, _) => true,
        Instr::Fence(_) => true,
    }
}

// The first time of the set after time t, or 17.
pub fn after(p: u16, t: u8) -> u8
    requires { t ≤ 16 }
    ensures { After p t result }
{
    if t == 16 {
        return 17;
    }
    let rest = p >> t;
    if is_empty(rest) {
        return 17;
    }
    t + first(rest)
}
