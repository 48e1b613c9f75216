// What is asked at a machine that the search comes to: the budget, the end, and the table of machines that are known.
#![tactic(auto)]

ghost use Rattle.std.specs.Prelude.{◌≡◌};
ghost use Rattle.machine.specs.Inner.{Formed};
ghost use Rattle.step.specs.Outcome.{complete, question_holds};
ghost use Rattle.search_arrivals.specs.Visits.{at_end, after_known, Arrives};

use machine::Machine;
use program::Program;
use search_table::{SLOT, look_up};
use search_tries::threads::next_open;
use step_ending::{complete, question_holds};

// How far a visit has come: on, with so much of the budget left; at a wanted sequence of so many steps, with so much left; or
// at a sequence with nothing left.
#[derive(Clone, Copy)]
pub enum Ran {
    Going(u64),
    Found(u64, usize),
    Out,
}

// What a visit does at a complete machine: it asks the question; or it notes the outcome, in narrow or wide rows.
#[derive(Clone, Copy)]
pub enum Aim {
    Question,
    Outcomes(bool),
}

// What is met at a machine: its visit is over already; it is complete, its outcome is to be noted, in wide rows or not, and so much
// is left; or it goes on, from the first thread that is not at its end, and the machine has this slot of the table.
#[derive(Clone, Copy)]
pub enum Arrival {
    Over(Ran),
    Ending(bool, u64),
    Open(u8, usize),
}

// A state with all threads at their end: nothing follows it. The two parts of `asked` are called by themselves: together they
// are too long for the compiler to put here, and a call would copy program and machine.
fn at_end(p: Program, x: Machine, aim: Aim, depth: usize, rest: u64) -> Arrival
    requires { Formed p x }
    ensures { result ≡ at_end aim depth rest (complete p x) (question_holds p x) }
{
    if complete(p, x) {
        match aim {
            Aim::Question => {
                if question_holds(p, x) {
                    return Arrival::Over(Ran::Found(rest, depth));
                }
            }
            Aim::Outcomes(wide) => return Arrival::Ending(wide, rest),
        }
    }
    Arrival::Over(Ran::Going(rest))
}

// A machine that is known: n of the budget are spent on its sequences, or it does not suffice.
fn after_known(left: u64, n: u64) -> Ran
    ensures { result ≡ after_known left n }
{
    if n <= left {
        return Ran::Going(left - n);
    }
    Ran::Out
}

// What is asked at x, to which `depth` steps have led: the budget, the end, and the table, in which a machine that was visited to its
// end need not be visited again: its sequences are counted, and nothing new is met at them.
pub fn arrive(p: Program, x: Machine, aim: Aim, depth: usize, left: u64, table: &[u8]) -> Arrival
    requires { Formed p x }
    ensures { Arrives p aim x depth left table.now result }
{
    if left == 0 {
        return Arrival::Over(Ran::Out);
    }
    let first = next_open(p, x, 0);
    if first == 4 {
        return at_end(p, x, aim, depth, left - 1);
    }
    if table.len() < SLOT {
        return Arrival::Open(first, 0);
    }
    let seen = look_up(table, x);
    if 0 < seen.count {
        return Arrival::Over(after_known(left, seen.count));
    }
    Arrival::Open(first, seen.slot)
}
