// Certification of one thread: whether it can fulfil all its promises while no other thread runs.
#![tactic(auto)]

mod checked;
pub mod reach;

ghost use Rattle.std.specs.Prelude.{◌≡◌};
ghost use Rattle.machine.specs.Rules.{store_message};
ghost use Rattle.certify_runs.specs.Certify.{first_run, certified};
ghost use Rattle.certify_runs.specs.Inner.{Ready};
ghost use Rattle.certify.specs.Answers.{shown};

use certify_runs::Run;
use certify_sought::Sought;
use certify_trail::run_of;
pub use checked::certify;
use machine::{Memory, Message, Thread};
use program::{Code, Operand};
use reach::{search_runs, two_reached};
use rules::operands::{address, value_of};

// The message of a store of thread i: data d to address a.
fn own_message(i: u8, a: Operand, d: Operand, s: Thread) -> Message
    ensures { result ≡ store_message i a d s }
{
    Message {
        location: address(value_of(s, a)),
        value: value_of(s, d),
        thread: i,
    }
}

// Whether thread i is certified.
pub fn is_certified(c: Code, i: u8, m: Memory, s: Thread) -> bool
    requires { Ready c m s }
    ensures { result ≡ certified c i m s }
{
    two_reached(c, i, m, s, Sought::certified()).least == 0
}

// The first run that shows that thread i is certified, if it is.
fn show(c: Code, i: u8, m: Memory, s: Thread) -> Option<Run>
    requires { Ready c m s }
    ensures { result ≡ shown (first_run c i m s) }
{
    let r = search_runs(c, i, m, s, Sought::certified());
    if r.met.least == 0 {
        Some(run_of(r.cares))
    } else {
        None
    }
}
