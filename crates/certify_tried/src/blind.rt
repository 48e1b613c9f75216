// Loads and stores of which it is known beforehand that nothing comes: what is wanted is lost; or a blind load tells. Blind loads read 0 with no
// view of their own, and leave coherence as it is. No load leaves less, so that a failure after a blind load tells of every load, wherever it
// reads, if what is read does not count.
ghost use Rattle.std.specs.Prelude.{◌≡◌, ◌+◌, ◌≤◌, ◌<◌, IfSome};
ghost use Rattle.certify_tried.specs.Blind.{unread, Told};

use crate::Reached;
use certify_ahead::steering::steers;
use certify_lost::telling::telling;
use certify_sought::Met;
use certify_window::idle::lowered;
use machine::{Memory, Thread};
use program::{Code, Instr, LoadMode, Operand};
use rules::operands::view_of_both;
use rules_loads::{load_done, load_pre};

// What a search after a blind load into r tells: if no number is met besides those known, and what is read does not count, every load there
// fails. None where it tells nothing.
pub fn told(r: u8, then: Reached, met: Met) -> Option<Reached>
    ensures { IfSome result (λ found. Told r then met found) }
{
    let rests = then.cares;
    if then.met != met {
        return None;
    }
    if rests.of_register(r) != 0 {
        return None;
    }
    Some(Reached {
        met,
        cares: rests.forgetting(r),
    })
}

// The thread after a blind load into r. At which location does not count, since coherence is put back.
pub fn unread(k: LoadMode, r: u8, a: Operand, b: Operand, m: Memory, s: Thread) -> Thread
    requires { s.position + 1 < 256 }
    ensures { result ≡ unread k r a b m s }
{
    let va = view_of_both(s, a, b);
    lowered(load_done(k, r, m, 0, 0, va, load_pre(k, va, s.views), s), s)
}

// Whether a blind load is worth the question: it is where the address comes of what was read, and what is read comes into no store. Of other
// loads it mostly counts what they read, and the search would be in vain.
pub fn worth_asking(x: Instr, c: Code, s: Thread) -> bool
    requires { (c.count ≤ 16) × (s.position < 16) }
{
    match x {
        Instr::Load(_, _, a, b) => {
            if view_of_both(s, a, b) == 0 {
                return false;
            }
            steers(c, s.position)
        }
        Instr::Store(_, _, _) => false,
        Instr::Compute(_, _, _, _) => false,
        Instr::Branch(_, _, _) => false,
        Instr::Fence(_) => false,
    }
}

// Whether it is worth to ask beforehand what can come of x. With fewer messages about, the tries themselves are quick.
pub fn worth_a_look(x: Instr, c: Code, m: Memory, s: Thread) -> bool
    requires { (c.count ≤ 16) × (s.position < 16) }
{
    if m.count < 12 {
        return false;
    }
    if telling(c, s.position) {
        return true;
    }
    worth_asking(x, c, s)
}
