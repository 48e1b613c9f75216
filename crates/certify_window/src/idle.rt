// Loads of locations without a message: they read 0 at time 0, and which of them it is counts for little.
ghost use Rattle.std.specs.Prelude.{◌≡◌, true, false, ◌≤◌};
ghost use Rattle.certify_under.specs.Threads.{cohering};
ghost use Rattle.certify_window.specs.Idle.{Idles};

use crate::next_message;
use machine::{Memory, Thread};
use program::Instr;
use rules::operands::{address_of_sum, value_of};

// The thread y, which x at time t has brought from s, is idle at the location of x: no message is to it, and coherence there is so low that it
// hinders neither a store with a message of its own nor one that fills the hole.
#[inline(never)]
pub fn idle(x: Instr, m: Memory, s: Thread, t: u8, y: Thread, hole: u8) -> bool
    requires { m.count ≤ 16 }
    ensures { result ≡ true → Idles x m s t y hole }
{
    match x {
        Instr::Load(_, _, a, b) => {
            if t != 0 {
                return false;
            }
            let l = address_of_sum(value_of(s, a), value_of(s, b));
            if next_message(m, l, 0) != 17 {
                return false;
            }
            let pair = s.forward_at(l);
            if (pair.time == 0) & (pair.view != 0) {
                return false;
            }
            let v = y.coherence_at(l);
            if m.count < v {
                return false;
            }
            (hole == 0) | (v < hole)
        }
        Instr::Store(_, _, _) => false,
        Instr::Compute(_, _, _, _) => false,
        Instr::Branch(_, _, _) => false,
        Instr::Fence(_) => false,
    }
}

// The thread y with the coherence views of s.
pub fn lowered(mut y: Thread, s: Thread) -> Thread
    ensures { result ≡ cohering y s.coherence }
{
    let coherence = s.coherence;
    y.coherence = coherence;
    y
}

// The thread to go on from: y, or, if it is idle, y with the coherence views of s.
#[inline(never)]
pub fn resumed(apart: bool, y: Thread, s: Thread) -> Thread
    ensures { (apart ≡ true → result ≡ cohering y s.coherence) × (apart ≡ false → result ≡ y) }
{
    if apart { lowered(y, s) } else { y }
}
