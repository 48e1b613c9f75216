// What is sought, where a thread stands: an empty promise set, or a message in the hole.
ghost use Rattle.std.specs.Prelude.{◌≡◌, true, false, ◌≤◌, ◌<◌};
ghost use Rattle.certify_sought.specs.Aim.{fill};
ghost use Rattle.certify_sought.specs.Numbers.{Emptied};

use crate::{Met, Sought};
use machine::promises::is_empty;
use machine::{Memory, Message, Thread};

// An empty promise set is sought, and here it is.
pub fn kept(s: Thread, q: Sought) -> bool
    ensures { (result ≡ true → (q.hole ≡ 0) × (s.promises ≡ 0)) × (result ≡ false → q.hole ≡ 0 → s.promises ≡ 0 → ⊥) }
{
    if q.hole != 0 {
        return false;
    }
    is_empty(s.promises)
}

// What is met where an empty promise set is.
pub fn emptied(q: Sought) -> Met
    ensures { Emptied q result }
{
    let met = q.met;
    if q.seeks(0) {
        return met.with(0);
    }
    met
}

// The memory with w in place of the message at time h.
pub fn fill(mut m: Memory, h: u8, w: Message) -> Memory
    requires { (0 < h) × (h ≤ 16) }
    ensures { result ≡ fill m h w }
{
    m.messages[(h - 1) as usize] = w;
    m
}
