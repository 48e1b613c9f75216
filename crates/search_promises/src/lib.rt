// Promises by exploration: the runs of a thread alone, on a memory with one message more that no load can read, say which stores can
// fulfil a promise there and leave the thread certified.
#![tactic(auto)]

ghost use Rattle.std.specs.Prelude.{◌≡◌, cond, ◌<◌};
ghost use Rattle.certify_runs.specs.Inner.{Ready};
ghost use Rattle.certify_sought.specs.Numbers.{Twice, LeastOrTwo};
ghost use Rattle.search_promises.specs.Explored.{Fillable};

use certify::reach::two_reached;
use certify_sought::{Met, Sought};
use machine::promises::with;
use machine::{Memory, Message, Thread};
use program::Code;

// What is met after these numbers: promises from `from` on, by 256 · l + v, that a store of the thread can come to fulfil.
fn reached_after(c: Code, m: Memory, s: Thread, from: u16, met: Met) -> Met
    requires { Ready c m s × (m.count < 16) }
    ensures { Twice from met (Fillable c m s) result }
{
    let hole = Message {
        location: 16,
        value: 0,
        thread: 0,
    };
    let n = m.append(hole);
    let q = s.with_promises(with(s.promises, n.count));
    two_reached(
        c,
        0,
        n,
        q,
        Sought {
            hole: n.count,
            from: from,
            met: met,
        },
    )
}

// Nothing is met yet, of the least promise alone or of two.
fn nothing_met(one: bool) -> Met
    ensures { result ≡ record { least = 4096; second = cond one 4096 4097 } }
{
    Met {
        least: 4096,
        second: if one { 4096 } else { 4097 },
    }
}

// The two least promises from `from` on, by 256 · l + v, that a store of the thread can come to fulfil; 4096 where there are fewer. The second
// spares an exploration if it is tried. With many messages about, it can take a million states to find none, so only the least is sought then,
// and the second is 0: it is not known.
pub fn next_reached(c: Code, m: Memory, s: Thread, from: u16) -> Met
    requires { Ready c m s × (m.count < 16) }
    ensures { LeastOrTwo from 4096 (Fillable c m s) result }
{
    let one = 11 <= m.count;
    let met = reached_after(c, m, s, from, nothing_met(one));
    if one {
        return Met {
            least: met.least,
            second: 0,
        };
    }
    if met.second <= 4096 {
        return met;
    }
    Met {
        least: 4096,
        second: 4096,
    }
}
