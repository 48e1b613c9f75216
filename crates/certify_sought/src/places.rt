// Sets of locations that a load or store must keep out of, so that it is as one that failed.
ghost use Rattle.std.specs.Prelude.{◌≡◌, true, ℕ, ◌≤◌, ◌<◌};
ghost use Rattle.certify_cares.specs.Cares.{Marked};
ghost use Rattle.certify_under.specs.Vacant.{Vacant};
ghost use Rattle.certify_sought.specs.Asks.{Located, SoughtIn, Elsewhere};

use crate::Sought;
use certify_cares::barred::{either, marked, marking};
use certify_lost::wanted::filling;
use machine::Memory;
use machine::promises::has;
use rules_times::after;

// The locations of the messages at the times of the set p.
fn locations(m: Memory, p: u16) -> u16
    requires { m.count ≤ 16 }
    ensures { Located m p 17 result }
{
    let mut set = 0u16;
    let mut u = after(p, 0);
    // No `for`: the times of a set come from `after`, and an iterator over them would be a type of its own for the same lines.
    while u <= m.count {
        set = marking(set, m.message_at(u).location % 16);
        u = after(p, u);
    }
    set
}

// The locations of the numbers that are sought, if the hole is among the promises p; all, if there are several.
fn sought_at(p: u16, q: Sought) -> u16
    ensures { SoughtIn p q result }
{
    if !has(p, q.hole) {
        return 0;
    }
    filling(q.hole, q.from, q.met.second).places
}

// The locations of promises p and of numbers that are sought; all, if a store may append its own message, which rests on its location anyway.
pub fn place(own: bool, m: Memory, p: u16, q: Sought) -> u16
    requires { m.count ≤ 16 }
    ensures { (l : ℕ) → l < 16 → (Marked result l → ⊥) → Elsewhere m p q l }
{
    if own {
        return 65535;
    }
    either(locations(m, p), sought_at(p, q))
}

// The locations that have a message; all, if l has one, or if tries are not apart.
pub fn vacancy(m: Memory, l: u8, apart: bool) -> u16
    requires { (m.count ≤ 16) × (l < 16) }
    ensures { (j : ℕ) → j < 16 → (Marked result j → ⊥) → (apart ≡ true) × (Vacant m l × Vacant m j) }
{
    if !apart {
        return 65535;
    }
    let set = locations(m, 65535);
    if marked(set, l) {
        return 65535;
    }
    set
}
