// What the tries of a load or store rest on, whatever comes after them.
ghost use Rattle.std.specs.Prelude.{◌≤◌, ◌<◌};
ghost use Rattle.certify_cares.specs.Cares.{Agreeing};
ghost use Rattle.certify_sought.specs.Asks.{OtherValues, Unsought, LoadsSame, StoreAsks, Asks, OwnAsks};

use crate::Sought;
use crate::places::{place, vacancy};
use certify_cares::barred::turned;
use certify_cares::{Cares, barring, joined};
use machine::promises::has;
use machine::{Memory, Thread};
use program::{Instr, Operand};
use rules::operands::{address, address_of_sum, value_of, view_of};
use rules_times::after;

// The care for a store's data v that it is none of the other values of the promises p to l.
fn other_values(m: Memory, p: u16, l: u8, v: u8) -> u32
    requires { m.count ≤ 16 }
    ensures { OtherValues m p l v 17 result }
{
    let mut care = 0u32;
    let mut u = after(p, 0);
    // No `for`: the times of a set come from `after`, and an iterator over them would be a type of its own for the same lines.
    while u <= m.count {
        let w = m.message_at(u);
        if (w.location == l) & (w.value != v) {
            care = joined(care, 256 + w.value as u32);
        }
        u = after(p, u);
    }
    care
}

// The care for the value v of a store to l that its number, by which it would fill the hole, is not sought; 2 if it is.
fn unsought(l: u8, v: u8, q: Sought) -> u16
    requires { l < 16 }
    ensures { Unsought q l v result }
{
    let base = 256 * l as u16;
    let number = base + v as u16;
    let top = q.met.second;
    if top <= number {
        if top <= base {
            return 0;
        }
        return 512 + (top - base);
    }
    if number < q.from {
        let least = q.from - base;
        if 256 <= least {
            return 0;
        }
        return 768 + least;
    }
    2
}

// What a load rests on: its location; or, where that is enough, only that both its location and the other have no message. The operand with
// the smaller view, which was most likely read earlier, keeps its location.
fn load_asks(m: Memory, s: Thread, a: Operand, b: Operand, apart: bool) -> Cares
    requires { m.count ≤ 16 }
    ensures { (s' : Thread) → Agreeing result.of s s' → LoadsSame apart m s s' a b }
{
    let nothing = Cares::NONE;
    let x = value_of(s, a);
    let y = value_of(s, b);
    let set = vacancy(m, address_of_sum(x, y), apart);
    if view_of(s, a) <= view_of(s, b) {
        return nothing
            .noting(a, barring(65535))
            .noting(b, barring(turned(set, x)));
    }
    nothing
        .noting(a, barring(turned(set, y)))
        .noting(b, barring(65535))
}

// What a store rests on: its location, or that it is elsewhere; that its data is not the value of another promise to the location; and, if it
// may fill the hole, whether its number is sought.
fn store_asks(m: Memory, s: Thread, a: Operand, d: Operand, q: Sought, own: bool) -> Cares
    requires { m.count ≤ 16 }
    ensures { StoreAsks m s a d q result.of }
{
    let nothing = Cares::NONE;
    let l = address(value_of(s, a));
    let v = value_of(s, d);
    let kept = nothing
        .noting(a, barring(place(own, m, s.promises, q)))
        .noting(d, other_values(m, s.promises, l, v));
    if !has(s.promises, q.hole) {
        return kept;
    }
    kept.noting(d, unsought(l, v, q) as u32)
}

// What the tries rest on. Apart: they were made so that they tell of all loads from locations without a message.
pub fn asks(x: Instr, m: Memory, s: Thread, q: Sought, own: bool, apart: bool) -> Cares
    requires { m.count ≤ 16 }
    ensures { Asks x m s q apart result.of }
{
    let nothing = Cares::NONE;
    match x {
        Instr::Load(_, _, a, b) => load_asks(m, s, a, b, apart),
        Instr::Store(_, a, d) => store_asks(m, s, a, d, q, own),
        Instr::Compute(_, _, _, _) => nothing,
        Instr::Branch(_, _, _) => nothing,
        Instr::Fence(_) => nothing,
    }
}

// What a store with a message of its own rests on, besides k: its location, and its data if a load may read the message.
pub fn own_asks(k: Cares, a: Operand, d: Operand, read: bool) -> Cares
    ensures { OwnAsks k.of a d read result.of }
{
    let placed = k.noting(a, barring(65535));
    if read {
        return placed.noting(d, 2);
    }
    placed
}
