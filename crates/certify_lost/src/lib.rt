// Messages that are lost: no store that a thread can come to can write them any more, whatever it reads before.
#![tactic(auto)]

pub mod ahead;
pub mod telling;
pub mod wanted;

ghost use Rattle.std.specs.Prelude.{◌≤◌, ◌<◌, IfSome};
ghost use Rattle.certify_lost.specs.Lost.{Barred, LostIn, PromiseLost, Fruitless};

use ahead::{farther, is_store, passing, unwritten, written};
use certify_cares::barred::{marked, marking};
use certify_cares::{Cares, barring};
use machine::promises::{first, is_empty};
use machine::{Memory, Thread, Views};
use program::{Code, Instr};
use rules::operands::{address, value_of};
use rules_stores::store_pre;
use wanted::{Wanted, filling, in_range, out_of_range};

// What it rests on that an instruction ahead can surely not write the message, where views are v at least and the registers of the set may have
// been written; k is what was rested on before. None where that is not certain.
fn barred(x: Instr, s: Thread, v: Views, w: Wanted, set: u16, k: Cares) -> Option<Cares>
    requires { w.low < 256 }
    ensures { IfSome result (λ r. Barred x s v w set k r) }
{
    match x {
        Instr::Store(how, a, d) => {
            if w.time <= store_pre(how, 0, 0, v) {
                return Some(k);
            }
            if unwritten(set, a) & !marked(w.places, address(value_of(s, a))) {
                return Some(k.noting(a, barring(w.places)));
            }
            let stored = value_of(s, d);
            if unwritten(set, d) & !in_range(stored, w) {
                return Some(k.noting(d, out_of_range(stored, w)));
            }
            None
        }
        Instr::Load(_, _, _, _) => Some(k),
        Instr::Compute(_, _, _, _) => Some(k),
        Instr::Branch(_, _, _) => Some(k),
        Instr::Fence(_) => Some(k),
    }
}

// What it rests on that the message is surely lost, if it is. The instructions ahead are gone through once: what a store there finds is what the
// thread has now, and besides what those before it leave on every way.
fn lost(c: Code, s: Thread, w: Wanted) -> Option<Cares>
    requires { (c.count ≤ 16) × (w.low < 256) }
    ensures { IfSome result (λ r. LostIn c s r.of w) }
{
    let mut rests = Cares::NONE;
    let mut set = 0u16;
    let mut v = s.views;
    let mut far = 0u16;
    for at in s.position..c.count {
        let x = c.instr_at(at);
        if is_store(x) {
            rests = barred(x, s, v, w, set, rests)?;
        }
        v = passing(x, v, far <= at as u16);
        set = written(set, x);
        far = farther(x, at, far);
    }
    Some(rests)
}

// The same of the first promise besides the hole.
fn promise_lost(c: Code, m: Memory, s: Thread, hole: u8) -> Option<Cares>
    requires { (c.count ≤ 16) × (m.count ≤ 16) }
    ensures { IfSome result (λ r. PromiseLost c m s hole r.of) }
{
    if is_empty(s.promises) {
        return None;
    }
    let u = first(s.promises);
    if (u == hole) | (m.count < u) {
        return None;
    }
    let w = m.message_at(u);
    if 16 <= w.location {
        return None;
    }
    let value = w.value as u16;
    lost(
        c,
        s,
        Wanted {
            time: u,
            places: marking(0, w.location),
            low: value,
            high: value + 1,
        },
    )
}

// What it rests on that surely nothing comes of the thread, if so: no store ahead fills the hole by a number from `from` on and below `top`, or a
// promise is lost. It is a call of its own, so that nothing of it stays on the stack while runs are searched.
#[inline(never)]
pub fn fruitless(c: Code, m: Memory, s: Thread, hole: u8, from: u16, top: u16) -> Option<Cares>
    requires { (c.count ≤ 16) × (m.count ≤ 16) }
    ensures { IfSome result (λ r. Fruitless c m s hole from top r.of) }
{
    if hole != 0
        && let Some(rests) = lost(c, s, filling(hole, from, top))
    {
        return Some(rests);
    }
    promise_lost(c, m, s, hole)
}
