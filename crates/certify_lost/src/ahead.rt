// What is known of a thread before it has come to an instruction ahead: which registers are written until then, how large its views are at
// least, and up to where branches may pass over instructions.
ghost use Rattle.std.specs.Prelude.{◌≡◌, true, false, ℕ, ◌≤◌, ◌<◌};
ghost use Rattle.certify_cares.specs.Cares.{Marked};
ghost use Rattle.program.specs.Inner.{stores_of};
ghost use Rattle.certify_lost.specs.Lost.{Unwritten, Writing, Leaves, Passing, Farther};

use certify_cares::barred::{marked, marking};
use machine::Views;
use program::{Instr, Operand};
use rules::plain::fence_views;
use rules_loads::{load_pre, load_views};
use rules_stores::{store_pre, store_views};

// The operand is a constant, or a register that is not in the set.
pub fn unwritten(set: u16, a: Operand) -> bool
    ensures { result ≡ true → Unwritten set a }
{
    match a {
        Operand::Constant(_) => true,
        Operand::OfRegister(n) => {
            if 16 <= n {
                return false;
            }
            !marked(set, n)
        }
    }
}

// The set with register r.
fn writing(set: u16, r: u8) -> u16
    ensures { (r < 16 → Marked result r) × ((n : ℕ) → Marked set n → Marked result n) }
{
    if 16 <= r {
        return set;
    }
    marking(set, r)
}

// The instruction is a store.
pub fn is_store(x: Instr) -> bool
    ensures { result ≡ false → stores_of x ≡ 0 }
{
    match x {
        Instr::Store(_, _, _) => true,
        Instr::Compute(_, _, _, _) => false,
        Instr::Load(_, _, _, _) => false,
        Instr::Branch(_, _, _) => false,
        Instr::Fence(_) => false,
    }
}

// The set with the registers that x writes.
pub fn written(set: u16, x: Instr) -> u16
    ensures { Writing set x result }
{
    match x {
        Instr::Compute(_, r, _, _) => writing(set, r),
        Instr::Load(_, r, _, _) => writing(set, r),
        Instr::Store(_, _, _) => set,
        Instr::Branch(_, _, _) => set,
        Instr::Fence(_) => set,
    }
}

// The least time at which a store with this pre-view, or a larger one, can be.
fn later(pre: u8) -> u8
    ensures { ((t : ℕ) → pre < t → result ≤ t) × (pre ≤ result) }
{
    if pre < 255 { pre + 1 } else { pre }
}

// The least views that x leaves where they are v at least, whatever it reads and at whichever time it stores.
fn leaves(x: Instr, v: Views) -> Views
    ensures { Leaves x v result }
{
    match x {
        Instr::Load(k, _, _, _) => load_views(k, 0, load_pre(k, 0, v), v),
        Instr::Store(k, _, _) => store_views(k, later(store_pre(k, 0, 0, v)), 0, v),
        Instr::Fence(k) => fence_views(k, v),
        Instr::Compute(_, _, _, _) => v,
        Instr::Branch(_, _, _) => v,
    }
}

// The same where every way leads through x, if that is certain.
pub fn passing(x: Instr, v: Views, certain: bool) -> Views
    ensures { Passing x v certain result }
{
    if certain { leaves(x, v) } else { v }
}

// The position up to which branches lead, with that of x at a position.
pub fn farther(x: Instr, at: u8, far: u16) -> u16
    ensures { Farther x at far result }
{
    match x {
        Instr::Branch(n, _, _) => {
            let to = at as u16 + 1 + n as u16;
            if to <= far { far } else { to }
        }
        Instr::Compute(_, _, _, _) => far,
        Instr::Load(_, _, _, _) => far,
        Instr::Store(_, _, _) => far,
        Instr::Fence(_) => far,
    }
}
