// The instructions that touch no memory: compute, branch, fence.
ghost use Rattle.std.specs.Prelude.{◌≡◌, ◌+◌, ◌<◌, ◌≤◌};
ghost use Rattle.machine.specs.Rules.{combine, compute_done, branch_by, branch_done, fence_views, fence_done};

use crate::operands::{value_of, view_of_both};
use machine::merge::larger;
use machine::{Thread, Views};
use program::{ComputeMode, FenceMode, Operand};

pub fn combine(k: ComputeMode, x: u8, y: u8) -> u8
    ensures { result ≡ combine k x y }
{
    match k {
        ComputeMode::Add => std::num::wrapping_add_u8(x, y),
        ComputeMode::Subtract => std::num::wrapping_sub_u8(x, y),
        ComputeMode::ExclusiveOr => x ^ y,
        ComputeMode::Equal => if x == y { 1 } else { 0 },
    }
}

pub fn compute_done(k: ComputeMode, r: u8, a: Operand, b: Operand, s: Thread) -> Thread
    requires { s.position + 1 < 256 }
    ensures { result ≡ compute_done k r a b s }
{
    let v = combine(k, value_of(s, a), value_of(s, b));
    s.with_register(r, v, view_of_both(s, a, b)).advance(1)
}

fn branch_by(equal: bool, n: u8) -> u8
    requires { n + 1 < 256 }
    ensures { (result ≡ branch_by equal n) × (result ≤ n + 1) }
{
    if equal { n + 1 } else { 1 }
}

pub fn branch_done(n: u8, a: Operand, b: Operand, s: Thread) -> Thread
    requires { s.position + (n + 1) < 256 }
    ensures { result ≡ branch_done n a b s }
{
    let by = branch_by(value_of(s, a) == value_of(s, b), n);
    s.with_views(s.views.raise_cap(view_of_both(s, a, b)))
        .advance(by)
}

pub fn fence_views(k: FenceMode, w: Views) -> Views
    ensures { result ≡ fence_views k w }
{
    match k {
        FenceMode::DmbSy => {
            let v = larger(w.rOld, w.wOld);
            w.raise_r_new(v).raise_w_new(v)
        }
        FenceMode::DmbLd => w.raise_r_new(w.rOld).raise_w_new(w.rOld),
        FenceMode::DmbSt => w.raise_w_new(w.wOld),
        FenceMode::Isb => w.raise_r_new(w.cap),
    }
}

pub fn fence_done(k: FenceMode, s: Thread) -> Thread
    requires { s.position + 1 < 256 }
    ensures { result ≡ fence_done k s }
{
    s.with_views(fence_views(k, s.views)).advance(1)
}
