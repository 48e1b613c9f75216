// Times at which a load need not be tried: an earlier one has failed, and what it left differs in nothing that counted.
#![tactic(auto)]

ghost use Rattle.std.specs.Prelude.{◌≡◌, true, cond, ◌≤◌, ◌<◌, eqb};
ghost use Rattle.certify_cares.specs.Cares.{Agrees};
ghost use Rattle.certify_vain.specs.Tries.{Doubled, Vain, LeftOut, PassedOver};

use certify_cares::agrees;
use machine::promises::{has, without};
use machine::{Forward, Memory, Thread};
use program::Instr;
use rules::operands::{address_of_sum, value_of};
use rules_loads::read_value;
use rules_times::after;

// A try, if it was made (its care is not 3), left no larger view than another leaves, and the same value as far as that counted.
fn no_better(care: u32, view: u8, value: u8, limit: u8, wanted: u8) -> bool
    ensures { result ≡ true → (care ≡ 3 → ⊥) × ((view ≤ limit) × Agrees care value wanted) }
{
    if care == 3 {
        return false;
    }
    if limit < view {
        return false;
    }
    agrees(care, value, wanted)
}

// The read view at time t, by the forward pair of the location.
fn view_by(pair: Forward, t: u8) -> u8
    ensures { result ≡ cond (eqb t pair.time) pair.view t }
{
    if t == pair.time { pair.view } else { t }
}

// A time before t was tried with a view no larger than t's and a value that matches.
fn doubled(m: Memory, s: Thread, l: u8, counted: [u32; 17], t: u8) -> bool
    requires { (l < 16) × (t ≤ 16) }
    ensures { result ≡ true → Doubled m s l counted t }
{
    let pair = s.forward_at(l);
    let value = read_value(m, t);
    let view = view_by(pair, t);
    for u in 0..t {
        if no_better(
            counted[u as usize],
            view_by(pair, u),
            read_value(m, u),
            view,
            value,
        ) {
            return true;
        }
    }
    false
}

// Where the tries before t have come to nothing, the try at t comes to nothing too.
pub fn in_vain(m: Memory, s: Thread, x: Instr, counted: [u32; 17], t: u8) -> bool
    requires { t ≤ 16 }
    ensures { result ≡ true → Vain m s x counted t }
{
    match x {
        Instr::Load(_, _, a, b) => {
            let l = address_of_sum(value_of(s, a), value_of(s, b));
            doubled(m, s, l, counted, t)
        }
        Instr::Store(_, _, _) => false,
        Instr::Compute(_, _, _, _) => false,
        Instr::Branch(_, _, _) => false,
        Instr::Fence(_) => false,
    }
}

// The set without time u, if u is in it.
fn left_out(p: u16, u: u8) -> u16
    ensures { LeftOut p u result }
{
    if has(p, u) { without(p, u) } else { p }
}

// The times of a set at which a load is worth a try still, after the try at time t has failed: what a later one leaves in the register must
// differ in what counted, or come with a smaller view.
pub fn passed_over(later: u16, m: Memory, s: Thread, l: u8, t: u8, care: u32) -> u16
    requires { (l < 16) × (t ≤ 16) }
    ensures { PassedOver m s l t care later result }
{
    let pair = s.forward_at(l);
    let value = read_value(m, t);
    let view = view_by(pair, t);
    let mut left = later;
    let mut u = after(later, t);
    // No `for`: the times of a set come from `after`, and an iterator over them would be a type of its own for the same lines.
    while u <= 16 {
        if no_better(care, view, value, view_by(pair, u), read_value(m, u)) {
            left = left_out(left, u);
        }
        u = after(later, u);
    }
    left
}
