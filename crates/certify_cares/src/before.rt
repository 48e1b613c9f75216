// What a failure rests on before an instruction that has one way to go on, by what it rests on after it. The cares are changed in place.
ghost use Rattle.std.specs.Prelude.{◌≡◌, ℕ, eqb, length};
ghost use Rattle.program.specs.Program.{operand, compute_mode};
ghost use Rattle.program.specs.declared.ComputeMode.TheVariants.{Add, Subtract, ExclusiveOr};
ghost use Rattle.machine.specs.Rules.{value_of, combine, branch_by};
ghost use Rattle.certify_cares.specs.Cares.{Agrees, care_of, Agreeing, AgreeingBut, first_of, second_of, no_step, Tells};

use crate::barred::turned;
use crate::{barring, joined};
use machine::Thread;
use program::Instruction;

// An instruction that a thread has gone through: what its operands held, and whether the first has a view that is at most the second's, so
// that it was most likely read earlier.
#[derive(Clone, Copy)]
pub struct Step {
    pub instruction: Instruction,
    pub first: u8,
    pub second: u8,
    pub earlier: bool,
}

impl Step {
    // What stands past the steps.
    pub const NONE: Step = Step {
        instruction: Instruction {
            op: 0,
            m: 0,
            r: 0,
            k1: 0,
            n1: 0,
            k2: 0,
            n2: 0,
        },
        first: 0,
        second: 0,
        earlier: false,
    };

    // The same, proved to be the one of the definitions.
    pub fn none() -> Step
        ensures { result ≡ no_step }
    {
        Step::NONE
    }
}

// The care for an instruction's first operand, and for its second.
#[derive(Clone, Copy)]
pub struct Shares {
    pub first: u32,
    pub second: u32,
}

// The same care for both.
fn both(k: u32) -> Shares
    ensures { (result.first ≡ k) × (result.second ≡ k) }
{
    Shares {
        first: k,
        second: k,
    }
}

// What a sum is as an address: the operand that was read earlier keeps its location, and the other is of none from which that leads into the
// set. That a sum is not e: the operand that was read earlier keeps its value, and the other is not what would be left of e. Any other result
// rests on the operands' values.
fn sum_shares(care: u32, x: u8, y: u8, earlier: bool) -> Shares
    ensures { (x' y' : ℕ) → Agrees result.first x x' → Agrees result.second y y' → Agrees care (combine Add x y) (combine Add x' y') }
{
    if care % 65536 == 0 {
        let set = (care / 65536) as u16;
        if earlier {
            return Shares {
                first: barring(65535),
                second: barring(turned(set, x)),
            };
        }
        return Shares {
            first: barring(turned(set, y)),
            second: barring(65535),
        };
    }
    if care < 256 {
        return both(2);
    }
    if 511 < care {
        return both(2);
    }
    if earlier {
        let left = 256 + (care % 256 + 256 - x as u32) % 256;
        return Shares {
            first: 2,
            second: left,
        };
    }
    let left = 256 + (care % 256 + 256 - y as u32) % 256;
    Shares {
        first: left,
        second: 2,
    }
}

// A difference like a sum, but for the second operand: the contract does not say that it is a byte, and past the first operand by more than
// 256 it leaves 0. So a difference as an address rests on the second operand's value, and so does one that is not 0.
fn difference_shares(care: u32, x: u8, y: u8, earlier: bool) -> Shares
    ensures { (x' y' : ℕ) → Agrees result.first x x' → Agrees result.second y y' → Agrees care (combine Subtract x y) (combine Subtract x' y') }
{
    if care % 65536 == 0 {
        return Shares {
            first: barring(turned((care / 65536) as u16, 16 - y % 16)),
            second: 2,
        };
    }
    if care < 256 {
        return both(2);
    }
    if 511 < care {
        return both(2);
    }
    if earlier && care != 256 {
        let taken = 256 + (x as u32 + 256 - care % 256) % 256;
        return Shares {
            first: 2,
            second: taken,
        };
    }
    let whole = 256 + (care % 256 + y as u32) % 256;
    Shares {
        first: whole,
        second: 2,
    }
}

// An exclusive or as an address rests on the locations of both operands. Else it is like a sum: what would be left of e is the exclusive or of
// e and the operand that keeps its value.
fn exclusive_shares(care: u32, x: u8, y: u8, earlier: bool) -> Shares
    ensures { (x' y' : ℕ) → Agrees result.first x x' → Agrees result.second y y' → Agrees care (combine ExclusiveOr x y) (combine ExclusiveOr x' y') }
{
    if care % 65536 == 0 {
        return both(barring(65535));
    }
    if care < 256 {
        return both(2);
    }
    if 511 < care {
        return both(2);
    }
    let e = (care % 256) as u8;
    if earlier {
        return Shares {
            first: 2,
            second: 256 + (x ^ e) as u32,
        };
    }
    Shares {
        first: 256 + (y ^ e) as u32,
        second: 2,
    }
}

// Whether the operands are equal. Where they differ, the one that was read earlier keeps its value, and the other is not that.
fn equal_shares(x: u8, y: u8, earlier: bool) -> Shares
    ensures { (x' y' : ℕ) → Agrees result.first x x' → Agrees result.second y y' → eqb x y ≡ eqb x' y' }
{
    if x == y {
        return both(2);
    }
    if earlier {
        return Shares {
            first: 2,
            second: 256 + x as u32,
        };
    }
    Shares {
        first: 256 + y as u32,
        second: 2,
    }
}

// What a computed value rests on, by its mode.
fn compute_shares(care: u32, m: u8, x: u8, y: u8, earlier: bool) -> Shares
    ensures { (x' y' : ℕ) → Agrees result.first x x' → Agrees result.second y y' → Agrees care (combine (compute_mode m) x y) (combine (compute_mode m) x' y') }
{
    if care == 0 {
        return both(0);
    }
    if m == 0 {
        return sum_shares(care, x, y, earlier);
    }
    if m == 1 {
        return difference_shares(care, x, y, earlier);
    }
    if m == 2 {
        return exclusive_shares(care, x, y, earlier);
    }
    equal_shares(x, y, earlier)
}

// A branch over no instruction goes one way; any other rests on whether the operands are equal.
fn branch_shares(n: u8, x: u8, y: u8, earlier: bool) -> Shares
    ensures { (x' y' : ℕ) → Agrees result.first x x' → Agrees result.second y y' → branch_by (eqb x y) n ≡ branch_by (eqb x' y') n }
{
    if n == 0 {
        return both(0);
    }
    equal_shares(x, y, earlier)
}

// The care for register r, which is about to be written: what it held does not count.
fn take(of: &mut [u32; 8], r: u8) -> u32
    requires { length of.old ≡ 8 }
    ensures of_len { length of.new ≡ 8 }
    ensures value { (result ≡ care_of of.old r) × ((s s' : Thread) → Agreeing of.new s s' → AgreeingBut of.old r s s') }
{
    if 8 <= r {
        return 2;
    }
    let care = of[r as usize];
    of[r as usize] = 0;
    care
}

// The operand (k, n) counts too, as the care says.
fn note(of: &mut [u32; 8], k: u8, n: u8, care: u32)
    requires { length of.old ≡ 8 }
    ensures of_len { length of.new ≡ 8 }
    ensures agreeing { (s s' : Thread) → Agreeing of.new s s' → Agreeing of.old s s' × Agrees care (value_of s (operand k n)) (value_of s' (operand k n)) }
{
    if k == 0 {
        return;
    }
    if 8 <= n {
        return;
    }
    of[n as usize] = joined(of[n as usize], care);
}

// Before a compute.
pub fn before_compute(of: &mut [u32; 8], e: Step)
    requires { length of.old ≡ 8 }
    ensures of_len { length of.new ≡ 8 }
    ensures agreeing_but { (s s' : Thread) → Tells e s → Agreeing of.new s s'
        → AgreeingBut of.old e.instruction.r s s'
        × Agrees (care_of of.old e.instruction.r) (combine (compute_mode e.instruction.m) (value_of s (first_of e.instruction)) (value_of s (second_of e.instruction))) (combine (compute_mode e.instruction.m) (value_of s' (first_of e.instruction)) (value_of s' (second_of e.instruction))) }
{
    let i = e.instruction;
    let care = take(of, i.r);
    let shares = compute_shares(care, i.m, e.first, e.second, e.earlier);
    note(of, i.k1, i.n1, shares.first);
    note(of, i.k2, i.n2, shares.second);
}

// Before a branch. One that compares an operand with itself goes one way.
pub fn before_branch(of: &mut [u32; 8], e: Step)
    requires { length of.old ≡ 8 }
    ensures of_len { length of.new ≡ 8 }
    ensures agreeing { (s s' : Thread) → Tells e s → Agreeing of.new s s'
        → Agreeing of.old s s'
        × (branch_by (eqb (value_of s (first_of e.instruction)) (value_of s (second_of e.instruction))) e.instruction.m ≡ branch_by (eqb (value_of s' (first_of e.instruction)) (value_of s' (second_of e.instruction))) e.instruction.m) }
{
    let i = e.instruction;
    if (i.k1 == i.k2) & (i.n1 == i.n2) {
        return;
    }
    let shares = branch_shares(i.m, e.first, e.second, e.earlier);
    note(of, i.k1, i.n1, shares.first);
    note(of, i.k2, i.n2, shares.second);
}
