// Loads that steer: what they read decides where other loads read, or which way the thread goes, and comes into no store. Only time hangs on
// it, so any answer would do. A set of registers has bit r for register r.
ghost use Rattle.std.specs.Prelude.{◌≤◌, ◌<◌};

use program::{Code, Instruction};

// All registers, and more: something comes into a store, or decides on one.
const ALL: u16 = 65535;

// The set of register r alone.
fn only(r: u8) -> u16 {
    1u16 << r % 16
}

// The register of an operand, if it has one.
fn of_operand(k: u8, n: u8) -> u16 {
    if k == 0 {
        return 0;
    }
    only(n)
}

// Instruction i reads a register of the set.
fn reads(i: Instruction, set: u16) -> bool {
    (of_operand(i.k1, i.n1) | of_operand(i.k2, i.n2)) & set != 0
}

// The set after an instruction that writes register r: with it, if what is written comes of the set; without it, if not, and if every way leads
// through the instruction.
fn after_write(set: u16, r: u8, of_set: bool, certain: bool) -> u16 {
    let with = set | only(r);
    if of_set {
        return with;
    }
    if certain {
        return with ^ only(r);
    }
    set
}

// How many instructions stand between the two ways of instruction i, if it is a branch that looks at the set.
fn branches(i: Instruction, set: u16) -> u8 {
    if i.op != 3 {
        return 0;
    }
    if !reads(i, set) {
        return 0;
    }
    i.m
}

// The registers that the m instructions from position n on write; ALL, if one of them stores or is a branch.
fn passed_over(c: Code, n: u8, m: u8) -> u16
    requires { c.count ≤ 16 }
{
    let mut set = 0u16;
    for k in n..c.count {
        if m <= k - n {
            return set;
        }
        let i = c.instructions[k as usize];
        if (i.op == 2) | (i.op == 3) {
            return ALL;
        }
        if i.op < 2 {
            set |= only(i.r);
        }
    }
    set
}

// The registers that hold what comes of those of the set, after instruction i at position k, through which every way leads if that is certain;
// ALL, if it comes into a store or decides on one.
fn followed(c: Code, k: u8, i: Instruction, set: u16, certain: bool) -> u16
    requires { (c.count ≤ 16) × (k < 16) }
{
    let of_set = reads(i, set);
    if i.op < 2 {
        return after_write(set, i.r, of_set, certain);
    }
    if !of_set {
        return set;
    }
    if (i.op == 2) | (i.k1 == 0) | (i.k2 == 0) {
        return ALL;
    }
    set | passed_over(c, k + 1, i.m)
}

// The instruction at position n is a load that steers. What it reads is followed to the end, or until nothing holds it any more; over a branch
// that looks at it, both ways at once. From position `joined` on, all ways have come together again.
// The position skips what such a branch passes over, so it is no `for` over a range.
pub fn steers(c: Code, n: u8) -> bool
    requires { (c.count ≤ 16) × (n < 16) }
{
    let load = c.instructions[n as usize];
    if load.op != 1 {
        return false;
    }
    let mut set = only(load.r);
    let mut joined = 0u16;
    let mut k = n + 1;
    while k < c.count {
        let i = c.instructions[k as usize];
        let over = branches(i, set);
        set = followed(c, k, i, set, joined <= u16::from(k));
        if i.op == 3 {
            joined = joined.max(u16::from(k) + 1 + u16::from(i.m));
        }
        if (set == 0) | (set == ALL) {
            return set == 0;
        }
        k += 1;
        if c.count - k <= over {
            return true;
        }
        k += over;
    }
    true
}
