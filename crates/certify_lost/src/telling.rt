// Positions at which it is worth to ask whether all is in vain. Only time hangs on it, so any answer would do.
ghost use Rattle.std.specs.Prelude.{◌≤◌};

use program::{Code, Instruction};

// A store, whose operands instruction i has, reads register r.
fn stores_from(i: Instruction, r: u8) -> bool {
    (i.op == 2) & (((i.k1 != 0) & (i.n1 == r)) | ((i.k2 != 0) & (i.n2 == r)))
}

// Register r comes into a store at position n or after it, before it is written again.
fn feeds(c: Code, n: u8, r: u8) -> bool
    requires { c.count ≤ 16 }
{
    for k in n..c.count {
        let i = c.instructions[k as usize];
        if stores_from(i, r) {
            return true;
        }
        if (i.op < 2) & (i.r == r) {
            return false;
        }
    }
    false
}

// The instruction before position n makes a difference to what can be seen of the stores ahead. A compute or a plain load does so only by the
// register that it writes; the answer before it has just been no. The last instruction is tried as quickly as it is looked at.
pub fn telling(c: Code, n: u8) -> bool
    requires { c.count ≤ 16 }
{
    if u16::from(c.count) <= u16::from(n) + 1 {
        return false;
    }
    if n == 0 {
        return true;
    }
    if 16 < n {
        return true;
    }
    let i = c.instructions[(n - 1) as usize];
    if (i.op == 0) | ((i.op == 1) & (i.m == 0)) {
        return feeds(c, n, i.r);
    }
    true
}
