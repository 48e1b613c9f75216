// The rules: one instruction executed at a time.
#![tactic(auto)]

pub mod operands;
pub mod plain;

ghost use Rattle.std.specs.Prelude.{◌≡◌, ◌+◌, ◌^◌, ◌<◌, ◌≤◌};
ghost use Rattle.machine.specs.Rules.{execute};
ghost use Rattle.machine.specs.Inner.{ruled, reach, own_store};

use crate::operands::{address, address_of_sum, value_of, view_of, view_of_both};
use crate::plain::{branch_done, compute_done, fence_done};
use machine::{Memory, Thread};
use program::{Instr, Operand, Refusal, StoreMode};
use rules_loads::load_at;
use rules_stores::{own_at, store_at};

// Only loads and stores have times other than 0.
pub fn execute(x: Instr, m: Memory, t: u8, s: Thread) -> Result<Thread, Refusal>
    requires { (s.position + reach x < 256) × (m.count ≤ 16) }
    ensures { result ≡ ruled (execute x m t s) }
{
    match x {
        Instr::Compute(k, r, a, b) => if t == 0 {
            Ok(compute_done(k, r, a, b, s))
        } else {
            Err(Refusal::NoMessage)
        },
        Instr::Load(k, r, a, b) => {
            let l = address_of_sum(value_of(s, a), value_of(s, b));
            load_at(k, r, m, t, l, view_of_both(s, a, b), s)
        }
        Instr::Store(k, a, d) => {
            let l = address(value_of(s, a));
            store_at(k, m, t, l, value_of(s, d), view_of(s, a), view_of(s, d), s)
        }
        Instr::Branch(n, a, b) => if t == 0 {
            Ok(branch_done(n, a, b, s))
        } else {
            Err(Refusal::NoMessage)
        },
        Instr::Fence(k) => if t == 0 {
            Ok(fence_done(k, s))
        } else {
            Err(Refusal::NoMessage)
        },
    }
}

// A store of thread i that appends its own message to m and fulfils it at once.
pub fn own_store(
    k: StoreMode,
    a: Operand,
    d: Operand,
    m: Memory,
    i: u8,
    s: Thread,
) -> Result<Thread, Refusal>
    requires { (s.position + 1 < 256) × ((m.count < 16) × (s.promises < 2 ^ m.count)) }
    ensures { result ≡ ruled (own_store k a d m i s) }
{
    own_at(
        k,
        m.count + 1,
        address(value_of(s, a)),
        view_of(s, a),
        view_of(s, d),
        s,
    )
}
