// What lies ahead in a thread's code: whether stores enough are left, and which loads come into none.
#![tactic(auto)]

pub mod steering;

ghost use Rattle.std.specs.Prelude.{◌≡◌, false, ◌≤◌, ltb};
ghost use Rattle.program.specs.Counts.{stores_from};
ghost use Rattle.certify_ahead.specs.Loadless.{Loadless};

use program::Code;

// Fewer than k stores stand at position n and after it.
pub fn fewer_stores(c: Code, n: u8, k: u32) -> bool
    requires { c.count ≤ 16 }
    ensures { result ≡ ltb (stores_from c n) k }
{
    let mut found = 0u32;
    for at in n..c.count {
        if k <= found {
            return false;
        }
        let x = c.instructions[at as usize];
        found += u32::from(x.one_store());
    }
    found < k
}

// A load stands at position n or after it.
pub fn loads_ahead(c: Code, n: u8) -> bool
    requires { c.count ≤ 16 }
    ensures { result ≡ false → Loadless c n }
{
    for k in n..c.count {
        let i = c.instructions[k as usize];
        if i.op == 1 {
            return true;
        }
    }
    false
}
