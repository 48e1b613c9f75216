// What is known after some tries of an instruction, and whether anything can come of another.
#![tactic(auto)]

pub mod blind;

ghost use Rattle.std.specs.Prelude.{◌≡◌, true, ◌+◌, ◌≤◌, ◌<◌, ltb, replicate};
ghost use Rattle.std.specs.Int.Count.{ones};
ghost use Rattle.program.specs.Counts.{stores_from};
ghost use Rattle.certify_tried.specs.Tried.{Appends, Hopeless, Noted};

use certify_ahead::fewer_stores;
use certify_cares::Cares;
use certify_sought::Met;
use certify_vain::in_vain;
use machine::merge::smaller;
use machine::{Memory, Thread};
use program::{Code, Instr};

// The two least numbers met; and what it rests on that no other is met that is sought. Where none is sought any more, it rests on nothing; where it is
// an empty promise set that was sought and met, the words of the cares hold the run that came to it (`certify_trail`).
#[derive(Clone, Copy)]
pub struct Reached {
    pub met: Met,
    pub cares: Cares,
}

// After some tries of an instruction: the numbers met; how many tries were made, two for more; what they rest on; for each time at which a load
// was tried how much of what it left in its register counted, 3 for the others; and whether they are apart: the tries of a load of a location
// without a message tell of those of all such locations. 3 is a code of no care, so that the times take one word each (the stack figures).
#[derive(Clone, Copy)]
pub struct Tried {
    pub met: Met,
    pub tries: u8,
    pub cares: Cares,
    pub counted: [u32; 17],
    pub apart: bool,
}

impl Tried {
    // What the tries so far have met, and what that rests on.
    pub fn so_far(self) -> Reached
        ensures { result ≡ record { met = self.met; cares = self.cares } }
    {
        let met = self.met;
        let cares = self.cares;
        Reached { met, cares }
    }

    // The tries with these numbers met, and these cares. Each field is named, since `..self` takes more of the stack of a search of runs.
    pub fn having(self, met: Met, cares: Cares) -> Tried
        ensures { result ≡ record { met = met; tries = self.tries; cares = cares; counted = self.counted; apart = self.apart } }
    {
        let counted = self.counted;
        Tried {
            met,
            tries: self.tries,
            cares,
            counted,
            apart: self.apart,
        }
    }
}

// More promises are outstanding than stores are left at position n and after it.
fn crowded(c: Code, n: u8, s: Thread) -> bool
    requires { c.count ≤ 16 }
    ensures { result ≡ ltb (stores_from c n) (ones s.promises) }
{
    fewer_stores(c, n, u16::count_ones(s.promises))
}

// Nothing can come of a try at time t: an earlier one has failed, and what it left differs in nothing that counted; or stores are too few for
// all promises, which is asked after the first try.
pub fn hopeless(c: Code, m: Memory, s: Thread, x: Instr, t: u8, p: Tried) -> bool
    requires { (c.count ≤ 16) × ((m.count ≤ 16) × (t ≤ 16)) }
    ensures { result ≡ true → Hopeless c m s x p.counted t }
{
    if p.tries == 0 {
        return false;
    }
    let counted = p.counted;
    if in_vain(m, s, x, counted, t) {
        return true;
    }
    if p.tries == 1 {
        return crowded(c, s.position, s);
    }
    false
}

// Before the first try of an instruction: what is known otherwise.
pub fn untried(known: Reached) -> Tried
    ensures { result ≡ record { met = known.met; tries = 0; cares = known.cares; counted = replicate 17 3; apart = true } }
{
    let met = known.met;
    let cares = known.cares;
    Tried {
        met,
        tries: 0,
        cares,
        counted: [3; 17],
        apart: true,
    }
}

// What a try at time t, which was apart or not, adds to what is known.
pub fn noted(x: Instr, t: u8, p: Tried, sub: Reached, apart: bool) -> Tried
    requires { t ≤ 16 }
    ensures { Noted x t p sub apart result }
{
    let before = p.cares;
    let now = sub.cares;
    let met = sub.met;
    let mut counted = p.counted;
    match x {
        Instr::Load(_, r, _, _) => {
            counted[t as usize] = now.of_register(r);
            Tried {
                met,
                tries: smaller(p.tries, 1) + 1,
                cares: now.forgetting(r).and(before),
                counted,
                apart: p.apart & apart,
            }
        }
        Instr::Store(_, _, _) => Tried {
            met,
            tries: smaller(p.tries, 1) + 1,
            cares: now.and(before),
            counted,
            apart: p.apart,
        },
        Instr::Compute(_, _, _, _) => p,
        Instr::Branch(_, _, _) => p,
        Instr::Fence(_) => p,
    }
}

// A store can append its own message, and stores enough are left then.
pub fn appends(c: Code, m: Memory, s: Thread, x: Instr) -> bool
    requires { (c.count ≤ 16) × (s.position + 1 < 256) }
    ensures { Appends c m s x result }
{
    match x {
        Instr::Store(_, _, _) => {
            if 16 <= m.count {
                return false;
            }
            !crowded(c, s.position + 1, s)
        }
        Instr::Load(_, _, _, _) => false,
        Instr::Compute(_, _, _, _) => false,
        Instr::Branch(_, _, _) => false,
        Instr::Fence(_) => false,
    }
}
