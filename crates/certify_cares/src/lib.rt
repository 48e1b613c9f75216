// What a failure rests on: for each register, how much of what it holds had to be so. A care has a code, which is the care modulo 65536: 0 asks
// nothing; 2 for the value; 256 + e no more than that it is not e; 512 + e that it is e or more; 768 + e that it is less than e. And it has a
// set of locations, which is the care / 65536: as an address the value is of the location that it was of, or of none in the set.
// It is a word and no enum: joins need no branch, and a run is written into the same words (`certify_trail`; fixed memory, the stack figures).
#![tactic(auto)]

pub mod barred;
pub mod before;

ghost use Rattle.std.specs.Prelude.{◌≡◌, true, ℕ, ◌*◌};
ghost use Rattle.machine.specs.Rules.{value_of};
ghost use Rattle.certify_cares.specs.Cares.{Coded, Agrees, care_of, Agreeing, AgreeingBut, Covers};

use barred::marked;
use machine::Thread;
use program::Operand;

#[derive(Clone, Copy)]
pub struct Cares {
    pub of: [u32; 8],
}

// The care that asks for no more than that the location is none of the set, or the same.
pub fn barring(set: u16) -> u32
    ensures { result ≡ 65536 * set }
{
    65536 * set as u32
}

// The value is one that the code allows instead of another.
fn allows(code: u32, y: u8) -> bool
    ensures { result ≡ true → Coded code y }
{
    if code == 0 {
        return true;
    }
    if code < 256 {
        return false;
    }
    if code < 512 {
        return code != 256 + y as u32;
    }
    if code < 768 {
        return code <= 512 + y as u32;
    }
    768 + (y as u32) < code
}

// The two values are the same as far as the care asks.
pub fn agrees(care: u32, x: u8, y: u8) -> bool
    ensures { result ≡ true → Agrees care x y }
{
    if x == y {
        return true;
    }
    if !allows(care % 65536, y) {
        return false;
    }
    if x % 16 == y % 16 {
        return true;
    }
    !marked((care / 65536) as u16, y % 16)
}

// A care that asks what both ask. Without a branch, so that the cares of all registers are joined at once.
pub fn joined(k: u32, l: u32) -> u32
    ensures { (x y : ℕ) → Agrees result x y → Agrees k x y × Agrees l x y }
{
    let a = k % 65536;
    let b = l % 65536;
    let both = k | l;
    if (a == b) | (a == 0) | (b == 0) {
        both
    } else {
        both / 65536 * 65536 + 2
    }
}

impl Cares {
    // What rests on nothing.
    pub const NONE: Cares = Cares { of: [0; 8] };

    // The care for register r.
    pub fn of_register(self, r: u8) -> u32
        ensures { result ≡ care_of self.of r }
    {
        if 8 <= r {
            return 2;
        }
        self.of[r as usize]
    }

    // What both rest on.
    pub fn and(self, other: Cares) -> Cares
        ensures { Covers result.of self.of × Covers result.of other.of }
    {
        let mut of = self.of;
        for j in 0..8 {
            of[j] = joined(of[j], other.of[j]);
        }
        Cares { of }
    }

    // It rests on the operand too, as the care says.
    pub fn noting(self, a: Operand, care: u32) -> Cares
        ensures { (s s' : Thread) → Agreeing result.of s s' → Agreeing self.of s s' × Agrees care (value_of s a) (value_of s' a) }
    {
        match a {
            Operand::Constant(_) => self,
            Operand::OfRegister(n) => {
                if 8 <= n {
                    return self;
                }
                let mut of = self.of;
                of[n as usize] = joined(of[n as usize], care);
                Cares { of }
            }
        }
    }

    // Before register r is written: what it held does not count.
    pub fn forgetting(self, r: u8) -> Cares
        ensures { (s s' : Thread) → Agreeing result.of s s' → AgreeingBut self.of r s s' }
    {
        if 8 <= r {
            return self;
        }
        let mut of = self.of;
        of[r as usize] = 0;
        Cares { of }
    }
}
