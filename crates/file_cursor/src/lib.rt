// The reading of a program file between two records: where it stands, and the start of a record. Each record begins with a mark of two bytes.
#![tactic(auto)]

ghost use Rattle.std.specs.Prelude.{◌≡◌, ◌≤◌, ◌<◌, length};
ghost use Rattle.program.specs.File.{Reading, marked};
ghost use Rattle.program.specs.Inner.{after};

use program::{Program, Refusal, Refused};

// How far the reading has come between two records: the place of the next one, the stores read so far, the program so far.
#[derive(Clone, Copy)]
pub struct Cursor {
    pub at: usize,
    pub stores: u8,
    pub program: Program,
}

// The record at a place is all there, with n body bytes, and has its mark.
pub fn marked(file: &[u8], at: usize, first: u8, second: u8, n: usize) -> Result<(), Refused>
    requires { (at ≤ length file.now) × (n < 8) }
    ensures { (on : Reading) → marked file.now at first second n on ≡ after result on }
{
    if file.len() - at < 2 + n {
        return Err(Refusal::InputEnds.at(at));
    }
    if (file[at] == first) & (file[at + 1] == second) {
        Ok(())
    } else {
        Err(Refusal::OtherMark.at(at))
    }
}
