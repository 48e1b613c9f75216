// Certification asked of any program, machine and thread: whether they are well formed is tested once, here.
ghost use Rattle.std.specs.Prelude.{◌≡◌};
ghost use Rattle.certify.specs.Answers.{certify};

use crate::show;
use certify_runs::Run;
use machine::Machine;
use machine_form::both_formed;
use program::{Program, Refusal};

// The first run that shows that the thread is certified, if it is; or why it is not asked.
pub fn certify(p: Program, x: Machine, i: u8) -> Result<Option<Run>, Refusal>
    ensures { result ≡ certify p x i }
{
    if !both_formed(p, x) {
        return Err(Refusal::NotWellFormed);
    }
    if p.threads <= i {
        return Err(Refusal::NoThread);
    }
    Ok(show(p.code_of(i), i, x.memory, x.thread_of(i)))
}
