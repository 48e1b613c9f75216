// A step asked of any program and machine: whether they are well formed is tested once, here.
ghost use Rattle.std.specs.Prelude.{◌≡◌};
ghost use Rattle.step.specs.Step.{step};
ghost use Rattle.step.specs.Answers.{stepped};

use crate::{TraceStep, rule_step};
use machine::Machine;
use machine_form::both_formed;
use program::{Program, Refusal};

// The machine after the step, or why it is refused.
pub fn step(p: Program, x: Machine, k: TraceStep) -> Result<Machine, Refusal>
    ensures { result ≡ stepped (step p x k) }
{
    if both_formed(p, x) {
        rule_step(p, x, k)
    } else {
        Err(Refusal::NotWellFormed)
    }
}
