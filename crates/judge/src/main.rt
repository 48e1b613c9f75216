// The printing program, `judge [BUDGET] < FILE`: a program file on standard input, its answer on standard output.
#![tactic(auto)]

mod answers;

ghost use Rattle.std.specs.Prelude.{◌≡◌, ◌*◌, ◌≤◌, length, IfOk, IfSome, OnErr};
ghost use Rattle.search.specs.Answers.{Searched};

use answers::answer;
use judge_budget::budget_of;
use program::Refused;
use search::Answer;
use std::env::{Env, FillError};
use std::io;
use std::io::Read;
use text::read_full;

fn complain(rt: &impl Eprint, what: &str) -> io::Result<()> {
    eprintln!(rt; "judge: {what}")
}

// The answer to the whole input, of which it reads at most 4,096 bytes: a longer one has the answer of those (`long_answer`,
// proofs/Long.antt).
fn judged<R: Read>(
    input: &mut R,
    budget: u64,
    area: &mut [u8; 480],
) -> io::Result<Result<Answer, Refused>>
    ensures stays { OnErr result (area.new ≡ area.old) }
    ensures trace { IfOk result (λ r. IfOk r (λ a. 6 * a.steps ≤ length area.new)) }
    ensures whole { IfOk result (λ r. IfSome (R.remaining input.old) (λ file. Searched file budget area.old r area.new)) }
{
    let mut file = [0u8; 4096];
    let n = read_full(input, &mut file)?;
    let mut table = search_table::empty();
    Ok(search::search_within(&file[..n], budget, area, &mut table))
}

fn judge_input(rt: &(impl Input + Print + Eprint), budget: u64) -> io::Result<()> {
    let mut area = [0u8; 480];
    match judged(&mut rt.reader(), budget, &mut area) {
        Ok(r) => answer(rt, r, &area),
        Err(_) => complain(rt, "standard input cannot be read"),
    }
}

// What the first argument gives, and 1,000,000 where there is none. One of more than 4,096 bytes is no budget.
fn given(rt: &impl Env) -> Option<u64> {
    let mut text = [0u8; 4096];
    match rt.arg(1, &mut text) {
        Ok(len) => budget_of(&text[..len]),
        Err(FillError::NotPresent) => Some(1000000),
        Err(FillError::TooLong) => None,
    }
}

fn has_second_argument(rt: &impl Env) -> bool {
    let mut none = [0u8; 0];
    !matches!(rt.arg(2, &mut none), Err(FillError::NotPresent))
}

// An argument that is no budget, an empty one, one of more than 4,096 bytes, or a second one is refused.
fn main(rt: HostRuntime) -> io::Result<()> {
    if has_second_argument(&rt) {
        return complain(&rt, "one budget at most");
    }
    match given(&rt) {
        Some(budget) => judge_input(&rt, budget),
        None => complain(
            &rt,
            "the budget is a decimal number from 0 to 18446744073709551615, or all",
        ),
    }
}
