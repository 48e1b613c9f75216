// The listing: all outcomes of the complete accepted sequences, each once, with a budget.
#![tactic(auto)]

ghost use Rattle.std.specs.Prelude.{◌≡◌, T};
ghost use Rattle.program.specs.WellFormed.{program_test};
ghost use Rattle.outcomes.specs.Answers.{nothing_listed, Listed, ListedWithin};
ghost use Rattle.outcomes.specs.Inner.{ListsOn};

use encode_bytes::clear_front;
use file_reader::read;
use machine::machines::fresh;
use program::{Program, Refused};
use search_arrivals::{Aim, Ran};
use search_outcomes::{Sheet, row_width};
use search_table::clear;
use search_visits::visit;

// Too many: there are more outcomes than the table has entries.
#[derive(Clone, Copy)]
pub enum Verdict {
    Finished,
    TooMany,
    NotFinished,
}

// The count is the number of all sequences, also where there are too many outcomes, or the budget; the number is that of the outcomes,
// 0 unless finished.
#[derive(Clone, Copy)]
pub struct Answer {
    pub verdict: Verdict,
    pub count: u64,
    pub number: usize,
}

fn nothing_listed(verdict: Verdict, count: u64) -> Answer
    ensures { result ≡ nothing_listed verdict count }
{
    Answer {
        verdict: verdict,
        count: count,
        number: 0,
    }
}

// The listing of a program that is well formed. Both tables may hold anything before.
fn list_program(
    p: Program,
    budget: u64,
    wide: bool,
    table: &mut [u8],
    machines: &mut [u8],
) -> Answer
    requires { T (program_test p) }
    ensures { ListsOn p wide budget table.old machines.old result table.new machines.new }
{
    let w = row_width(wide);
    let room = table.len() / w;
    clear_front(table, w * room);
    clear(machines);
    let mut sheet = Sheet { met: 0, budget };
    let ran = visit(
        p,
        fresh(),
        Aim::Outcomes(wide),
        0,
        budget,
        table,
        &mut sheet,
        machines,
    );
    clear(machines);
    if let Ran::Going(rest) = ran {
        let met = sheet.met;
        if met <= room as u64 {
            return Answer {
                verdict: Verdict::Finished,
                count: budget - rest,
                number: met as usize,
            };
        }
        clear_front(table, w * room);
        return nothing_listed(Verdict::TooMany, budget - rest);
    }
    clear_front(table, w * room);
    nothing_listed(Verdict::NotFinished, budget)
}

// The listing with a table of machines that is lent to it, of any length: the same answer, the sooner the longer the table. Entries
// have places of 64 bits.
pub fn outcomes_within(
    file: &[u8],
    budget: u64,
    table: &mut [u8],
    machines: &mut [u8],
) -> Result<Answer, Refused>
    ensures { ListedWithin file.now budget table.old machines.old result table.new machines.new }
{
    // No `?`, which would copy the program: what the call takes of the stack stands in the header for C.
    match read(file) {
        Ok(p) => Ok(list_program(p, budget, true, table, machines)),
        Err(e) => Err(e),
    }
}

// The plain listing: without a table of machines, and with budget and places of 32 bits.
pub fn outcomes(file: &[u8], budget: u32, table: &mut [u8]) -> Result<Answer, Refused>
    ensures { Listed file.now budget table.old result table.new }
{
    let mut none = [0u8; 0];
    match read(file) {
        Ok(p) => Ok(list_program(p, budget as u64, false, table, &mut none)),
        Err(e) => Err(e),
    }
}
