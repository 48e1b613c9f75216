// The search: every accepted sequence in order, with a budget. A sequence is visited before its extensions.
#![tactic(auto)]

ghost use Rattle.std.specs.Prelude.{◌≡◌, ◌≤◌, T, length};
ghost use Rattle.program.specs.WellFormed.{program_test};
ghost use Rattle.search.specs.Answers.{Searched, SearchedWithin, cleared};
ghost use Rattle.search.specs.Inner.{AnswersOn};

use file_reader::read;
use machine::machines::fresh;
use program::{Program, Refusal, Refused};
use search_arrivals::{Aim, Ran};
use search_outcomes::Sheet;
use search_table::clear;
use search_visits::visit;

#[derive(Clone, Copy)]
pub enum Verdict {
    Allowed,
    Forbidden,
    NotFinished,
}

// The count is the place of the sequence found, or the number of all, or the budget; the steps are those of the trace, 0 unless allowed.
#[derive(Clone, Copy)]
pub struct Answer {
    pub verdict: Verdict,
    pub count: u64,
    pub steps: usize,
}

// The search on a program that is well formed, with an area that has room for every trace. The table may hold anything before.
fn search_program(p: Program, budget: u64, area: &mut [u8], table: &mut [u8]) -> Answer
    requires { T (program_test p) × (480 ≤ length area.old) }
    ensures { AnswersOn p budget result area.old area.new × (table.new ≡ cleared table.old) }
{
    clear(table);
    let mut sheet = Sheet { met: 0, budget: 0 };
    let ran = visit(
        p,
        fresh(),
        Aim::Question,
        0,
        budget,
        area,
        &mut sheet,
        table,
    );
    clear(table);
    match ran {
        Ran::Going(b) => Answer {
            verdict: Verdict::Forbidden,
            count: budget - b,
            steps: 0,
        },
        Ran::Found(b, n) => Answer {
            verdict: Verdict::Allowed,
            count: budget - b,
            steps: n,
        },
        Ran::Out => Answer {
            verdict: Verdict::NotFinished,
            count: budget,
            steps: 0,
        },
    }
}

// The search with a table that is lent to it, of any length: the same answer, the sooner the longer the table. A refused search
// leaves the table as it was, any other leaves it all 0.
pub fn search_within(
    file: &[u8],
    budget: u64,
    area: &mut [u8],
    table: &mut [u8],
) -> Result<Answer, Refused>
    ensures { SearchedWithin file.now budget area.old table.old result area.new table.new }
{
    // No `?`, which would copy the program: what the call takes of the stack stands in the header for C.
    match read(file) {
        Ok(p) => if area.len() < 480 {
            Err(Refusal::ShortArea.at(0))
        } else {
            Ok(search_program(p, budget, area, table))
        },
        Err(e) => Err(e),
    }
}

// The plain search: without a table, and with a budget of 32 bits.
pub fn search(file: &[u8], budget: u32, area: &mut [u8]) -> Result<Answer, Refused>
    ensures { Searched file.now budget area.old result area.new }
{
    let mut none = [0u8; 0];
    search_within(file, budget as u64, area, &mut none)
}
