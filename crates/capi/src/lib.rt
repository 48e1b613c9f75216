// The public calls on byte slices, for programs in C and Rust. Nothing is required of a caller. Each call returns 0; 1 where the
// answer area is shorter than the answer; 2 where a program or machine value has another length than stated. On 1 and 2 nothing
// is written; otherwise exactly the answer's bytes, and what the search and the listing leave in the areas that they are lent.
#![tactic(auto)]

ghost use Rattle.std.specs.Prelude.{◌≡◌, [], ◌∷◌};
ghost use Rattle.capi.specs.Calls.{called, read_call, step_call, certify_call, replay_call, called_beside, search_call, within_call, outcomes_call, outcomes_within_call};

use certify::certify;
use encode_answers::{
    put_certified, put_listed, put_listed_within, put_read, put_replayed, put_searched,
    put_stepped, put_within,
};
use encode_machine::machine_of;
use encode_program::program_of;
use file_reader::read;
use outcomes::{outcomes, outcomes_within};
use search::{search, search_within};
use step::{TraceStep, step};
use trace_replay::replay;

// The program of a file, as a program value; 495 bytes.
#[unsafe(no_mangle)]
pub extern "C" fn blyskota_read(file: &[u8], answer: &mut [u8]) -> u32
    ensures { called result answer.new ≡ read_call file.now answer.old }
{
    if answer.len() < 495 {
        return 1;
    }
    put_read(answer, read(file));
    0
}

// One step on a machine value; 342 bytes.
#[unsafe(no_mangle)]
pub extern "C" fn blyskota_step(
    program: &[u8],
    machine: &[u8],
    kind: u8,
    thread: u8,
    a: u8,
    b: u8,
    answer: &mut [u8],
) -> u32
    ensures { called result answer.new ≡ step_call program.now machine.now (record { kind = kind; thread = thread; a = a; b = b }) answer.old }
{
    if answer.len() < 342 {
        return 1;
    }
    if program.len() != 487 {
        return 2;
    }
    if machine.len() != 341 {
        return 2;
    }
    let k = TraceStep {
        kind: kind,
        thread: thread,
        a: a,
        b: b,
    };
    let x = machine_of(machine);
    put_stepped(answer, x, step(program_of(program), x, k));
    0
}

// Whether a thread is certified on a machine value, with the first run that shows it; 36 bytes.
#[unsafe(no_mangle)]
pub extern "C" fn blyskota_certify(
    program: &[u8],
    machine: &[u8],
    thread: u8,
    answer: &mut [u8],
) -> u32
    ensures { called result answer.new ≡ certify_call program.now machine.now thread answer.old }
{
    if answer.len() < 36 {
        return 1;
    }
    if program.len() != 487 {
        return 2;
    }
    if machine.len() != 341 {
        return 2;
    }
    put_certified(
        answer,
        certify(program_of(program), machine_of(machine), thread),
    );
    0
}

// The replay of a trace file on a program file; 357 bytes.
#[unsafe(no_mangle)]
pub extern "C" fn blyskota_replay(file: &[u8], trace: &[u8], answer: &mut [u8]) -> u32
    ensures { called result answer.new ≡ replay_call file.now trace.now answer.old }
{
    if answer.len() < 357 {
        return 1;
    }
    put_replayed(answer, replay(file, trace));
    0
}

// The search on a program file with a budget, and a trace area that is lent to it; 12 bytes.
#[unsafe(no_mangle)]
pub extern "C" fn blyskota_search(
    file: &[u8],
    budget: u32,
    area: &mut [u8],
    answer: &mut [u8],
) -> u32
    ensures { called_beside result answer.new (area.new ∷ []) ≡ search_call file.now budget area.old answer.old }
{
    if answer.len() < 12 {
        return 1;
    }
    put_searched(answer, search(file, budget, area));
    0
}

// The same with a budget and a count of 64 bits, and a table that is lent to it besides, of any length; 16 bytes.
#[unsafe(no_mangle)]
pub extern "C" fn blyskota_search_within(
    file: &[u8],
    budget: u64,
    area: &mut [u8],
    table: &mut [u8],
    answer: &mut [u8],
) -> u32
    ensures { called_beside result answer.new (area.new ∷ table.new ∷ []) ≡ within_call file.now budget area.old table.old answer.old }
{
    if answer.len() < 16 {
        return 1;
    }
    put_within(answer, search_within(file, budget, area, table));
    0
}

// All outcomes of a program file with a budget, and a table for them that is lent; 16 bytes.
#[unsafe(no_mangle)]
pub extern "C" fn blyskota_outcomes(
    file: &[u8],
    budget: u32,
    table: &mut [u8],
    answer: &mut [u8],
) -> u32
    ensures { called_beside result answer.new (table.new ∷ []) ≡ outcomes_call file.now budget table.old answer.old }
{
    if answer.len() < 16 {
        return 1;
    }
    put_listed(answer, outcomes(file, budget, table));
    0
}

// The same with a budget and a count of 64 bits, and a table of machines that is lent besides, of any length; 24 bytes.
#[unsafe(no_mangle)]
pub extern "C" fn blyskota_outcomes_within(
    file: &[u8],
    budget: u64,
    outcomes: &mut [u8],
    table: &mut [u8],
    answer: &mut [u8],
) -> u32
    ensures { called_beside result answer.new (outcomes.new ∷ table.new ∷ []) ≡ outcomes_within_call file.now budget outcomes.old table.old answer.old }
{
    if answer.len() < 24 {
        return 1;
    }
    put_listed_within(answer, outcomes_within(file, budget, outcomes, table));
    0
}
