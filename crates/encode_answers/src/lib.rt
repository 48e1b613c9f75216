// The bytes of each answer, written at the start of an area that has room for them. What takes an answer of its own type is made of
// what takes numbers, where a refusal may be any number and have any value beside it.
#![tactic(auto)]

ghost use Rattle.std.specs.Prelude.{◌≡◌, ◌+◌, ◌≤◌, length};
ghost use Rattle.encode_bytes.specs.Places.{put};
ghost use Rattle.encode_numbers.specs.Cases.{search_steps};
ghost use Rattle.encode_answers.specs.Value.{file_bytes, read_bytes, machine_after_bytes, stepped_bytes, entry_bytes, entries_bytes, shown_bytes, certified_bytes, replay_bytes, replayed_bytes, front_bytes, found_bytes, searched_bytes, within_bytes, listing_bytes, listed_bytes, listed_within_bytes};

use certify_runs::{Run, RunStep};
use encode_bytes::{Encode, put_bytes, put_each, put_u32, put_u64};
use encode_machine::put_machine;
use encode_numbers::{
    certified_byte, listing_byte, listing_count, listing_refusal, outcomes_number, refusal_number,
    refused_number, refused_place, replay_file, replay_index, replay_place, replay_refusal,
    search_count, search_steps, verdict_byte, yes_byte,
};
use encode_program::put_program;
use machine::Machine;
use outcomes::Answer as Listed;
use program::{Program, Refusal, Refused};
use search::Answer;
use trace_replay::Replayed;

// A program stands there each time, beside a refusal too.
pub fn put_file(area: &mut [u8], refusal: u8, place: usize, p: Program)
    requires { 495 ≤ length area.old }
    ensures { area.new ≡ put 0 (file_bytes refusal place p) area.old }
{
    put_bytes(area, 0, &[refusal, 0, 0, 0]);
    put_u32(area, 4, place);
    put_program(area, 8, p);
}

// Where the file is refused, the program is that of all 0.
pub fn put_read(area: &mut [u8], r: Result<Program, Refused>)
    requires { 495 ≤ length area.old }
    ensures { area.new ≡ put 0 (read_bytes r) area.old }
{
    match r {
        Ok(p) => put_file(area, 0, 0, p),
        Err(e) => put_file(area, e.refusal.number(), e.place, Program::default()),
    }
}

// A machine stands there each time: what a step leaves, taken or refused.
pub fn put_machine_after(area: &mut [u8], refusal: u8, x: Machine)
    requires { 342 ≤ length area.old }
    ensures { area.new ≡ put 0 (machine_after_bytes refusal x) area.old }
{
    put_bytes(area, 0, &[refusal]);
    put_machine(area, 1, x);
}

// The step of machine x: where it is refused, the machine is as it came in.
pub fn put_stepped(area: &mut [u8], x: Machine, r: Result<Machine, Refusal>)
    requires { 342 ≤ length area.old }
    ensures { area.new ≡ put 0 (stepped_bytes x r) area.old }
{
    match r {
        Ok(y) => put_machine_after(area, 0, y),
        Err(refusal) => put_machine_after(area, refusal.number(), x),
    }
}

// Names the byte form of an entry of a run.
struct Bytes;

impl Encode<RunStep> for Bytes {
    ghost WIDTH = { 2 };

    ghost bytes = { entry_bytes };

    const WIDTH: usize = 2;

    fn put(area: &mut [u8], at: usize, s: &RunStep) {
        put_bytes(area, at, &[s.kind, s.time]);
    }
}

// The 16 entries of a run.
fn put_entries(area: &mut [u8], at: usize, r: Run)
    requires { at + 32 ≤ length area.old }
    ensures { area.new ≡ put at (entries_bytes r) area.old }
{
    put_each::<RunStep, Bytes, 16>(area, at, &r.steps);
}

// A run stands there each time, also where none shows it.
pub fn put_shown(area: &mut [u8], refusal: u8, certified: u8, run: Run)
    requires { 36 ≤ length area.old }
    ensures { area.new ≡ put 0 (shown_bytes refusal certified run) area.old }
{
    put_bytes(area, 0, &[refusal, certified, run.count, 0]);
    put_entries(area, 4, run);
}

pub fn put_certified(area: &mut [u8], r: Result<Option<Run>, Refusal>)
    requires { 36 ≤ length area.old }
    ensures { area.new ≡ put 0 (certified_bytes r) area.old }
{
    let refusal = refusal_number(&r);
    let certified = certified_byte(&r);
    match r {
        Ok(Some(run)) => put_shown(area, refusal, certified, run),
        Ok(None) => put_shown(area, refusal, certified, Run::default()),
        Err(_) => put_shown(area, refusal, certified, Run::default()),
    }
}

// What a replay says besides its machine, which is not copied with it.
#[derive(Clone, Copy)]
pub struct ReplayNumbers {
    pub refusal: u8,
    pub file: u8,
    pub complete: bool,
    pub holds: bool,
    pub steps: usize,
    pub index: usize,
    pub place: usize,
}

pub fn put_replay(area: &mut [u8], n: ReplayNumbers, x: Machine)
    requires { 357 ≤ length area.old }
    ensures { area.new ≡ put 0 (replay_bytes n x) area.old }
{
    let front = [n.refusal, n.file, yes_byte(n.complete), yes_byte(n.holds)];
    put_bytes(area, 0, &front);
    put_u32(area, 4, n.steps);
    put_u32(area, 8, n.index);
    put_u32(area, 12, n.place);
    put_machine(area, 16, x);
}

pub fn put_replayed(area: &mut [u8], r: Replayed)
    requires { 357 ≤ length area.old }
    ensures { area.new ≡ put 0 (replayed_bytes r) area.old }
{
    let a = r.answer;
    let numbers = ReplayNumbers {
        refusal: replay_refusal(a),
        file: replay_file(a),
        complete: r.complete,
        holds: r.holds,
        steps: r.steps,
        index: replay_index(a),
        place: replay_place(a),
    };
    put_replay(area, numbers, r.machine);
}

// What the answers of searches and of listings begin with.
pub fn put_front(area: &mut [u8], verdict: u8, refusal: u8, steps: u8, place: usize)
    requires { 8 ≤ length area.old }
    ensures { area.new ≡ put 0 (front_bytes verdict refusal steps place) area.old }
{
    let front = [verdict, refusal, steps, 0];
    put_bytes(area, 0, &front);
    put_u32(area, front.len(), place);
}

// What stands before the count of a search. No trace has more than 80 steps, so their number is a byte.
fn put_found(area: &mut [u8], r: Result<Answer, Refused>)
    requires { (8 ≤ length area.old) × (search_steps r ≤ 80) }
    ensures { area.new ≡ put 0 (found_bytes r) area.old }
{
    put_front(
        area,
        verdict_byte(r),
        refused_number(&r),
        search_steps(r) as u8,
        refused_place(&r),
    );
}

pub fn put_searched(area: &mut [u8], r: Result<Answer, Refused>)
    requires { (12 ≤ length area.old) × (search_steps r ≤ 80) }
    ensures { area.new ≡ put 0 (searched_bytes r) area.old }
{
    put_found(area, r);
    put_u32(area, 8, search_count(r) as usize);
}

// The same with a count of 64 bits.
pub fn put_within(area: &mut [u8], r: Result<Answer, Refused>)
    requires { (16 ≤ length area.old) × (search_steps r ≤ 80) }
    ensures { area.new ≡ put 0 (within_bytes r) area.old }
{
    put_found(area, r);
    put_u64(area, 8, search_count(r));
}

// What stands before the counts of a listing, which has no steps.
fn put_listing(area: &mut [u8], r: Result<Listed, Refused>)
    requires { 8 ≤ length area.old }
    ensures { area.new ≡ put 0 (listing_bytes r) area.old }
{
    put_front(
        area,
        listing_byte(r),
        listing_refusal(r),
        0,
        refused_place(&r),
    );
}

pub fn put_listed(area: &mut [u8], r: Result<Listed, Refused>)
    requires { 16 ≤ length area.old }
    ensures { area.new ≡ put 0 (listed_bytes r) area.old }
{
    put_listing(area, r);
    put_u32(area, 8, listing_count(r) as usize);
    put_u32(area, 12, outcomes_number(r));
}

// The same with a count of 64 bits, at a place that 8 divides.
pub fn put_listed_within(area: &mut [u8], r: Result<Listed, Refused>)
    requires { 24 ≤ length area.old }
    ensures { area.new ≡ put 0 (listed_within_bytes r) area.old }
{
    put_listing(area, r);
    put_u32(area, 8, outcomes_number(r));
    put_u32(area, 12, 0);
    put_u64(area, 16, listing_count(r));
}
