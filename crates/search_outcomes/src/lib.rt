// Outcomes in bytes that are lent: rows of 52 or 56 bytes, ascending, each the 48 bytes of an outcome and its place in four or eight.
// Each outcome has one row, with the place at which it was met first.
#![tactic(auto)]

ghost use Rattle.std.specs.Prelude.{◌≡◌, [], ◌∷◌, ◌++◌, ◌+◌, ◌-◌, ◌≤◌, length, take, drop, replicate};
ghost use Rattle.step.specs.Outcome.{smaller};
ghost use Rattle.encode_bytes.specs.Places.{put};
ghost use Rattle.search_outcomes.specs.Table.{ending, row_width, place_bytes, noted, Orderly, Placed};
ghost use Rattle.search_outcomes.specs.Inner.{values_of, lasts_of, key_at, SameKey, Rising, Smaller};

use encode_bytes::{Encode, put_bytes, put_each, put_u32, put_u64};
use machine::{Machine, Memory, Register, Thread};

// Beside the rows: how many outcomes have been met, and the budget.
#[derive(Clone, Copy)]
pub struct Sheet {
    pub met: u64,
    pub budget: u64,
}

// The bytes of a row.
pub fn row_width(wide: bool) -> usize
    ensures { result ≡ row_width wide }
{
    if wide { 56 } else { 52 }
}

// ---- the outcome of a machine
// Names the bytes that registers and threads have in an outcome: the values.
struct Values;

impl Encode<Register> for Values {
    ghost WIDTH = { 1 };

    ghost bytes = { λ r. r.value ∷ [] };

    const WIDTH: usize = 1;

    fn put(area: &mut [u8], at: usize, r: &Register) {
        put_bytes(area, at, &[r.value]);
    }
}

impl Encode<Thread> for Values {
    ghost WIDTH = { 8 };

    ghost bytes = { values_of };

    const WIDTH: usize = 8;

    fn put(area: &mut [u8], at: usize, s: &Thread) {
        put_each::<Register, Values, 8>(area, at, &s.registers);
    }
}

// The last values of all locations: a later message is written over an earlier one.
fn put_last(o: &mut [u8], m: Memory)
    requires { (o.old ≡ replicate 48 0) × Placed m }
    ensures { o.new ≡ put 32 (lasts_of m m.count) o.old }
{
    for w in &m.messages[..m.count as usize] {
        o[32 + w.location as usize] = w.value;
    }
}

// The registers of four threads, then the last values of all locations.
fn outcome(x: Machine) -> [u8; 48]
    requires { Placed x.memory }
    ensures { result ≡ ending x }
{
    let mut o = [0u8; 48];
    put_last(&mut o, x.memory);
    put_each::<Thread, Values, 4>(&mut o, 0, &x.threads);
    o
}

// ---- a row beside a key
// Whether the 48 bytes from the place on are smaller than those of the key, byte by byte.
fn is_smaller(area: &[u8], at: usize, key: &[u8; 48]) -> bool
    requires { (at + 48 ≤ length area.now) × (length key.now ≡ 48) }
    ensures { result ≡ smaller (key_at at area.now) key.now }
{
    area[at..at + 48].cmp(&key[..]).is_lt()
}

fn is_same(area: &[u8], at: usize, key: &[u8; 48]) -> bool
    requires { (at + 48 ≤ length area.now) × (length key.now ≡ 48) }
    ensures { SameKey at area.now key.now result }
{
    area[at..at + 48] == key[..]
}

// How many of the first n rows are smaller than the key: half of those in question at a time.
// Not std's `partition_point`: it takes a slice of rows, and how wide these are is known only at run time.
fn smaller_rows(area: &[u8], w: usize, n: usize, key: &[u8; 48]) -> usize
    requires { Rising w n area.now × (length key.now ≡ 48) }
    ensures { Smaller w n area.now key.now result }
{
    let mut low = 0;
    let mut high = n;
    while low < high {
        let mid = low + (high - low) / 2;
        if is_smaller(area, w * mid, key) {
            low = mid + 1;
        } else {
            high = mid;
        }
    }
    low
}

// ---- a row that is entered
// The bytes from `start` to `end` move up by w.
fn move_up(area: &mut [u8], start: usize, end: usize, w: usize)
    requires { (start ≤ end) × (end + w ≤ length area.old) }
    ensures { area.new ≡ put (start + w) (take (end - start) (drop start area.old)) area.old }
{
    area.copy_within(start..end, start + w);
}

fn put_row(area: &mut [u8], at: usize, wide: bool, key: &[u8; 48], place: u64)
    requires { (at + row_width wide ≤ length area.old) × (length key.now ≡ 48) }
    ensures { area.new ≡ put at (key.now ++ place_bytes wide place) area.old }
{
    put_bytes(area, at, key);
    if wide {
        put_u64(area, at + 48, place);
    } else {
        put_u32(area, at + 48, place as usize);
    }
}

// An outcome is entered, where `rest` of the budget is left: the first to be met has the place. Where it finds no room, the
// number of outcomes that have been met says so from then on.
fn enter(area: &mut [u8], sheet: &mut Sheet, wide: bool, key: &[u8; 48], rest: u64)
    requires { (length key.now ≡ 48) × Orderly wide (area.old, sheet.old) }
    ensures { (area.new, sheet.new) ≡ noted wide key.now rest (area.old, sheet.old) }
{
    let w = row_width(wide);
    let room = area.len() / w;
    let met = sheet.met;
    if (room as u64) < met {
        return;
    }
    let n = met as usize;
    let k = smaller_rows(area, w, n, key);
    if k < n {
        if is_same(area, w * k, key) {
            return;
        }
    }
    sheet.met = met + 1;
    if n == room {
        return;
    }
    move_up(area, w * k, w * n, w);
    let budget = sheet.budget;
    let place = if rest < budget { budget - rest } else { 0 };
    put_row(area, w * k, wide, key, place);
}

// The outcome of x is noted, where `rest` of the budget is left.
pub fn note(area: &mut [u8], sheet: &mut Sheet, wide: bool, x: Machine, rest: u64)
    requires { Placed x.memory × Orderly wide (area.old, sheet.old) }
    ensures { (area.new, sheet.new) ≡ noted wide (ending x) rest (area.old, sheet.old) }
{
    let o = outcome(x);
    enter(area, sheet, wide, &o, rest);
}
