// The visits: a state, then each state that an accepted step leads to. The trace is written on the way back.
#![tactic(auto)]

ghost use Rattle.search_table.specs.Table.{EverySlot};
ghost use Rattle.search_arrivals.specs.Visits.{visiting, Reports, Visitable, Known, Opens};

use machine::Machine;
use program::Program;
use search_arrivals::{Aim, Arrival, Ran, arrive};
use search_outcomes::{Sheet, note};
use search_table::{SLOT, keep};
use search_tries::threads::next_open;
use search_tries::{after_try, attempt, next_try, step_at, tries_of};
use step::{memory_after, memory_before};
use trace_record::put_step;

// Visits x and each state that an accepted step leads to: by thread, from the first that is not at its end; of one thread
// executions by time, then promises by location and value. A refused step costs nothing. y is x but for the thread whose turn it is and for
// the message that it promises: one copy of the machine is changed in place and put back, since a second one would cost as much as a step,
// and take stack. Where all of it goes on, y is x again, and is written into the table.
fn walk(
    p: Program,
    x: Machine,
    first: u8,
    slot: usize,
    aim: Aim,
    depth: usize,
    left: u64,
    area: &mut [u8],
    sheet: &mut Sheet,
    table: &mut [u8],
) -> Ran
    requires { Visitable p aim x depth (area.old, sheet.old) × Opens p x left table.old first slot × EverySlot (Known p aim (area.old, sheet.old)) table.old }
    ensures { Reports depth (visiting p aim x left (area.old, sheet.old)) result (area.new, sheet.new) × EverySlot (Known p aim (area.new, sheet.new)) table.new }
{
    let mut y = x;
    let mut rest = left - 1;
    let mut i = first;
    while i < 4 {
        let c = p.codes[i as usize];
        let s = y.threads[i as usize];
        let w = c.instr_at(s.position);
        let mut t = tries_of(w, c, y.memory, s);
        let mut k = next_try(t, c, y.memory, s, 0);
        while k.next < 4113 {
            let step = step_at(i, k.next);
            let r = attempt(t, w, c, y.memory, s, step);
            t = r.left;
            if let Ok(q) = r.moved {
                if step.kind != 0 {
                    y.memory = memory_after(y.memory, step);
                }
                y.threads[i as usize] = q;
                let ran = match arrive(p, y, aim, depth + 1, rest, table) {
                    Arrival::Over(o) => o,
                    Arrival::Ending(wide, b) => {
                        note(area, sheet, wide, y, b);
                        Ran::Going(b)
                    }
                    Arrival::Open(f, l) => {
                        walk(p, y, f, l, aim, depth + 1, rest, area, sheet, table)
                    }
                };
                if 0 < step.kind {
                    y.memory = memory_before(y.memory);
                }
                match ran {
                    Ran::Going(b) => rest = b,
                    Ran::Found(b, n) => {
                        put_step(area, depth * 6, step);
                        return Ran::Found(b, n);
                    }
                    Ran::Out => return Ran::Out,
                }
            }
            k = after_try(t, c, y.memory, s, k);
        }
        y.threads[i as usize] = s;
        i = next_open(p, y, i + 1);
    }
    if table.len() < SLOT {
        return Ran::Going(rest);
    }
    keep(table, slot, y, left - rest);
    Ran::Going(rest)
}

// The search from x, to which `depth` steps have led. A table without a slot is asked nothing: every machine is visited.
pub fn visit(
    p: Program,
    x: Machine,
    aim: Aim,
    depth: usize,
    left: u64,
    area: &mut [u8],
    sheet: &mut Sheet,
    table: &mut [u8],
) -> Ran
    requires { Visitable p aim x depth (area.old, sheet.old) × EverySlot (Known p aim (area.old, sheet.old)) table.old }
    ensures { Reports depth (visiting p aim x left (area.old, sheet.old)) result (area.new, sheet.new) × EverySlot (Known p aim (area.new, sheet.new)) table.new }
{
    match arrive(p, x, aim, depth, left, table) {
        Arrival::Over(ran) => ran,
        Arrival::Ending(wide, rest) => {
            note(area, sheet, wide, x, rest);
            Ran::Going(rest)
        }
        Arrival::Open(first, slot) => {
            walk(p, x, first, slot, aim, depth, left, area, sheet, table)
        }
    }
}
