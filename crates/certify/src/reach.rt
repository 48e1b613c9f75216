// What the runs of a thread alone come to: one search of them, times ascending, for all that asks; and what a failure rests on.
ghost use Rattle.std.specs.Prelude.{◌≡◌, ℕ, ◌≤◌, ◌<◌, IfSome};
ghost use Rattle.certify_runs.specs.Inner.{Ready, Trying};
ghost use Rattle.certify_cares.specs.Cares.{Covers};
ghost use Rattle.certify_straight.specs.Straight.{Halts};
ghost use Rattle.certify_sought.specs.Asks.{Stores};
ghost use Rattle.certify_sought.specs.Aim.{Meets};
ghost use Rattle.certify_sought.specs.Numbers.{Unmet, Twice};
ghost use Rattle.certify_tried.specs.Tried.{Appends};
ghost use Rattle.certify.specs.Search.{Owns, Found, Unkept, Filled, Keeps, Knows, TriedAt};
ghost use Rattle.certify.specs.Shows.{Shows, ShowsAt, ShowsOwn};

use crate::own_message;
use certify_ahead::loads_ahead;
use certify_cares::Cares;
use certify_lost::fruitless;
use certify_lost::wanted::number_of;
use certify_sought::asks::{asks, own_asks};
use certify_sought::goal::{emptied, fill, kept};
use certify_sought::{Met, Sought};
use certify_straight::{at_position, before_straight, halts, straight};
use certify_trail::{passed, preceded};
use certify_tried::blind::{told, unread, worth_a_look, worth_asking};
use certify_tried::{Reached, Tried, appends, hopeless, noted, untried};
use certify_window::idle::{idle, resumed};
use certify_window::{earliest, following};
use machine::promises::has;
use machine::{Memory, Thread};
use program::{Code, Instr};
use rules::operands::view_of;
use rules::{execute, own_store};
use rules_stores::below_time;

// The two least numbers that runs from here come to, of those that are sought.
pub fn two_reached(c: Code, i: u8, m: Memory, s: Thread, q: Sought) -> Met
    requires { Ready c m s }
    ensures { Twice q.from q.met (Meets c i m s q.hole) result }
{
    search_runs(c, i, m, s, q).met
}

// The same, and what it rests on that there is no other; or, where certification is asked for and the thread is certified, the first run that shows
// it.
#[cycle(both_ways_filled_keeps_own_reached_search_at_search_runs_try_at_walk_on)]
pub fn search_runs(c: Code, i: u8, m: Memory, s: Thread, q: Sought) -> Reached
    requires { Ready c m s }
    ensures found { Found q.from q.met (λ y k. Meets c i m y q.hole k) s result }
    ensures shows { Shows c i m s q result }
{
    if kept(s, q) {
        return Reached {
            met: emptied(q),
            cares: Cares::NONE,
        };
    }
    if c.count <= s.position {
        return Reached {
            met: q.met,
            cares: Cares::NONE,
        };
    }
    if halts(c, s.position) {
        return search_at(c, i, m, s, c.instr_at(s.position), q);
    }
    if 12 <= m.count {
        return both_ways(c, i, m, s, q);
    }
    walk_on(c, i, m, s, q)
}

// The same for a thread at an instruction that has one way to go on. It is a function of its own so that the walk shares its place on the stack
// with the tries of loads and stores.
#[cycle(both_ways_filled_keeps_own_reached_search_at_search_runs_try_at_walk_on)]
fn walk_on(c: Code, i: u8, m: Memory, s: Thread, q: Sought) -> Reached
    requires { (Ready c m s × ((s.position < c.count) × (Halts c s → ⊥))) × (q.hole ≡ 0 → s.promises ≡ 0 → ⊥) }
    ensures found { Found q.from q.met (λ y k. Meets c i m y q.hole k) s result }
    ensures shows { Shows c i m s q result }
{
    let w = straight(c, s, false);
    let r = search_runs(c, i, m, w.thread, q);
    let met = r.met;
    let rests = r.cares;
    if met.ended(q.from) {
        return Reached {
            met: met,
            cares: passed(rests, w.count),
        };
    }
    Reached {
        met: met,
        cares: before_straight(w, w.count, rests),
    }
}

// The same with many messages about, when it stops after a branch that compares what was read. If the other way has no number either that is
// sought, it does not count which way the thread goes, so that the loads that the branch looks at need not be tried with each value. Where the
// register counts anyway whose value would be held fast, that would spare nothing.
#[cycle(both_ways_filled_keeps_own_reached_search_at_search_runs_try_at_walk_on)]
fn both_ways(c: Code, i: u8, m: Memory, s: Thread, q: Sought) -> Reached
    requires { (Ready c m s × ((s.position < c.count) × (Halts c s → ⊥))) × (q.hole ≡ 0 → s.promises ≡ 0 → ⊥) }
    ensures found { Found q.from q.met (λ y k. Meets c i m y q.hole k) s result }
    ensures shows { Shows c i m s q result }
{
    let w = straight(c, s, true);
    let r = search_runs(c, i, m, w.thread, q);
    let met = r.met;
    let rests = r.cares;
    if met.ended(q.from) {
        return Reached {
            met,
            cares: passed(rests, w.count),
        };
    }
    if let Some(fork) = w.fork
        && rests.of_register(fork.held) == 0
    {
        let o = search_runs(c, i, m, at_position(w.thread, fork.other), q.after(met));
        if met == o.met {
            return Reached {
                met,
                cares: before_straight(w, w.count - 1, rests.and(o.cares)),
            };
        }
    }
    Reached {
        met,
        cares: before_straight(w, w.count, rests),
    }
}

// The search of runs for a thread at its next load or store, x: times ascending, then the store's own message. What the tries themselves rest on is
// worked out last: most searches that succeed never ask for it. With many messages about, it is asked first whether anything can come of it: what
// is wanted may be lost, or a load fail whatever it reads.
#[cycle(both_ways_filled_keeps_own_reached_search_at_search_runs_try_at_walk_on)]
fn search_at(c: Code, i: u8, m: Memory, s: Thread, x: Instr, q: Sought) -> Reached
    requires { Trying c m s x × Unkept s x q }
    ensures found { Found q.from q.met (λ y k. Meets c i m y q.hole k) s result }
    ensures shows { Shows c i m s q result }
{
    if worth_a_look(x, c, m, s) {
        if let Some(rests) = fruitless(c, m, s, q.hole, q.from, q.met.second) {
            return Reached {
                met: q.met,
                cares: rests,
            };
        }
        if worth_asking(x, c, s) {
            let load = x;
            if let Instr::Load(k, r, a, b) = load
                && let Some(found) = told(
                    r,
                    search_runs(c, i, m, unread(k, r, a, b, m, s), q),
                    q.met,
                )
            {
                return found;
            }
        }
    }
    let mut t = earliest(x, m, s);
    let mut r = untried(filled(c, i, m, s, x, q));
    // No `for` over a range: `following` passes over times.
    while t <= 16 {
        if !hopeless(c, m, s, x, t, r) {
            r = try_at(c, i, m, s, x, t, r, q);
            if r.met.ended(q.from) {
                return r.so_far();
            }
        }
        t = following(x, m, s, t);
    }
    let appending = appends(c, m, s, x);
    let own = own_reached(c, i, m, s, x, q.after(r.met), r.cares, appending);
    let met = own.met;
    if met.ended(q.from) {
        return own;
    }
    let rests = own.cares;
    Reached {
        met: met,
        cares: rests.and(asks(x, m, s, q.after(met), appending, r.apart)),
    }
}

// The number of a store that fills the hole, if there is one and it is sought. Where the hole is the only promise, nothing is left to keep.
#[cycle(both_ways_filled_keeps_own_reached_search_at_search_runs_try_at_walk_on)]
fn filled(c: Code, i: u8, m: Memory, s: Thread, x: Instr, q: Sought) -> Reached
    requires { Trying c m s x }
    ensures { Filled c i m s x q result }
{
    let met = q.met;
    let none = Reached {
        met: met,
        cares: Cares::NONE,
    };
    if !has(s.promises, q.hole) {
        return none;
    }
    match x {
        Instr::Store(how, a, d) => {
            let w = own_message(i, a, d, s);
            let number = number_of(w.location, w.value);
            if !q.seeks(number) {
                return none;
            }
            let here = Reached {
                met: met.with(number),
                cares: Cares::NONE,
            };
            if u16::count_ones(s.promises) == 1 {
                if below_time(how, q.hole, w.location, view_of(s, a), view_of(s, d), s) {
                    return here;
                }
                return none;
            }
            let then = keeps(c, i, fill(m, q.hole, w), s, x, q.hole);
            if then.met.least == 0 {
                return here;
            }
            let rests = then.cares;
            Reached {
                met: met,
                cares: rests,
            }
        }
        Instr::Load(_, _, _, _) => none,
        Instr::Compute(_, _, _, _) => none,
        Instr::Branch(_, _, _) => none,
        Instr::Fence(_) => none,
    }
}

// 0 is met if the store can be executed at time t, and the thread is then certified.
#[cycle(both_ways_filled_keeps_own_reached_search_at_search_runs_try_at_walk_on)]
fn keeps(c: Code, i: u8, m: Memory, s: Thread, x: Instr, t: u8) -> Reached
    requires { Trying c m s x × Stores x }
    ensures { Keeps c i m s x t result }
{
    match execute(x, m, t, s) {
        Ok(y) => search_runs(c, i, m, y, Sought::certified()),
        Err(_) => Reached {
            met: Met {
                least: 1,
                second: 1,
            },
            cares: Cares::NONE,
        },
    }
}

// The instruction is executed at time t, and the thread goes on from there; p is known of the tries before. If it is idle then, it goes on with
// the coherence views of before, so that the try tells of other locations too.
// Whether that is all is asked here already: most certifications end with the store, and a call copies its arguments.
#[cycle(both_ways_filled_keeps_own_reached_search_at_search_runs_try_at_walk_on)]
#[inline(always)]
fn try_at(c: Code, i: u8, m: Memory, s: Thread, x: Instr, t: u8, p: Tried, q: Sought) -> Tried
    requires { Trying c m s x × ((t ≤ 16) × Knows c i m s x q p) }
    ensures tried_at { TriedAt c i m s x q p t result }
    ensures shows_at { ShowsAt c i m s x q p.met t result }
{
    let Ok(y) = execute(x, m, t, s) else {
        return p;
    };
    let less = q.after(p.met);
    if kept(y, q) {
        let all = emptied(less);
        if all.ended(q.from) {
            return p.having(all, preceded(Cares::NONE, 0, t));
        }
        return p.having(all, p.cares);
    }
    let apart = idle(x, m, s, t, y, q.hole);
    let on = resumed(apart, y, s);
    let then = search_runs(c, i, m, on, less);
    let met = then.met;
    if met.ended(q.from) {
        return p.having(met, preceded(then.cares, 0, t));
    }
    noted(x, t, p, then, apart)
}

// A store that was not promised before appends a message and fulfils that, and the thread goes on from there. Where no load is left to read the message, its
// value does not count.
#[cycle(both_ways_filled_keeps_own_reached_search_at_search_runs_try_at_walk_on)]
#[inline(always)]
fn own_reached(
    c: Code,
    i: u8,
    m: Memory,
    s: Thread,
    x: Instr,
    q: Sought,
    k: Cares,
    appending: bool,
) -> Reached
    requires { Trying c m s x × Appends c m s x appending }
    ensures found { Found q.from q.met (λ y j. Owns c i m y x q.hole j) s result × ((n : ℕ) → Unmet q.from result.met n → Covers result.cares.of k.of) }
    ensures shows_own { ShowsOwn c i m s x q result }
{
    let met = q.met;
    let none = Reached { met: met, cares: k };
    if !appending {
        return none;
    }
    match x {
        Instr::Store(how, a, d) => {
            let Ok(y) = own_store(how, a, d, m, i, s) else {
                return Reached {
                    met: met,
                    cares: own_asks(k, a, d, true),
                };
            };
            let w = own_message(i, a, d, s);
            let then = search_runs(c, i, m.append(w), y, q);
            let known = then.met;
            let rests = then.cares;
            if known.ended(q.from) {
                return Reached {
                    met: known,
                    cares: preceded(rests, 1, m.count + 1),
                };
            }
            let read = loads_ahead(c, s.position);
            Reached {
                met: known,
                cares: rests.and(own_asks(k, a, d, read)),
            }
        }
        Instr::Load(_, _, _, _) => none,
        Instr::Compute(_, _, _, _) => none,
        Instr::Branch(_, _, _) => none,
        Instr::Fence(_) => none,
    }
}
