// The instructions that have one way to go on, taken at once: computes, branches and fences; and what a failure after them rests on before
// them.
#![tactic(auto)]

ghost use Rattle.std.specs.Prelude.{◌≡◌, ◌+◌, ◌%◌, ◌<◌, ◌≤◌, true, false, length, ◌==◌, slice_index_or};
ghost use Rattle.program.specs.Program.{operand, compute_mode, fence_mode};
ghost use Rattle.program.specs.Inner.{CodeOk};
ghost use Rattle.machine.specs.State.{fresh_register};
ghost use Rattle.machine.specs.Rules.{value_of, view_of, combine, branch_by, fence_views};
ghost use Rattle.certify_runs.specs.Below.{Code, Thread};
ghost use Rattle.certify_under.specs.Under.{Rests};
ghost use Rattle.certify_under.specs.Threads.{standing, at_position};
ghost use Rattle.certify_straight.specs.Straight.{Leads, Halts, result_of, step_over, Walked, Ended};

use certify_cares::Cares;
use certify_cares::before::{Step, before_branch, before_compute};
use machine::merge::larger;
use machine::{Register, Thread, Views};
use program::{Code, Instruction};

// Of a branch to be looked at both ways: the position to which it leads on the other way, and the register that it would hold fast.
#[derive(Clone, Copy)]
pub struct Fork {
    pub other: u8,
    pub held: u8,
}

// Where a thread has come to, and the instructions that it has gone through, in order; and whether the last of them is a branch to be looked at
// both ways.
#[derive(Clone, Copy)]
pub struct Walk {
    pub thread: Thread,
    pub steps: [Step; 16],
    pub count: usize,
    pub fork: Option<Fork>,
}

// What the operand (k, n) holds, and its view. Lent is what register n modulo 8 holds, so that the registers are not copied.
fn operand_in(k: u8, n: u8, lent: Register) -> Register
    ensures { (s : Thread) → length s.registers ≡ 8 → lent ≡ slice_index_or s.registers (n % 8) fresh_register
        → (result.value ≡ value_of s (operand k n)) × (result.view ≡ view_of s (operand k n)) }
{
    if k == 0 {
        return Register { value: n, view: 0 };
    }
    if n < 8 {
        return lent;
    }
    Register { value: 0, view: 0 }
}

// The result of a compute of mode m.
fn result(m: u8, x: u8, y: u8) -> u8
    ensures { result ≡ combine (compute_mode m) x y }
{
    match m {
        0 => std::num::wrapping_add_u8(x, y),
        1 => std::num::wrapping_sub_u8(x, y),
        2 => x ^ y,
        _ => if x == y { 1 } else { 0 },
    }
}

// What a compute of mode m leaves in its register.
fn computed(m: u8, a: Register, b: Register) -> Register
    ensures { result ≡ result_of m a b }
{
    Register {
        value: result(m, a.value, b.value),
        view: larger(a.view, b.view),
    }
}

// The step over instruction i, with what its operands are.
fn step_over(i: Instruction, a: Register, b: Register) -> Step
    ensures { result ≡ step_over i a b }
{
    Step {
        instruction: i,
        first: a.value,
        second: b.value,
        earlier: a.view <= b.view,
    }
}

// By how much a branch over m instructions moves the position on.
fn passed(m: u8, x: u8, y: u8) -> u8
    requires { m + 1 < 256 }
    ensures { (result ≡ branch_by (x == y) m) × ((0 < result) × (result ≤ m + 1)) }
{
    if x == y { m + 1 } else { 1 }
}

// A branch that is worth to be looked at both ways: it compares two registers, one of which was read from a message. With a constant, that the
// register is another value says enough; and where neither was read, no other value of them is tried.
fn open(i: Instruction, a: Register, b: Register) -> bool {
    (i.m != 0) & (i.k1 != 0) & (i.k2 != 0) & (i.n1 != i.n2) & ((a.view != 0) | (b.view != 0))
}

// The register that a branch would hold fast: the one that was read earlier.
fn earlier(i: Instruction, a: Register, b: Register) -> u8 {
    if a.view <= b.view { i.n1 } else { i.n2 }
}

// What a fence of mode m makes of the views.
fn fenced(m: u8, w: Views) -> Views
    ensures { result ≡ fence_views (fence_mode m) w }
{
    match m {
        0 => {
            let v = larger(w.rOld, w.wOld);
            w.raise_r_new(v).raise_w_new(v)
        }
        1 => w.raise_r_new(w.rOld).raise_w_new(w.rOld),
        2 => w.raise_w_new(w.wOld),
        _ => w.raise_r_new(w.cap),
    }
}

// The thread with other registers and views, at position n.
fn standing(mut s: Thread, registers: [Register; 8], n: u8, views: Views) -> Thread
    ensures { result ≡ standing s registers n views }
{
    s.registers = registers;
    s.position = n;
    s.views = views;
    s
}

// The thread at position n.
pub fn at_position(mut s: Thread, n: u8) -> Thread
    ensures { result ≡ at_position s n }
{
    s.position = n;
    s
}

// The instruction at position n is a load or store.
pub fn halts(c: Code, n: u8) -> bool
    requires { (c.count ≤ 16) × (n < c.count) }
    ensures { (s : Thread) → s.position ≡ n → (result ≡ true → Halts c s) × (result ≡ false → Halts c s → ⊥) }
{
    let i = c.instructions[n as usize];
    (i.op == 1) | (i.op == 2)
}

// The thread at its next load or store, or at its end, or, if branches are to be looked at both ways, after the next branch; and the computes,
// branches and fences up to there, with what their operands hold. Of the thread they change the position, the registers and the views.
pub fn straight(c: Code, s: Thread, both_ways: bool) -> Walk
    requires { CodeOk c }
    ensures { Ended c s result.steps result.count result.thread result.fork × (Walked c s result.steps result.count result.thread × (result.count ≤ 16)) }
{
    let mut registers = s.registers;
    let mut n = s.position;
    let mut views = s.views;
    let mut steps = [Step::NONE; 16];
    let mut count = 0usize;
    // No `for` over a range: a branch passes over instructions.
    while n < c.count {
        let i = c.instructions[n as usize];
        if (i.op == 1) | (i.op == 2) {
            return Walk {
                thread: standing(s, registers, n, views),
                steps,
                count,
                fork: None,
            };
        }
        let a = operand_in(i.k1, i.n1, registers[(i.n1 % 8) as usize]);
        let b = operand_in(i.k2, i.n2, registers[(i.n2 % 8) as usize]);
        steps[count] = step_over(i, a, b);
        count += 1;
        if i.op == 0 {
            n += 1;
            if i.r < 8 {
                registers[i.r as usize] = computed(i.m, a, b);
            }
        } else if i.op == 3 {
            let by = passed(i.m, a.value, b.value);
            views = views.raise_cap(larger(a.view, b.view));
            if both_ways & open(i, a, b) {
                return Walk {
                    thread: standing(s, registers, n + by, views),
                    steps,
                    count,
                    fork: Some(Fork {
                        other: n + (i.m + 2 - by),
                        held: earlier(i, a, b),
                    }),
                };
            }
            n += by;
        } else {
            n += 1;
            views = fenced(i.m, views);
        }
    }
    Walk {
        thread: standing(s, registers, n, views),
        steps,
        count,
        fork: None,
    }
}

// What a failure rests on before the first of these instructions, so many, by what it rests on after them.
pub fn before_straight(w: Walk, count: usize, k: Cares) -> Cares
    requires { count ≤ 16 }
    ensures { (c : Code) (s y s' : Thread) → Walked c s w.steps count y → Rests result.of s s'
        → (y' : Thread) × (Leads c s' y' × Rests k.of y y') }
{
    let mut of = k.of;
    for j in (0..count).rev() {
        let e = w.steps[j];
        if e.instruction.op == 0 {
            before_compute(&mut of, e);
        } else if e.instruction.op == 3 {
            before_branch(&mut of, e);
        }
    }
    Cares { of }
}
