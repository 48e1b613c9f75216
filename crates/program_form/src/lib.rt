// Well formed: a program that some file is read as. Each function computes a definition of program's specs/WellFormed.antt or
// specs/Counts.antt, or a part of one. A test of an array's length is not computed: an array always has its length.
#![tactic(auto)]

ghost use Rattle.std.specs.Prelude.{◌≡◌, true, cond, ◌&&◌, ◌+◌, ◌<◌, ◌≤◌, eqb, ltb, get_or};
ghost use Rattle.program.specs.Tests.{below};
ghost use Rattle.program.specs.Program.{no_condition, code_of};
ghost use Rattle.program.specs.Counts.{stores_from, stores};
ghost use Rattle.program.specs.WellFormed.{instruction_test, condition_test, unused_instruction, unused_condition, code_test, program_test};

use file_range::{condition_fault, instruction_fault};
use program::{Code, Condition, Instruction, Program};

// ---- an instruction
fn instruction_test(n: u8, k: u8, i: Instruction) -> bool
    requires { k < 16 }
    ensures { result ≡ instruction_test n k i }
{
    instruction_fault(n, k as usize, i).is_none()
}

fn unused_instruction(i: Instruction) -> bool
    ensures { result ≡ unused_instruction i }
{
    (i.op == 0) & (i.m == 0) & (i.r == 0) & (i.k1 == 0) & (i.n1 == 0) & (i.k2 == 0) & (i.n2 == 0)
}

// ---- a thread's code
// Entry `k`: one of the `n` instructions, or not used.
fn instruction_entry(n: u8, k: u8, i: Instruction) -> bool
    requires { k < 16 }
    ensures { result ≡ cond (ltb k n) (instruction_test n k i) (unused_instruction i) }
{
    if k < n {
        instruction_test(n, k, i)
    } else {
        unused_instruction(i)
    }
}

fn code_test(c: Code) -> bool
    ensures { result ≡ code_test c }
{
    (c.count <= 16)
        & c.instructions
            .iter()
            .enumerate()
            .all(|(k, i)| instruction_entry(c.count, k as u8, *i))
}

// The code of thread `i`: a thread that is not used has no instructions.
fn code_entry(threads: u8, i: u8, c: Code) -> bool
    ensures { result ≡ (code_test c && cond (ltb i threads) true (eqb c.count 0)) }
{
    code_test(c) & ((i < threads) | (c.count == 0))
}

fn codes_test(p: Program) -> bool
    ensures { result ≡ below (λ i. let c = code_of p i in code_test c && cond (ltb i p.threads) true (eqb c.count 0)) 4 }
{
    p.codes
        .iter()
        .enumerate()
        .all(|(i, c)| code_entry(p.threads, i as u8, *c))
}

// ---- the stores
fn code_stores(c: Code) -> u8
    ensures { result ≡ stores_from c 0 }
{
    let used = c.instructions.iter().take(c.count as usize);
    used.filter(|i| i.op == 2).count() as u8
}

fn program_stores(p: Program) -> u16
    requires { p.threads ≤ 4 }
    ensures { result ≡ stores p }
{
    let mut found = 0;
    for c in &p.codes[..p.threads as usize] {
        found += code_stores(*c) as u16;
    }
    found
}

// ---- the question
fn condition_test(threads: u8, q: Condition) -> bool
    ensures { result ≡ condition_test threads q }
{
    condition_fault(threads, q).is_none()
}

fn unused_condition(q: Condition) -> bool
    ensures { result ≡ unused_condition q }
{
    (q.kind == 0) & (q.thread == 0) & (q.index == 0) & (q.value == 0)
}

// An entry of the question: a condition that is asked, or not used.
fn condition_entry(threads: u8, asked: bool, q: Condition) -> bool
    ensures { result ≡ cond asked (condition_test threads q) (unused_condition q) }
{
    if asked {
        condition_test(threads, q)
    } else {
        unused_condition(q)
    }
}

fn question_test(p: Program) -> bool
    ensures { result ≡ below (λ k. let q = get_or p.question k no_condition in cond (ltb k p.conditions) (condition_test p.threads q) (unused_condition q)) 8 }
{
    let asked = p.conditions as usize;
    p.question
        .iter()
        .enumerate()
        .all(|(k, q)| condition_entry(p.threads, k < asked, *q))
}

// ---- THE PROGRAM
pub fn program_formed(p: Program) -> bool
    ensures { result ≡ program_test p }
{
    if 4 < p.threads {
        return false;
    }
    (p.version == 1)
        & (1 <= p.threads)
        & codes_test(p)
        & (program_stores(p) <= 16)
        & (p.conditions <= 8)
        & question_test(p)
}
