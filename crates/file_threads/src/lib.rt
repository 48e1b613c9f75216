// The thread records of a program file, each followed by its instruction records.
#![tactic(auto)]

ghost use Rattle.std.specs.Prelude.{◌≡◌, ◌+◌, ◌≤◌, ◌<◌, length};
ghost use Rattle.program.specs.Program.{code_of};
ghost use Rattle.program.specs.File.{instruction_of, with_code, with_instruction, read_each, read_instruction, read_thread};
ghost use Rattle.file_cursor.specs.Cursors.{cursor_of, reading_of, Standing};

use file_cursor::{Cursor, marked};
use file_range::instruction_fault;
use program::{Code, Instruction, Program, Refusal, Refused};

// ---- an instruction record
fn instruction_at(file: &[u8], at: usize) -> Instruction
    requires { at + 9 ≤ length file.now }
    ensures { result ≡ instruction_of file.now at }
{
    Instruction {
        op: file[at + 2],
        m: file[at + 3],
        r: file[at + 4],
        k1: file[at + 5],
        n1: file[at + 6],
        k2: file[at + 7],
        n2: file[at + 8],
    }
}

fn code_of(p: Program, i: usize) -> Code
    requires { i < 4 }
    ensures { result ≡ code_of p i }
{
    p.codes[i]
}

fn with_code(mut p: Program, i: usize, c: Code) -> Program
    requires { i < 4 }
    ensures { result ≡ with_code i c p }
{
    p.codes[i] = c;
    p
}

fn with_instruction(p: Program, i: usize, k: usize, x: Instruction) -> Program
    requires { (i < 4) × (k < 16) }
    ensures { result ≡ with_instruction i k x p }
{
    let mut c = code_of(p, i);
    c.instructions[k] = x;
    with_code(p, i, c)
}

fn read_instruction(file: &[u8], i: usize, k: usize, c: Cursor) -> Result<Cursor, Refused>
    requires { ((i < 4) × (k < 16)) × Standing file.now c }
    ensures { result ≡ cursor_of (read_instruction file.now i k c.at c.stores c.program) }
{
    let at = c.at;
    marked(file, at, b'I', b'N', 7)?;
    let x = instruction_at(file, at);
    let n = code_of(c.program, i).count;
    if let Some(bad) = instruction_fault(n, k, x) {
        return Err(Refusal::InstructionByte.at(at + 2 + bad));
    }
    let stores = c.stores + x.one_store();
    if 16 < stores {
        return Err(Refusal::StoreCount.at(at + 2));
    }
    Ok(Cursor {
        at: at + 9,
        stores,
        program: with_instruction(c.program, i, k, x),
    })
}

fn read_instructions(file: &[u8], i: usize, n: usize, start: Cursor) -> Result<Cursor, Refused>
    requires { ((i < 4) × (n ≤ 16)) × Standing file.now start }
    ensures { result ≡ cursor_of (read_each (read_instruction file.now i) n 0 (reading_of start)) }
{
    let mut c = start;
    for k in 0..n {
        c = read_instruction(file, i, k, c)?;
    }
    Ok(c)
}

// ---- a thread record
fn with_count(p: Program, i: usize, n: u8) -> Program
    requires { i < 4 }
    ensures { result ≡ with_code i (record { count = n; instructions = (code_of p i).instructions }) p }
{
    let mut c = code_of(p, i);
    c.count = n;
    with_code(p, i, c)
}

fn read_thread(file: &[u8], i: usize, c: Cursor) -> Result<Cursor, Refused>
    requires { (i < 4) × Standing file.now c }
    ensures { result ≡ cursor_of (read_thread file.now i c.at c.stores c.program) }
{
    let at = c.at;
    marked(file, at, b'T', b'H', 2)?;
    if file[at + 2] as usize != i {
        return Err(Refusal::ThreadNumber.at(at + 2));
    }
    let n = file[at + 3];
    if 16 < n {
        return Err(Refusal::InstructionCount.at(at + 3));
    }
    let start = Cursor {
        at: at + 4,
        stores: c.stores,
        program: with_count(c.program, i, n),
    };
    read_instructions(file, i, n as usize, start)
}

pub fn read_threads(file: &[u8], n: usize, start: Cursor) -> Result<Cursor, Refused>
    requires { (n ≤ 4) × Standing file.now start }
    ensures { result ≡ cursor_of (read_each (read_thread file.now) n 0 (reading_of start)) }
{
    let mut c = start;
    for i in 0..n {
        c = read_thread(file, i, c)?;
    }
    Ok(c)
}
