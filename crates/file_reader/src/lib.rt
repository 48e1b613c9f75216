// The program file, read front to back, record by record.
#![tactic(auto)]

ghost use Rattle.std.specs.Prelude.{◌≡◌, ◌+◌, ◌≤◌, ◌<◌, length, set};
ghost use Rattle.program.specs.Program.{no_program};
ghost use Rattle.program.specs.File.{condition_of, with_header, with_question, read_header, read_each, read_condition, read_question, read_end, read_file};
ghost use Rattle.program.specs.Answers.{file_read};
ghost use Rattle.file_cursor.specs.Cursors.{cursor_of, reading_of, Standing};

use file_cursor::{Cursor, marked};
use file_range::condition_fault;
use file_threads::read_threads;
use program::Condition;
pub use program::{Program, Refusal, Refused};

// ---- the program record
fn with_header(v: u8, n: u8) -> Program
    ensures { result ≡ with_header v n no_program }
{
    let mut p = Program::default();
    p.version = v;
    p.threads = n;
    p
}

fn read_header(file: &[u8]) -> Result<Cursor, Refused>
    ensures { result ≡ cursor_of (read_header file.now) }
{
    marked(file, 0, b'P', b'G', 2)?;
    let version = file[2];
    if version != 1 {
        return Err(Refusal::OtherVersion.at(2));
    }
    let threads = file[3];
    if (1 <= threads) & (threads <= 4) {
        Ok(Cursor {
            at: 4,
            stores: 0,
            program: with_header(version, threads),
        })
    } else {
        Err(Refusal::ThreadCount.at(3))
    }
}

// ---- a condition record
fn condition_at(file: &[u8], at: usize) -> Condition
    requires { at + 6 ≤ length file.now }
    ensures { result ≡ condition_of file.now at }
{
    Condition {
        kind: file[at + 2],
        thread: file[at + 3],
        index: file[at + 4],
        value: file[at + 5],
    }
}

fn with_condition(mut p: Program, k: usize, x: Condition) -> Program
    requires { k < 8 }
    ensures { result ≡ with_question p.conditions (set p.question k x) p }
{
    p.question[k] = x;
    p
}

fn read_condition(file: &[u8], k: usize, c: Cursor) -> Result<Cursor, Refused>
    requires { (k < 8) × Standing file.now c }
    ensures { result ≡ cursor_of (read_condition file.now k c.at c.stores c.program) }
{
    let at = c.at;
    marked(file, at, b'C', b'N', 4)?;
    let x = condition_at(file, at);
    if let Some(bad) = condition_fault(c.program.threads, x) {
        return Err(Refusal::ConditionByte.at(at + 2 + bad));
    }
    Ok(Cursor {
        at: at + 6,
        stores: c.stores,
        program: with_condition(c.program, k, x),
    })
}

fn read_conditions(file: &[u8], n: usize, start: Cursor) -> Result<Cursor, Refused>
    requires { (n ≤ 8) × Standing file.now start }
    ensures { result ≡ cursor_of (read_each (read_condition file.now) n 0 (reading_of start)) }
{
    let mut c = start;
    for k in 0..n {
        c = read_condition(file, k, c)?;
    }
    Ok(c)
}

// ---- the question record
fn with_conditions(mut p: Program, n: u8) -> Program
    ensures { result ≡ with_question n p.question p }
{
    p.conditions = n;
    p
}

fn read_question(file: &[u8], c: Cursor) -> Result<Cursor, Refused>
    requires { Standing file.now c }
    ensures { result ≡ cursor_of (read_question file.now (reading_of c)) }
{
    let at = c.at;
    marked(file, at, b'Q', b'U', 1)?;
    let n = file[at + 2];
    if 8 < n {
        return Err(Refusal::ConditionByte.at(at + 2));
    }
    let start = Cursor {
        at: at + 3,
        stores: c.stores,
        program: with_conditions(c.program, n),
    };
    read_conditions(file, n as usize, start)
}

// ---- the end
fn read_end(file: &[u8], c: Cursor) -> Result<Program, Refused>
    ensures { result ≡ file_read (read_end file.now (reading_of c)) }
{
    let end = file.len();
    if c.at == end {
        Ok(c.program)
    } else {
        Err(Refusal::BytesFollow.at(c.at))
    }
}

// The program of a file; or the refusal, and the place of the byte that is refused.
pub fn read(file: &[u8]) -> Result<Program, Refused>
    ensures { result ≡ file_read (read_file file.now) }
{
    let header = read_header(file)?;
    let threads = read_threads(file, header.program.threads as usize, header)?;
    let question = read_question(file, threads)?;
    read_end(file, question)
}
