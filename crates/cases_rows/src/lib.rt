// What the programs that run rows of cases share: the lines and the rows of the input, the bytes that a row writes out, and states printed.
#![tactic(auto)]

pub mod file;
pub mod lines;
pub mod row;
pub mod show;

ghost use Rattle.std.specs.Prelude.{◌≡◌, ◌≤◌, length, IfOk};

use std::io;
use text::read_full;

// A row that cannot be read says so, and the comparison of what is printed shows it.
pub fn unread(rt: &impl Print, name: &[u8]) -> io::Result<()> {
    rt.write_all(name)?;
    println!(rt; " cannot be read")
}

// Standard input up to its end. A buffer that it fills may have cut it off. An error is that of a read, or of the line that says so; the buffer
// then has some of the input.
pub fn input(rt: &(impl Input + Print), buffer: &mut [u8]) -> io::Result<usize>
    ensures bound { IfOk result (λ n. n ≤ length buffer.new) }
    ensures lent { length buffer.new ≡ length buffer.old }
{
    let n = read_full(&mut rt.reader(), buffer)?;
    if n == buffer.len() {
        unread(rt, b"the end of the input")?;
    }
    Ok(n)
}
