// Steps the machine through hand-written cases, and prints for each its name, the number of its refusal (0: taken) and the state after it.
//
// A row of standard input has a name and commands, which start from the fresh machine of the program that the lines with = and + above
// it give.
#![tactic(auto)]

mod change;
mod command;
mod walk;

use cases_rows::row::{Row, Rows};
use cases_rows::{input, unread};
use file_reader::read;
use std::io;
use walk::walk;

fn row(rt: &impl Print, r: Row) -> io::Result<()> {
    match r.file.readable() {
        Some(file) => walk(rt, r.name, read(file).unwrap_or_default(), r.says),
        None => unread(rt, r.name),
    }
}

fn main(rt: HostRuntime) -> io::Result<()> {
    let mut buffer = [0u8; 65536];
    let n = input(&rt, &mut buffer)?;
    for r in Rows::of(&buffer[..n]) {
        row(&rt, r)?;
    }
    Ok(())
}
