// Reads small program files, and prints for each its name, and the number and the place of its refusal: 0 0 for a good one.
//
// A row of standard input has a name and the bytes that come after those of the lines with = and + above it.
#![tactic(auto)]

mod changed;

use cases_rows::row::{Row, Rows};
use cases_rows::{input, unread};
use changed::changed;
use std::io;

// What is said of a file, behind its name.
fn read(rt: &impl Print, file: &[u8]) -> io::Result<()> {
    let (refusal, place) = match file_reader::read(file) {
        Ok(_) => (0, 0),
        Err(e) => (e.refusal.number(), e.place),
    };
    println!(rt; " {refusal} {place}")
}

fn row(rt: &impl Print, r: Row) -> io::Result<()> {
    if r.name.first() == Some(&b'!') {
        return changed(rt, r.file);
    }
    match r.file.add(r.says).readable() {
        Some(file) => {
            rt.write_all(r.name)?;
            read(rt, file)
        }
        None => unread(rt, r.name),
    }
}

fn main(rt: HostRuntime) -> io::Result<()> {
    let mut buffer = [0u8; 65536];
    let n = input(&rt, &mut buffer)?;
    for r in Rows::of(&buffer[..n]) {
        row(&rt, r)?;
    }
    Ok(())
}
