// Runs litmus tests, one on each line of standard input, and prints for each its name, verdict and count, and the published
// verdict beside them; then how many there are.
#![tactic(auto)]

mod line;
mod tally;

use cases_rows::input;
use cases_rows::lines::Lines;
use line::line;
use std::io;
use tally::Tally;

fn main(rt: HostRuntime) -> io::Result<()> {
    let mut buffer = [0u8; 65536];
    let n = input(&rt, &mut buffer)?;
    let mut tally = Tally::default();
    for l in Lines(&buffer[..n]) {
        tally.add(line(&rt, l)?);
    }
    println!(rt; "{tally}")
}
