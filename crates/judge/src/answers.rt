// An answer as it is printed: the verdict, the count, and a line for each step of the trace; or the refusal.
ghost use Rattle.std.specs.Prelude.{◌*◌, ◌≤◌, length, IfOk};

use program::Refused;
use search::{Answer, Verdict};
use std::io;
use step::TraceStep;
use trace_record::step_at;

fn verdict(rt: &impl Print, a: Answer) -> io::Result<()> {
    let count = a.count;
    match a.verdict {
        Verdict::Allowed => println!(rt; "verdict allowed\ncount {count}"),
        Verdict::Forbidden => println!(rt; "verdict forbidden\ncount {count}"),
        Verdict::NotFinished => println!(rt; "verdict not finished\ncount {count}"),
    }
}

// Promise: thread, location, value. Execute: thread, time.
fn step(rt: &impl Print, k: TraceStep) -> io::Result<()> {
    let TraceStep { kind, thread, a, b } = k;
    if kind == 1 {
        println!(rt; "promise {thread} {a} {b}")
    } else {
        println!(rt; "execute {thread} {a}")
    }
}

fn refused(rt: &impl Print, e: Refused) -> io::Result<()> {
    let number = e.refusal.number();
    let place = e.place;
    println!(rt; "refused {number} at {place}")
}

pub fn answer(rt: &impl Print, r: Result<Answer, Refused>, area: &[u8]) -> io::Result<()>
    requires { IfOk r (λ a. 6 * a.steps ≤ length area.now) }
{
    match r {
        Ok(a) => {
            verdict(rt, a)?;
            // An index, since `step_at` takes the trace and a place in it.
            for k in 0..a.steps {
                step(rt, step_at(area, 6 * k))?;
            }
            Ok(())
        }
        Err(e) => refused(rt, e),
    }
}
