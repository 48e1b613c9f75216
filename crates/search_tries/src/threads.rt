// The threads that are not at their end: only these have a next step.
ghost use Rattle.std.specs.Prelude.{◌≡◌, ◌≤◌, ltb};
ghost use Rattle.search_tries.specs.Steps.{first_of_four, NextOpen};

use machine::{Machine, Thread};
use program::{Code, Program};

fn is_open(c: Code, s: Thread) -> bool
    ensures { result ≡ ltb s.position c.count }
{
    s.position < c.count
}

fn first_of(a: bool, b: bool, c: bool, d: bool) -> u8
    ensures { result ≡ first_of_four a b c d }
{
    if a {
        return 0;
    }
    if b {
        return 1;
    }
    if c {
        return 2;
    }
    if d { 3 } else { 4 }
}

// The next of them from i on, or 4. Written out for four threads, so that only the few bytes that are looked at are read: the
// search asks this at every state.
pub fn next_open(p: Program, x: Machine, i: u8) -> u8
    requires { i ≤ 4 }
    ensures { NextOpen p x i result }
{
    let a = (i < 1) & is_open(p.codes[0], x.threads[0]);
    let b = (i < 2) & is_open(p.codes[1], x.threads[1]);
    let c = (i < 3) & is_open(p.codes[2], x.threads[2]);
    let d = (i < 4) & is_open(p.codes[3], x.threads[3]);
    first_of(a, b, c, d)
}
