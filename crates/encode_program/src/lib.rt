// A program as 487 bytes.
#![tactic(auto)]

ghost use Rattle.std.specs.Prelude.{◌≡◌, ◌+◌, ◌≤◌, length};
ghost use Rattle.encode_bytes.specs.Places.{put};
ghost use Rattle.encode_program.specs.Value.{instruction_bytes, code_bytes, condition_bytes, program_bytes, instruction_from, code_from, condition_from, program_of};

use encode_bytes::{Decode, Encode, each_from, put_bytes, put_each};
use program::{Code, Condition, Instruction, Program};

// Names the byte forms of a program's parts.
struct Bytes;

impl Encode<Instruction> for Bytes {
    ghost WIDTH = { 7 };

    ghost bytes = { instruction_bytes };

    const WIDTH: usize = 7;

    fn put(area: &mut [u8], at: usize, x: &Instruction) {
        put_bytes(area, at, &[x.op, x.m, x.r, x.k1, x.n1, x.k2, x.n2]);
    }
}

impl Decode<Instruction> for Bytes {
    ghost value = { instruction_from };

    fn read(b: &[u8], at: usize) -> Instruction {
        Instruction {
            op: b[at],
            m: b[at + 1],
            r: b[at + 2],
            k1: b[at + 3],
            n1: b[at + 4],
            k2: b[at + 5],
            n2: b[at + 6],
        }
    }
}

impl Encode<Code> for Bytes {
    ghost WIDTH = { 113 };

    ghost bytes = { code_bytes };

    const WIDTH: usize = 113;

    fn put(area: &mut [u8], at: usize, c: &Code) {
        put_bytes(area, at, &[c.count]);
        put_each::<Instruction, Bytes, 16>(area, at + 1, &c.instructions);
    }
}

impl Decode<Code> for Bytes {
    ghost value = { code_from };

    fn read(b: &[u8], at: usize) -> Code {
        Code {
            count: b[at],
            instructions: each_from::<Instruction, Bytes, 16>(b, at + 1),
        }
    }
}

impl Encode<Condition> for Bytes {
    ghost WIDTH = { 4 };

    ghost bytes = { condition_bytes };

    const WIDTH: usize = 4;

    fn put(area: &mut [u8], at: usize, q: &Condition) {
        put_bytes(area, at, &[q.kind, q.thread, q.index, q.value]);
    }
}

impl Decode<Condition> for Bytes {
    ghost value = { condition_from };

    fn read(b: &[u8], at: usize) -> Condition {
        Condition {
            kind: b[at],
            thread: b[at + 1],
            index: b[at + 2],
            value: b[at + 3],
        }
    }
}

// All 487 bytes from the place on; everything else in the area stays.
pub fn put_program(area: &mut [u8], at: usize, p: Program)
    requires { at + 487 ≤ length area.old }
    ensures { area.new ≡ put at (program_bytes p) area.old }
{
    put_bytes(area, at, &[p.version, p.threads]);
    put_each::<Code, Bytes, 4>(area, at + 2, &p.codes);
    put_bytes(area, at + 454, &[p.conditions]);
    put_each::<Condition, Bytes, 8>(area, at + 455, &p.question);
}

// Any 487 bytes are a program; whether it is well formed is for others to test.
pub fn program_of(b: &[u8]) -> Program
    requires { 487 ≤ length b.now }
    ensures { result ≡ program_of b.now }
{
    Program {
        version: b[0],
        threads: b[1],
        codes: each_from::<Code, Bytes, 4>(b, 2),
        conditions: b[454],
        question: each_from::<Condition, Bytes, 8>(b, 455),
    }
}
