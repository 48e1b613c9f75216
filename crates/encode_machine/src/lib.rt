// A machine as 341 bytes.
#![tactic(auto)]

ghost use Rattle.std.specs.Prelude.{◌≡◌, [], ◌∷◌, ◌+◌, ◌≤◌, length, drop};
ghost use Rattle.program.specs.File.{byte_at};
ghost use Rattle.encode_bytes.specs.Places.{put};
ghost use Rattle.encode_machine.specs.Value.{message_bytes, memory_bytes, register_bytes, forward_bytes, views_bytes, thread_bytes, machine_bytes, message_from, memory_from, register_from, forward_from, views_from, thread_from, machine_of};

use encode_bytes::{Decode, Encode, each_from, put_bytes, put_each, put_u16, u16_of};
use machine::{Forward, Machine, Memory, Message, Register, Thread, Views};

// Names the byte forms of a machine's parts.
struct Bytes;

impl Encode<Message> for Bytes {
    ghost WIDTH = { 3 };

    ghost bytes = { message_bytes };

    const WIDTH: usize = 3;

    fn put(area: &mut [u8], at: usize, w: &Message) {
        put_bytes(area, at, &[w.location, w.value, w.thread]);
    }
}

impl Decode<Message> for Bytes {
    ghost value = { message_from };

    fn read(b: &[u8], at: usize) -> Message {
        Message {
            location: b[at],
            value: b[at + 1],
            thread: b[at + 2],
        }
    }
}

impl Encode<Register> for Bytes {
    ghost WIDTH = { 2 };

    ghost bytes = { register_bytes };

    const WIDTH: usize = 2;

    fn put(area: &mut [u8], at: usize, r: &Register) {
        put_bytes(area, at, &[r.value, r.view]);
    }
}

impl Decode<Register> for Bytes {
    ghost value = { register_from };

    fn read(b: &[u8], at: usize) -> Register {
        Register {
            value: b[at],
            view: b[at + 1],
        }
    }
}

// A coherence view.
impl Encode<u8> for Bytes {
    ghost WIDTH = { 1 };

    ghost bytes = { λ v. v ∷ [] };

    const WIDTH: usize = 1;

    fn put(area: &mut [u8], at: usize, v: &u8) {
        put_bytes(area, at, &[*v]);
    }
}

impl Decode<u8> for Bytes {
    ghost value = { λ b. byte_at b 0 };

    fn read(b: &[u8], at: usize) -> u8 {
        b[at]
    }
}

impl Encode<Forward> for Bytes {
    ghost WIDTH = { 2 };

    ghost bytes = { forward_bytes };

    const WIDTH: usize = 2;

    fn put(area: &mut [u8], at: usize, f: &Forward) {
        put_bytes(area, at, &[f.time, f.view]);
    }
}

impl Decode<Forward> for Bytes {
    ghost value = { forward_from };

    fn read(b: &[u8], at: usize) -> Forward {
        Forward {
            time: b[at],
            view: b[at + 1],
        }
    }
}

fn views_from(b: &[u8], at: usize) -> Views
    requires { at + 6 ≤ length b.now }
    ensures { result ≡ views_from (drop at b.now) }
{
    Views {
        rOld: b[at],
        wOld: b[at + 1],
        rNew: b[at + 2],
        wNew: b[at + 3],
        cap: b[at + 4],
        rel: b[at + 5],
    }
}

impl Encode<Thread> for Bytes {
    ghost WIDTH = { 73 };

    ghost bytes = { thread_bytes };

    const WIDTH: usize = 73;

    fn put(area: &mut [u8], at: usize, s: &Thread) {
        let w = s.views;
        put_bytes(area, at, &[s.position]);
        put_each::<Register, Bytes, 8>(area, at + 1, &s.registers);
        put_each::<u8, Bytes, 16>(area, at + 17, &s.coherence);
        put_each::<Forward, Bytes, 16>(area, at + 33, &s.forward);
        put_bytes(
            area,
            at + 65,
            &[w.rOld, w.wOld, w.rNew, w.wNew, w.cap, w.rel],
        );
        put_u16(area, at + 71, s.promises);
    }
}

impl Decode<Thread> for Bytes {
    ghost value = { thread_from };

    fn read(b: &[u8], at: usize) -> Thread {
        Thread {
            position: b[at],
            registers: each_from::<Register, Bytes, 8>(b, at + 1),
            coherence: each_from::<u8, Bytes, 16>(b, at + 17),
            forward: each_from::<Forward, Bytes, 16>(b, at + 33),
            views: views_from(b, at + 65),
            promises: u16_of(b[at + 71], b[at + 72]),
        }
    }
}

// All 341 bytes from the place on; everything else in the area stays.
pub fn put_machine(area: &mut [u8], at: usize, x: Machine)
    requires { at + 341 ≤ length area.old }
    ensures { area.new ≡ put at (machine_bytes x) area.old }
{
    put_bytes(area, at, &[x.memory.count]);
    put_each::<Message, Bytes, 16>(area, at + 1, &x.memory.messages);
    put_each::<Thread, Bytes, 4>(area, at + 49, &x.threads);
}

// Any 341 bytes are a machine; whether it is well formed is for others to test.
pub fn machine_of(b: &[u8]) -> Machine
    requires { 341 ≤ length b.now }
    ensures { result ≡ machine_of b.now }
{
    Machine {
        memory: Memory {
            count: b[0],
            messages: each_from::<Message, Bytes, 16>(b, 1),
        },
        threads: each_from::<Thread, Bytes, 4>(b, 49),
    }
}
