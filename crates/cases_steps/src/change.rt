// Single fields of a program, a memory and a thread set to a value: the ways to a state that no step reaches.
// A location and an entry are taken modulo 16.
use crate::command::Field;
use machine::{Memory, Message, Thread, Views};
use program::Program;

// So many equal messages, where there is room; the count is as asked, also above 16.
pub fn equal_messages(mut m: Memory, count: u8, w: Message) -> Memory {
    for place in m.messages.iter_mut().take(usize::from(count)) {
        *place = w;
    }
    m.count = count;
    m
}

// The entry k of the messages; the count stays.
pub fn one_message(mut m: Memory, k: u8, w: Message) -> Memory {
    m.messages[usize::from(k % 16)] = w;
    m
}

// One of the six views, in their order. The number stays one here and in `program_field`: an enum of the fields, read from it and
// written to them, would be two such matches.
fn with_view(mut w: Views, which: u8, v: u8) -> Views {
    match which {
        0 => w.rOld = v,
        1 => w.wOld = v,
        2 => w.rNew = v,
        3 => w.wNew = v,
        4 => w.cap = v,
        _ => w.rel = v,
    }
    w
}

// A promise is the only one, at a time from 1 to 16; a coherence view is raised.
pub fn with_field(s: Thread, field: Field) -> Thread {
    match field {
        Field::Position(n) => s.with_position(n),
        Field::Register(n, value, view) => s.with_register(n, value, view),
        Field::View(which, v) => s.with_views(with_view(s.views, which, v)),
        Field::Promise(t) => s.with_promises(1u16 << (t.wrapping_sub(1) % 16)),
        Field::Coherence(l, v) => s.raise_coherence(l % 16, v),
        Field::Forward(l, t, view) => s.with_forward(l % 16, t, view),
    }
}

// A count of the program, or its last condition's value.
pub fn program_field(mut p: Program, which: u8, v: u8) -> Program {
    match which {
        0 => p.version = v,
        1 => p.threads = v,
        2 => p.conditions = v,
        _ => p.question[7].value = v,
    }
    p
}

// Of thread i, the number of instructions and the op of the last entry.
pub fn code_field(mut p: Program, i: u8, count: u8, op: u8) -> Program {
    if let Some(c) = p.codes.get_mut(usize::from(i)) {
        c.count = count;
        c.instructions[15].op = op;
    }
    p
}
