// A state printed on one line: the message count, the messages, and each thread after a bar, from its position on. Views, times and registers that are 0 are left out.
use machine::promises::has;
use machine::{Machine, Memory, Message, Thread, Views};
use std::fmt;

// All four threads: one that the program does not have must be 0, and 20 shows where it is not.
#[derive(Clone, Copy)]
pub struct State(pub Machine);

impl fmt::Display for State {
    fn fmt<W: fmt::Write>(&self, f: &mut fmt::Formatter<W>) -> fmt::Result {
        memory(f, &self.0.memory)?;
        for s in &self.0.threads {
            thread(f, s)?;
        }
        Ok(())
    }
}

fn memory<W: fmt::Write>(f: &mut fmt::Formatter<W>, m: &Memory) -> fmt::Result {
    let count = m.count;
    write!(f, " {count}")?;
    for (k, w) in m.messages.iter().enumerate() {
        message(f, k < usize::from(count), *w)?;
    }
    Ok(())
}

// A message as (location value thread). An entry past the count is shown where it is not 0: 20 refuses it.
fn message<W: fmt::Write>(f: &mut fmt::Formatter<W>, used: bool, w: Message) -> fmt::Result {
    let Message {
        location,
        value,
        thread,
    } = w;
    if used || location != 0 || value != 0 || thread != 0 {
        write!(f, " ({location} {value} {thread})")?;
    }
    Ok(())
}

fn thread<W: fmt::Write>(f: &mut fmt::Formatter<W>, s: &Thread) -> fmt::Result {
    let position = s.position;
    write!(f, " | {position}")?;
    registers(f, s)?;
    locations(f, s)?;
    views(f, s.views)?;
    promises(f, s.promises)
}

// A register as value@view, a forward pair as time@view.
fn pair<W: fmt::Write>(
    f: &mut fmt::Formatter<W>,
    letter: char,
    k: usize,
    a: u8,
    view: u8,
) -> fmt::Result {
    if a != 0 || view != 0 {
        write!(f, " {letter}{k}={a}@{view}")?;
    }
    Ok(())
}

fn view<W: fmt::Write>(f: &mut fmt::Formatter<W>, name: &str, v: u8) -> fmt::Result {
    if v != 0 {
        write!(f, " {name}={v}")?;
    }
    Ok(())
}

fn registers<W: fmt::Write>(f: &mut fmt::Formatter<W>, s: &Thread) -> fmt::Result {
    for (n, w) in s.registers.iter().enumerate() {
        pair(f, 'r', n, w.value, w.view)?;
    }
    Ok(())
}

fn locations<W: fmt::Write>(f: &mut fmt::Formatter<W>, s: &Thread) -> fmt::Result {
    for (l, (c, w)) in s.coherence.iter().zip(&s.forward).enumerate() {
        if *c != 0 {
            write!(f, " c{l}={c}")?;
        }
        pair(f, 'f', l, w.time, w.view)?;
    }
    Ok(())
}

fn views<W: fmt::Write>(f: &mut fmt::Formatter<W>, w: Views) -> fmt::Result {
    view(f, "rOld", w.rOld)?;
    view(f, "wOld", w.wOld)?;
    view(f, "rNew", w.rNew)?;
    view(f, "wNew", w.wNew)?;
    view(f, "cap", w.cap)?;
    view(f, "rel", w.rel)
}

fn promises<W: fmt::Write>(f: &mut fmt::Formatter<W>, p: u16) -> fmt::Result {
    for t in 1..17 {
        if has(p, t) {
            write!(f, " p{t}")?;
        }
    }
    Ok(())
}
