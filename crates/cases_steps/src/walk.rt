// The commands of a row, walked from the fresh machine.
use crate::change::{code_field, equal_messages, one_message, program_field, with_field};
use crate::command::{Command, Field, command_of};
use cases_rows::show::State;
use cases_rows::unread;
use certify::certify;
use machine::Machine;
use machine::machines::fresh;
use program::Program;
use std::io;
use step::step;

// What a row works on.
#[derive(Clone, Copy)]
pub struct Setting {
    pub program: Program,
    pub machine: Machine,
}

// The number of a step's refusal, 0 where it is taken, and the machine after it.
fn told(rt: &impl Print, name: &[u8], refusal: u8, x: Machine) -> io::Result<()> {
    let after = State(x);
    rt.write_all(name)?;
    println!(rt; " {refusal}{after}")
}

fn certified(rt: &impl Print, name: &[u8], s: Setting, i: u8) -> io::Result<()> {
    rt.write_all(name)?;
    match certify(s.program, s.machine, i) {
        Ok(Some(_)) => print!(rt; " yes")?,
        Ok(None) => print!(rt; " no")?,
        Err(refusal) => {
            let number = refusal.number();
            print!(rt; " {number}")?;
        }
    }
    let state = State(s.machine);
    println!(rt; "{state}")
}

// Of a thread that is taken modulo 4.
fn with_thread(x: Machine, thread: u8, field: Field) -> Machine {
    let i = thread % 4;
    x.moved(i, x.memory, with_field(x.thread_of(i), field))
}

fn act(rt: &impl Print, name: &[u8], mut s: Setting, c: Command) -> io::Result<Setting> {
    let Setting { program, machine } = s;
    match c {
        Command::Step(k) => match step(program, machine, k) {
            Ok(x) => {
                told(rt, name, 0, x)?;
                s.machine = x;
            }
            Err(refusal) => told(rt, name, refusal.number(), machine)?,
        },
        Command::StepOnTheWay(k) => s.machine = step(program, machine, k).unwrap_or(machine),
        Command::Certified(i) => certified(rt, name, s, i)?,
        Command::Program(which, v) => s.program = program_field(program, which, v),
        Command::Code(i, count, op) => s.program = code_field(program, i, count, op),
        Command::EqualMessages(n, w) => s.machine.memory = equal_messages(machine.memory, n, w),
        Command::OneMessage(k, w) => s.machine.memory = one_message(machine.memory, k, w),
        Command::Thread(i, field) => s.machine = with_thread(machine, i, field),
    }
    Ok(s)
}

// Each command has one space before it; one may come after the last.
pub fn walk(rt: &impl Print, name: &[u8], p: Program, commands: &[u8]) -> io::Result<()> {
    let mut s = Setting {
        program: p,
        machine: fresh(),
    };
    let (whole, others) = commands.as_chunks::<6>();
    for six in whole {
        match command_of(*six) {
            Some(c) => s = act(rt, name, s, c)?,
            None => unread(rt, name)?,
        }
    }
    if others.len() > 1 {
        unread(rt, name)?;
    }
    Ok(())
}
