// A command of a row: a letter and four numbers.
use machine::Message;
use step::TraceStep;

// A field of a thread, and what it is set to: a register's value and view, a view by its number, a promise's time, a location's
// coherence view, a location's forward time and view.
#[derive(Clone, Copy)]
pub enum Field {
    Position(u8),
    Register(u8, u8, u8),
    View(u8, u8),
    Promise(u8),
    Coherence(u8, u8),
    Forward(u8, u8, u8),
}

#[derive(Clone, Copy)]
pub enum Command {
    // A step, printed with its number, or on the way and not printed.
    Step(TraceStep),
    StepOnTheWay(TraceStep),
    // Is the thread certified?
    Certified(u8),
    // A field of the program, by number, and its value.
    Program(u8, u8),
    // A thread of the program, the number of its instructions, the op of the last entry.
    Code(u8, u8, u8),
    // So many equal messages, or one message at an entry.
    EqualMessages(u8, Message),
    OneMessage(u8, Message),
    // A thread with one field set.
    Thread(u8, Field),
}

fn field_by(letter: u8, a: u8, b: u8, c: u8) -> Option<Field> {
    match letter {
        b'p' => Some(Field::Position(a)),
        b'r' => Some(Field::Register(a, b, c)),
        b'v' => Some(Field::View(a, b)),
        b'o' => Some(Field::Promise(a)),
        b'h' => Some(Field::Coherence(a, b)),
        b'f' => Some(Field::Forward(a, b, c)),
        _ => None,
    }
}

// None: the letter is none of a command.
fn command_by(letter: u8, a: u8, b: u8, c: u8, d: u8) -> Option<Command> {
    let step = TraceStep {
        kind: a,
        thread: b,
        a: c,
        b: d,
    };
    let message = Message {
        location: b,
        value: c,
        thread: d,
    };
    match letter {
        b's' => Some(Command::Step(step)),
        b't' => Some(Command::StepOnTheWay(step)),
        b'c' => Some(Command::Certified(a)),
        b'g' => Some(Command::Program(a, b)),
        b'i' => Some(Command::Code(a, b, c)),
        b'n' => Some(Command::EqualMessages(a, message)),
        b'u' => Some(Command::OneMessage(a, message)),
        _ => Some(Command::Thread(a, field_by(letter, b, c, d)?)),
    }
}

// A digit stands for its distance from '0': @ is 16, A is 17, / is 255.
fn digit(b: u8) -> u8 {
    b.wrapping_sub(b'0')
}

// Of six bytes, the first of which is the space before the command.
pub fn command_of(s: [u8; 6]) -> Option<Command> {
    let [_, letter, a, b, c, d] = s;
    command_by(letter, digit(a), digit(b), digit(c), digit(d))
}
