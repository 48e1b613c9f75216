// The machine by value: the fresh one, a thread of it, and the machine with one thread and the memory replaced.
ghost use Rattle.std.specs.Prelude.{◌≡◌, ◌<◌, set};
ghost use Rattle.machine.specs.State.{fresh_memory, fresh_thread, fresh, thread_of};

use crate::{Forward, Machine, Memory, Message, Register, Thread, Views};

fn fresh_memory() -> Memory
    ensures { result ≡ fresh_memory }
{
    Memory {
        messages: [Message::default(); 16],
        count: 0,
    }
}

fn fresh_thread() -> Thread
    ensures { result ≡ fresh_thread }
{
    Thread {
        registers: [Register::default(); 8],
        coherence: [0; 16],
        forward: [Forward::default(); 16],
        promises: 0,
        position: 0,
        views: Views::default(),
    }
}

pub fn fresh() -> Machine
    ensures { result ≡ fresh }
{
    Machine {
        memory: fresh_memory(),
        threads: [fresh_thread(); 4],
    }
}

impl Machine {
    pub fn thread_of(self, i: u8) -> Thread
        requires { i < 4 }
        ensures { result ≡ thread_of self i }
    {
        self.threads[i as usize]
    }

    pub fn moved(mut self, i: u8, m: Memory, s: Thread) -> Machine
        requires { i < 4 }
        ensures { result ≡ record { memory = m; threads = set self.threads i s } }
    {
        self.memory = m;
        self.threads[i as usize] = s;
        self
    }
}
