// The memory by value: its messages, and one appended.
ghost use Rattle.std.specs.Prelude.{◌≡◌, ◌<◌, ◌≤◌};
ghost use Rattle.machine.specs.State.{message_at, append};

use crate::{Memory, Message};

impl Memory {
    pub fn message_at(self, t: u8) -> Message
        requires { (0 < t) × (t ≤ 16) }
        ensures { result ≡ message_at self t }
    {
        let i = (t - 1) as usize;
        self.messages[i]
    }

    pub fn append(mut self, w: Message) -> Memory
        requires { self.count < 16 }
        ensures { result ≡ append self w }
    {
        let n = self.count;
        self.messages[n as usize] = w;
        self.count = n + 1;
        self
    }
}
