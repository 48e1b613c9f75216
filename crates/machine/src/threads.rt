// A thread's state by value: what it holds, and the small changes that hand it back.
ghost use Rattle.std.specs.Prelude.{◌≡◌, ◌+◌, ◌<◌, T, get_or};
ghost use Rattle.theory_views.specs.Views.{view_at};
ghost use Rattle.machine.specs.State.{fresh_register, fresh_forward, with_position, with_register, raise_coherence, with_forward, with_views, with_promises, take_out, has};
ghost use Rattle.machine.specs.Rules.{advance};

use crate::merge::larger;
use crate::promises::without;
use crate::{Forward, Register, Thread, Views};

impl Thread {
    pub fn register_at(self, n: u8) -> Register
        ensures { result ≡ get_or self.registers n fresh_register }
    {
        let g = self.registers;
        if n < 8 {
            g[n as usize]
        } else {
            Register::default()
        }
    }

    pub fn coherence_at(self, l: u8) -> u8
        requires { l < 16 }
        ensures { result ≡ view_at self.coherence l }
    {
        let c = self.coherence;
        c[l as usize]
    }

    pub fn forward_at(self, l: u8) -> Forward
        requires { l < 16 }
        ensures { result ≡ get_or self.forward l fresh_forward }
    {
        let f = self.forward;
        f[l as usize]
    }

    pub fn with_position(mut self, n: u8) -> Thread
        ensures { result ≡ with_position n self }
    {
        self.position = n;
        self
    }

    pub fn advance(mut self, n: u8) -> Thread
        requires { self.position + n < 256 }
        ensures { result ≡ advance n self }
    {
        self.position = self.position + n;
        self
    }

    pub fn with_register(mut self, n: u8, value: u8, view: u8) -> Thread
        ensures { result ≡ with_register n value view self }
    {
        if n < 8 {
            self.registers[n as usize] = Register { value, view };
        }
        self
    }

    pub fn raise_coherence(mut self, l: u8, v: u8) -> Thread
        requires { l < 16 }
        ensures { result ≡ raise_coherence l v self }
    {
        self.coherence[l as usize] = larger(self.coherence[l as usize], v);
        self
    }

    pub fn with_forward(mut self, l: u8, t: u8, v: u8) -> Thread
        requires { l < 16 }
        ensures { result ≡ with_forward l t v self }
    {
        self.forward[l as usize] = Forward { time: t, view: v };
        self
    }

    pub fn with_views(mut self, w: Views) -> Thread
        ensures { result ≡ with_views w self }
    {
        self.views = w;
        self
    }

    pub fn with_promises(mut self, p: u16) -> Thread
        ensures { result ≡ with_promises p self }
    {
        self.promises = p;
        self
    }

    pub fn take_out(self, t: u8) -> Thread
        requires { T (has self.promises t) }
        ensures { result ≡ take_out t self }
    {
        self.with_promises(without(self.promises, t))
    }
}
