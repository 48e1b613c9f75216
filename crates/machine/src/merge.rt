// Views raised: merged by taking the larger.
ghost use Rattle.std.specs.Prelude.{◌≡◌, min, max};
ghost use Rattle.machine.specs.State.{raise_r_old, raise_w_old, raise_r_new, raise_w_new, raise_cap, raise_rel};

use crate::Views;

pub fn larger(a: u8, b: u8) -> u8
    ensures { result ≡ max a b }
{
    if a < b { b } else { a }
}

pub fn smaller(a: u8, b: u8) -> u8
    ensures { result ≡ min a b }
{
    if a < b { a } else { b }
}

impl Views {
    pub fn raise_r_old(mut self, v: u8) -> Views
        ensures { result ≡ raise_r_old v self }
    {
        self.rOld = larger(self.rOld, v);
        self
    }

    pub fn raise_w_old(mut self, v: u8) -> Views
        ensures { result ≡ raise_w_old v self }
    {
        self.wOld = larger(self.wOld, v);
        self
    }

    pub fn raise_r_new(mut self, v: u8) -> Views
        ensures { result ≡ raise_r_new v self }
    {
        self.rNew = larger(self.rNew, v);
        self
    }

    pub fn raise_w_new(mut self, v: u8) -> Views
        ensures { result ≡ raise_w_new v self }
    {
        self.wNew = larger(self.wNew, v);
        self
    }

    pub fn raise_cap(mut self, v: u8) -> Views
        ensures { result ≡ raise_cap v self }
    {
        self.cap = larger(self.cap, v);
        self
    }

    pub fn raise_rel(mut self, v: u8) -> Views
        ensures { result ≡ raise_rel v self }
    {
        self.rel = larger(self.rel, v);
        self
    }
}
