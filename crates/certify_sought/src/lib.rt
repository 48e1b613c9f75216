// What the runs of a thread alone are searched for: numbers met and sought; and what the tries of an instruction rest on.
#![tactic(auto)]

pub mod asks;
pub mod goal;
mod places;

ghost use Rattle.std.specs.Prelude.{◌≡◌, true, false, ℕ};
ghost use Rattle.certify_sought.specs.Numbers.{Unmet, Seeks, meeting, certifying};

// The two least numbers that runs have met; where there are fewer, bounds below which numbers are sought. Where the two are the same, only the
// least number is sought, and they stay the same.
#[derive(Clone, Copy, PartialEq, Eq)]
pub struct Met {
    pub least: u16,
    pub second: u16,
}

impl Met {
    // With n met too.
    pub fn with(self, n: u16) -> Met
        ensures { result ≡ meeting n self }
    {
        if self.least <= n {
            return Met {
                least: self.least,
                second: n,
            };
        }
        if self.least < self.second {
            return Met {
                least: n,
                second: self.least,
            };
        }
        Met {
            least: n,
            second: n,
        }
    }

    // No number from `from` on is sought any more.
    pub fn ended(self, from: u16) -> bool
        ensures { (result ≡ true → (n : ℕ) → Unmet from self n → ⊥) × (result ≡ false → (n : ℕ) × Unmet from self n) }
    {
        if self.second <= from {
            return true;
        }
        if self.least != from {
            return false;
        }
        self.second - 1 <= from
    }
}

// What runs are searched for: where hole is 0, an empty promise set, which is number 0; else a store that fills the hole at that time. Sought
// are numbers from `from` on that are below the second of those met and not the least. Where the two are the same, only lesser ones are.
#[derive(Clone, Copy)]
pub struct Sought {
    pub hole: u8,
    pub from: u16,
    pub met: Met,
}

impl Sought {
    // An empty promise set.
    pub fn certified() -> Sought
        ensures { result ≡ certifying }
    {
        Sought {
            hole: 0,
            from: 0,
            met: Met {
                least: 1,
                second: 1,
            },
        }
    }

    // The same, after these numbers were met. Each field is named, since `..self` takes more of the stack of a search of runs.
    pub fn after(self, met: Met) -> Sought
        ensures { result ≡ record { hole = self.hole; from = self.from; met = met } }
    {
        Sought {
            hole: self.hole,
            from: self.from,
            met,
        }
    }

    // The number n is sought.
    pub fn seeks(self, n: u16) -> bool
        ensures { (result ≡ true → Seeks self n) × (result ≡ false → Seeks self n → ⊥) }
    {
        if n < self.from {
            return false;
        }
        if self.met.second <= n {
            return false;
        }
        n != self.met.least
    }
}
