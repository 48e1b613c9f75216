// Sets of locations: bit l says whether location l is in the set.
ghost use Rattle.std.specs.Prelude.{◌≡◌, true, false, ℕ, ◌+◌, ◌<◌};
ghost use Rattle.machine.specs.Rules.{address};
ghost use Rattle.certify_cares.specs.Cares.{Marked};

// Whether location l is in the set.
pub fn marked(set: u16, l: u8) -> bool
    requires { l < 16 }
    ensures { (result ≡ true → Marked set l) × (result ≡ false → Marked set l → ⊥) }
{
    (set >> l) % 2 == 1
}

// The set with location l.
pub fn marking(set: u16, l: u8) -> u16
    requires { l < 16 }
    ensures { Marked result l × ((j : ℕ) → Marked set j → Marked result j) }
{
    set | (1u16 << l)
}

// The locations of both sets.
pub fn either(one: u16, two: u16) -> u16
    ensures { ((j : ℕ) → Marked one j → Marked result j) × ((j : ℕ) → Marked two j → Marked result j) }
{
    one | two
}

// The set turned: the locations from which `by` leads into it.
pub fn turned(set: u16, by: u8) -> u16
    ensures { (y : ℕ) → Marked set (address (by + y)) → Marked result (address y) }
{
    let n = by % 16;
    (set >> n) | (set << ((16 - n) % 16))
}
