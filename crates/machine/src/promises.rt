// The outstanding promises: a set of times 1 to 16 in a u16. Its ones count them, its trailing zeros give the first.
ghost use Rattle.std.specs.Prelude.{◌≡◌, ◌-◌, ◌^◌, ◌<◌, ◌≤◌, T, eqb};
ghost use Rattle.machine.specs.State.{has, with, without};
ghost use Rattle.machine.specs.Inner.{FirstPromise};

pub fn has(p: u16, t: u8) -> bool
    ensures { result ≡ has p t }
{
    if t == 0 {
        return false;
    }
    if 16 < t {
        return false;
    }
    (p >> (t - 1)) % 2 == 1
}

// The set with time t, which comes after all that are in it.
pub fn with(p: u16, t: u8) -> u16
    requires { (0 < t) × ((t ≤ 16) × (p < 2 ^ (t - 1))) }
    ensures { result ≡ with p t }
{
    p + (1u16 << (t - 1))
}

// The set without time t, which is in it.
pub fn without(p: u16, t: u8) -> u16
    requires { T (has p t) }
    ensures { result ≡ without p t }
{
    p - (1u16 << (t - 1))
}

pub fn is_empty(p: u16) -> bool
    ensures { result ≡ eqb p 0 }
{
    u16::count_ones(p) == 0
}

// The first time of a set that is not empty.
pub fn first(p: u16) -> u8
    requires { p ≡ 0 → ⊥ }
    ensures { FirstPromise p result }
{
    u16::trailing_zeros(p) as u8 + 1
}
