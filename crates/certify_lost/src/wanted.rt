// Messages that are wanted of a store, and the cares for values that are not.
ghost use Rattle.std.specs.Prelude.{◌≡◌, false, ℕ, ◌+◌, ◌*◌, ◌<◌};
ghost use Rattle.certify_cares.specs.Cares.{Agrees};
ghost use Rattle.certify_lost.specs.Lost.{InRange, Filling};

use certify_cares::barred::marking;

// A message that is wanted of a store: at a time, to a location of a set, of a value from low on and below high.
#[derive(Clone, Copy)]
pub struct Wanted {
    pub time: u8,
    pub places: u16,
    pub low: u16,
    pub high: u16,
}

// The value is wanted.
pub fn in_range(v: u8, w: Wanted) -> bool
    ensures { result ≡ false → InRange w v → ⊥ }
{
    if (v as u16) < w.low {
        return false;
    }
    (v as u16) < w.high
}

// The care for a value that is not wanted: that no other one is.
pub fn out_of_range(v: u8, w: Wanted) -> u32
    requires { w.low < 256 }
    ensures { (InRange w v → ⊥) → (y : ℕ) → Agrees result v y → InRange w y → ⊥ }
{
    if w.low + 1 == w.high {
        return 256 + w.low as u32;
    }
    if (v as u16) < w.low {
        return 768 + w.low as u32;
    }
    if w.high <= v as u16 {
        return 512 + w.high as u32;
    }
    2
}

// The number by which a store of value v to l fills the hole.
pub fn number_of(l: u8, v: u8) -> u16
    ensures { result ≡ 256 * l + v }
{
    256 * l as u16 + v as u16
}

// The message that fills the hole by a number 256 · l + v from `from` on and below `top`. If these are at several locations, any location and
// value will do.
pub fn filling(hole: u8, from: u16, top: u16) -> Wanted
    ensures { Filling hole from top result }
{
    if top <= from {
        return Wanted {
            time: hole,
            places: 0,
            low: 0,
            high: 0,
        };
    }
    let any = Wanted {
        time: hole,
        places: 65535,
        low: 0,
        high: 256,
    };
    let place = from / 256;
    if place != (top - 1) / 256 {
        return any;
    }
    if 16 <= place {
        return any;
    }
    Wanted {
        time: hole,
        places: marking(0, place as u8),
        low: from % 256,
        high: (top - 1) % 256 + 1,
    }
}
