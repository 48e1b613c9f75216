// Sets of times 1 to 16 in a u16, like that of the promises.
ghost use Rattle.std.specs.Prelude.{◌≡◌, ◌≤◌};
ghost use Rattle.machine.specs.Inner.{TimesAt, up_to, NewestTime};

use crate::Memory;

impl Memory {
    // The times of the messages to l, from the newest down: the set moves up by one each time, and the comparison is its new digit, so
    // that there is neither a branch nor a shift by a number that varies.
    pub fn times_at(self, l: u8) -> u16
        requires { self.count ≤ 16 }
        ensures { TimesAt self l result }
    {
        let messages = self.messages;
        let mut set = 0u16;
        let mut t = self.count;
        while 0 < t {
            t -= 1;
            let bit = (messages[t as usize].location == l) as u16;
            set = set * 2 + bit;
        }
        set
    }
}

// The times of the set up to v.
pub fn up_to(p: u16, v: u8) -> u16
    ensures { result ≡ up_to p v }
{
    if 16 <= v {
        return p;
    }
    p % (1u16 << v)
}

// The newest time of the set, or 0.
pub fn newest(p: u16) -> u8
    ensures { NewestTime p result }
{
    16 - u16::leading_zeros(p) as u8
}
