// Bytes and numbers written into a lent area at a place, and arrays of values that have a byte form: what the byte forms of programs
// and machines are made of.
#![tactic(auto)]

ghost use Rattle.std.specs.Prelude.{◌≡◌, List, ℕ, ◌+◌, ◌*◌, ◌≤◌, length, get_or, drop, replicate};
ghost use Rattle.encode_bytes.specs.Inner.{word64_from};
ghost use Rattle.encode_bytes.specs.Lists.{joined, entries};
ghost use Rattle.encode_bytes.specs.Places.{put};
ghost use Rattle.encode_bytes.specs.Numbers.{word16, word32, word64};

use std::array;

pub fn put_bytes(area: &mut [u8], at: usize, bytes: &[u8])
    requires { at + length bytes.now ≤ length area.old }
    ensures { area.new ≡ put at bytes.now area.old }
{
    area[at..at + bytes.len()].copy_from_slice(bytes);
}

// Low byte first.
pub fn put_u16(area: &mut [u8], at: usize, n: u16)
    requires { at + 2 ≤ length area.old }
    ensures { area.new ≡ put at (word16 n) area.old }
{
    put_bytes(area, at, &n.to_le_bytes());
}

// The low 32 bits, low byte first.
pub fn put_u32(area: &mut [u8], at: usize, n: usize)
    requires { at + 4 ≤ length area.old }
    ensures { area.new ≡ put at (word32 n) area.old }
{
    put_bytes(area, at, &n.to_le_bytes()[..4]);
}

// The low 64 bits, low byte first.
pub fn put_u64(area: &mut [u8], at: usize, n: u64)
    requires { at + 8 ≤ length area.old }
    ensures { area.new ≡ put at (word64 n) area.old }
{
    put_bytes(area, at, &n.to_le_bytes());
}

// The number that put_u16 wrote as these two bytes.
pub fn u16_of(low: u8, high: u8) -> u16
    ensures { result ≡ low + 256 * high }
{
    u16::from_le_bytes([low, high])
}

// The number that put_u64 wrote at the place.
pub fn u64_at(b: &[u8], at: usize) -> u64
    requires { at + 8 ≤ length b.now }
    ensures { result ≡ word64_from (drop at b.now) }
{
    let mut bytes = [0u8; 8];
    bytes.copy_from_slice(&b[at..at + 8]);
    u64::from_le_bytes(bytes)
}

// The first n bytes are 0 then.
pub fn clear_front(area: &mut [u8], n: usize)
    requires { n ≤ length area.old }
    ensures { area.new ≡ put 0 (replicate n 0) area.old }
{
    area[..n].fill(0);
}

// How a value of T stands as WIDTH bytes. The type that implements it is only a name, of the crate that gives T this form.
pub trait Encode<T> {
    ghost WIDTH: { ℕ };

    ghost bytes: { T → List ℕ };

    const WIDTH: usize;

    fn put(area: &mut [u8], at: usize, x: &T)
        requires { at + WIDTH ≤ length area.old }
        ensures written { area.new ≡ put at (bytes x.now) area.old }
        ensures wide { length (bytes x.now) ≡ WIDTH };
}

// The value that such bytes stand for.
pub trait Decode<T>: Encode<T> {
    ghost value: { List ℕ → T };

    fn read(b: &[u8], at: usize) -> T
        requires { at + Self.WIDTH ≤ length b.now }
        ensures { result ≡ value (drop at b.now) };
}

// The entries of an array, one after the other.
pub fn put_each<T, F: Encode<T>, const N: usize>(area: &mut [u8], at: usize, xs: &[T; N])
    requires { at + F.WIDTH * N ≤ length area.old }
    ensures { (d : T) → area.new ≡ put at (joined (λ k. F.bytes (get_or xs.now k d)) 0 N) area.old }
{
    let mut to = at;
    for x in xs {
        F::put(area, to, x);
        to += F::WIDTH;
    }
}

// The array of such entries.
pub fn each_from<T, F: Decode<T>, const N: usize>(b: &[u8], at: usize) -> [T; N]
    requires { at + F.WIDTH * N ≤ length b.now }
    ensures { result ≡ entries F.value F.WIDTH N (drop at b.now) }
{
    array::from_fn(
        |k: usize| -> T
            requires { at + (F.WIDTH * k + F.WIDTH) ≤ length b.now }
        { F::read(b, at + F::WIDTH * k) },
    )
}
