// A table of machines that are known, in bytes that are lent: slots of 349 bytes, each the 341 bytes of a machine and its count in
// eight, low byte first. A slot with count 0 is free. A machine has one slot, by a hash of its bytes; a new entry takes the place of
// the old one.
#![tactic(auto)]

ghost use Rattle.std.specs.Prelude.{true, ◌≡◌, ℕ, ◌+◌, ◌*◌, ◌<◌, ◌≤◌, length, take, drop, replicate};
ghost use Rattle.search_table.specs.Table.{slot_with, Sought};

use encode_bytes::{put_u64, u64_at};
use encode_machine::put_machine;
use machine::Machine;

// The bytes of a slot: a shorter table has none.
pub const SLOT: usize = 349;

// The slot of a machine, and the count that stands there for it: 0 if there is none.
#[derive(Clone, Copy)]
pub struct Seen {
    pub slot: usize,
    pub count: u64,
}

// ---- the slot of a key: any would do. The key is a machine's 341 bytes and 11 zeros, which are 44 words.
fn mixed(h: u64, w: u64) -> u64 {
    let t = h ^ w;
    t % 4294967296 * 2654435769 ^ t / 4294967296
}

// Four side by side: a processor does not wait for one product before it takes the next.
fn hash(key: &[u8; 352]) -> u64 {
    let mut a = 0u64;
    let mut b = 0u64;
    let mut c = 0u64;
    let mut d = 0u64;
    for k in 0..11 {
        a = mixed(a, u64_at(key, 32 * k));
        b = mixed(b, u64_at(key, 32 * k + 8));
        c = mixed(c, u64_at(key, 32 * k + 16));
        d = mixed(d, u64_at(key, 32 * k + 24));
    }
    mixed(mixed(mixed(mixed(a, b), c), d), 0)
}

fn slot_of(key: &[u8; 352], slots: usize) -> usize
    requires { 0 < slots }
    ensures { result < slots }
{
    (hash(key) % slots as u64) as usize
}

// Whether the 341 bytes from the place on are those of the key.
fn same(table: &[u8], at: usize, key: &[u8; 352]) -> bool
    requires { at + 341 ≤ length table.now }
    ensures { result ≡ true → take 341 (drop at table.now) ≡ take 341 key.now }
{
    table[at..at + 341] == key[..341]
}

// ---- the table
// The table has room for a slot.
pub fn look_up(table: &[u8], x: Machine) -> Seen
    requires { 349 ≤ length table.now }
    ensures { Sought x table.now result }
{
    let mut key = [0u8; 352];
    put_machine(&mut key, 0, x);
    let slot = slot_of(&key, table.len() / SLOT);
    let at = SLOT * slot;
    let count = if same(table, at, &key) {
        u64_at(table, at + 341)
    } else {
        0
    };
    Seen { slot, count }
}

// Whatever stood in the slot is gone.
pub fn keep(table: &mut [u8], slot: usize, x: Machine, count: u64)
    requires { 349 * slot + 349 ≤ length table.old }
    ensures { table.new ≡ slot_with slot x count table.old }
{
    let at = SLOT * slot;
    put_machine(table, at, x);
    put_u64(table, at + 341, count);
}

// 4 MiB for a program to lend, room for 12,018 machines: half of the usual stack is left.
pub fn empty() -> [u8; 4194304] {
    [0; 4194304]
}

pub fn clear(table: &mut [u8])
    ensures { table.new ≡ replicate (length table.old) 0 }
{
    table.fill(0);
}
