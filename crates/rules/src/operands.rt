// Operands: their values, views and addresses.
ghost use Rattle.std.specs.Prelude.{◌≡◌, ◌+◌, ◌<◌};
ghost use Rattle.machine.specs.Rules.{value_of, view_of, view_of₂, address};

use machine::Thread;
use machine::merge::larger;
use program::Operand;

// A constant is itself, a register's value is what it holds.
pub fn value_of(s: Thread, a: Operand) -> u8
    ensures { result ≡ value_of s a }
{
    match a {
        Operand::Constant(n) => n,
        Operand::OfRegister(n) => s.register_at(n).value,
    }
}

// An operand's view: 0 for a constant, for a register the one that it holds.
pub fn view_of(s: Thread, a: Operand) -> u8
    ensures { result ≡ view_of s a }
{
    match a {
        Operand::Constant(_) => 0,
        Operand::OfRegister(n) => s.register_at(n).view,
    }
}

pub fn view_of_both(s: Thread, a: Operand, b: Operand) -> u8
    ensures { result ≡ view_of₂ s a b }
{
    larger(view_of(s, a), view_of(s, b))
}

// One of the 16 locations: the address modulo 16.
pub fn address(n: u8) -> u8
    ensures { (result ≡ address n) × (result < 16) }
{
    n % 16
}

// The address of a sum, which may be above 255.
pub fn address_of_sum(x: u8, y: u8) -> u8
    ensures { (result ≡ address (x + y)) × (result < 16) }
{
    (x % 16 + y % 16) % 16
}
