// A certifying run, written down while the search of runs comes back with it, from its last step to the first: so only the run that is found is
// written. It stands in the words that hold what a failure rests on, since a search that has found what it sought rests on nothing: it takes
// no place of its own on the stack, and nothing is paid by those who do not look at it.
#![tactic(auto)]

ghost use Rattle.std.specs.Prelude.{◌≡◌, List, ◌∷◌, ℕ, ◌+◌, ◌≤◌, ◌<◌, length};
ghost use Rattle.certify_runs.specs.declared.RunStep.{RunStep};
ghost use Rattle.certify_runs.specs.Values.{run_of};
ghost use Rattle.certify_trail.specs.Trail.{byte_of, Trail, passing};

use certify_cares::Cares;
use certify_runs::{Run, RunStep};

// Byte j of a word.
fn byte_of(word: u32, j: u32) -> u8
    requires { j < 4 }
    ensures { result ≡ byte_of word j }
{
    match j {
        0 => (word % 256) as u8,
        1 => (word / 256 % 256) as u8,
        2 => (word / 65536 % 256) as u8,
        _ => (word / 16777216 % 256) as u8,
    }
}

// The word with b as byte j, and the bytes below it.
fn with_byte(word: u32, j: u32, b: u8) -> u32
    requires { j < 4 }
    ensures { (byte_of result j ≡ b) × ((i : ℕ) → i < j → byte_of result i ≡ byte_of word i) }
{
    let new = b as u32;
    match j {
        0 => new,
        1 => word % 256 + 256 * new,
        2 => word % 65536 + 65536 * new,
        _ => word % 16777216 + 16777216 * new,
    }
}

// One step before those that are written.
pub fn preceded(k: Cares, kind: u8, time: u8) -> Cares
    requires { (kind < 2) × (time < 32) }
    ensures { (l : List RunStep) → Trail k.of l → length l < 16 → Trail result.of (record { kind = kind; time = time } ∷ l) }
{
    let mut of = k.of;
    let n = of[4] % 16;
    let at = (n / 4) as usize;
    of[at] = with_byte(of[at], n % 4, 32 * kind + time);
    of[4] = n + 1;
    Cares { of }
}

// So many instructions before them that are executed at time 0. It is a call of its own for the stack of a search of runs.
#[inline(never)]
pub fn passed(k: Cares, count: usize) -> Cares
    ensures { (l : List RunStep) → Trail k.of l → length l + count ≤ 16 → Trail result.of (passing count l) }
{
    let mut r = k;
    for _ in 0..count {
        r = preceded(r, 0, 0);
    }
    r
}

// The run as a value, in the order of its steps.
pub fn run_of(k: Cares) -> Run
    ensures { (l : List RunStep) → Trail k.of l → length l ≤ 16 → result ≡ run_of l }
{
    let of = k.of;
    let count = of[4].min(16);
    let mut steps = [RunStep::default(); 16];
    for n in 0..count {
        let from_end = count - n - 1;
        let step = byte_of(of[(from_end / 4) as usize], from_end % 4);
        steps[n as usize] = RunStep {
            kind: step / 32,
            time: step % 32,
        };
    }
    Run {
        steps,
        count: count as u8,
    }
}
