// Loads at a time: which messages a thread may read, and what reading one leaves.
#![tactic(auto)]

ghost use Rattle.std.specs.Prelude.{◌≡◌, ◌+◌, ◌<◌, ◌≤◌};
ghost use Rattle.machine.specs.Rules.{load_pre, readable, none_newer, read_value, read_view, if_acquire, load_views, load_done, load_at};
ghost use Rattle.machine.specs.Inner.{ruled};

use machine::merge::larger;
use machine::times::{newest, up_to};
use machine::{Memory, Thread, Views};
use program::{LoadMode, Refusal};

// The pre-view merges the address view and rNew, and for an acquire that is not weak Rel too.
pub fn load_pre(k: LoadMode, va: u8, w: Views) -> u8
    ensures { result ≡ load_pre k va w }
{
    match k {
        LoadMode::PlainLoad => larger(va, w.rNew),
        LoadMode::Acquire => larger(larger(va, w.rNew), w.rel),
        LoadMode::WeakAcquire => larger(va, w.rNew),
    }
}

// The message at t is at the location l, or t = 0.
pub fn readable(m: Memory, l: u8, t: u8) -> bool
    requires { m.count ≤ 16 }
    ensures { result ≡ readable m l t }
{
    if t == 0 {
        return true;
    }
    if m.count < t {
        return false;
    }
    m.message_at(t).location == l
}

// No message to l stands after time t and up to time v: the newest of those up to v is not after t. Mostly v is not after t, and the set is
// not asked for.
pub fn none_newer(m: Memory, l: u8, t: u8, v: u8) -> bool
    requires { m.count ≤ 16 }
    ensures { result ≡ none_newer m l t v }
{
    if v <= t {
        return true;
    }
    let seen = up_to(m.times_at(l), v);
    newest(seen) <= t
}

// Time 0 holds value 0.
pub fn read_value(m: Memory, t: u8) -> u8
    requires { t ≤ 16 }
    ensures { result ≡ read_value m t }
{
    if t == 0 { 0 } else { m.message_at(t).value }
}

// The read view: at the forward time of l its forward view, at any other time that time.
pub fn read_view(s: Thread, l: u8, t: u8) -> u8
    requires { l < 16 }
    ensures { result ≡ read_view s l t }
{
    let w = s.forward_at(l);
    if t == w.time { w.view } else { t }
}

fn if_acquire(k: LoadMode, v: u8) -> u8
    ensures { result ≡ if_acquire k v }
{
    match k {
        LoadMode::PlainLoad => 0,
        LoadMode::Acquire => v,
        LoadMode::WeakAcquire => v,
    }
}

// The views after a load; va is the address view.
pub fn load_views(k: LoadMode, va: u8, post: u8, w: Views) -> Views
    ensures { result ≡ load_views k va post w }
{
    let v = if_acquire(k, post);
    w.raise_r_old(post)
        .raise_r_new(v)
        .raise_w_new(v)
        .raise_cap(va)
}

pub fn load_done(k: LoadMode, r: u8, m: Memory, t: u8, l: u8, va: u8, post: u8, s: Thread) -> Thread
    requires { (s.position + 1 < 256) × ((t ≤ 16) × (l < 16)) }
    ensures { result ≡ load_done k r m t l va post s }
{
    let w = load_views(k, va, post, s.views);
    s.with_register(r, read_value(m, t), post)
        .raise_coherence(l, post)
        .with_views(w)
        .advance(1)
}

// A load into r at time t; l is the location, va the address view.
pub fn load_at(
    k: LoadMode,
    r: u8,
    m: Memory,
    t: u8,
    l: u8,
    va: u8,
    s: Thread,
) -> Result<Thread, Refusal>
    requires { (s.position + 1 < 256) × ((m.count ≤ 16) × (l < 16)) }
    ensures { result ≡ ruled (load_at k r m t l va s) }
{
    if !readable(m, l, t) {
        return Err(Refusal::NoMessage);
    }
    let pre = load_pre(k, va, s.views);
    let span = larger(pre, s.coherence_at(l));
    if !none_newer(m, l, t, span) {
        return Err(Refusal::NewerMessage);
    }
    let post = larger(pre, read_view(s, l, t));
    Ok(load_done(k, r, m, t, l, va, post, s))
}
