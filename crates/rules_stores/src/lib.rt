// Stores at a time: a promise fulfilled, or a certifying run's own message.
#![tactic(auto)]

ghost use Rattle.std.specs.Prelude.{◌≡◌, ◌+◌, ◌<◌, ◌≤◌, T};
ghost use Rattle.machine.specs.State.{has};
ghost use Rattle.machine.specs.Rules.{store_pre, promised, if_release, store_views, store_done, store_at};
ghost use Rattle.machine.specs.Inner.{ruled, below_time, stored, own_at};

use machine::merge::larger;
use machine::promises::has;
use machine::{Memory, Thread, Views};
use program::{Refusal, StoreMode};

// The pre-view merges the views of both operands, wNew and CAP, and for a release rOld and wOld too.
pub fn store_pre(k: StoreMode, va: u8, vd: u8, w: Views) -> u8
    ensures { result ≡ store_pre k va vd w }
{
    let v = larger(larger(va, vd), larger(w.wNew, w.cap));
    match k {
        StoreMode::PlainStore => v,
        StoreMode::Release => larger(v, larger(w.rOld, w.wOld)),
    }
}

// The thread has promised the value at the location for time t, and has not fulfilled it yet.
pub fn promised(m: Memory, t: u8, l: u8, v: u8, s: Thread) -> bool
    requires { m.count ≤ 16 }
    ensures { result ≡ promised m t l v s }
{
    if !has(s.promises, t) {
        return false;
    }
    if m.count < t {
        return false;
    }
    let w = m.message_at(t);
    if w.location == l { w.value == v } else { false }
}

fn if_release(k: StoreMode, t: u8) -> u8
    ensures { result ≡ if_release k t }
{
    match k {
        StoreMode::PlainStore => 0,
        StoreMode::Release => t,
    }
}

// The views after a store at time t; va is the address view.
pub fn store_views(k: StoreMode, t: u8, va: u8, w: Views) -> Views
    ensures { result ≡ store_views k t va w }
{
    w.raise_w_old(t).raise_rel(if_release(k, t)).raise_cap(va)
}

// Pre-view and coherence view are both below t.
pub fn below_time(k: StoreMode, t: u8, l: u8, va: u8, vd: u8, s: Thread) -> bool
    requires { l < 16 }
    ensures { result ≡ below_time k t l va vd s }
{
    if store_pre(k, va, vd, s.views) < t {
        s.coherence_at(l) < t
    } else {
        false
    }
}

// All that a store changes but the promises.
pub fn stored(k: StoreMode, t: u8, l: u8, va: u8, vd: u8, s: Thread) -> Thread
    requires { (s.position + 1 < 256) × (l < 16) }
    ensures { result ≡ stored k t l va vd s }
{
    let w = store_views(k, t, va, s.views);
    s.raise_coherence(l, t)
        .with_views(w)
        .with_forward(l, t, larger(va, vd))
        .advance(1)
}

pub fn store_done(k: StoreMode, t: u8, l: u8, va: u8, vd: u8, s: Thread) -> Thread
    requires { (s.position + 1 < 256) × ((l < 16) × T (has s.promises t)) }
    ensures { result ≡ store_done k t l va vd s }
{
    stored(k, t, l, va, vd, s.take_out(t))
}

// A store at time t; l is the location, v the value, va and vd the views of address and data.
pub fn store_at(
    k: StoreMode,
    m: Memory,
    t: u8,
    l: u8,
    v: u8,
    va: u8,
    vd: u8,
    s: Thread,
) -> Result<Thread, Refusal>
    requires { (s.position + 1 < 256) × ((m.count ≤ 16) × (l < 16)) }
    ensures { result ≡ ruled (store_at k m t l v va vd s) }
{
    if !promised(m, t, l, v, s) {
        return Err(Refusal::NoMessage);
    }
    if !below_time(k, t, l, va, vd, s) {
        return Err(Refusal::ViewNotBelow);
    }
    Ok(store_done(k, t, l, va, vd, s))
}

// A store at time t whose promise is made with it: it passes 26, and the promises stay as they are.
pub fn own_at(k: StoreMode, t: u8, l: u8, va: u8, vd: u8, s: Thread) -> Result<Thread, Refusal>
    requires { (s.position + 1 < 256) × (l < 16) }
    ensures { result ≡ ruled (own_at k t l va vd s) }
{
    if !below_time(k, t, l, va, vd, s) {
        return Err(Refusal::ViewNotBelow);
    }
    Ok(stored(k, t, l, va, vd, s))
}
