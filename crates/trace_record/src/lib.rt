// The six bytes of a step, both ways: the mark 53 54 and its kind, thread, a and b.
#![tactic(auto)]

ghost use Rattle.std.specs.Prelude.{◌≡◌, ◌+◌, ◌≤◌, length};
ghost use Rattle.encode_bytes.specs.Places.{put};
ghost use Rattle.trace_record.specs.Inner.{marked_at, step_at};
ghost use Rattle.trace_record.specs.Trace.{step_bytes};

use encode_bytes::put_bytes;
use step::TraceStep;

// Whether the record at a place begins with the mark.
pub fn marked_at(trace: &[u8], at: usize) -> bool
    requires { at + 6 ≤ length trace.now }
    ensures { result ≡ marked_at trace.now at }
{
    (trace[at] == 0x53) & (trace[at + 1] == 0x54)
}

// The step of the record at a place.
pub fn step_at(trace: &[u8], at: usize) -> TraceStep
    requires { at + 6 ≤ length trace.now }
    ensures { result ≡ step_at trace.now at }
{
    TraceStep {
        kind: trace[at + 2],
        thread: trace[at + 3],
        a: trace[at + 4],
        b: trace[at + 5],
    }
}

// The record of step k, at a place.
pub fn put_step(area: &mut [u8], at: usize, k: TraceStep)
    requires { at + 6 ≤ length area.old }
    ensures { area.new ≡ put at (step_bytes k) area.old }
{
    put_bytes(area, at, &[0x53, 0x54, k.kind, k.thread, k.a, k.b]);
}
