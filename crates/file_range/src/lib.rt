// The bytes of an instruction and of a condition, tested left to right.
#![tactic(auto)]

ghost use Rattle.std.specs.Prelude.{◌≡◌, ◌<◌};
ghost use Rattle.program.specs.WellFormed.{mode_limit, mode_test, register_test, kind_test, number_test, instruction_tests, condition_tests};
ghost use Rattle.program.specs.Inner.{first_failing, asked_thread_test, index_limit};

use program::{Condition, Instruction};

// The largest m of an op.
fn mode_limit(op: u8) -> u8
    ensures { result ≡ mode_limit op }
{
    if op == 0 {
        return 3;
    }
    if op == 1 {
        return 2;
    }
    if op == 2 {
        return 1;
    }
    if op == 3 { 15 } else { 3 }
}

// m is in range; a branch at place k of n instructions passes over no more of them than come after it.
fn mode_ok(n: u8, k: usize, op: u8, m: u8) -> bool
    requires { k < 16 }
    ensures { result ≡ mode_test n k op m }
{
    if mode_limit(op) < m {
        return false;
    }
    if op == 3 {
        k + (m as usize) + 1 <= n as usize
    } else {
        true
    }
}

fn register_ok(op: u8, r: u8) -> bool
    ensures { result ≡ register_test op r }
{
    if op <= 1 { r <= 7 } else { r <= 0 }
}

fn kind_ok(op: u8, k: u8) -> bool
    ensures { result ≡ kind_test op k }
{
    if op == 4 { k <= 0 } else { k <= 1 }
}

fn number_ok(op: u8, k: u8, n: u8) -> bool
    ensures { result ≡ number_test op k n }
{
    if op == 4 {
        return n == 0;
    }
    if k == 0 { true } else { n <= 7 }
}

// The index of the first byte that is out of range at place k of n instructions, if one is.
pub fn instruction_fault(n: u8, k: usize, x: Instruction) -> Option<usize>
    requires { k < 16 }
    ensures { result ≡ first_failing (instruction_tests n k x) }
{
    if 4 < x.op {
        return Some(0);
    }
    if !mode_ok(n, k, x.op, x.m) {
        return Some(1);
    }
    if !register_ok(x.op, x.r) {
        return Some(2);
    }
    if !kind_ok(x.op, x.k1) {
        return Some(3);
    }
    if !number_ok(x.op, x.k1, x.n1) {
        return Some(4);
    }
    if !kind_ok(x.op, x.k2) {
        return Some(5);
    }
    if number_ok(x.op, x.k2, x.n2) {
        None
    } else {
        Some(6)
    }
}

// A register is asked of a thread that there is, a location of thread 0.
fn thread_ok(threads: u8, kind: u8, thread: u8) -> bool
    ensures { result ≡ asked_thread_test threads kind thread }
{
    if kind == 0 {
        thread < threads
    } else {
        thread == 0
    }
}

// The largest index of a kind.
fn index_limit(kind: u8) -> u8
    ensures { result ≡ index_limit kind }
{
    if kind == 0 { 7 } else { 15 }
}

// The index of the first byte of a condition that is out of range, if one is.
pub fn condition_fault(threads: u8, x: Condition) -> Option<usize>
    ensures { result ≡ first_failing (condition_tests threads x) }
{
    if 1 < x.kind {
        return Some(0);
    }
    if !thread_ok(threads, x.kind, x.thread) {
        return Some(1);
    }
    if index_limit(x.kind) < x.index {
        Some(2)
    } else {
        None
    }
}
