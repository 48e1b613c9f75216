// The numbers that the cases of each answer stand for.
#![tactic(auto)]

ghost use Rattle.std.specs.Prelude.{◌≡◌, cond};
ghost use Rattle.encode_numbers.specs.Cases.{refused_number, refused_place, refusal_number, certified_byte, replay_refusal, replay_file, replay_index, replay_place, verdict_byte, search_steps, search_count, listing_byte, listing_refusal, listing_count, outcomes_number};

use outcomes::Verdict as Listing;
use program::{Refusal, Refused};
use search::Verdict;
use trace_replay::ReplayRefusal;

// ---- a refusal at a place, of whatever answer
pub fn refused_number<A>(r: &Result<A, Refused>) -> u8
    ensures { result ≡ refused_number r.now }
{
    match r {
        Ok(_) => 0,
        Err(e) => e.refusal.number(),
    }
}

pub fn refused_place<A>(r: &Result<A, Refused>) -> usize
    ensures { result ≡ refused_place r.now }
{
    match r {
        Ok(_) => 0,
        Err(e) => e.place,
    }
}

// ---- a refusal without a place, of whatever answer
pub fn refusal_number<A>(r: &Result<A, Refusal>) -> u8
    ensures { result ≡ refusal_number r.now }
{
    match r {
        Ok(_) => 0,
        Err(refusal) => refusal.number(),
    }
}

// ---- certify
pub fn certified_byte<A>(r: &Result<Option<A>, Refusal>) -> u8
    ensures { result ≡ certified_byte r.now }
{
    match r {
        Ok(Some(_)) => 1,
        Ok(None) => 0,
        Err(_) => 0,
    }
}

// ---- replay
pub fn replay_refusal(a: Result<(), ReplayRefusal>) -> u8
    ensures { result ≡ replay_refusal a }
{
    match a {
        Ok(()) => 0,
        Err(ReplayRefusal::Program(e)) => e.refusal.number(),
        Err(ReplayRefusal::Trace(e, _)) => e.refusal.number(),
    }
}

pub fn replay_file(a: Result<(), ReplayRefusal>) -> u8
    ensures { result ≡ replay_file a }
{
    match a {
        Ok(()) => 0,
        Err(ReplayRefusal::Program(_)) => 1,
        Err(ReplayRefusal::Trace(_, _)) => 2,
    }
}

pub fn replay_index(a: Result<(), ReplayRefusal>) -> usize
    ensures { result ≡ replay_index a }
{
    match a {
        Ok(()) => 0,
        Err(ReplayRefusal::Program(_)) => 0,
        Err(ReplayRefusal::Trace(_, index)) => index,
    }
}

pub fn replay_place(a: Result<(), ReplayRefusal>) -> usize
    ensures { result ≡ replay_place a }
{
    match a {
        Ok(()) => 0,
        Err(ReplayRefusal::Program(e)) => e.place,
        Err(ReplayRefusal::Trace(e, _)) => e.place,
    }
}

pub fn yes_byte(b: bool) -> u8
    ensures { result ≡ cond b 1 0 }
{
    if b { 1 } else { 0 }
}

// ---- search
pub fn verdict_byte(r: Result<search::Answer, Refused>) -> u8
    ensures { result ≡ verdict_byte r }
{
    match r {
        Ok(a) => {
            let verdict = a.verdict;
            match verdict {
                Verdict::Allowed => 1,
                Verdict::Forbidden => 2,
                Verdict::NotFinished => 3,
            }
        }
        Err(_) => 0,
    }
}

pub fn search_steps(r: Result<search::Answer, Refused>) -> usize
    ensures { result ≡ search_steps r }
{
    match r {
        Ok(a) => a.steps,
        Err(_) => 0,
    }
}

pub fn search_count(r: Result<search::Answer, Refused>) -> u64
    ensures { result ≡ search_count r }
{
    match r {
        Ok(a) => a.count,
        Err(_) => 0,
    }
}

// ---- outcomes
pub fn listing_byte(r: Result<outcomes::Answer, Refused>) -> u8
    ensures { result ≡ listing_byte r }
{
    match r {
        Ok(listed) => {
            let verdict = listed.verdict;
            match verdict {
                Listing::Finished => 1,
                Listing::TooMany => 0,
                Listing::NotFinished => 3,
            }
        }
        Err(_) => 0,
    }
}

pub fn listing_refusal(r: Result<outcomes::Answer, Refused>) -> u8
    ensures { result ≡ listing_refusal r }
{
    match r {
        Ok(listed) => {
            let verdict = listed.verdict;
            match verdict {
                Listing::Finished => 0,
                Listing::TooMany => Refusal::ManyOutcomes.number(),
                Listing::NotFinished => 0,
            }
        }
        Err(_) => refused_number(&r),
    }
}

pub fn listing_count(r: Result<outcomes::Answer, Refused>) -> u64
    ensures { result ≡ listing_count r }
{
    match r {
        Ok(listed) => listed.count,
        Err(_) => 0,
    }
}

pub fn outcomes_number(r: Result<outcomes::Answer, Refused>) -> usize
    ensures { result ≡ outcomes_number r }
{
    match r {
        Ok(listed) => listed.number,
        Err(_) => 0,
    }
}
