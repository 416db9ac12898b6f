ghost use Rattle.std.specs.Prelude.{◌≡◌, ◌↔◌, ◌+◌, ◌-◌, ◌<◌, ◌≤◌, ◌++◌, ℕ, List, [], Option, Some, IfOk, IsSome, length, vec_len, vec_capacity};
ghost use Rattle.am_outside.specs.Calls.{counted_up};
ghost use Rattle.am_outside.specs.Growth.{Grows, GrowsByPart};
ghost use Rattle.am_outside.specs.Pages.{planned, stop_of, up_to, sure_bytes};

use crate::answer::Put;
use crate::sink::Sink;
use am_term::NoMemory;
use std::alloc::Global;

/// A sink in memory with a room in bytes, which is reserved when it is made, and with pairs of a call's
/// number, from 1, and the bytes that this call takes before it fails. Of two pairs with one number the
/// first counts. Both counts stay at the last value of 64 bits.
#[derive(Debug, Drop)]
pub struct Page {
    pub held: Vec<u8>,
    pub fail: Vec<(u64, u64)>,
    pub calls: u64,
    pub faults: u64,
    pub room: u64,
    ghost reserved: { room ≤ vec_capacity held },
    ghost within: { vec_len held ≤ room },
}

impl Page {
    /// The empty page of that room before its first call.
    pub fn new(alloc: Global, room: u64, fail: Vec<(u64, u64)>) -> Result<Page, NoMemory>
        ensures held { IfOk result (λ page. page.held.items ≡ []) }
        ensures room { IfOk result (λ page. page.room ≡ room) }
        ensures fail { IfOk result (λ page. page.fail ≡ fail) }
        ensures counts { IfOk result (λ page. (page.calls ≡ 0) × (page.faults ≡ 0)) }
    {
        let held = Vec::with_capacity(alloc, room as usize)?;
        Ok(Page {
            held,
            fail,
            calls: 0,
            faults: 0,
            room,
        })
    }
}

impl Sink for Page {
    ghost held = { λ page. Some page.held.items };

    ghost faults = { λ page. page.faults };

    ghost sure = { λ page. sure_bytes (vec_len page.held) page.room page.calls page.fail.items };

    #[tactic(auto, using(crate::proofs::Stops::is_sure))]
    fn put(&mut self, bytes: &[u8]) -> Put
        ensures fails { (result ≡ Put.Failed) ↔ IsSome (stop_of (planned self.old.fail.items self.new.calls)
            (self.old.room - vec_len self.old.held) (length bytes.now)) }
        ensures takes { self.new.held.items ≡ self.old.held.items ++ up_to
            (stop_of (planned self.old.fail.items self.new.calls) (self.old.room - vec_len self.old.held)
            (length bytes.now)) bytes.now }
        ensures calls { self.new.calls ≡ counted_up self.old.calls }
        ensures counts { result ≡ Put.Failed → self.new.faults ≡ counted_up self.old.faults }
        ensures none_counted { result ≡ Put.Done → self.new.faults ≡ self.old.faults }
        ensures fail_stays { self.new.fail ≡ self.old.fail }
        ensures room_stays { self.new.room ≡ self.old.room }
        ensures later { self.old.faults ≤ self.new.faults }
        ensures sure { 0 < sure_bytes (vec_len self.old.held) self.old.room self.old.calls self.old.fail.items
            → length bytes.now ≤ sure_bytes (vec_len self.old.held) self.old.room self.old.calls self.old.fail.items
            → result ≡ Put.Done }
        ensures sure_left { result ≡ Put.Done
            → 0 < sure_bytes (vec_len self.old.held) self.old.room self.old.calls self.old.fail.items
            → length bytes.now ≤ sure_bytes (vec_len self.old.held) self.old.room self.old.calls self.old.fail.items
            → sure_bytes (vec_len self.old.held) self.old.room self.old.calls self.old.fail.items ≤ sure_bytes
            (vec_len self.new.held) self.new.room self.new.calls self.new.fail.items + length bytes.now }
    {
        self.calls = self.calls.saturating_add(1);
        let left = self.room - self.held.len() as u64;
        match stop(
            planned_for(&self.fail, self.calls),
            left,
            bytes.len() as u64,
        ) {
            None => {
                keep(&mut self.held, bytes);
                Put::Done
            }
            Some(count) => {
                keep(&mut self.held, &bytes[..count as usize]);
                self.faults = self.faults.saturating_add(1);
                Put::Failed
            }
        }
    }
}

/// How many bytes the first pair of that number plans for its call.
fn planned_for(pairs: &[(u64, u64)], call: u64) -> Option<u64>
    ensures { result ≡ planned pairs.now call }
{
    pairs.iter().find(|pair| pair.0 == call).map(|pair| pair.1)
}

/// After how many bytes a put of `length` bytes stops and fails; None where it doesn't fail.
fn stop(plan: Option<u64>, left: u64, length: u64) -> Option<u64>
    ensures { result ≡ stop_of plan left length }
{
    match plan {
        Some(count) => Some(count.min(left).min(length)),
        None if left < length => Some(left),
        None => None,
    }
}

/// Puts the bytes at the end, within what is reserved.
fn keep(held: &mut Vec<u8>, bytes: &[u8])
    requires { vec_len held.old + length bytes.now ≤ vec_capacity held.old }
    ensures items { held.new.items ≡ held.old.items ++ bytes.now }
    ensures len { vec_len held.new ≡ vec_len held.old + length bytes.now }
    ensures capacity { vec_capacity held.old ≤ vec_capacity held.new }
{
    held.extend_from_slice(bytes).unwrap()
}
