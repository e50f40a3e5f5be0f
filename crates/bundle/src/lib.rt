// The bundle: its records read, rule 24, and the front of a record as bytes.
#![tactic(auto)]

ghost use Rattle.std.specs.Prelude.{◌≡◌, length};
ghost use Rattle.rules.specs.Bundle.{record_at, tracks};
ghost use Rattle.bundle.specs.Says.{MarkBounds, SaysBundle, ended_of};
ghost use Rattle.bundle.specs.Front.{front_of};

use numbers::BigEndian;
use rules::{Mark, Refusal};

// Rule 24: the records of a bundle.
pub const RECORD_LIMIT: u64 = 16;

// The two-byte mark of a record.
const MARK: u16 = 0x5357;

// The first record of a bundle that breaks rule 24: the good ones before it, and its place.
#[derive(Clone, Copy)]
pub struct BadRecord {
    pub track: u64,
    pub place: u64,
}

// It breaks rule 24 there.
impl From<BadRecord> for Refusal {
    ghost from_gives = { λ bad e. e ≡ record { number = 24; track = bad.track; place = bad.place } };

    fn from(bad: BadRecord) -> Refusal {
        Refusal::new(24, bad.track, bad.place)
    }
}

// What stands at a place of a bundle.
#[tactic(auto, unfolding(rules::specs::Bundle::record_at, rules::specs::Bundle::mark_at, rules::specs::Bundle::lengthed))]
pub fn record_at(b: &[u8], at: usize) -> Mark
    ensures value { result ≡ record_at b.now at }
    ensures mark_bounds { MarkBounds result (length b.now) at }
{
    if b.len() <= at {
        return Mark::Nothing;
    }
    let left = b.len() - at;
    if left < 6 {
        return Mark::Wrong;
    }
    if u16::read(b, at) != MARK {
        return Mark::Wrong;
    }
    let n = u32::read(b, at + 2) as usize;
    if left - 6 < n {
        return Mark::Wrong;
    }
    Mark::Track(n)
}

// Rule 24 of a bundle: its number of records, or the first bad one.
pub fn frame_records(b: &[u8]) -> Result<u64, BadRecord>
    ensures { SaysBundle result b.now }
{
    let mut at = 0;
    for k in 0..RECORD_LIMIT {
        match record_at(b, at) {
            Mark::Nothing => return records_end(k),
            Mark::Wrong => {
                return Err(BadRecord {
                    track: k,
                    place: at as u64,
                });
            }
            Mark::Track(n) => at += 6 + n,
        }
    }
    if at < b.len() {
        return Err(BadRecord {
            track: RECORD_LIMIT,
            place: at as u64,
        });
    }
    Ok(RECORD_LIMIT)
}

// Where no bytes are left after some records: no record at all breaks rule 24.
#[tactic(auto, unfolding(crate::specs::Says::ended_of, rules::specs::Bundle::rule24_from))]
fn records_end(k: u64) -> Result<u64, BadRecord>
    ensures { result ≡ ended_of k }
{
    if k == 0 {
        return Err(BadRecord { track: 0, place: 0 });
    }
    Ok(k)
}

// How many tracks a bundle has: its good records.
pub fn count_tracks(b: &[u8]) -> u64
    ensures { result ≡ length (tracks b.now) }
{
    frame_records(b).unwrap_or_else(|bad| bad.track)
}

// The mark and the length, as the six bytes in front of a track of so many bytes.
pub fn front(length: u32) -> [u8; 6]
    ensures { result ≡ front_of length }
{
    let [a, b, c, d] = length.to_be_bytes();
    [0x53, 0x57, a, b, c, d]
}
