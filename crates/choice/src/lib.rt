// Which record of a row a word goes to (STORE 10.5): this satellite's, else one without a satellite, else the oldest; of equals the last.
// Searches go from the end, break with their slot and refuse on the last.
#![tactic(auto)]

ghost use Rattle.std.specs.Prelude.{◌≡◌, ℕ, ◌+◌, ◌≤◌, ◌<◌, length};
ghost use Rattle.paper.specs.Record.{family_if};
ghost use Rattle.paper.specs.Room.{most_slots, slot_size, row_size};
ghost use Rattle.paper.specs.Feed.{chosen};
ghost use Rattle.choice.specs.Last.{is_of, last_of, FindsLast};
ghost use Rattle.choice.specs.Cases.{slot_age, is_older, last_oldest};

use records::{Ced, SATELLITE_AT, Timing};

// STORE 6.2: what stands for the satellite of a record that has none
const UNCLAIMED: u8 = 0;

// The last of the numbers below n that holds: each is asked in its turn, from the end on, and behind the first there is none.
fn last<F: Fn(usize) -> bool>(n: usize, holds: F) -> Option<usize>
    requires { (i : ℕ) → i < n → F.pre holds i }
    ensures { FindsLast (F.post holds) n result }
{
    // kept: a search yields its index by `break` and refuses on the last, as the scope paper wants it; from the end it stands once, here
    let mut left = n;
    let found = loop {
        if left == 0 {
            return None;
        }
        if holds(left - 1) {
            break left - 1;
        }
        left -= 1;
    };
    Some(found)
}

// The last of n slots that has the satellite at its byte `at`.
fn last_of(row: &[u8], at: usize, n: usize, sat: u8) -> Option<usize>
    requires { (n ≤ most_slots) × (at < slot_size) × (row_size n ≤ length row.now) }
    ensures { result ≡ last_of (is_of row.now at sat) n }
{
    last(n, |slot| row[rows::slot_start(slot) + at] == sat)
}

// How old the record of slot i is: its greatest age.
fn age_of(row: &[u8], timing: bool, i: usize) -> u8
    requires { (i < most_slots) × (row_size (i + 1) ≤ length row.now) }
    ensures { result ≡ slot_age (family_if timing) row.now i }
{
    let at = rows::record_start(timing, i);
    if timing {
        return records::greatest(records::ages::<{ Timing::WORDS }>(&row[at..at + Timing::SIZE]));
    }
    records::greatest(records::ages::<{ Ced::WORDS }>(&row[at..at + Ced::SIZE]))
}

// The last slot before this one whose record is older.
fn last_older(row: &[u8], timing: bool, slot: usize) -> Option<usize>
    requires { (slot < most_slots) × (row_size (slot + 1) ≤ length row.now) }
    ensures { result ≡ last_of (is_older (family_if timing) slot row.now) slot }
{
    let age = age_of(row, timing, slot);
    last(slot, |i| age < age_of(row, timing, i))
}

// The last of n slots whose record is oldest: from the last slot on, as long as one before it is older, that one.
fn last_oldest(row: &[u8], timing: bool, n: usize) -> usize
    requires { (1 ≤ n) × (n ≤ most_slots) × (row_size n ≤ length row.now) }
    ensures { last_oldest (family_if timing) n row.now ≡ Some result }
{
    let mut slot = n - 1;
    // kept: no index is counted; the search goes on from what it found, and yields by `break`
    let oldest = loop {
        let Some(older) = last_older(row, timing, slot) else {
            break slot;
        };
        slot = older;
    };
    oldest
}

// STORE 10.5, in three cases, the last of equals in each: the satellite's own slot, one without a satellite, the oldest.
fn three_cases(row: &[u8], timing: bool, n: usize, sat: u8) -> usize
    requires { (1 ≤ n) × (n ≤ most_slots) × (row_size n ≤ length row.now) }
    ensures { (result ≡ chosen (family_if timing) sat n row.now) × (result < n) }
{
    let at = layout::base(timing) + SATELLITE_AT;
    if let Some(own) = last_of(row, at, n, sat) {
        return own;
    }
    if let Some(unclaimed) = last_of(row, at, n, UNCLAIMED) {
        return unclaimed;
    }
    last_oldest(row, timing, n)
}

// The slot of the record of a family that a word of the satellite goes to.
pub fn choose(row: &[u8], timing: bool, n: usize, sat: u8) -> usize
    requires { (1 ≤ n) × (n ≤ most_slots) × (row_size n ≤ length row.now) }
    ensures { (result ≡ chosen (family_if timing) sat n row.now) × (result < n) }
{
    three_cases(row, timing, n, sat)
}
