// Lookups in the room (STORE 11.2, 11.3): the first row of a subframe, the first record of a satellite in a row, and
// the candidate of a tag. A place is a row's number, a slot's number, or where a record starts in the room. Each search yields its index by
// `break` and refuses on the last.
#![tactic(auto)]

ghost use Rattle.std.specs.Prelude.{◌≡◌, ℕ, ◌&&◌, ◌+◌, ◌≤◌, ◌<◌, length};
ghost use Rattle.paper.specs.Parts.{part};
ghost use Rattle.paper.specs.Record.{Family, family_if, ages, ages_at, data_bytes, data_at, size};
ghost use Rattle.paper.specs.Room.{head_size, row_size, depth, marked, is_at};
ghost use Rattle.paper.specs.Store.{InRange};
ghost use Rattle.paper.specs.Tag.{first_row, first_slot, fits_cop};
ghost use Rattle.lookup.specs.Found.{found, FindsFirst};
ghost use Rattle.lookup.specs.Candidate.{candidate_in, candidate_at};

use records::{Ced, SATELLITE_AT, Timing};

// The first of the numbers below n that holds: each is asked in its turn, and behind the last there is none.
pub fn first<F: Fn(usize) -> bool>(n: usize, holds: F) -> Option<usize>
    requires { (i : ℕ) → i < n → F.pre holds i }
    ensures { FindsFirst (F.post holds) n result }
{
    // kept: a search yields its index by `break` and refuses on the last, as the scope paper wants it; it stands once, here
    let mut i: usize = 0;
    let found = loop {
        if i >= n {
            return None;
        }
        if holds(i) {
            break i;
        }
        i += 1;
    };
    Some(found)
}

fn is_marked_at(row: &[u8], week: u16, time: u32) -> bool
    requires { head_size ≤ length row.now }
    ensures { result ≡ (marked row.now && is_at week time row.now) }
{
    if !rows::is_marked(row) {
        return false;
    }
    rows::is_at(row, week, time)
}

// STORE 11.2: the first row, from row 0, that is marked with that time
#[tactic(auto, unfolding(paper::specs::Tag::first_row))]
pub fn row_marked(room: &[u8], week: u16, time: u32) -> Option<usize>
    requires { InRange room.now }
    ensures { result ≡ found (depth room.now) (first_row week time room.now) }
{
    first(
        rows::depth(room),
        |r| is_marked_at(rows::row(room, r), week, time),
    )
}

// STORE 11.3: the satellite's first record of the family in a row
#[tactic(auto, unfolding(paper::specs::Tag::first_slot))]
pub fn slot_of(row: &[u8], n: usize, timing: bool, sat: u8) -> Option<usize>
    requires { (n < 256) × (row_size n ≤ length row.now) }
    ensures { result ≡ found n (first_slot (family_if timing) sat n row.now) }
{
    first(
        n,
        |slot| row[rows::record_start(timing, slot) + SATELLITE_AT] == sat,
    )
}

// STORE 11.3: the greatest of a record's N ages and one more is not above the COP
#[tactic(auto, unfolding(paper::specs::Tag::fits_cop))]
fn ages_fit_cop<const N: usize>(rec: &[u8], cop: u8) -> bool
    requires { ages_at + N ≤ length rec.now }
    ensures { (f : Family) → ages f ≡ N → result ≡ fits_cop f cop rec.now }
{
    records::one_older(records::greatest(records::ages::<N>(rec)), 1) <= cop
}

// Whether the record that starts at `at` may be a candidate.
fn fits_cop(room: &[u8], at: usize, timing: bool, cop: u8) -> bool
    requires { at + size (family_if timing) ≤ length room.now }
    ensures { result ≡ fits_cop (family_if timing) cop (part at (size (family_if timing)) room.now) }
{
    if timing {
        let e = at + Timing::SIZE;
        return ages_fit_cop::<{ Timing::WORDS }>(&room[at..e], cop);
    }
    let e = at + Ced::SIZE;
    ages_fit_cop::<{ Ced::WORDS }>(&room[at..e], cop)
}

// The candidate's record in row r: where it starts in the room.
fn candidate_in(room: &[u8], r: usize, timing: bool, sat: u8, cop: u8) -> Option<usize>
    requires { InRange room.now × (r < depth room.now) }
    ensures { result ≡ candidate_in (family_if timing) sat cop r room.now }
{
    let n = rows::slots(room);
    let start = rows::row_start(n, r);
    let e = start + rows::row_size(n);
    let slot = slot_of(&room[start..e], n, timing, sat)?;
    let at = start + rows::record_start(timing, slot);
    if !fits_cop(room, at, timing, cop) {
        return None;
    }
    Some(at)
}

// The data of the record that starts at `at`.
pub fn data_of(room: &[u8], at: usize, timing: bool) -> &[u8]
    requires { at + size (family_if timing) ≤ length room.now }
    ensures { result.now ≡ part (at + data_at (family_if timing)) (data_bytes (family_if timing)) room.now }
{
    let a = at + records::data_at(timing);
    let e = a + records::bytes_of(timing);
    &room[a..e]
}

// Where the candidate's record starts in the room; week and time are the MACK's less 30 s.
#[tactic(auto, unfolding(crate::specs::Candidate::candidate_at))]
pub fn candidate_at(
    room: &[u8],
    timing: bool,
    sat: u8,
    cop: u8,
    week: u16,
    time: u32,
) -> Option<usize>
    requires { InRange room.now }
    ensures { result ≡ candidate_at (family_if timing) sat cop week time room.now }
{
    let row = row_marked(room, week, time)?;
    candidate_in(room, row, timing, sat, cop)
}
