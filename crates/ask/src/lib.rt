// Asking (STORE 12): from the current row backward around the ring, the satellite's first record with a count that is enough, and
// the time of its row less 30 s for each of its least age. `ask` is the one path of every asking.
#![tactic(auto)]

ghost use Rattle.std.specs.Prelude.{◌≡◌, ◌&&◌, ◌+◌, ◌≤◌, ◌<◌, ltb, eqb, pos, neg_ℤ, length};
ghost use Rattle.paper.specs.Parts.{part};
ghost use Rattle.paper.specs.Record.{family_if, ages_at, size, ages_of, oldest, least};
ghost use Rattle.paper.specs.Room.{header_size, head_size, row_size, depth, slots, current, by_time, row_of};
ghost use Rattle.paper.specs.Store.{InRange};
ghost use Rattle.paper.specs.Ask.{has_enough, enough_slot, row_back, steps_back, time_before};
ghost use Rattle.paper.specs.Answer.{ask_answer};
ghost use Rattle.gst.specs.Answer.{time_answer};
ghost use Rattle.lookup.specs.Found.{found};
ghost use Rattle.ask.specs.Backward.{place_back, answering_at};
ghost use Rattle.ask.specs.Answered.{answered_answer, place_answered, ask_place};

use gst::{Gst, Tow, Wn};
use layout::{TIME_AT, WEEK_AT};
use records::{AGES_AT, COUNT_AT, Ced, OLDEST, SATELLITE_AT, Timing};
use refusals::Refusal;
use svn::Svn;

// STORE 12.1: the count that answers
const LEAST_COUNT: u16 = 40;

// Where the row that answers and its record start in the room.
#[derive(Clone, Copy)]
struct Place {
    row: usize,
    at: usize,
}

// The record that answers: where it starts in the room, its count and the time.
#[derive(Clone, Copy)]
pub struct Answering {
    pub at: usize,
    pub authbits: u16,
    pub gst: Gst,
}

#[tactic(auto, unfolding(paper::specs::Ask::has_enough))]
fn has_enough(head: &[u8], sat: u8) -> bool
    requires { ages_at ≤ length head.now }
    ensures { result ≡ has_enough sat head.now }
{
    if head[SATELLITE_AT] != sat {
        return false;
    }
    numbers::read16(head, COUNT_AT) >= LEAST_COUNT
}

// The first slot of a row that answers.
#[tactic(auto, unfolding(paper::specs::Ask::enough_slot))]
fn enough_slot(row: &[u8], n: usize, timing: bool, sat: u8) -> Option<usize>
    requires { (n < 256) × (row_size n ≤ length row.now) }
    ensures { result ≡ found n (enough_slot (family_if timing) sat n row.now) }
{
    lookup::first(n, |slot| {
        let at = rows::record_start(timing, slot);
        has_enough(&row[at..at + AGES_AT], sat)
    })
}

// The row j before the current one.
fn row_before(room: &[u8], j: usize) -> usize
    requires { InRange room.now × (j < depth room.now) }
    ensures { (result ≡ row_back (depth room.now) (current room.now) j) × (result < depth room.now) }
{
    rows::row_back(rows::depth(room), rows::current(room), j)
}

// Whether that row has a slot that answers.
fn row_answers(room: &[u8], j: usize, timing: bool, sat: u8) -> bool
    requires { InRange room.now × (j < depth room.now) }
    ensures { result
        ≡ ltb
        (enough_slot (family_if timing) sat (slots room.now) (row_of (row_back (depth room.now) (current room.now) j) room.now))
        (slots room.now) }
{
    let row = rows::row(room, row_before(room, j));
    enough_slot(row, rows::slots(room), timing, sat).is_some()
}

// How many rows back the first row that answers lies.
#[tactic(auto, unfolding(paper::specs::Ask::steps_back))]
fn steps_back(room: &[u8], timing: bool, sat: u8) -> Option<usize>
    requires { InRange room.now }
    ensures { result ≡ found (depth room.now) (steps_back (family_if timing) sat room.now) }
{
    lookup::first(rows::depth(room), |j| row_answers(room, j, timing, sat))
}

// Where the row j before the current one and its first record that answers start.
fn place_back(room: &[u8], j: usize, timing: bool, sat: u8) -> Option<Place>
    requires { InRange room.now × (j < depth room.now) }
    ensures { result ≡ place_back (family_if timing) sat j room.now }
{
    let n = rows::slots(room);
    let r = row_before(room, j);
    let slot = enough_slot(rows::row(room, r), n, timing, sat)?;
    let row = rows::row_start(n, r);
    let at = row + rows::record_start(timing, slot);
    Some(Place { row, at })
}

// Where the row that answers and its record start; the order is the ring's, whether or not subframes fall.
fn answering_at(room: &[u8], timing: bool, sat: u8) -> Option<Place>
    requires { InRange room.now }
    ensures { result ≡ answering_at (family_if timing) sat room.now }
{
    let j = steps_back(room, timing, sat)?;
    place_back(room, j, timing, sat)
}

fn least_age(room: &[u8], at: usize, timing: bool) -> u8
    requires { at + size (family_if timing) ≤ length room.now }
    ensures { result ≡ least (ages_of (family_if timing) (part at (size (family_if timing)) room.now)) }
{
    if timing {
        let e = at + Timing::SIZE;
        return records::least(records::ages::<{ Timing::WORDS }>(&room[at..e]));
    }
    let e = at + Ced::SIZE;
    records::least(records::ages::<{ Ced::WORDS }>(&room[at..e]))
}

// STORE 12.5: under rule 1, whether the age of the record that starts there is not known
fn age_unknown(room: &[u8], at: usize, timing: bool) -> bool
    requires { (header_size ≤ length room.now) × (at + size (family_if timing) ≤ length room.now) }
    ensures { result
        ≡ (by_time room.now
        && eqb (least (ages_of (family_if timing) (part at (size (family_if timing)) room.now))) oldest) }
{
    if rows::by_time(room) {
        return least_age(room, at, timing) == OLDEST;
    }
    false
}

fn subframes_back(age: u8) -> i32
    ensures { result ≡ neg_ℤ (pos age) }
{
    0 - (age as i32)
}

// STORE 12.3: the row's subframe less 30 s for each of the least age, for the row and the record that start there
#[tactic(auto, unfolding(paper::specs::Ask::time_before))]
fn time_before(room: &[u8], row: usize, at: usize, timing: bool) -> Result<Gst, Refusal>
    requires { (row + head_size ≤ length room.now) × (at + size (family_if timing) ≤ length room.now) }
    ensures { time_answer result
        ≡ time_before (family_if timing) (part row head_size room.now) (part at (size (family_if timing)) room.now) }
{
    let week = numbers::read16(room, row + WEEK_AT);
    let time = numbers::read32(room, row + TIME_AT);
    let back = subframes_back(least_age(room, at, timing));
    let subframe = Gst {
        wn: Wn(week),
        tow: Tow(time),
    };
    subframe.add_subframes(back)
}

// STORE 14.2, asking: 3, 4, 12, 24, 7
#[tactic(auto, unfolding(paper::specs::Answer::ask_answer, paper::specs::Answer::ask_number, crate::specs::Answered::ask_place))]
pub fn ask(room: &[u8], timing: bool, svn: Svn) -> Result<Answering, Refusal>
    ensures { (answered_answer result ≡ ask_answer (family_if timing) svn.0 room.now)
        × (place_answered result ≡ ask_place (family_if timing) svn.0 room.now) }
{
    if !store::is_store(room) {
        return Err(Refusal::NotAStore);
    }
    if !svn.is_satellite() {
        return Err(Refusal::NoSatellite);
    }
    let Some(place) = answering_at(room, timing, svn.0) else {
        return Err(Refusal::NotEnough);
    };
    let at = place.at;
    if age_unknown(room, at, timing) {
        return Err(Refusal::AgeUnknown);
    }
    let Ok(gst) = time_before(room, place.row, at, timing) else {
        return Err(Refusal::TimeArithmetic);
    };
    let authbits = numbers::read16(room, at + COUNT_AT);
    Ok(Answering { at, authbits, gst })
}
