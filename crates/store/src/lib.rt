// STORE 8, refusal 3: whether the bytes of a room are a store. Every test stops at its first fault, and of a record
// it reads the satellite, the count where there is no satellite, and the last byte. Nearly every slot of a store is passed at one
// look at both its records: see `is_plain`.
#![tactic(auto)]

ghost use Rattle.std.specs.Prelude.{◌≡◌, true, ◌&&◌, ◌+◌, ◌*◌, ◌≤◌, ◌<◌, leb, length};
ghost use Rattle.paper.specs.Parts.{all_parts};
ghost use Rattle.paper.specs.Record.{Family, ages_at, size, satellite, count};
ghost use Rattle.paper.specs.Room.{header_size, head_size, slot_size, row_size, room_size};
ghost use Rattle.store.specs.Slot.{is_empty, is_shared, is_plain};
ghost use Rattle.paper.specs.Store.{header_in_range, header_rest, record_allowed, slot_allowed, mark_allowed, subframe_allowed, blank_allowed, row_allowed, is_store};

use gst::LAST_START;
use layout::{
    CURRENT_AT, DEPTH_AT, HEADER, MARK_AT, MARKED, ROW_HEAD, RULE_AT, SLOT, SLOTS_AT, SPARE_AT,
    TIME_AT, TIMING_AT, WEEK_AT, ZEROS_AT,
};
use records::{COUNT_AT, LAST_WEIGHT, SATELLITE_AT};
use svn::MOST_SATELLITES;

// The satellite of the timing record, as a byte of the slot.
const TIMING_SATELLITE: usize = TIMING_AT + SATELLITE_AT;

// The last bytes of the two records of a slot.
const CED_LAST: usize = TIMING_AT - 1;

const TIMING_LAST: usize = SLOT - 1;

#[tactic(auto, unfolding(paper::specs::Store::header_in_range))]
fn header_in_range(room: &[u8]) -> bool
    requires { header_size ≤ length room.now }
    ensures { result ≡ header_in_range room.now }
{
    if !limits::sizes_allowed(room[DEPTH_AT], room[SLOTS_AT]) {
        return false;
    }
    room[CURRENT_AT] < room[DEPTH_AT]
}

#[tactic(auto, unfolding(paper::specs::Store::header_rest))]
fn header_rest(room: &[u8]) -> bool
    requires { header_size ≤ length room.now }
    ensures { result ≡ header_rest room.now }
{
    if !limits::rule_known(room[RULE_AT]) {
        return false;
    }
    numbers::read32(room, ZEROS_AT) == 0
}

fn known(satellite: u8, most: u8) -> bool
    ensures { result ≡ (leb 1 satellite && leb satellite most) }
{
    if satellite < 1 {
        return false;
    }
    satellite <= most
}

// The satellite and the count as one number: 0 where there is neither.
fn holds(record: &[u8]) -> u32
    requires { ages_at ≤ length «record».now }
    ensures { result ≡ satellite «record».now * 65536 + count «record».now }
{
    let satellite = u32::from(record[SATELLITE_AT]);
    let count = u32::from(numbers::read16(record, COUNT_AT));
    satellite * 65536 + count
}

// For the family whose length the record has. A known satellite comes first: it needs no look at the count.
fn record_allowed(record: &[u8], most: u8) -> bool
    requires { ages_at ≤ length «record».now }
    ensures { (f : Family) → size f ≡ length «record».now → result ≡ record_allowed f most «record».now }
{
    if !known(record[SATELLITE_AT], most) {
        if holds(record) != 0 {
            return false;
        }
    }
    record[record.len() - 1] % LAST_WEIGHT == 0
}

#[tactic(auto, unfolding(paper::specs::Store::slot_allowed))]
fn slot_allowed(slot: &[u8], most: u8) -> bool
    requires { length slot.now ≡ slot_size }
    ensures { result ≡ slot_allowed most slot.now }
{
    if !record_allowed(&slot[0..TIMING_AT], most) {
        return false;
    }
    record_allowed(&slot[TIMING_AT..SLOT], most)
}

// Nothing in either record. The CED record's last byte and the timing record's satellite and count are four bytes in a row.
#[tactic(auto, unfolding(crate::specs::Slot::is_empty))]
fn is_empty(slot: &[u8]) -> bool
    requires { length slot.now ≡ slot_size }
    ensures { result ≡ is_empty slot.now }
{
    if holds(slot) != 0 {
        return false;
    }
    if numbers::read32(slot, CED_LAST) != 0 {
        return false;
    }
    slot[TIMING_LAST] % LAST_WEIGHT == 0
}

// Both records of one satellite, whichever, and no bit past them.
#[tactic(auto, unfolding(crate::specs::Slot::is_shared))]
fn is_shared(slot: &[u8]) -> bool
    requires { length slot.now ≡ slot_size }
    ensures { result ≡ is_shared slot.now }
{
    if slot[TIMING_SATELLITE] != slot[SATELLITE_AT] {
        return false;
    }
    if slot[CED_LAST] % LAST_WEIGHT != 0 {
        return false;
    }
    slot[TIMING_LAST] % LAST_WEIGHT == 0
}

// Whether one look is enough. Where it is not, the slot may still be allowed.
fn is_plain(slot: &[u8], most: u8) -> bool
    requires { length slot.now ≡ slot_size }
    ensures { result ≡ is_plain most slot.now }
{
    if most > 0 {
        if known(slot[SATELLITE_AT], most) {
            return is_shared(slot);
        }
    }
    is_empty(slot)
}

// How many slots from the first on are passed at one look.
#[tactic(auto, using(paper::proofs::Parts::all_go, crate::proofs::Slots::plain_allowed), unfolding(paper::specs::Parts::all_parts))]
fn passed(row: &[u8], n: usize, most: u8) -> usize
    requires { row_size n ≤ length row.now }
    ensures { (result ≤ n) × (all_parts (slot_allowed most) slot_size result head_size row.now ≡ true) }
{
    for i in 0..n {
        let at = rows::slot_start(i);
        if !is_plain(&row[at..at + SLOT], most) {
            return i;
        }
    }
    n
}

// From the first slot on that needs more than a look, record by record.
#[tactic(auto, using(paper::proofs::Parts::all_go))]
fn slots_allowed(row: &[u8], n: usize, most: u8) -> bool
    requires { row_size n ≤ length row.now }
    ensures { result ≡ all_parts (slot_allowed most) slot_size n head_size row.now }
{
    for i in passed(row, n, most)..n {
        let at = rows::slot_start(i);
        if !slot_allowed(&row[at..at + SLOT], most) {
            return false;
        }
    }
    true
}

#[tactic(auto, unfolding(paper::specs::Store::mark_allowed))]
fn mark_allowed(row: &[u8]) -> bool
    requires { head_size ≤ length row.now }
    ensures { result ≡ mark_allowed row.now }
{
    if row[MARK_AT] > MARKED {
        return false;
    }
    row[SPARE_AT] == 0
}

#[tactic(auto, unfolding(paper::specs::Store::blank_allowed))]
fn blank_allowed(row: &[u8]) -> bool
    requires { head_size ≤ length row.now }
    ensures { result ≡ blank_allowed row.now }
{
    if numbers::read16(row, WEEK_AT) != 0 {
        return false;
    }
    numbers::read32(row, TIME_AT) == 0
}

#[tactic(auto, unfolding(paper::specs::Store::subframe_allowed))]
fn subframe_allowed(row: &[u8]) -> bool
    requires { head_size ≤ length row.now }
    ensures { result ≡ subframe_allowed row.now }
{
    let time = numbers::read32(row, TIME_AT);
    if time > LAST_START {
        return false;
    }
    !gst::not_a_start(time)
}

// In a blank row any satellite is one too many.
#[tactic(auto, unfolding(paper::specs::Store::row_allowed, paper::specs::Store::most_in))]
fn row_allowed(row: &[u8], n: usize) -> bool
    requires { row_size n ≤ length row.now }
    ensures { result ≡ row_allowed n row.now }
{
    if !mark_allowed(row) {
        return false;
    }
    if row[MARK_AT] == 0 {
        if !blank_allowed(row) {
            return false;
        }
        return slots_allowed(row, n, 0);
    }
    if !subframe_allowed(row) {
        return false;
    }
    slots_allowed(row, n, MOST_SATELLITES)
}

#[tactic(auto, using(paper::proofs::Parts::all_go, paper::proofs::Parts::all_stop), unfolding(paper::specs::Parts::all_parts))]
fn rows_allowed(room: &[u8], d: usize, n: usize) -> bool
    requires { (n < 256) × (room_size d n ≤ length room.now) }
    ensures { result ≡ all_parts (row_allowed n) (row_size n) d header_size room.now }
{
    let row = rows::row_size(n);
    for r in 0..d {
        let at = HEADER + r * row;
        if !row_allowed(&room[at..at + row], n) {
            return false;
        }
    }
    true
}

// Whether the room is a store.
#[tactic(auto, unfolding(paper::specs::Store::is_store))]
pub fn is_store(room: &[u8]) -> bool
    ensures { result ≡ is_store room.now }
{
    if room.len() < HEADER {
        return false;
    }
    if !header_in_range(room) {
        return false;
    }
    if !header_rest(room) {
        return false;
    }
    let d = rows::depth(room);
    let n = rows::slots(room);
    if room.len() < rows::room_size(d, n) {
        return false;
    }
    rows_allowed(room, d, n)
}
