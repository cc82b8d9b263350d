// A fresh store (STORE 9.1): blank rows, and records with no satellite, no count, no data and the greatest ages. Whether D, N, the
// rule and the room's length are allowed is tested before.
#![tactic(auto)]

ghost use Rattle.std.specs.Prelude.{◌≡◌, ◌+◌, ◌≤◌, ◌<◌, length};
ghost use Rattle.paper.specs.Fresh.{header, blank_slot, blank_row, fresh};
ghost use Rattle.paper.specs.Parts.{on_part, on_parts};
ghost use Rattle.paper.specs.Record.{Family, ages, ages_at, size, blank_record};
ghost use Rattle.paper.specs.Room.{header_size, head_size, slot_size, row_size, room_size};

use layout::{DEPTH_AT, HEADER, ROW_HEAD, RULE_AT, SLOT, SLOTS_AT, TIMING_AT};
use records::{AGES_AT, Ced, OLDEST, Timing};

// For the family whose length and number of words it has: the ages stand behind the satellite and the count.
fn blank_record(bytes: &mut [u8], words: usize)
    requires { ages_at + words ≤ length bytes.old }
    ensures { (f : Family) → length bytes.old ≡ size f → words ≡ ages f → bytes.new ≡ blank_record f }
{
    bytes.fill(0);
    bytes[AGES_AT..AGES_AT + words].fill(OLDEST);
}

fn blank_slot(slot: &mut [u8])
    requires { length slot.old ≡ slot_size }
    ensures { slot.new ≡ blank_slot }
{
    blank_record(&mut slot[0..TIMING_AT], Ced::WORDS);
    blank_record(&mut slot[TIMING_AT..SLOT], Timing::WORDS);
}

#[tactic(auto, using(paper::proofs::Parts::parts_turn), unfolding(paper::specs::Parts::on_parts))]
fn blank_slots(row: &mut [u8], n: usize)
    requires { row_size n ≤ length row.old }
    ensures { row.new ≡ on_parts (λ _. blank_slot) slot_size n head_size row.old }
{
    for i in 0..n {
        let at = rows::slot_start(i);
        blank_slot(&mut row[at..at + SLOT]);
    }
}

#[tactic(auto, unfolding(paper::specs::Fresh::blank_row))]
fn blank_row(row: &mut [u8], n: usize)
    requires { row_size n ≤ length row.old }
    ensures { row.new ≡ blank_row n row.old }
{
    row[0..ROW_HEAD].fill(0);
    blank_slots(row, n);
}

#[tactic(auto, using(paper::proofs::Parts::parts_turn), unfolding(paper::specs::Parts::on_parts))]
fn blank_rows(room: &mut [u8], d: usize, n: usize)
    requires { (n < 256) × (room_size d n ≤ length room.old) }
    ensures { room.new ≡ on_parts (blank_row n) (row_size n) d header_size room.old }
{
    let row = rows::row_size(n);
    for r in 0..d {
        let at = HEADER + r * row;
        blank_row(&mut room[at..at + row], n);
    }
}

fn put_header(room: &mut [u8], d: u8, n: u8, rule: u8)
    requires { header_size ≤ length room.old }
    ensures { room.new ≡ on_part (λ _. header d n rule) 0 header_size room.old }
{
    room[0..HEADER].fill(0);
    room[DEPTH_AT] = d;
    room[SLOTS_AT] = n;
    room[RULE_AT] = rule;
}

// The room with a fresh store of D rows and N slots under a rule at its start; its bytes past the formula's length stay.
#[tactic(auto, unfolding(paper::specs::Fresh::fresh))]
pub fn fresh_room(room: &mut [u8], d: u8, n: u8, rule: u8)
    requires { room_size d n ≤ length room.old }
    ensures { room.new ≡ fresh d n rule room.old }
{
    put_header(room, d, n, rule);
    blank_rows(room, usize::from(d), usize::from(n));
}
