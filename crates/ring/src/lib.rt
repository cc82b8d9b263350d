// The ring of rows (STORE 10.2 to 10.4): before a word's records are chosen, the current row is settled for the
// word's subframe. Where it has another subframe, the next row takes a copy of all records, becomes current and ages, by as much as the
// ageing rule says.
#![tactic(auto)]

ghost use Rattle.std.specs.Prelude.{◌≡◌, cond, ◌⊎◌, ◌+◌, ◌≤◌, length, map};
ghost use Rattle.paper.specs.Parts.{on_part};
ghost use Rattle.paper.specs.Record.{ages_at, older};
ghost use Rattle.paper.specs.Room.{slot_size, row_size};
ghost use Rattle.paper.specs.Store.{InRange};
ghost use Rattle.paper.specs.Feed.{moves, rises_by, copied, aged_row, advanced, current_marked, settled};
ghost use Rattle.ring.specs.Slot.{aged_slot};

use layout::{CURRENT_AT, ROW_HEAD, SLOT, TIMING_AT};
use records::{Ced, Timing};

// STORE 10.3, the copy. A row may be copied onto itself, as where D is 1.
#[tactic(auto, using(paper::proofs::Parts::copy_done), unfolding(paper::specs::Feed::copied))]
pub fn copy_records(room: &mut [u8], n: usize, from: usize, to: usize)
    requires in_room { (from + row_size n ≤ length room.old) × (to + row_size n ≤ length room.old) }
    ensures { room.new ≡ copied n from to room.old }
{
    let a = from + ROW_HEAD;
    room.copy_within(a..a + n * SLOT, to + ROW_HEAD);
}

// A record's ages so much more: they are read, made older by value, and put back.
#[tactic(auto, using(paper::proofs::Parts::on_part_by))]
fn age<const N: usize>(rec: &mut [u8], by: u8)
    requires { ages_at + N ≤ length rec.old }
    ensures { rec.new ≡ on_part (map (older by)) ages_at N rec.old }
{
    let ages: [u8; N] = records::ages(rec);
    records::put_ages(rec, records::older(ages, by));
}

// Both records of a slot in one turn.
fn age_slot(slot: &mut [u8], by: u8)
    requires { length slot.old ≡ slot_size }
    ensures { slot.new ≡ aged_slot by slot.old }
{
    age::<{ Ced::WORDS }>(&mut slot[0..TIMING_AT], by);
    age::<{ Timing::WORDS }>(&mut slot[TIMING_AT..SLOT], by);
}

// STORE 10.3: every age of the row so much more
#[tactic(auto, using(paper::proofs::Parts::parts_turn, crate::proofs::Turn::aged_once), unfolding(paper::specs::Parts::on_parts))]
pub fn age_row(row: &mut [u8], n: usize, by: u8)
    requires { row_size n ≤ length row.old }
    ensures { row.new ≡ aged_row by n row.old }
{
    for i in 0..n {
        let at = rows::slot_start(i);
        age_slot(&mut row[at..at + SLOT], by);
    }
}

// STORE 10.2: whether the current row is marked with another subframe
fn has_other_subframe(room: &[u8], week: u16, time: u32) -> bool
    requires { InRange room.now }
    ensures { result ≡ moves week time room.now }
{
    let row = rows::row(room, rows::current(room));
    if !rows::is_marked(row) {
        return false;
    }
    !rows::is_at(row, week, time)
}

// STORE 10.3: the next row filled by the copy, current, and so much older
#[tactic(auto, using(crate::proofs::Turn::current_fits, crate::proofs::Turn::next_fits, paper::proofs::WordViews::next_row_lt))]
fn advance(room: &mut [u8], by: u8)
    requires { InRange room.old }
    ensures { room.new ≡ advanced by room.old }
{
    let n = rows::slots(room);
    let c = rows::current(room);
    let next = rows::next_row(rows::depth(room), c);
    let to = rows::row_start(n, next);
    copy_records(room, n, rows::row_start(n, c), to);
    // kept: `next` is below D, a byte, so it fits; `u8::try_from` would test what is proved
    room[CURRENT_AT] = next as u8;
    let e = to + rows::row_size(n);
    age_row(&mut room[to..e], n, by);
}

fn advance_for(room: &mut [u8], week: u16, time: u32)
    requires { InRange room.old }
    ensures { room.new
        ≡ cond (moves week time room.old)
        (advanced (rises_by week time room.old) room.old)
        room.old }
{
    if !has_other_subframe(room, week, time) {
        return;
    }
    let by = ageing::rises_by(room, week, time);
    advance(room, by);
}

// STORE 10.4: the current row marked
#[tactic(auto, unfolding(paper::specs::Feed::current_marked))]
fn mark_current(room: &mut [u8], week: u16, time: u32)
    requires { InRange room.old }
    ensures { room.new ≡ current_marked week time room.old }
{
    let n = rows::slots(room);
    let at = rows::row_start(n, rows::current(room));
    let e = at + rows::row_size(n);
    rows::mark_row(&mut room[at..e], week, time);
}

// The ring before the records of the current row are chosen.
#[tactic(auto, unfolding(paper::specs::Feed::settled))]
pub fn settle(room: &mut [u8], week: u16, time: u32)
    requires { InRange room.old }
    ensures { room.new ≡ settled week time room.old }
{
    advance_for(room, week, time);
    mark_current(room, week, time);
}
