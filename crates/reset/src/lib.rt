// STORE 13.1, every count 0: those of the CED records in every row, and then those of the timing records.
#![tactic(auto)]

ghost use Rattle.std.specs.Prelude.{◌≡◌, ◌≤◌, ◌<◌, length};
ghost use Rattle.paper.specs.Parts.{on_parts};
ghost use Rattle.paper.specs.Record.{family_if, with_count};
ghost use Rattle.paper.specs.Reset.{reset};
ghost use Rattle.paper.specs.Room.{header_size, slot_size, row_size, room_size, depth, slots, in_slot, each_record};

use layout::{HEADER, SLOT};
use records::COUNT_AT;

fn clear_slot(slot: &mut [u8], timing: bool)
    requires { length slot.old ≡ slot_size }
    ensures { slot.new ≡ in_slot (family_if timing) (with_count 0) slot.old }
{
    numbers::write16(slot, layout::base(timing) + COUNT_AT, 0);
}

#[tactic(auto, using(paper::proofs::Parts::parts_turn), unfolding(paper::specs::Parts::on_parts, paper::specs::Room::each_record))]
fn clear_each(row: &mut [u8], n: usize, timing: bool)
    requires { row_size n ≤ length row.old }
    ensures { row.new ≡ each_record (family_if timing) n (with_count 0) row.old }
{
    for i in 0..n {
        let at = rows::slot_start(i);
        clear_slot(&mut row[at..at + SLOT], timing);
    }
}

#[tactic(auto, using(paper::proofs::Parts::parts_turn), unfolding(paper::specs::Parts::on_parts))]
fn clear_rows(room: &mut [u8], d: usize, n: usize, timing: bool)
    requires { (n < 256) × (room_size d n ≤ length room.old) }
    ensures { room.new
        ≡ on_parts (each_record (family_if timing) n (with_count 0)) (row_size n) d header_size room.old }
{
    let row = rows::row_size(n);
    for r in 0..d {
        let at = HEADER + r * row;
        clear_each(&mut room[at..at + row], n, timing);
    }
}

// The store with all counts 0.
pub fn reset_room(room: &mut [u8])
    requires { room_size (depth room.old) (slots room.old) ≤ length room.old }
    ensures { room.new ≡ reset room.old }
{
    let d = rows::depth(room);
    let n = rows::slots(room);
    clear_rows(room, d, n, false);
    clear_rows(room, d, n, true);
}
