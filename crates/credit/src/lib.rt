// What an accepted tag adds: its length to each record, in any row, with the candidate's satellite and all its bits.
// The given data takes the candidate's place in the comparison: the two agree in all bits that are compared.
#![tactic(auto)]

ghost use Rattle.std.specs.Prelude.{◌≡◌, ◌+◌, ◌≤◌, min, length, take};
ghost use Rattle.paper.specs.Record.{family_if, data_bytes, ages_at, count, most_count, same_list, same_bits, with_count};
ghost use Rattle.paper.specs.Room.{most_slots, slot_size, row_size, in_slot, each_record, every_record, how_many, how_many_in};
ghost use Rattle.paper.specs.Store.{InRange};
ghost use Rattle.paper.specs.Tag.{matches, credited};
ghost use Rattle.credit.specs.Slot.{takes};

use layout::{HEADER, SLOT};
use records::{COUNT_AT, LAST_WEIGHT, SATELLITE_AT};

// Whether the first n bytes are the same.
fn same_first(a: &[u8], b: &[u8], n: usize) -> bool
    requires { (n ≤ length a.now) × (n ≤ length b.now) }
    ensures { result ≡ same_list (take n a.now) (take n b.now) }
{
    a[..n] == b[..n]
}

// Whether two data agree in the 549 or 141 bits of their family.
pub fn same_bits(a: &[u8], b: &[u8], timing: bool) -> bool
    requires { (length a.now ≡ data_bytes (family_if timing)) × (length b.now ≡ data_bytes (family_if timing)) }
    ensures { result ≡ same_bits (family_if timing) a.now b.now }
{
    let last = a.len() - 1;
    if a[last] / LAST_WEIGHT != b[last] / LAST_WEIGHT {
        return false;
    }
    same_first(a, b, last)
}

// The sum, held at 65535.
fn held(count: u16, added: u8) -> u16
    ensures { result ≡ min most_count (count + added) }
{
    count.saturating_add(u16::from(added))
}

// A record with the length added to its count.
fn add_length(rec: &mut [u8], added: u8)
    requires { ages_at ≤ length rec.old }
    ensures { rec.new ≡ with_count (min most_count (count rec.old + added)) rec.old }
{
    let sum = held(numbers::read16(rec, COUNT_AT), added);
    numbers::write16(rec, COUNT_AT, sum);
}

// A slot's record of the family takes the tag if it has the satellite and the bits. How many took it, 1 or 0, for the total.
fn credit_slot(slot: &mut [u8], timing: bool, sat: u8, given: &[u8], added: u8) -> u32
    requires { (length slot.old ≡ slot_size) × (length given.now ≡ data_bytes (family_if timing)) }
    ensures { (slot.new
        ≡ in_slot (family_if timing) (credited (family_if timing) sat given.now added) slot.old)
        × (result ≡ takes (family_if timing) sat given.now slot.old) }
{
    let a = layout::base(timing);
    if slot[a + SATELLITE_AT] != sat {
        return 0;
    }
    let e = a + records::size_of(timing);
    let d = a + records::data_at(timing);
    if !same_bits(&slot[d..e], given, timing) {
        return 0;
    }
    add_length(&mut slot[a..e], added);
    1
}

// The records of a family in a row.
#[tactic(auto, unfolding(paper::specs::Parts::on_parts, paper::specs::Parts::sum_parts, paper::specs::Room::each_record, paper::specs::Room::how_many))]
fn credit_row(row: &mut [u8], n: usize, timing: bool, sat: u8, given: &[u8], added: u8) -> u32
    requires { (n ≤ most_slots) × ((row_size n ≤ length row.old) × (length given.now ≡ data_bytes (family_if timing))) }
    ensures { (row.new
        ≡ each_record (family_if timing) n (credited (family_if timing) sat given.now added) row.old)
        × ((result ≡ how_many (family_if timing) n (matches (family_if timing) sat given.now) row.old) × (result ≤ n)) }
{
    let mut total: u32 = 0;
    for i in 0..n {
        let at = rows::slot_start(i);
        total += credit_slot(&mut row[at..at + SLOT], timing, sat, given, added);
    }
    total
}

// The records of a family in all rows: how many took the tag.
#[tactic(auto, unfolding(paper::specs::Parts::on_parts, paper::specs::Parts::sum_parts, paper::specs::Room::every_record, paper::specs::Room::how_many_in))]
pub fn credit_rows(room: &mut [u8], timing: bool, sat: u8, given: &[u8], added: u8) -> u32
    requires { InRange room.old × (length given.now ≡ data_bytes (family_if timing)) }
    ensures { (room.new
        ≡ every_record (family_if timing) (credited (family_if timing) sat given.now added) room.old)
        × (result ≡ how_many_in (family_if timing) (matches (family_if timing) sat given.now) room.old) }
{
    let n = rows::slots(room);
    let row = rows::row_size(n);
    let mut total: u32 = 0;
    for r in 0..rows::depth(room) {
        let at = HEADER + r * row;
        total += credit_row(&mut room[at..at + row], n, timing, sat, given, added);
    }
    total
}
