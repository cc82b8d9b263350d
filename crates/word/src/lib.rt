// What a word does to one record (STORE 10.6 to 10.8).
#![tactic(auto)]

ghost use Rattle.std.specs.Prelude.{◌≡◌, cond, ℕ, ◌+◌, ◌-◌, ◌≤◌, ◌<◌, length, set};
ghost use Rattle.paper.specs.Record.{Family, CED, Timing as TIMING, family_if, satellite_at, ages, ages_at, size, with_count};
ghost use Rattle.paper.specs.Word.{word_bytes, type_of, owns, owned, InBounds, takeover, written, fed_record};
ghost use Rattle.word.specs.Part.{share_of, owned_of};
ghost use Rattle.word.specs.Holder.{held_another};

use records::{AGES_AT, COUNT_AT, Ced, OLDEST, SATELLITE_AT, Timing};

// STORE 5.4, the share that a word owns: so many bits to a bit of the record from a bit of the word, and an age.
#[derive(Clone, Copy)]
struct Share {
    to: usize,
    from: usize,
    size: usize,
    age: usize,
}

fn type_of(word: &[u8]) -> u8
    requires { length word.now ≡ word_bytes }
    ensures { result ≡ type_of word.now }
{
    word[0] / 4
}

// A line of the table, by its record bits and the first of its word bits.
fn line(to: usize, end: usize, from: usize, age: usize) -> Option<Share>
    requires { to ≤ end }
    ensures { owned_of result ≡ owns to from (end - to) age }
{
    Some(Share {
        to,
        from,
        size: end - to,
        age,
    })
}

// The table's lines for CED, on either band.
#[tactic(auto, unfolding(paper::specs::Word::owned_in, paper::specs::Word::table))]
fn owned_ced(kind: u8) -> Option<Share>
    ensures { (band : ℕ) → owned_of result ≡ owned CED kind band }
{
    match kind {
        1 => line(0, 120, 6, 0),
        2 => line(120, 240, 6, 1),
        3 => line(240, 362, 6, 2),
        4 => line(362, 482, 6, 3),
        5 => line(482, Ced::BITS, 6, 4),
        _ => None,
    }
}

// The table's lines for timing, on E1B alone.
#[tactic(auto, unfolding(paper::specs::Word::owned_in, paper::specs::Word::table))]
fn owned_timing(kind: u8, band: u8) -> Option<Share>
    ensures { owned_of result ≡ owned TIMING kind band }
{
    if band != 0 {
        return None;
    }
    match kind {
        6 => line(0, 99, 6, 0),
        10 => line(99, Timing::BITS, 86, 1),
        _ => None,
    }
}

fn owned(kind: u8, timing: bool, band: u8) -> Option<Share>
    ensures { owned_of result ≡ owned (family_if timing) kind band }
{
    if timing {
        owned_timing(kind, band)
    } else {
        owned_ced(kind)
    }
}

fn clear_count_if(bytes: &mut [u8], cleared: bool)
    requires { ages_at ≤ length bytes.old }
    ensures { bytes.new ≡ cond cleared (with_count 0 bytes.old) bytes.old }
{
    if !cleared {
        return;
    }
    numbers::write16(bytes, COUNT_AT, 0);
}

// STORE 10.6: whether the record had another satellite
fn holds_another(bytes: &[u8], sat: u8) -> bool
    requires { satellite_at < length bytes.now }
    ensures { result ≡ held_another sat bytes.now }
{
    if bytes[SATELLITE_AT] == sat {
        return false;
    }
    bytes[SATELLITE_AT] != 0
}

// STORE 10.6: it takes the satellite, and its count becomes 0 if it had another: whether it did.
fn take(bytes: &mut [u8], sat: u8) -> bool
    requires { ages_at ≤ length bytes.old }
    ensures { (result ≡ held_another sat bytes.old)
        × (bytes.new ≡ cond result (with_count 0 (set bytes.old satellite_at sat)) (set bytes.old satellite_at sat)) }
{
    let another = holds_another(bytes, sat);
    bytes[SATELLITE_AT] = sat;
    clear_count_if(bytes, another);
    another
}

// The record with N ages taken by a satellite: they are the greatest where it had another.
fn take_over<const N: usize>(bytes: &mut [u8], sat: u8)
    requires { ages_at + N ≤ length bytes.old }
    ensures { (f : Family) → ages f ≡ N → bytes.new ≡ takeover f sat bytes.old }
{
    if !take(bytes, sat) {
        return;
    }
    records::put_ages(bytes, [OLDEST; N]);
}

// STORE 10.7: the record's data is lent to the move of bits.
fn write_bits(bytes: &mut [u8], timing: bool, word: &[u8], share: Share)
    requires bytes_len { (length bytes.old ≡ size (family_if timing)) × (length word.now ≡ word_bytes) }
    requires in_bounds { InBounds (family_if timing) (share_of share) }
    ensures { bytes.new ≡ written (family_if timing) (share_of share) word.now bytes.old }
{
    let start = records::data_at(timing);
    let end = bytes.len();
    let changed = bits::move_bits(
        &mut bytes[start..end],
        share.to,
        word,
        share.from,
        share.size,
    );
    bytes[AGES_AT + share.age] = 0;
    clear_count_if(bytes, changed);
}

#[tactic(auto, unfolding(paper::specs::Word::written))]
fn write_owned(bytes: &mut [u8], timing: bool, word: &[u8], part: Option<Share>)
    requires bytes_len { (length bytes.old ≡ size (family_if timing)) × (length word.now ≡ word_bytes) }
    requires in_bounds { InBounds (family_if timing) (owned_of part) }
    ensures { bytes.new ≡ written (family_if timing) (owned_of part) word.now bytes.old }
{
    if let Some(share) = part {
        write_bits(bytes, timing, word, share);
    }
}

// The record of a family taken by a satellite.
fn take_over_family(bytes: &mut [u8], timing: bool, sat: u8)
    requires { length bytes.old ≡ size (family_if timing) }
    ensures { bytes.new ≡ takeover (family_if timing) sat bytes.old }
{
    if timing {
        take_over::<{ Timing::WORDS }>(bytes, sat);
    } else {
        take_over::<{ Ced::WORDS }>(bytes, sat);
    }
}

// What a word of the satellite does to the record of a family that it goes to.
#[tactic(auto, unfolding(paper::specs::Word::fed_record))]
pub fn feed_record(bytes: &mut [u8], timing: bool, sat: u8, band: u8, word: &[u8])
    requires { (length bytes.old ≡ size (family_if timing)) × (length word.now ≡ word_bytes) }
    ensures { bytes.new ≡ fed_record (family_if timing) sat band word.now bytes.old }
{
    take_over_family(bytes, timing, sat);
    let part = owned(type_of(word), timing, band);
    write_owned(bytes, timing, word, part);
}
