// The room's half of a word (STORE 10): the ring is settled for the word's subframe, and in each family the record that is chosen
// takes the word.
#![tactic(auto)]

ghost use Rattle.std.specs.Prelude.{◌≡◌, true, ◌≤◌, length};
ghost use Rattle.paper.specs.Time.{is_time, start_of};
ghost use Rattle.paper.specs.Record.{family_if};
ghost use Rattle.paper.specs.Room.{most_slots, row_size};
ghost use Rattle.paper.specs.Store.{InRange};
ghost use Rattle.paper.specs.Word.{word_bytes};
ghost use Rattle.paper.specs.Feed.{fed_family, fed_row, fed_current, fed};

use gst::Gst;

// The record of a family that a word of the satellite goes to takes it, lent as a slice of the row.
#[tactic(auto, using(crate::proofs::Fed::fed_back))]
fn feed_family(row: &mut [u8], n: usize, timing: bool, sat: u8, band: u8, word: &[u8])
    requires { (1 ≤ n) × (n ≤ most_slots) × (row_size n ≤ length row.old) × (length word.now ≡ word_bytes) }
    ensures { row.new ≡ fed_family (family_if timing) n sat band word.now row.old }
{
    let slot = choice::choose(row, timing, n, sat);
    let at = rows::record_start(timing, slot);
    let e = at + records::size_of(timing);
    word::feed_record(&mut row[at..e], timing, sat, band, word);
}

// The row of n slots after a word of the satellite.
#[tactic(auto, unfolding(paper::specs::Feed::fed_row))]
fn feed_row(row: &mut [u8], n: usize, sat: u8, band: u8, word: &[u8])
    requires { (1 ≤ n) × (n ≤ most_slots) × (row_size n ≤ length row.old) × (length word.now ≡ word_bytes) }
    ensures { row.new ≡ fed_row n sat band word.now row.old }
{
    feed_family(row, n, false, sat, band, word);
    feed_family(row, n, true, sat, band, word);
}

// The current row takes the word.
#[tactic(auto, unfolding(paper::specs::Feed::fed_current))]
fn feed_current(room: &mut [u8], sat: u8, band: u8, word: &[u8])
    requires { InRange room.old × (length word.now ≡ word_bytes) }
    ensures { room.new ≡ fed_current sat band word.now room.old }
{
    let n = rows::slots(room);
    let at = rows::row_start(n, rows::current(room));
    let e = at + rows::row_size(n);
    feed_row(&mut room[at..e], n, sat, band, word);
}

// STORE 10.1: of the word's time the subframe is used; the time of week was tested before.
#[tactic(auto, unfolding(paper::specs::Time::subframe_of))]
fn start_of(gst: Gst) -> u32
    requires { is_time gst.tow.0 ≡ true }
    ensures { result ≡ start_of gst.tow.0 }
{
    gst.gst_subframe().unwrap().tow.0
}

// A word of a satellite, received at a time on a band: the ring settled for its subframe, and then the records of the current row.
#[tactic(auto, unfolding(paper::specs::Feed::fed))]
pub fn feed_word(room: &mut [u8], gst: Gst, sat: u8, band: u8, word: &[u8])
    requires { InRange room.old × (is_time gst.tow.0 ≡ true) × (length word.now ≡ word_bytes) }
    ensures { room.new ≡ fed gst.wn.0 (start_of gst.tow.0) sat band word.now room.old }
{
    ring::settle(room, gst.wn.0, start_of(gst));
    feed_current(room, sat, band, word);
}
