// STORE 14.2: the tests of each entry on its own input, in their order, before anything is done. Each answers with the reply that
// the call gives up to there.
#![tactic(auto)]

ghost use Rattle.std.specs.Prelude.{◌≡◌};
ghost use Rattle.paper.specs.Answer.{fresh_answer, feed_answer};
ghost use Rattle.refusals.specs.Reply.{reply_answer};
ghost use Rattle.entry.specs.Mack.{mack_answer};

use gst::Gst;
use limits::WORD_BYTES;
use refusals::Refusal;
use svn::Svn;

// fresh: 1, 2
#[tactic(auto, unfolding(paper::specs::Answer::fresh_number))]
pub fn fresh_entry(room: &[u8], d: u8, n: u8, rule: u8) -> Result<(), Refusal>
    ensures { reply_answer result ≡ fresh_answer d n rule room.now }
{
    if !limits::fresh_allowed(d, n, rule) {
        return Err(Refusal::Sizes);
    }
    let size = rows::room_size(usize::from(d), usize::from(n));
    if room.len() < size {
        return Err(Refusal::TooShort);
    }
    Ok(())
}

// word: 3, 4, 5, 8, 9, 15
#[tactic(auto, unfolding(paper::specs::Answer::feed_number))]
pub fn feed_entry(room: &[u8], word: &[u8], svn: Svn, gst: Gst, band: u8) -> Result<(), Refusal>
    ensures { reply_answer result ≡ feed_answer word.now svn.0 gst.wn.0 gst.tow.0 band room.now }
{
    if !store::is_store(room) {
        return Err(Refusal::NotAStore);
    }
    if !svn.is_satellite() {
        return Err(Refusal::NoSatellite);
    }
    let time = gst.tow.0;
    if gst::tow_too_large(time) {
        return Err(Refusal::TowTooLarge);
    }
    if word.len() != WORD_BYTES {
        return Err(Refusal::NotAllowed);
    }
    if limits::band_unknown(band) {
        return Err(Refusal::UnknownCode);
    }
    if ageing::comes_earlier(room, gst) {
        return Err(Refusal::Earlier);
    }
    Ok(())
}

// 3, 4, 5, 6: what a tag and the candidate test first
#[tactic(auto, unfolding(crate::specs::Mack::mack_number))]
pub fn mack_entry(room: &[u8], svn: Svn, gst: Gst) -> Result<(), Refusal>
    ensures { reply_answer result ≡ mack_answer svn.0 gst.tow.0 room.now }
{
    if !store::is_store(room) {
        return Err(Refusal::NotAStore);
    }
    if !svn.is_satellite() {
        return Err(Refusal::NoSatellite);
    }
    let time = gst.tow.0;
    if gst::tow_too_large(time) {
        return Err(Refusal::TowTooLarge);
    }
    if gst::not_a_start(time) {
        return Err(Refusal::NotAStart);
    }
    Ok(())
}
