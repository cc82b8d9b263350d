// The store's calls, under the names of the Rust. Each tests its own input, answers by a `Result` whose number and values are
// those of STORE 14, and changes the lent room only where it answers 0.
#![tactic(auto)]

ghost use Rattle.std.specs.Prelude.{◌≡◌};
ghost use Rattle.paper.specs.Answer.{fresh_answer, fresh_room, feed_answer, feed_room, tag_answer, tag_room};
ghost use Rattle.paper.specs.Answer.{candidate_answer, candidate_data, ask_answer, ask_data, reset_answer, reset_room};
ghost use Rattle.paper.specs.Record.{CED, Timing, family_if};
ghost use Rattle.refusals.specs.Reply.{reply_answer};
ghost use Rattle.tags.specs.Candidates.{tagged_answer};
ghost use Rattle.navmessage.specs.Asked.{asked_answer};

use gst::Gst;
use limits::TIMING_KIND;
use refusals::Refusal;
use svn::Svn;

// A fresh store of d rows and n slots at the start of the room, under an ageing rule (0 by the moves of the ring, 1 by time).
#[tactic(auto, unfolding(paper::specs::Answer::fresh_room))]
pub fn fresh(room: &mut [u8], d: u8, n: u8, rule: u8) -> Result<(), Refusal>
    ensures { (reply_answer result ≡ fresh_answer d n rule room.old)
        × (room.new ≡ fresh_room d n rule room.old) }
{
    entry::fresh_entry(room, d, n, rule)?;
    fresh::fresh_room(room, d, n, rule);
    Ok(())
}

// All counts put to 0.
#[tactic(auto, unfolding(paper::specs::Answer::reset_number, paper::specs::Answer::reset_room))]
pub fn reset_authbits(room: &mut [u8]) -> Result<(), Refusal>
    ensures { (reply_answer result ≡ reset_answer room.old)
        × (room.new ≡ reset_room room.old) }
{
    if !store::is_store(room) {
        return Err(Refusal::NotAStore);
    }
    reset::reset_room(room);
    Ok(())
}

// A word of a satellite, received at a time on a band (0 E1B, 1 E5B).
#[tactic(auto, unfolding(paper::specs::Answer::feed_room))]
pub fn feed(room: &mut [u8], word: &[u8], svn: Svn, gst: Gst, band: u8) -> Result<(), Refusal>
    ensures { (reply_answer result ≡ feed_answer word.now svn.0 gst.wn.0 gst.tow.0 band room.old)
        × (room.new ≡ feed_room word.now svn.0 gst.wn.0 gst.tow.0 band room.old) }
{
    entry::feed_entry(room, word, svn, gst, band)?;
    feed::feed_word(room, gst, svn.0, band, word);
    Ok(())
}

// A tag that was checked: for which satellite and kind, with which COP and length, under which status, in a MACK of which time, over
// which data, and with which verdict.
#[tactic(auto, unfolding(paper::specs::Tag::family_of))]
pub fn tag(
    room: &mut [u8],
    svn: Svn,
    kind: u8,
    cop: u8,
    bits: u8,
    status: u8,
    mack: Gst,
    given: &[u8],
    verdict: bool,
) -> Result<u32, Refusal>
    ensures { (tagged_answer result
        ≡ tag_answer svn.0 kind cop bits status mack.wn.0 mack.tow.0 given.now verdict room.old)
        × (room.new
        ≡ tag_room svn.0 kind cop bits status mack.wn.0 mack.tow.0 given.now verdict room.old) }
{
    let allowed = limits::tag_allowed(cop, bits);
    let known = limits::tag_known(kind, status);
    let at = tags::candidate_of(room, svn, kind, cop, mack, allowed, known)?;
    let timing = kind == TIMING_KIND;
    tags::accept(room, at, timing, svn.0, bits, status, given, verdict)
}

// Whether a tag of this kind and COP has a candidate.
pub fn candidate(room: &[u8], svn: Svn, kind: u8, cop: u8, mack: Gst) -> Result<(), Refusal>
    ensures { reply_answer result ≡ candidate_answer svn.0 kind cop mack.wn.0 mack.tow.0 room.now }
{
    tags::candidate_shown(room, svn, kind, cop, mack)?;
    Ok(())
}

// The candidate's data as a slice of the room, or the empty slice.
#[tactic(auto, unfolding(paper::specs::Tag::family_of))]
pub fn candidate_data(room: &[u8], svn: Svn, kind: u8, cop: u8, mack: Gst) -> &[u8]
    ensures { result.now ≡ candidate_data svn.0 kind cop mack.wn.0 mack.tow.0 room.now }
{
    match tags::candidate_shown(room, svn, kind, cop, mack) {
        Ok(at) => lookup::data_of(room, at, kind == TIMING_KIND),
        Err(_) => &room[..0],
    }
}

// What a record hands out beside its data: its count, and its row's subframe less 30 s for each of its least age.
#[derive(Clone, Copy)]
pub struct Reading {
    pub authbits: u16,
    pub gst: Gst,
}

fn ask_for(room: &[u8], timing: bool, svn: Svn) -> Result<Reading, Refusal>
    ensures { asked_answer result ≡ ask_answer (family_if timing) svn.0 room.now }
{
    let answer = ask::ask(room, timing, svn)?;
    Ok(Reading {
        authbits: answer.authbits,
        gst: answer.gst,
    })
}

// The data of the record that answers, or the empty slice.
fn data_for(room: &[u8], timing: bool, svn: Svn) -> &[u8]
    ensures { result.now ≡ ask_data (family_if timing) svn.0 room.now }
{
    match ask::ask(room, timing, svn) {
        Ok(answer) => lookup::data_of(room, answer.at, timing),
        Err(_) => &room[0..0],
    }
}

// Authenticated ephemeris, clock and status of a satellite: its count and time.
pub fn get_ced_and_status(room: &[u8], svn: Svn) -> Result<Reading, Refusal>
    ensures { asked_answer result ≡ ask_answer CED svn.0 room.now }
{
    ask_for(room, false, svn)
}

// Authenticated timing parameters of a satellite: their count and time.
pub fn get_timing_parameters(room: &[u8], svn: Svn) -> Result<Reading, Refusal>
    ensures { asked_answer result ≡ ask_answer Timing svn.0 room.now }
{
    ask_for(room, true, svn)
}

// The 69 bytes behind `get_ced_and_status` as a slice of the room, or the empty slice.
pub fn ced_and_status_data(room: &[u8], svn: Svn) -> &[u8]
    ensures { result.now ≡ ask_data CED svn.0 room.now }
{
    data_for(room, false, svn)
}

// The 18 bytes behind `get_timing_parameters` as a slice of the room, or the empty slice.
pub fn timing_parameters_data(room: &[u8], svn: Svn) -> &[u8]
    ensures { result.now ≡ ask_data Timing svn.0 room.now }
{
    data_for(room, true, svn)
}
