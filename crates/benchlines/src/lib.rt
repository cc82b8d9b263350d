// One whole item of the bench program answered on a room (STORE 17.2, 17.3).
#![tactic(auto)]

ghost use Rattle.std.specs.Prelude.{◌≡◌, ◌+◌, ◌≤◌, length, get_or, take};
ghost use Rattle.paper.specs.Big.{be16, be32};
ghost use Rattle.paper.specs.Record.{CED, data_bytes};
ghost use Rattle.paper.specs.Call.{fresh_call, reset_call, answer_to, room_after};
ghost use Rattle.navmessage.specs.Asked.{asked_answer};
ghost use Rattle.lines.specs.Lines.{outcome_answer, longest_line};
ghost use Rattle.benchlines.specs.Items.{word_call, ruled_call, candidate_on, tag_call_on, whole_answer, whole_data, whole_room, whole_line};
ghost use Rattle.lines.specs.declared.Kind.TheVariants.{Word, Tag, Fresh, FreshRuled};
ghost use Rattle.lines.specs.Kinds.{body_length};
ghost use Rattle.text.specs.Text.{Put};

use gst::{Gst, Tow, Wn};
use limits::WORD_BYTES;
use lines::{Kind, Outcome, Said};
use navmessage::Reading;
use records::{Ced, Timing};
use refusals::Refusal;
use svn::Svn;
use text::put_bytes;

// where a word's bytes start in its body, behind satellite, band, week and time
const WORD_AT: usize = 8;

const WORD_END: usize = WORD_AT + WORD_BYTES;

// The week and the time from a place of a body.
fn time(body: &[u8], at: usize) -> Gst
    requires { at + 6 ≤ length body.now }
    ensures { (result.wn.0 ≡ be16 body.now at) × (result.tow.0 ≡ be32 body.now (at + 2)) }
{
    let wn = Wn(numbers::read16(body, at));
    let tow = Tow(numbers::read32(body, at + 2));
    Gst { wn, tow }
}

// What asking came to, as it is said.
fn asked(answer: Result<Reading, Refusal>) -> Outcome
    ensures { outcome_answer result ≡ asked_answer answer }
{
    let reading = answer?;
    Ok(Said::Reading(reading.authbits, reading.gst))
}

// Satellite, band, week (2), time (4), 16 bytes.
#[tactic(auto, unfolding(crate::specs::Items::word_call, paper::specs::Call::answer_to, paper::specs::Call::room_after))]
fn word(room: &mut [u8], body: &[u8]) -> Outcome
    requires { length body.now ≡ body_length Word }
    ensures { (outcome_answer result ≡ answer_to (word_call body.now) room.old)
        × (room.new ≡ room_after (word_call body.now) room.old) }
{
    let gst = time(body, 2);
    navmessage::feed(room, &body[WORD_AT..WORD_END], Svn(body[0]), gst, body[1])?;
    Ok(Said::Done)
}

// The data of either family, or none, to the start of `given`: how many bytes. Each length by itself: a copy of a length that is not known
// would be made a call of C's library by the compiler, and the archive asks for none.
fn copied(given: &mut [u8], data: &[u8]) -> usize
    requires { length «data».now ≤ length given.old }
    ensures { (take result given.new ≡ «data».now) × (result ≤ length given.new) }
{
    if data.len() == Timing::BYTES {
        return put_bytes(given, 0, &data[..Timing::BYTES]);
    }
    if data.len() == Ced::BYTES {
        return put_bytes(given, 0, &data[..Ced::BYTES]);
    }
    put_bytes(given, 0, data)
}

// The data of a tag's candidate, copied: a tag is lent the room it lies in. How many bytes there are comes back.
#[tactic(auto, unfolding(crate::specs::Items::candidate_on))]
fn candidate(room: &[u8], body: &[u8], given: &mut [u8]) -> usize
    requires { (length body.now ≡ body_length Tag) × (length given.old ≡ data_bytes CED) }
    ensures { (take result given.new ≡ candidate_on body.now room.now)
        × (result ≤ length given.new) }
{
    let gst = time(body, 6);
    copied(
        given,
        navmessage::candidate_data(room, Svn(body[0]), body[1], body[2], gst),
    )
}

// Satellite, kind, COP, length, status, verdict (0 is no), week (2), time (4).
#[tactic(auto, unfolding(crate::specs::Items::tag_call_on, paper::specs::Call::answer_to, paper::specs::Call::room_after))]
fn tag(room: &mut [u8], body: &[u8]) -> Outcome
    requires { length body.now ≡ body_length Tag }
    ensures { (outcome_answer result ≡ answer_to (tag_call_on body.now room.old) room.old)
        × (room.new ≡ room_after (tag_call_on body.now room.old) room.old) }
{
    let mut given = [0u8; Ced::BYTES];
    let n = candidate(room, body, &mut given);
    let gst = time(body, 6);
    let verdict = body[5] != 0;
    let records = navmessage::tag(
        room,
        Svn(body[0]),
        body[1],
        body[2],
        body[3],
        body[4],
        gst,
        &given[..n],
        verdict,
    )?;
    Ok(Said::Total(records))
}

#[tactic(auto, unfolding(paper::specs::Call::answer_to, paper::specs::Call::room_after))]
fn reset(room: &mut [u8]) -> Outcome
    ensures { (outcome_answer result ≡ answer_to reset_call room.old) × (room.new ≡ room_after reset_call room.old) }
{
    navmessage::reset_authbits(room)?;
    Ok(Said::Done)
}

// D, N: rule 0, whatever the room had.
#[tactic(auto, unfolding(paper::specs::Call::answer_to, paper::specs::Call::room_after))]
fn fresh(room: &mut [u8], body: &[u8]) -> Outcome
    requires { length body.now ≡ body_length Fresh }
    ensures { (outcome_answer result ≡ answer_to (fresh_call (get_or body.now 0 0) (get_or body.now 1 0) 0) room.old)
        × (room.new ≡ room_after (fresh_call (get_or body.now 0 0) (get_or body.now 1 0) 0) room.old) }
{
    navmessage::fresh(room, body[0], body[1], 0)?;
    Ok(Said::Done)
}

// D, N, rule.
#[tactic(auto, unfolding(paper::specs::Call::answer_to, paper::specs::Call::room_after))]
fn fresh_ruled(room: &mut [u8], body: &[u8]) -> Outcome
    requires { length body.now ≡ body_length FreshRuled }
    ensures { (outcome_answer result ≡ answer_to (ruled_call body.now) room.old)
        × (room.new ≡ room_after (ruled_call body.now) room.old) }
{
    navmessage::fresh(room, body[0], body[1], body[2])?;
    Ok(Said::Done)
}

// The satellite that an item names: the first byte of its body.
fn satellite(body: &[u8]) -> Svn
    ensures { result.0 ≡ get_or body.now 0 0 }
{
    match body {
        [number, ..] => Svn(*number),
        [] => Svn(0),
    }
}

// What an item's call answers, and the room after it.
#[tactic(auto, unfolding(paper::specs::Call::run, paper::specs::Call::answer_to, paper::specs::Call::room_after))]
pub fn outcome(room: &mut [u8], kind: Kind, body: &[u8]) -> Outcome
    requires { length body.now ≡ body_length kind }
    ensures { (outcome_answer result ≡ whole_answer kind body.now room.old)
        × (room.new ≡ whole_room kind body.now room.old) }
{
    match kind {
        Kind::Word => word(room, body),
        Kind::Tag => tag(room, body),
        Kind::Reset => reset(room),
        Kind::Ced => asked(navmessage::get_ced_and_status(room, satellite(body))),
        Kind::Timing => asked(navmessage::get_timing_parameters(room, satellite(body))),
        Kind::Fresh => fresh(room, body),
        Kind::FreshRuled => fresh_ruled(room, body),
        Kind::Unknown => Err(u8::from(Refusal::UnknownKind)),
    }
}

// The slice of the room that an item's call hands out.
#[tactic(auto, unfolding(crate::specs::Items::word_call, crate::specs::Items::tag_call_on, paper::specs::Call::part_to))]
pub fn part<'a>(room: &'a [u8], kind: Kind, body: &[u8]) -> &'a [u8]
    requires { length body.now ≡ body_length kind }
    ensures { result.now ≡ whole_data kind body.now room.now }
{
    match kind {
        Kind::Word => &room[..0],
        Kind::Tag => &room[..0],
        Kind::Reset => &room[..0],
        Kind::Ced => navmessage::ced_and_status_data(room, satellite(body)),
        Kind::Timing => navmessage::timing_parameters_data(room, satellite(body)),
        Kind::Fresh => &room[..0],
        Kind::FreshRuled => &room[..0],
        Kind::Unknown => &room[..0],
    }
}

// The line for a whole item, from a place of `out` on, and the room after it.
#[tactic(auto, unfolding(crate::specs::Items::whole_line))]
pub fn answer(room: &mut [u8], kind: Kind, body: &[u8], out: &mut [u8], at: usize) -> usize
    requires { (length body.now ≡ body_length kind) × (at + longest_line ≤ length out.old) }
    ensures { (room.new ≡ whole_room kind body.now room.old)
        × ((Put out.old at (whole_line kind body.now room.old) out.new result) × (result ≤ at + longest_line)) }
{
    let outcome = outcome(room, kind, body);
    lines::put_line(
        out,
        at,
        kind,
        satellite(body),
        outcome,
        part(room, kind, body),
    )
}
