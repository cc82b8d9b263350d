// STORE 11: where a tag's candidate lies or why there is none, and what an accepted tag leaves. The refusals come in the
// order of STORE 14.2.
#![tactic(auto)]

ghost use Rattle.std.specs.Prelude.{◌≡◌, ◌+◌, ◌≤◌, length};
ghost use Rattle.paper.specs.Parts.{part};
ghost use Rattle.paper.specs.Record.{family_if, size, satellite};
ghost use Rattle.paper.specs.Store.{InRange};
ghost use Rattle.paper.specs.Tag.{kind_known, cop_allowed, given_agrees};
ghost use Rattle.tags.specs.Candidates.{Placed, Sought, tagged_answer, accepted_answer, accepted_room};

use gst::{Gst, SUBFRAME_SECONDS};
use limits::TIMING_KIND;
use refusals::Refusal;
use svn::Svn;

// STORE 11.2: the MACK time less 30 s
const ONE_BEFORE: i32 = 0 - SUBFRAME_SECONDS as i32;

// Where the candidate's record starts in the room: 16, 10. The MACK's time less 30 s is known here.
fn candidate_before(
    room: &[u8],
    sat: u8,
    timing: bool,
    cop: u8,
    week: u16,
    time: u32,
) -> Result<usize, Refusal>
    requires { InRange room.now }
    ensures { Sought result (family_if timing) sat cop week time room.now }
{
    if cop == 0 {
        return Err(Refusal::Dummy);
    }
    lookup::candidate_at(room, timing, sat, cop, week, time).ok_or(Refusal::NoCandidate)
}

// Where the candidate's record starts in the room: 3, 4, 5, 6, 8, 9, 7, 16, 10. A tag and the candidate test 8 and 9 each in their own way.
#[tactic(auto, unfolding(paper::specs::Tag::family_of))]
pub fn candidate_of(
    room: &[u8],
    svn: Svn,
    kind: u8,
    cop: u8,
    mack: Gst,
    allowed: bool,
    known: bool,
) -> Result<usize, Refusal>
    ensures { Placed result allowed known svn.0 kind cop mack.wn.0 mack.tow.0 room.now }
{
    entry::mack_entry(room, svn, mack)?;
    if !allowed {
        return Err(Refusal::NotAllowed);
    }
    if !known {
        return Err(Refusal::UnknownCode);
    }
    let Ok(before) = mack.add_seconds(ONE_BEFORE) else {
        return Err(Refusal::TimeArithmetic);
    };
    let timing = kind == TIMING_KIND;
    candidate_before(room, svn.0, timing, cop, before.wn.0, before.tow.0)
}

// The candidate of a tag of this kind and COP, to be shown.
pub fn candidate_shown(
    room: &[u8],
    svn: Svn,
    kind: u8,
    cop: u8,
    mack: Gst,
) -> Result<usize, Refusal>
    ensures { Placed result (cop_allowed cop) (kind_known kind) svn.0 kind cop mack.wn.0 mack.tow.0 room.now }
{
    let allowed = limits::cop_allowed(cop);
    let known = limits::kind_known(kind);
    candidate_of(room, svn, kind, cop, mack, allowed, known)
}

// STORE 11.4: whether the given data has its length and the candidate's bits
#[tactic(auto, unfolding(paper::specs::Tag::given_agrees))]
fn given_agrees(room: &[u8], at: usize, timing: bool, given: &[u8]) -> bool
    requires { at + size (family_if timing) ≤ length room.now }
    ensures { result ≡ given_agrees (family_if timing) given.now (part at (size (family_if timing)) room.now) }
{
    if given.len() != records::bytes_of(timing) {
        return false;
    }
    credit::same_bits(given, lookup::data_of(room, at, timing), timing)
}

// How many records took the tag: 11, 17, 18. The candidate's record starts at `at`.
pub fn accept(
    room: &mut [u8],
    at: usize,
    timing: bool,
    sat: u8,
    bits: u8,
    status: u8,
    given: &[u8],
    verdict: bool,
) -> Result<u32, Refusal>
    requires in_range { InRange room.old }
    requires timing_in_bounds { (at + size (family_if timing) ≤ length room.old) × (satellite (part at (size (family_if timing)) room.old) ≡ sat) }
    ensures result_value { tagged_answer result
        ≡ accepted_answer (family_if timing) given.now (part at (size (family_if timing)) room.old) verdict status
        room.old }
    ensures room_after { room.new
        ≡ accepted_room (family_if timing) given.now (part at (size (family_if timing)) room.old) verdict status bits
        room.old }
{
    if !given_agrees(room, at, timing, given) {
        return Err(Refusal::OtherData);
    }
    if !verdict {
        return Err(Refusal::VerdictNo);
    }
    if !limits::status_adds(status) {
        return Err(Refusal::StatusAddsNothing);
    }
    Ok(credit::credit_rows(room, timing, sat, given, bits))
}
