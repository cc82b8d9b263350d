// The store's calls as C and Rust link them: each is the function of that name in `ffi`, under the same contract. A crate is a library or a
// static library, so what the theorems speak of is the library, and this is what the archive has of it.
#![tactic(auto)]

ghost use Rattle.std.specs.Prelude.{◌≡◌, cond, length};
ghost use Rattle.paper.specs.Number.{number};
ghost use Rattle.paper.specs.Parts.{part};
ghost use Rattle.paper.specs.Record.{CED, Timing};
ghost use Rattle.paper.specs.Room.{room_size};
ghost use Rattle.paper.specs.Store.{sizes_allowed};
ghost use Rattle.paper.specs.Answer.{fresh_answer, fresh_room, feed_answer, feed_room, tag_answer, tag_room};
ghost use Rattle.paper.specs.Answer.{candidate_answer, candidate_data, ask_answer, ask_data, reset_answer, reset_room};
ghost use Rattle.paper.specs.Time.{add_seconds, add_subframes, subframe_of, is_subframe, difference};
ghost use Rattle.ffi.specs.Handed.{taken_of, shown_of, told_of, moment_of, mark_of, span_of};
ghost use Rattle.ffi.specs.Offset.{candidate_offset, ask_offset};

use ffi::{Mark, Moment, Shown, Span, Taken, Told};

// The bytes that a store of d rows and n slots takes; 0 for sizes that are not allowed.
#[unsafe(no_mangle)]
pub extern "C" fn dawnstook_room_size(d: u8, n: u8) -> usize
    ensures { result ≡ cond (sizes_allowed d n) (room_size d n) 0 }
{
    ffi::dawnstook_room_size(d, n)
}

// A fresh store of d rows and n slots at the start of the room, under an ageing rule.
#[unsafe(no_mangle)]
pub extern "C" fn dawnstook_fresh(room: &mut [u8], d: u8, n: u8, rule: u8) -> u8
    ensures { (result ≡ number (fresh_answer d n rule room.old))
        × (room.new ≡ fresh_room d n rule room.old) }
{
    ffi::dawnstook_fresh(room, d, n, rule)
}

// A word of a satellite, received at a time on a band (0 E1B, 1 E5B).
#[unsafe(no_mangle)]
pub extern "C" fn dawnstook_feed(
    room: &mut [u8],
    word: &[u8],
    sat: u8,
    week: u16,
    time: u32,
    band: u8,
) -> u8
    ensures { (result ≡ number (feed_answer word.now sat week time band room.old))
        × (room.new ≡ feed_room word.now sat week time band room.old) }
{
    ffi::dawnstook_feed(room, word, sat, week, time, band)
}

// A tag that was checked over the given data, with its verdict.
#[unsafe(no_mangle)]
pub extern "C" fn dawnstook_tag(
    room: &mut [u8],
    sat: u8,
    kind: u8,
    cop: u8,
    bits: u8,
    status: u8,
    week: u16,
    time: u32,
    given: &[u8],
    verdict: bool,
) -> Taken
    ensures value { result
        ≡ taken_of (tag_answer sat kind cop bits status week time given.now verdict room.old) }
    ensures room_after { room.new
        ≡ tag_room sat kind cop bits status week time given.now verdict room.old }
{
    ffi::dawnstook_tag(
        room, sat, kind, cop, bits, status, week, time, given, verdict,
    )
}

// The candidate of a tag of this kind and COP, as a slice of the room.
#[unsafe(no_mangle)]
pub extern "C" fn dawnstook_candidate(
    room: &[u8],
    sat: u8,
    kind: u8,
    cop: u8,
    week: u16,
    time: u32,
) -> Shown
    ensures value { result
        ≡ shown_of (candidate_answer sat kind cop week time room.now)
        (candidate_offset sat kind cop week time room.now)
        (length (candidate_data sat kind cop week time room.now)) }
    ensures room_value { part result.offset result.bytes room.now ≡ candidate_data sat kind cop week time room.now }
{
    ffi::dawnstook_candidate(room, sat, kind, cop, week, time)
}

// Authenticated ephemeris, clock and status of a satellite.
#[unsafe(no_mangle)]
pub extern "C" fn dawnstook_get_ced_and_status(room: &[u8], sat: u8) -> Told
    ensures value { result
        ≡ told_of (ask_answer CED sat room.now) (ask_offset CED sat room.now) (length (ask_data CED sat room.now)) }
    ensures room_value { part result.offset result.bytes room.now ≡ ask_data CED sat room.now }
{
    ffi::dawnstook_get_ced_and_status(room, sat)
}

// Authenticated timing parameters of a satellite.
#[unsafe(no_mangle)]
pub extern "C" fn dawnstook_get_timing_parameters(room: &[u8], sat: u8) -> Told
    ensures value { result
        ≡ told_of (ask_answer Timing sat room.now) (ask_offset Timing sat room.now) (length (ask_data Timing sat room.now)) }
    ensures room_value { part result.offset result.bytes room.now ≡ ask_data Timing sat room.now }
{
    ffi::dawnstook_get_timing_parameters(room, sat)
}

// All counts put to 0.
#[unsafe(no_mangle)]
pub extern "C" fn dawnstook_reset_authbits(room: &mut [u8]) -> u8
    ensures { (result ≡ number (reset_answer room.old))
        × (room.new ≡ reset_room room.old) }
{
    ffi::dawnstook_reset_authbits(room)
}

// The time `seconds` later, or earlier where they are below 0.
#[unsafe(no_mangle)]
pub extern "C" fn dawnstook_add_seconds(week: u16, time: u32, seconds: i32) -> Moment
    ensures { result ≡ moment_of (add_seconds week time seconds) }
{
    ffi::dawnstook_add_seconds(week, time, seconds)
}

// The time so many 30 s subframes later.
#[unsafe(no_mangle)]
pub extern "C" fn dawnstook_add_subframes(week: u16, time: u32, subframes: i32) -> Moment
    ensures { result ≡ moment_of (add_subframes week time subframes) }
{
    ffi::dawnstook_add_subframes(week, time, subframes)
}

// The start of the subframe that the time is in.
#[unsafe(no_mangle)]
pub extern "C" fn dawnstook_gst_subframe(week: u16, time: u32) -> Moment
    ensures { result ≡ moment_of (subframe_of week time) }
{
    ffi::dawnstook_gst_subframe(week, time)
}

// Whether the time is the start of a subframe.
#[unsafe(no_mangle)]
pub extern "C" fn dawnstook_is_subframe(week: u16, time: u32) -> Mark
    ensures { result ≡ mark_of (is_subframe week time) }
{
    ffi::dawnstook_is_subframe(week, time)
}

// The subframes from the other time to this one, those of the times of week rounded toward zero.
#[unsafe(no_mangle)]
pub extern "C" fn dawnstook_subframes_difference(
    week: u16,
    time: u32,
    other_week: u16,
    other_time: u32,
) -> Span
    ensures { result ≡ span_of (difference week time other_week other_time) }
{
    ffi::dawnstook_subframes_difference(week, time, other_week, other_time)
}
