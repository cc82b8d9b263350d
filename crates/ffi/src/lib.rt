// The store's calls for C and Rust, under plain names. Room, word and data come as a pointer and a length, numbers as numbers; the
// number and its values go back by value, and a slice of the room as its offset and its bytes. No contract here asks anything; what is owed
// with a pointer from C stands in include/dawnstook.h. This crate is a library, of which theorems speak, and exports nothing itself: the
// archive has these calls from `ffi_c`.
#![tactic(auto)]

ghost use Rattle.std.specs.Prelude.{◌≡◌, cond, length};
ghost use Rattle.paper.specs.Number.{number};
ghost use Rattle.paper.specs.Parts.{part};
ghost use Rattle.paper.specs.Record.{CED, Timing, family_if};
ghost use Rattle.paper.specs.Room.{room_size};
ghost use Rattle.paper.specs.Store.{sizes_allowed};
ghost use Rattle.paper.specs.Answer.{fresh_answer, fresh_room, feed_answer, feed_room, tag_answer, tag_room};
ghost use Rattle.paper.specs.Answer.{candidate_answer, candidate_data, ask_answer, ask_data, reset_answer, reset_room};
ghost use Rattle.paper.specs.Time.{add_seconds, add_subframes, subframe_of, is_subframe, difference};
ghost use Rattle.gst.specs.Answer.{time_answer, start_answer, apart_answer};
ghost use Rattle.refusals.specs.Reply.{reply_answer};
ghost use Rattle.tags.specs.Candidates.{tagged_answer};
ghost use Rattle.ffi.specs.Handed.{taken_of, shown_of, told_of, moment_of, mark_of, span_of};
ghost use Rattle.ffi.specs.Offset.{candidate_offset, ask_offset};

use gst::Gst;
use limits::TIMING_KIND;
use refusals::Refusal;
use svn::Svn;

// What a tag came to: its number, and how many records took it.
#[repr(C)]
#[derive(Clone, Copy)]
pub struct Taken {
    pub number: u8,
    pub records: u32,
}

// The candidate of a tag: its number, and where its data lies in the room.
#[repr(C)]
#[derive(Clone, Copy)]
pub struct Shown {
    pub number: u8,
    pub offset: usize,
    pub bytes: usize,
}

// What asking tells: its number, the count, the time, and where the data lies in the room.
#[repr(C)]
#[derive(Clone, Copy)]
pub struct Told {
    pub number: u8,
    pub authbits: u16,
    pub week: u16,
    pub time: u32,
    pub offset: usize,
    pub bytes: usize,
}

// A new time: its number, the week and the time of week.
#[repr(C)]
#[derive(Clone, Copy)]
pub struct Moment {
    pub number: u8,
    pub week: u16,
    pub time: u32,
}

// Whether a time starts a subframe: its number, and 1 where it does.
#[repr(C)]
#[derive(Clone, Copy)]
pub struct Mark {
    pub number: u8,
    pub start: u8,
}

// How many subframes two times are apart: its number, and how many.
#[repr(C)]
#[derive(Clone, Copy)]
pub struct Span {
    pub number: u8,
    pub subframes: i32,
}

// kept a function: a From of Result for u8 would name no type of this crate
fn reply_number(reply: Result<(), Refusal>) -> u8
    ensures { result ≡ number (reply_answer reply) }
{
    match reply {
        Ok(()) => 0,
        Err(why) => u8::from(why),
    }
}

// Beside a refusal the values are 0 (STORE 14.3), here and below.
impl From<Result<u32, Refusal>> for Taken {
    ghost from_gives = { λ tagged taken. taken ≡ taken_of (tagged_answer tagged) };

    fn from(tagged: Result<u32, Refusal>) -> Taken {
        match tagged {
            Ok(records) => Taken { number: 0, records },
            Err(why) => Taken {
                number: u8::from(why),
                records: 0,
            },
        }
    }
}

impl From<Result<Gst, Refusal>> for Moment {
    ghost from_gives = { λ time moment. moment ≡ moment_of (time_answer time) };

    fn from(time: Result<Gst, Refusal>) -> Moment {
        match time {
            Ok(gst) => Moment {
                number: 0,
                week: gst.wn.0,
                time: gst.tow.0,
            },
            Err(why) => Moment {
                number: u8::from(why),
                week: 0,
                time: 0,
            },
        }
    }
}

impl From<Result<bool, Refusal>> for Mark {
    ghost from_gives = { λ start mark. mark ≡ mark_of (start_answer start) };

    fn from(start: Result<bool, Refusal>) -> Mark {
        match start {
            Ok(yes) => Mark {
                number: 0,
                start: u8::from(yes),
            },
            Err(why) => Mark {
                number: u8::from(why),
                start: 0,
            },
        }
    }
}

impl From<Result<i32, Refusal>> for Span {
    ghost from_gives = { λ apart span. span ≡ span_of (apart_answer apart) };

    fn from(apart: Result<i32, Refusal>) -> Span {
        match apart {
            Ok(subframes) => Span {
                number: 0,
                subframes,
            },
            Err(why) => Span {
                number: u8::from(why),
                subframes: 0,
            },
        }
    }
}

// The bytes that a store of d rows and n slots takes; 0 for sizes that are not allowed.
#[unsafe(no_mangle)]
pub extern "C" fn dawnstook_room_size(d: u8, n: u8) -> usize
    ensures { result ≡ cond (sizes_allowed d n) (room_size d n) 0 }
{
    if !limits::sizes_allowed(d, n) {
        return 0;
    }
    rows::room_size(usize::from(d), usize::from(n))
}

// A fresh store of d rows and n slots at the start of the room, under an ageing rule.
#[unsafe(no_mangle)]
pub extern "C" fn dawnstook_fresh(room: &mut [u8], d: u8, n: u8, rule: u8) -> u8
    ensures { (result ≡ number (fresh_answer d n rule room.old))
        × (room.new ≡ fresh_room d n rule room.old) }
{
    reply_number(navmessage::fresh(room, d, n, rule))
}

// A word of a satellite, received at a time on a band (0 E1B, 1 E5B).
#[unsafe(no_mangle)]
pub extern "C" fn dawnstook_feed(
    room: &mut [u8],
    word: &[u8],
    sat: u8,
    week: u16,
    time: u32,
    band: u8,
) -> u8
    ensures { (result ≡ number (feed_answer word.now sat week time band room.old))
        × (room.new ≡ feed_room word.now sat week time band room.old) }
{
    let gst = Gst::new(week, time);
    reply_number(navmessage::feed(room, word, Svn(sat), gst, band))
}

// A tag that was checked over the given data, with its verdict.
#[unsafe(no_mangle)]
pub extern "C" fn dawnstook_tag(
    room: &mut [u8],
    sat: u8,
    kind: u8,
    cop: u8,
    bits: u8,
    status: u8,
    week: u16,
    time: u32,
    given: &[u8],
    verdict: bool,
) -> Taken
    ensures value { result
        ≡ taken_of (tag_answer sat kind cop bits status week time given.now verdict room.old) }
    ensures room_after { room.new
        ≡ tag_room sat kind cop bits status week time given.now verdict room.old }
{
    let mack = Gst::new(week, time);
    Taken::from(navmessage::tag(
        room,
        Svn(sat),
        kind,
        cop,
        bits,
        status,
        mack,
        given,
        verdict,
    ))
}

// The candidate of a tag of this kind and COP, as a slice of the room.
#[unsafe(no_mangle)]
#[tactic(auto, unfolding(paper::specs::Tag::family_of))]
pub extern "C" fn dawnstook_candidate(
    room: &[u8],
    sat: u8,
    kind: u8,
    cop: u8,
    week: u16,
    time: u32,
) -> Shown
    ensures value { result
        ≡ shown_of (candidate_answer sat kind cop week time room.now)
        (candidate_offset sat kind cop week time room.now)
        (length (candidate_data sat kind cop week time room.now)) }
    ensures room_value { part result.offset result.bytes room.now ≡ candidate_data sat kind cop week time room.now }
{
    let mack = Gst::new(week, time);
    match tags::candidate_shown(room, Svn(sat), kind, cop, mack) {
        Ok(at) => Shown {
            number: 0,
            offset: at + records::data_at(kind == TIMING_KIND),
            bytes: records::bytes_of(kind == TIMING_KIND),
        },
        Err(why) => Shown {
            number: u8::from(why),
            offset: 0,
            bytes: 0,
        },
    }
}

#[tactic(auto, using(crate::proofs::Parts::told_part))]
fn tell(room: &[u8], timing: bool, sat: u8) -> Told
    ensures value { result
        ≡ told_of (ask_answer (family_if timing) sat room.now)
        (ask_offset (family_if timing) sat room.now)
        (length (ask_data (family_if timing) sat room.now)) }
    ensures room_value { part result.offset result.bytes room.now ≡ ask_data (family_if timing) sat room.now }
{
    match ask::ask(room, timing, Svn(sat)) {
        Ok(answer) => Told {
            number: 0,
            authbits: answer.authbits,
            week: answer.gst.wn.0,
            time: answer.gst.tow.0,
            offset: answer.at + records::data_at(timing),
            bytes: records::bytes_of(timing),
        },
        Err(why) => Told {
            number: u8::from(why),
            authbits: 0,
            week: 0,
            time: 0,
            offset: 0,
            bytes: 0,
        },
    }
}

// Authenticated ephemeris, clock and status of a satellite.
#[unsafe(no_mangle)]
pub extern "C" fn dawnstook_get_ced_and_status(room: &[u8], sat: u8) -> Told
    ensures value { result
        ≡ told_of (ask_answer CED sat room.now) (ask_offset CED sat room.now) (length (ask_data CED sat room.now)) }
    ensures room_value { part result.offset result.bytes room.now ≡ ask_data CED sat room.now }
{
    tell(room, false, sat)
}

// Authenticated timing parameters of a satellite.
#[unsafe(no_mangle)]
pub extern "C" fn dawnstook_get_timing_parameters(room: &[u8], sat: u8) -> Told
    ensures value { result
        ≡ told_of (ask_answer Timing sat room.now) (ask_offset Timing sat room.now) (length (ask_data Timing sat room.now)) }
    ensures room_value { part result.offset result.bytes room.now ≡ ask_data Timing sat room.now }
{
    tell(room, true, sat)
}

// All counts put to 0.
#[unsafe(no_mangle)]
pub extern "C" fn dawnstook_reset_authbits(room: &mut [u8]) -> u8
    ensures { (result ≡ number (reset_answer room.old))
        × (room.new ≡ reset_room room.old) }
{
    reply_number(navmessage::reset_authbits(room))
}

// The time `seconds` later, or earlier where they are below 0.
#[unsafe(no_mangle)]
pub extern "C" fn dawnstook_add_seconds(week: u16, time: u32, seconds: i32) -> Moment
    ensures { result ≡ moment_of (add_seconds week time seconds) }
{
    Moment::from(Gst::new(week, time).add_seconds(seconds))
}

// The time so many 30 s subframes later.
#[unsafe(no_mangle)]
pub extern "C" fn dawnstook_add_subframes(week: u16, time: u32, subframes: i32) -> Moment
    ensures { result ≡ moment_of (add_subframes week time subframes) }
{
    Moment::from(Gst::new(week, time).add_subframes(subframes))
}

// The start of the subframe that the time is in.
#[unsafe(no_mangle)]
pub extern "C" fn dawnstook_gst_subframe(week: u16, time: u32) -> Moment
    ensures { result ≡ moment_of (subframe_of week time) }
{
    Moment::from(Gst::new(week, time).gst_subframe())
}

// Whether the time is the start of a subframe.
#[unsafe(no_mangle)]
pub extern "C" fn dawnstook_is_subframe(week: u16, time: u32) -> Mark
    ensures { result ≡ mark_of (is_subframe week time) }
{
    Mark::from(Gst::new(week, time).is_subframe())
}

// The subframes from the other time to this one, those of the times of week rounded toward zero.
#[unsafe(no_mangle)]
pub extern "C" fn dawnstook_subframes_difference(
    week: u16,
    time: u32,
    other_week: u16,
    other_time: u32,
) -> Span
    ensures { result ≡ span_of (difference week time other_week other_time) }
{
    let gst = Gst::new(week, time);
    let other = Gst::new(other_week, other_time);
    Span::from(gst.subframes_difference(other))
}
