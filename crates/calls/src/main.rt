// Each call of the store through each of its refusals and successes, on a small room: a line for each call; through every value of
// each of its numbers, a line for each number; on rooms that no call makes; and the examples of STORE 18 that have no star, which are
// left to a program.
//
// A line says the call and its numbers, then after the colon what came back: the number of STORE 14.1 and its values, for a slice
// that is handed out its length and its Adler-32, and last the Adler-32 of the whole room, which stays where the number is not 0. The
// lines that the gate compares with are those of tools/model, which was written from the rules (STORE 1.1, 7.7) and not from this program.
#![tactic(auto)]

use gst::Gst;
use layout::{
    CURRENT_AT, DEPTH_AT, HEADER, MARK_AT, ROW_HEAD, RULE_AT, SLOT, SLOTS_AT, SPARE_AT, TIME_AT,
    TIMING_AT, WEEK_AT, ZEROS_AT,
};
use navmessage::Reading;
use records::{AGES_AT, COUNT_AT, Ced, Timing};
use refusals::Refusal;
use std::fmt::Display;
use std::io;
use svn::Svn;

// The room: a store of D 2 and N 2, and six bytes behind it that are not the store's.
const STORE: usize = HEADER + 2 * (ROW_HEAD + 2 * SLOT);

const ROOM: usize = STORE + 6;

// Where its second row starts, and the records of its slots: slots 0 and 1 of row 0, and slot 0 of row 1.
const ROW_1: usize = HEADER + ROW_HEAD + 2 * SLOT;

const CED_0: usize = HEADER + ROW_HEAD;

const TIMING_0: usize = CED_0 + TIMING_AT;

const CED_1: usize = CED_0 + SLOT;

const TIMING_1: usize = CED_1 + TIMING_AT;

const NEXT_CED: usize = ROW_1 + ROW_HEAD;

const NEXT_TIMING: usize = NEXT_CED + TIMING_AT;

// A week and a subframe of it, and the two subframes after it.
const WEEK: u16 = 1177;

const T: u32 = 175740;

const T30: u32 = 175770;

const T60: u32 = 175800;

// A line on standard error where standard output could not be written.
fn heard(rt: HostRuntime, written: io::Result<()>) {
    if written.is_err() {
        let _ = eprintln!(rt; "cannot write to standard output");
    }
}

fn text(rt: HostRuntime, letters: &[u8]) {
    heard(rt, rt.write_all(letters));
}

// A space and a number.
// kept: each piece is a write of its own, as before, so that what gets out where one fails stays what it was
fn number<N: Display + Drop>(rt: HostRuntime, n: N) {
    text(rt, b" ");
    heard(rt, print!(rt; "{n}"));
}

// How many bytes, and their Adler-32.
fn sized(rt: HostRuntime, bytes: &[u8]) {
    number(rt, bytes.len());
    number(rt, adler::adler32(bytes));
}

fn part(rt: HostRuntime, bytes: &[u8]) {
    text(rt, b", part");
    sized(rt, bytes);
}

fn end(rt: HostRuntime, room: &[u8]) {
    text(rt, b" #");
    number(rt, adler::adler32(room));
    text(rt, b"\n");
}

fn time(rt: HostRuntime, gst: Gst) {
    number(rt, gst.wn.0);
    number(rt, gst.tow.0);
}

fn refused(rt: HostRuntime, why: Refusal) {
    number(rt, u8::from(why));
}

fn reply(rt: HostRuntime, reply: Result<(), Refusal>) {
    match reply {
        Ok(()) => number(rt, 0),
        Err(why) => refused(rt, why),
    }
}

fn tagged(rt: HostRuntime, tagged: Result<u32, Refusal>) {
    match tagged {
        Ok(records) => {
            number(rt, 0);
            number(rt, records);
        }
        Err(why) => refused(rt, why),
    }
}

// kept a function: a Display of Reading would stand in navmessage, and only this program writes one
fn asked(rt: HostRuntime, asked: Result<Reading, Refusal>) {
    match asked {
        Ok(reading) => {
            number(rt, 0);
            number(rt, reading.authbits);
            time(rt, reading.gst);
        }
        Err(why) => refused(rt, why),
    }
}

fn fresh(rt: HostRuntime, room: &mut [u8; ROOM], d: u8, n: u8, rule: u8) {
    text(rt, b"fresh");
    number(rt, d);
    number(rt, n);
    number(rt, rule);
    text(rt, b":");
    reply(rt, navmessage::fresh(room, d, n, rule));
    end(rt, room);
}

fn feed(
    rt: HostRuntime,
    room: &mut [u8; ROOM],
    word: &[u8],
    svn: u8,
    week: u16,
    tow: u32,
    band: u8,
) {
    let gst = Gst::new(week, tow);
    text(rt, b"feed");
    number(rt, svn);
    time(rt, gst);
    number(rt, band);
    text(rt, b" word");
    sized(rt, word);
    text(rt, b":");
    reply(rt, navmessage::feed(room, word, Svn(svn), gst, band));
    end(rt, room);
}

// A word on E1B of one byte throughout, but for its first, which has the type in its upper six bits.
fn word(rt: HostRuntime, room: &mut [u8; ROOM], first: u8, fill: u8, svn: u8, week: u16, tow: u32) {
    let mut word = [fill; 16];
    word[0] = first;
    feed(rt, room, &word, svn, week, tow, 0);
}

fn tag(
    rt: HostRuntime,
    room: &mut [u8; ROOM],
    svn: u8,
    kind: u8,
    cop: u8,
    bits: u8,
    status: u8,
    week: u16,
    tow: u32,
    given: &[u8],
) {
    let mack = Gst::new(week, tow);
    text(rt, b"tag");
    number(rt, svn);
    number(rt, kind);
    number(rt, cop);
    number(rt, bits);
    number(rt, status);
    time(rt, mack);
    text(rt, b" given");
    sized(rt, given);
    text(rt, b":");
    tagged(
        rt,
        navmessage::tag(room, Svn(svn), kind, cop, bits, status, mack, given, true),
    );
    end(rt, room);
}

fn tag_no(
    rt: HostRuntime,
    room: &mut [u8; ROOM],
    svn: u8,
    kind: u8,
    cop: u8,
    status: u8,
    week: u16,
    tow: u32,
    given: &[u8],
) {
    let mack = Gst::new(week, tow);
    text(rt, b"tag with the verdict no");
    number(rt, svn);
    number(rt, kind);
    number(rt, cop);
    number(rt, status);
    text(rt, b":");
    tagged(
        rt,
        navmessage::tag(room, Svn(svn), kind, cop, 40, status, mack, given, false),
    );
    end(rt, room);
}

fn candidate(rt: HostRuntime, room: &[u8; ROOM], svn: u8, kind: u8, cop: u8, week: u16, tow: u32) {
    let mack = Gst::new(week, tow);
    text(rt, b"candidate");
    number(rt, svn);
    number(rt, kind);
    number(rt, cop);
    time(rt, mack);
    text(rt, b":");
    reply(rt, navmessage::candidate(room, Svn(svn), kind, cop, mack));
    part(
        rt,
        navmessage::candidate_data(room, Svn(svn), kind, cop, mack),
    );
    end(rt, room);
}

fn ask(rt: HostRuntime, room: &[u8; ROOM], svn: u8) {
    text(rt, b"ask for CED");
    number(rt, svn);
    text(rt, b":");
    asked(rt, navmessage::get_ced_and_status(room, Svn(svn)));
    part(rt, navmessage::ced_and_status_data(room, Svn(svn)));
    end(rt, room);
    text(rt, b"ask for timing");
    number(rt, svn);
    text(rt, b":");
    asked(rt, navmessage::get_timing_parameters(room, Svn(svn)));
    part(rt, navmessage::timing_parameters_data(room, Svn(svn)));
    end(rt, room);
}

fn reset(rt: HostRuntime, room: &mut [u8; ROOM]) {
    text(rt, b"reset:");
    reply(rt, navmessage::reset_authbits(room));
    end(rt, room);
}

// Every call but fresh, with nothing else to refuse.
fn every(rt: HostRuntime, room: &mut [u8; ROOM]) {
    let word = [4; 16];
    let given = [255; 69];
    reply(
        rt,
        navmessage::feed(room, &word, Svn(5), Gst::new(WEEK, T), 0),
    );
    tagged(
        rt,
        navmessage::tag(
            room,
            Svn(5),
            0,
            15,
            40,
            2,
            Gst::new(WEEK, T30),
            &given,
            true,
        ),
    );
    reply(
        rt,
        navmessage::candidate(room, Svn(5), 0, 15, Gst::new(WEEK, T30)),
    );
    part(
        rt,
        navmessage::candidate_data(room, Svn(5), 0, 15, Gst::new(WEEK, T30)),
    );
    asked(rt, navmessage::get_ced_and_status(room, Svn(5)));
    part(rt, navmessage::ced_and_status_data(room, Svn(5)));
    asked(rt, navmessage::get_timing_parameters(room, Svn(5)));
    part(rt, navmessage::timing_parameters_data(room, Svn(5)));
    reply(rt, navmessage::reset_authbits(room));
    end(rt, room);
}

fn write(room: &mut [u8; ROOM], place: usize, value: u8) {
    if let Some(byte) = room.get_mut(place) {
        *byte = value;
    }
}

// Every call on the room with one byte changed; then the byte is put back.
fn spoilt(rt: HostRuntime, room: &mut [u8; ROOM], place: usize, value: u8) {
    let old = numbers::byte_or_zero(room, place);
    write(room, place, value);
    text(rt, b"byte");
    number(rt, place);
    text(rt, b" is");
    number(rt, value);
    text(rt, b":");
    every(rt, room);
    write(room, place, old);
}

// A fresh store on a room that is a byte short of D 2 and N 2.
fn fresh_short(rt: HostRuntime, d: u8, n: u8, rule: u8) {
    let mut room = [7; STORE - 1];
    text(rt, b"fresh on a byte less");
    number(rt, d);
    number(rt, n);
    number(rt, rule);
    text(rt, b":");
    reply(rt, navmessage::fresh(&mut room, d, n, rule));
    end(rt, &room);
}

// The calls that are lent the room to write.
fn every_written(rt: HostRuntime, room: &mut [u8]) {
    let word = [4; 16];
    let given = [255; 69];
    reply(
        rt,
        navmessage::feed(room, &word, Svn(5), Gst::new(WEEK, T), 0),
    );
    tagged(
        rt,
        navmessage::tag(
            room,
            Svn(5),
            0,
            15,
            40,
            2,
            Gst::new(WEEK, T30),
            &given,
            true,
        ),
    );
    reply(rt, navmessage::reset_authbits(room));
    end(rt, room);
}

// They on a store of D 2 and N 2 that lacks its last byte, on a header that does, and on no room at all.
fn every_short(rt: HostRuntime) {
    let mut room = [0; STORE - 1];
    room[DEPTH_AT] = 2;
    room[SLOTS_AT] = 2;
    text(rt, b"on a byte less:");
    every_written(rt, &mut room);
    text(rt, b"on less than a header:");
    every_written(rt, &mut room[0..HEADER - 1]);
    text(rt, b"on nothing:");
    every_written(rt, &mut room[0..0]);
}

// 1, 2 and 0.
fn fresh_calls(rt: HostRuntime, room: &mut [u8; ROOM]) {
    reset(rt, room);
    fresh(rt, room, 0, 2, 0);
    fresh(rt, room, 17, 2, 0);
    fresh(rt, room, 2, 0, 0);
    fresh(rt, room, 2, 37, 0);
    fresh(rt, room, 2, 3, 0);
    fresh_short(rt, 2, 2, 0);
    fresh_short(rt, 2, 37, 0);
    fresh_short(rt, 1, 1, 0);
    every_short(rt);
    fresh(rt, room, 1, 1, 0);
}

// The same of the rule: 1 before 2, and a refused one leaves the store that ages by time.
fn fresh_rules(rt: HostRuntime, room: &mut [u8; ROOM]) {
    fresh(rt, room, 2, 2, 2);
    fresh(rt, room, 2, 2, 255);
    fresh(rt, room, 2, 3, 2);
    fresh(rt, room, 2, 3, 1);
    fresh_short(rt, 2, 2, 2);
    fresh_short(rt, 2, 2, 1);
    fresh_short(rt, 1, 1, 1);
    fresh(rt, room, 2, 2, 1);
    fresh(rt, room, 2, 2, 2);
    fresh(rt, room, 0, 2, 0);
    word(rt, room, 4, 255, 5, WEEK, T30);
    word(rt, room, 4, 255, 5, WEEK, T);
    fresh(rt, room, 2, 2, 0);
}

// 3, clause by clause: row 0 is marked and holds E05 in slot 1, row 1 is blank.
fn no_store(rt: HostRuntime, room: &mut [u8; ROOM]) {
    word(rt, room, 4, 255, 5, WEEK, T);
    spoilt(rt, room, DEPTH_AT, 0);
    spoilt(rt, room, DEPTH_AT, 17);
    spoilt(rt, room, DEPTH_AT, 3);
    spoilt(rt, room, SLOTS_AT, 0);
    spoilt(rt, room, SLOTS_AT, 37);
    spoilt(rt, room, CURRENT_AT, 2);
    spoilt(rt, room, RULE_AT, 2);
    spoilt(rt, room, RULE_AT, 255);
    spoilt(rt, room, ZEROS_AT, 1);
    spoilt(rt, room, ZEROS_AT + 1, 1);
    spoilt(rt, room, ZEROS_AT + 2, 1);
    spoilt(rt, room, ZEROS_AT + 3, 1);
    spoilt(rt, room, HEADER + MARK_AT, 2);
    spoilt(rt, room, HEADER + TIME_AT + 3, 157);
    spoilt(rt, room, HEADER + TIME_AT + 1, 17);
    spoilt(rt, room, HEADER + SPARE_AT, 1);
}

// The rest of 3: the records of row 0, then row 1. The other rule is no reason.
fn no_records(rt: HostRuntime, room: &mut [u8; ROOM]) {
    spoilt(rt, room, CED_1, 37);
    spoilt(rt, room, TIMING_1, 37);
    spoilt(rt, room, CED_0 + COUNT_AT, 1);
    spoilt(rt, room, TIMING_0 + COUNT_AT + 1, 1);
    spoilt(rt, room, TIMING_1 - 1, 4);
    spoilt(rt, room, ROW_1 - 1, 1);
    spoilt(rt, room, ROW_1 + WEEK_AT + 1, 1);
    spoilt(rt, room, ROW_1 + TIME_AT + 3, 30);
    spoilt(rt, room, ROW_1 + SPARE_AT, 1);
    spoilt(rt, room, NEXT_CED, 1);
    spoilt(rt, room, NEXT_CED + COUNT_AT + 1, 1);
    spoilt(rt, room, NEXT_TIMING, 1);
    spoilt(rt, room, NEXT_TIMING + COUNT_AT + 1, 1);
    spoilt(rt, room, STORE - 1, 2);
    text(rt, b"nothing changed:");
    every(rt, room);
    spoilt(rt, room, RULE_AT, 1);
}

// A word of so many bytes, up to 17, each of them ones.
fn feed_ones(
    rt: HostRuntime,
    room: &mut [u8; ROOM],
    bytes: usize,
    svn: u8,
    week: u16,
    tow: u32,
    band: u8,
) {
    let word = [255; 17];
    if bytes <= 17 {
        feed(rt, room, &word[0..bytes], svn, week, tow, band);
    }
}

// 4, 5, 8, 9, each before those that come later, and 0.
fn feed_calls(rt: HostRuntime, room: &mut [u8; ROOM]) {
    fresh(rt, room, 2, 2, 0);
    feed_ones(rt, room, 15, 0, WEEK, 604800, 2);
    feed_ones(rt, room, 15, 37, WEEK, 604800, 2);
    feed_ones(rt, room, 15, 1, WEEK, 604800, 2);
    feed_ones(rt, room, 15, 1, WEEK, 604799, 2);
    feed_ones(rt, room, 17, 36, WEEK, T, 0);
    feed_ones(rt, room, 0, 36, WEEK, T, 0);
    feed_ones(rt, room, 16, 1, WEEK, T, 2);
    feed_ones(rt, room, 16, 1, WEEK, T, 255);
    feed_ones(rt, room, 16, 1, WEEK, T, 1);
}

// 15 behind all of them: the current row's subframe is T + 30 s. The same subframe and a later one are taken, at whatever second.
fn earlier_calls(rt: HostRuntime, room: &mut [u8; ROOM]) {
    fresh(rt, room, 2, 2, 1);
    feed_ones(rt, room, 16, 1, WEEK, T30, 0);
    feed_ones(rt, room, 15, 0, WEEK - 1, 604800, 2);
    feed_ones(rt, room, 15, 1, WEEK - 1, 604800, 2);
    feed_ones(rt, room, 15, 1, WEEK - 1, 604799, 2);
    feed_ones(rt, room, 16, 1, WEEK - 1, 604799, 2);
    feed_ones(rt, room, 16, 1, WEEK - 1, 604799, 1);
    feed_ones(rt, room, 16, 2, WEEK, T30 - 1, 0);
    feed_ones(rt, room, 16, 2, WEEK, T, 0);
    feed_ones(rt, room, 16, 1, 0, 0, 0);
    feed_ones(rt, room, 16, 2, WEEK, T60 - 1, 0);
    feed_ones(rt, room, 16, 1, WEEK, T60, 0);
    feed_ones(rt, room, 16, 1, WEEK, T30, 0);
    feed_ones(rt, room, 16, 1, WEEK + 1, 0, 0);
    feed_ones(rt, room, 16, 1, WEEK, 604799, 0);
}

// The words of an orbit and of the timing parameters, each of ones.
fn all_words(rt: HostRuntime, room: &mut [u8; ROOM], svn: u8, week: u16, tow: u32) {
    word(rt, room, 7, 255, svn, week, tow);
    word(rt, room, 11, 255, svn, week, tow);
    word(rt, room, 15, 255, svn, week, tow);
    word(rt, room, 19, 255, svn, week, tow);
    word(rt, room, 23, 255, svn, week, tow);
    word(rt, room, 27, 255, svn, week, tow);
    word(rt, room, 43, 255, svn, week, tow);
}

// A tag with no data.
fn tag_of_none(
    rt: HostRuntime,
    room: &mut [u8; ROOM],
    svn: u8,
    kind: u8,
    cop: u8,
    bits: u8,
    status: u8,
    week: u16,
    tow: u32,
) {
    tag(rt, room, svn, kind, cop, bits, status, week, tow, &[]);
}

// 4, 5, 6, 8, 9, 7, 16, 10, each before those that come later.
fn tag_calls(rt: HostRuntime, room: &mut [u8; ROOM]) {
    fresh(rt, room, 2, 2, 0);
    all_words(rt, room, 1, WEEK, 175767);
    tag_of_none(rt, room, 0, 1, 16, 21, 4, 0, 604800);
    tag_of_none(rt, room, 37, 1, 16, 21, 4, 0, 604800);
    tag_of_none(rt, room, 1, 1, 16, 21, 4, 0, 604800);
    tag_of_none(rt, room, 1, 1, 16, 21, 4, 0, 29);
    tag_of_none(rt, room, 1, 1, 16, 40, 4, 0, 0);
    tag_of_none(rt, room, 1, 1, 0, 21, 4, 0, 0);
    tag_of_none(rt, room, 1, 1, 0, 40, 2, 0, 0);
    tag_of_none(rt, room, 1, 0, 0, 40, 4, 0, 0);
    tag_of_none(rt, room, 1, 0, 0, 40, 0, 0, 0);
    tag_of_none(rt, room, 1, 0, 0, 40, 0, WEEK, T60);
    tag_of_none(rt, room, 1, 0, 1, 40, 0, WEEK, T60);
    tag_of_none(rt, room, 2, 0, 15, 40, 0, WEEK, T30);
}

// A CED tag and a timing tag whose data is ones but for the last byte of it.
fn tag_ced(
    rt: HostRuntime,
    room: &mut [u8; ROOM],
    kind: u8,
    cop: u8,
    bits: u8,
    status: u8,
    last: u8,
) {
    let mut given = [255; 69];
    given[68] = last;
    tag(rt, room, 1, kind, cop, bits, status, WEEK, T30, &given);
}

fn tag_ced_no(rt: HostRuntime, room: &mut [u8; ROOM], last: u8) {
    let mut given = [255; 69];
    given[68] = last;
    tag_no(rt, room, 1, 0, 1, 3, WEEK, T30, &given);
}

fn tag_timing(rt: HostRuntime, room: &mut [u8; ROOM], cop: u8, bits: u8, tow: u32) {
    let given = [255; 18];
    tag(rt, room, 1, 4, cop, bits, 2, WEEK, tow, &given);
}

// 11 for a byte less, and for the data of the other family.
fn tags_other(rt: HostRuntime, room: &mut [u8; ROOM]) {
    let given = [255; 69];
    tag(rt, room, 1, 0, 1, 40, 0, WEEK, T30, &given[0..68]);
    tag(rt, room, 1, 4, 1, 40, 0, WEEK, T30, &given);
}

// 17, 18 and 0: bits past the 549 and the 141 of what is given do not matter, the one before them does.
fn tags_taken(rt: HostRuntime, room: &mut [u8; ROOM]) {
    tag_ced_no(rt, room, 255);
    tag_ced(rt, room, 0, 1, 40, 0, 255);
    tag_ced(rt, room, 0, 1, 40, 3, 255);
    tag_ced(rt, room, 0, 1, 20, 1, 255);
    ask(rt, room, 1);
    tag_ced(rt, room, 12, 15, 24, 2, 255);
    tag_timing(rt, room, 1, 40, T30);
    tag_ced(rt, room, 0, 1, 28, 2, 248);
    tag_ced_no(rt, room, 240);
    word(rt, room, 3, 255, 1, WEEK, T30);
    tag_timing(rt, room, 1, 32, T60);
    tag_timing(rt, room, 2, 32, T60);
}

// 4, 5, 6, 8, 9, 7, 16, 10 and 0.
fn candidate_calls(rt: HostRuntime, room: &mut [u8; ROOM]) {
    candidate(rt, room, 0, 1, 16, 0, 604800);
    candidate(rt, room, 37, 1, 16, 0, 604800);
    candidate(rt, room, 1, 1, 16, 0, 604800);
    candidate(rt, room, 1, 1, 16, 0, 29);
    candidate(rt, room, 1, 1, 16, 0, 0);
    candidate(rt, room, 1, 1, 0, 0, 0);
    candidate(rt, room, 1, 0, 0, 0, 0);
    candidate(rt, room, 1, 0, 0, WEEK, T60);
    candidate(rt, room, 1, 0, 1, WEEK, T60);
    candidate(rt, room, 1, 0, 2, WEEK, T60);
    candidate(rt, room, 1, 12, 1, WEEK, T30);
    candidate(rt, room, 1, 4, 1, WEEK, T30);
}

// 4, 12, 7 and 0: for 7 the ring comes back to the first subframe of all, with words that are two subframes old.
fn ask_calls(rt: HostRuntime, room: &mut [u8; ROOM]) {
    let given = [255; 69];
    ask(rt, room, 0);
    ask(rt, room, 37);
    ask(rt, room, 2);
    ask(rt, room, 1);
    reset(rt, room);
    ask(rt, room, 1);
    fresh(rt, room, 2, 2, 0);
    all_words(rt, room, 36, 0, 0);
    tag(rt, room, 36, 0, 1, 40, 2, 0, 30, &given);
    tag(rt, room, 36, 4, 1, 40, 2, 0, 30, &given[0..18]);
    ask(rt, room, 36);
    word(rt, room, 3, 255, 36, 0, 30);
    ask(rt, room, 36);
    word(rt, room, 3, 255, 36, 0, 0);
    ask(rt, room, 36);
}

// 24, behind 4 and 12: of the first subframe of all 254 are gone by, and then one more. A word that comes again makes it 0.
fn unknown_ages(rt: HostRuntime, room: &mut [u8; ROOM]) {
    let given = [255; 69];
    fresh(rt, room, 2, 2, 1);
    all_words(rt, room, 36, 0, 0);
    tag(rt, room, 36, 0, 1, 40, 2, 0, 30, &given);
    tag(rt, room, 36, 4, 1, 40, 2, 0, 30, &given[0..18]);
    word(rt, room, 3, 255, 36, 0, 7620);
    ask(rt, room, 36);
    word(rt, room, 3, 255, 36, 0, 7650);
    ask(rt, room, 36);
    ask(rt, room, 0);
    ask(rt, room, 35);
    word(rt, room, 43, 255, 36, 0, 7650);
    word(rt, room, 23, 255, 36, 0, 7650);
    ask(rt, room, 36);
    word(rt, room, 3, 255, 36, WEEK, T);
    reset(rt, room);
    ask(rt, room, 36);
}

// ---- every value of a number
// A tag of E01 over the ones that its record holds.
fn one_tag(
    rt: HostRuntime,
    room: &mut [u8; ROOM],
    svn: u8,
    kind: u8,
    cop: u8,
    bits: u8,
    status: u8,
) {
    let given = [255; 69];
    tagged(
        rt,
        navmessage::tag(
            room,
            Svn(svn),
            kind,
            cop,
            bits,
            status,
            Gst::new(WEEK, T30),
            &given,
            true,
        ),
    );
}

fn one_shown(rt: HostRuntime, room: &[u8; ROOM], svn: u8, kind: u8, cop: u8) {
    reply(
        rt,
        navmessage::candidate(room, Svn(svn), kind, cop, Gst::new(WEEK, T30)),
    );
}

// The count of the CED record of slot 1, and what asking for it says.
fn one_count(rt: HostRuntime, room: &mut [u8; ROOM], v: u8) {
    room[CED_1 + COUNT_AT] = 0;
    room[CED_1 + COUNT_AT + 1] = v;
    asked(rt, navmessage::get_ced_and_status(room, Svn(1)));
}

// The ages of the CED record of slot 1, and what asking for it says.
fn one_age(rt: HostRuntime, room: &mut [u8; ROOM], v: u8) {
    let ages = CED_1 + AGES_AT;
    room[ages..ages + Ced::WORDS].fill(v);
    asked(rt, navmessage::get_ced_and_status(room, Svn(1)));
}

// A word 6 of E01 in a store that ages by time, a word of type 0 twice v subframes later, and the age that word 6 then has.
fn one_gone(rt: HostRuntime, room: &mut [u8; ROOM], v: u8) {
    let mut word = [255; 16];
    word[0] = 27;
    reply(rt, navmessage::fresh(room, 1, 1, 1));
    reply(
        rt,
        navmessage::feed(room, &word, Svn(1), Gst::new(WEEK, T), 0),
    );
    word[0] = 3;
    reply(
        rt,
        navmessage::feed(
            room,
            &word,
            Svn(1),
            Gst::new(WEEK, T + 60 * u32::from(v)),
            0,
        ),
    );
    number(rt, room[TIMING_0 + AGES_AT]);
}

// A word 1 of ones.
fn one_word(rt: HostRuntime, room: &mut [u8; ROOM], svn: u8, band: u8) {
    let mut word = [255; 16];
    word[0] = 7;
    reply(
        rt,
        navmessage::feed(room, &word, Svn(svn), Gst::new(WEEK, T), band),
    );
}

// A call with each value of one of its numbers; the others are allowed.
fn sweep<F: Fn(&mut [u8; ROOM], u8)>(rt: HostRuntime, room: &mut [u8; ROOM], name: &[u8], one: F)
    requires { F.IsAlwaysCallable one }
{
    text(rt, name);
    text(rt, b":");
    for v in 0..=u8::MAX {
        one(room, v);
    }
    end(rt, room);
}

// D 2 and N 2 with all words of E01 in slot 1 of row 0.
fn begin(rt: HostRuntime, room: &mut [u8; ROOM]) {
    fresh(rt, room, 2, 2, 0);
    all_words(rt, room, 1, WEEK, T);
}

fn every_value(rt: HostRuntime, room: &mut [u8; ROOM]) {
    sweep(
        rt,
        room,
        b"every D",
        |room, v| reply(rt, navmessage::fresh(room, v, 1, 0)),
    );
    sweep(
        rt,
        room,
        b"every N",
        |room, v| reply(rt, navmessage::fresh(room, 1, v, 0)),
    );
    sweep(
        rt,
        room,
        b"every rule",
        |room, v| reply(rt, navmessage::fresh(room, 1, 1, v)),
    );
    begin(rt, room);
    sweep(
        rt,
        room,
        b"a word of every band",
        |room, v| one_word(rt, room, 1, v),
    );
}

fn every_value_of_tags(rt: HostRuntime, room: &mut [u8; ROOM]) {
    sweep(
        rt,
        room,
        b"a tag of every kind",
        |room, v| one_tag(rt, room, 1, v, 1, 40, 2),
    );
    sweep(
        rt,
        room,
        b"a tag of every COP",
        |room, v| one_tag(rt, room, 1, 0, v, 40, 2),
    );
    sweep(
        rt,
        room,
        b"a tag of every length",
        |room, v| one_tag(rt, room, 1, 0, 1, v, 2),
    );
    sweep(
        rt,
        room,
        b"a tag of every status",
        |room, v| one_tag(rt, room, 1, 0, 1, 40, v),
    );
    sweep(
        rt,
        room,
        b"a tag of every satellite",
        |room, v| one_tag(rt, room, v, 0, 1, 40, 2),
    );
}

fn every_value_asked(rt: HostRuntime, room: &mut [u8; ROOM]) {
    sweep(
        rt,
        room,
        b"the candidate of every kind",
        |room, v| one_shown(rt, room, 1, v, 1),
    );
    sweep(
        rt,
        room,
        b"the candidate of every COP",
        |room, v| one_shown(rt, room, 1, 0, v),
    );
    sweep(
        rt,
        room,
        b"the candidate of every satellite",
        |room, v| one_shown(rt, room, v, 0, 1),
    );
    sweep(
        rt,
        room,
        b"asking for every satellite",
        |room, v| asked(rt, navmessage::get_ced_and_status(room, Svn(v))),
    );
    sweep(
        rt,
        room,
        b"asking for every count up to 255",
        |room, v| one_count(rt, room, v),
    );
    sweep(
        rt,
        room,
        b"a word of every satellite",
        |room, v| one_word(rt, room, v, 0),
    );
}

// Both under the rule by time.
fn every_age(rt: HostRuntime, room: &mut [u8; ROOM]) {
    fresh(rt, room, 2, 2, 1);
    all_words(rt, room, 1, WEEK, T);
    room[CED_1 + COUNT_AT + 1] = 40;
    sweep(
        rt,
        room,
        b"asking for every age",
        |room, v| one_age(rt, room, v),
    );
    sweep(
        rt,
        room,
        b"an age after every even number of subframes up to 510",
        |room, v| one_gone(rt, room, v),
    );
}

// ---- rooms that no call makes
// Slot 0 of row 0 becomes E01's too: zeros with ages of 0, a count of 41 and, in the timing record, of 42.
fn take_slot_0(room: &mut [u8; ROOM]) {
    room[CED_0] = 1;
    room[CED_0 + COUNT_AT + 1] = 41;
    room[CED_0 + AGES_AT..CED_0 + AGES_AT + Ced::WORDS].fill(0);
    room[TIMING_0] = 1;
    room[TIMING_0 + COUNT_AT + 1] = 42;
    room[TIMING_0 + AGES_AT..TIMING_0 + AGES_AT + Timing::WORDS].fill(0);
}

// E01 in both slots of row 0, with ones and counts of 50 and 51 in slot 1: the first is the candidate, and the first answers.
fn satellite_twice(rt: HostRuntime, room: &mut [u8; ROOM]) {
    let given = [0; 69];
    begin(rt, room);
    text(rt, b"E01 twice in a row\n");
    take_slot_0(room);
    room[CED_1 + COUNT_AT + 1] = 50;
    room[TIMING_1 + COUNT_AT + 1] = 51;
    candidate(rt, room, 1, 0, 1, WEEK, T30);
    candidate(rt, room, 1, 4, 1, WEEK, T30);
    ask(rt, room, 1);
    tag(rt, room, 1, 0, 1, 40, 2, WEEK, T30, &given);
    tag(rt, room, 1, 4, 1, 40, 2, WEEK, T30, &given[0..18]);
    ask(rt, room, 1);
}

fn row_time(rt: HostRuntime, room: &mut [u8; ROOM], time: u32) {
    numbers::write32(room, HEADER + TIME_AT, time);
    heard(rt, print!(rt; "a row of {time}:"));
    every(rt, room);
}

// A row's time of 604800, which is no time, and of 604770, the last start of a week.
fn row_times(rt: HostRuntime, room: &mut [u8; ROOM]) {
    begin(rt, room);
    row_time(rt, room, 604800);
    row_time(rt, room, 604770);
}

// A record without a satellite keeps its ages when one takes it, and so fits a COP of one more than the greatest.
fn ages_of_none(rt: HostRuntime, room: &mut [u8; ROOM]) {
    fresh(rt, room, 1, 1, 0);
    text(rt, b"ages where no satellite is\n");
    room[CED_0 + AGES_AT..CED_0 + AGES_AT + Ced::WORDS].copy_from_slice(&[1, 5, 3, 4, 2]);
    room[TIMING_0 + AGES_AT..TIMING_0 + AGES_AT + Timing::WORDS].copy_from_slice(&[7, 6]);
    word(rt, room, 3, 0, 5, WEEK, T);
    candidate(rt, room, 5, 0, 5, WEEK, T30);
    candidate(rt, room, 5, 0, 6, WEEK, T30);
    candidate(rt, room, 5, 4, 7, WEEK, T30);
    candidate(rt, room, 5, 4, 8, WEEK, T30);
}

// A row that is later than the current one: the current row alone says which words are earlier, and a blank one does not.
fn other_row(rt: HostRuntime, room: &mut [u8; ROOM]) {
    fresh(rt, room, 2, 2, 1);
    word(rt, room, 3, 0, 5, WEEK, T60);
    text(rt, b"the other row is the current one\n");
    room[CURRENT_AT] = 1;
    word(rt, room, 3, 0, 5, WEEK, T);
    word(rt, room, 3, 0, 6, WEEK, 0);
    word(rt, room, 3, 0, 6, WEEK, T30);
    word(rt, room, 3, 0, 6, WEEK, T);
}

// 24 before 7 and behind 12, by the least age: in the first subframe of all, and at the other rule 7.
fn ages_of_one(rt: HostRuntime, room: &mut [u8; ROOM]) {
    fresh(rt, room, 1, 1, 1);
    word(rt, room, 3, 0, 1, 0, 0);
    text(
        rt,
        b"ages of 255 with a count of 39, of 40, the other rule, and one age of 254\n",
    );
    room[CED_0 + COUNT_AT + 1] = 39;
    room[TIMING_0 + COUNT_AT + 1] = 39;
    ask(rt, room, 1);
    room[CED_0 + COUNT_AT + 1] = 40;
    room[TIMING_0 + COUNT_AT + 1] = 40;
    ask(rt, room, 1);
    room[RULE_AT] = 0;
    ask(rt, room, 1);
    room[RULE_AT] = 1;
    room[CED_0 + AGES_AT + 4] = 254;
    room[TIMING_0 + AGES_AT + 1] = 254;
    ask(rt, room, 1);
}

// ---- the examples of STORE 18 that a program runs
// A fresh store with both timing words of E01, of zeros.
fn begin_clock(rt: HostRuntime, room: &mut [u8; ROOM], d: u8) {
    fresh(rt, room, d, 1, 0);
    word(rt, room, 24, 0, 1, 1, 0);
    word(rt, room, 40, 0, 1, 1, 0);
}

// A word 6 of E01 whose second byte has one bit: the record's data then starts with 32.
fn changed_six(rt: HostRuntime, room: &mut [u8; ROOM]) {
    let mut six = [0; 16];
    six[0] = 24;
    six[1] = 128;
    feed(rt, room, &six, 1, 1, 0, 0);
}

// 18.14: D 3, subframes A, B, A, and a tag for A.
fn looked_up(rt: HostRuntime, room: &mut [u8; ROOM]) {
    let given = [0; 18];
    text(rt, b"D 3, subframes A, B, A\n");
    begin_clock(rt, room, 3);
    word(rt, room, 0, 0, 1, 1, 30);
    changed_six(rt, room);
    candidate(rt, room, 1, 4, 15, 1, 30);
    tag(rt, room, 1, 4, 15, 40, 2, 1, 30, &given);
}

// 18.15: the same word again, and one with a bit changed.
fn same_word(rt: HostRuntime, room: &mut [u8; ROOM]) {
    let mut given = [0; 18];
    text(rt, b"the same word again, and one with a bit changed\n");
    begin_clock(rt, room, 1);
    tag(rt, room, 1, 4, 15, 40, 2, 1, 30, &given);
    ask(rt, room, 1);
    word(rt, room, 24, 0, 1, 1, 0);
    ask(rt, room, 1);
    changed_six(rt, room);
    ask(rt, room, 1);
    given[0] = 32;
    tag(rt, room, 1, 4, 15, 40, 2, 1, 30, &given);
    ask(rt, room, 1);
}

fn main(rt: HostRuntime) {
    let mut room = [7; ROOM];
    fresh_calls(rt, &mut room);
    fresh_rules(rt, &mut room);
    no_store(rt, &mut room);
    no_records(rt, &mut room);
    feed_calls(rt, &mut room);
    earlier_calls(rt, &mut room);
    tag_calls(rt, &mut room);
    tags_other(rt, &mut room);
    tags_taken(rt, &mut room);
    candidate_calls(rt, &mut room);
    ask_calls(rt, &mut room);
    unknown_ages(rt, &mut room);
    every_value(rt, &mut room);
    every_value_of_tags(rt, &mut room);
    every_value_asked(rt, &mut room);
    every_age(rt, &mut room);
    satellite_twice(rt, &mut room);
    row_times(rt, &mut room);
    ages_of_none(rt, &mut room);
    other_row(rt, &mut room);
    ages_of_one(rt, &mut room);
    looked_up(rt, &mut room);
    same_word(rt, &mut room);
}
