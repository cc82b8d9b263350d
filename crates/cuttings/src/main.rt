// Inputs of the bench in one piece and in parts (STORE 17.8). Standard input has one input behind the other, each behind its length in two
// bytes. Of each the lines in one piece are printed, and then that it gives the same lines and the same room however it comes: cut into
// two at every place, as single bytes, and with outputs that are too short again and again, each time with empty parts in between.
// Two bytes 255 in place of a length begin a trial: a reader's state, how many steps follow in a byte, and the steps. A step is a part or an
// end, with an output of so many bytes; its number, what was taken, the Adler-32 of the state that it leaves, and its lines are printed.
#![tactic(auto)]

ghost use Rattle.std.specs.Prelude.{◌+◌, ◌≤◌, length};

use intake::READER;
use layout::MOST_ROOM;
use lines::LONGEST_LINE;
use std::io::Read;

// the longest input, and the longest lines of one
const MOST_INPUT: usize = 4096;

const MOST_SAID: usize = 32768;

// what stands for a length where a trial begins, and the longest part and the longest output of a step
const TRIAL: usize = 65535;

const MOST_STEP: usize = 256;

// an output that is long, and one that is full after an item or two
const LONG: usize = MOST_SAID;

const SHORT: usize = LONGEST_LINE + 4;

// What a part came to: how many bytes of it were taken, and where its lines end.
#[derive(Clone, Copy)]
struct Went {
    took: usize,
    at: usize,
}

// What a whole input came to: where its lines end, and the Adler-32 of the room.
#[derive(Clone, Copy)]
struct Came {
    at: usize,
    sum: u32,
}

// How an input is cut: its first part, the other parts, and the output that each of them has.
#[derive(Clone, Copy)]
struct Way {
    first: usize,
    step: usize,
    most: usize,
}

fn text(rt: HostRuntime, letters: &[u8]) {
    if rt.write_all(letters).is_err() {
        let _ = eprintln!(rt; "cannot write to standard output");
    }
}

// These bytes from standard input: whether they are all there.
fn filled(rt: HostRuntime, bytes: &mut [u8]) -> bool {
    rt.stdin().read_exact(bytes).is_ok()
}

// `step` bytes further, but not past the end.
fn further(at: usize, step: usize, end: usize) -> usize
    requires { at ≤ end }
    ensures { (at ≤ result) × (result ≤ end) }
{
    if end - at < step {
        return end;
    }
    at + step
}

// A part offered once, with an output of at most `most` bytes behind the lines that are there.
// kept: state and room are two parameters, here and below, as `intake` is lent them
fn offer(
    reader: &mut [u8; READER],
    room: &mut [u8],
    bytes: &[u8],
    got: &mut [u8],
    at: usize,
    most: usize,
) -> Went
    requires { at ≤ length got.old }
    ensures { (result.took ≤ length bytes.now) × (result.at ≤ length got.new) }
{
    let e = further(at, most, got.len());
    let heard = intake::part(reader, room, bytes, &mut got[at..e], false);
    Went {
        took: heard.took,
        at: at + heard.said,
    }
}

// A part offered twice, first with an output of no bytes, which takes what makes no item whole.
fn offer_twice(
    reader: &mut [u8; READER],
    room: &mut [u8],
    bytes: &[u8],
    got: &mut [u8],
    at: usize,
    most: usize,
) -> Went
    requires { at ≤ length got.old }
    ensures { (result.took ≤ length bytes.now) × (result.at ≤ length got.new) }
{
    let none = offer(reader, room, bytes, got, at, 0);
    let from = none.took;
    let some = offer(reader, room, &bytes[from..], got, none.at, most);
    Went {
        took: from + some.took,
        at: some.at,
    }
}

// A part offered until it is taken.
fn feed(
    reader: &mut [u8; READER],
    room: &mut [u8],
    bytes: &[u8],
    got: &mut [u8],
    start: usize,
    most: usize,
) -> usize
    requires { start ≤ length got.old }
    ensures { result ≤ length got.new }
{
    let mut at = start;
    let mut from = 0;
    for _ in 0..bytes.len() {
        if from >= bytes.len() {
            return at;
        }
        let went = offer_twice(reader, room, &bytes[from..], got, at, most);
        from += went.took;
        at = went.at;
    }
    at
}

// All parts of an input, each with an empty one behind it.
fn feed_all(
    reader: &mut [u8; READER],
    room: &mut [u8],
    input: &[u8],
    way: Way,
    got: &mut [u8],
) -> usize
    ensures { result ≤ length got.new }
{
    let mut at = 0;
    let mut from = 0;
    let mut to = further(0, way.first, input.len());
    for _ in 0..=input.len() {
        if from >= input.len() {
            return at;
        }
        at = feed(reader, room, &input[from..to], got, at, way.most);
        let empty = offer(reader, room, &input[to..to], got, at, way.most);
        at = empty.at;
        from = to;
        to = further(to, way.step, input.len());
    }
    feed(reader, room, &input[from..], got, at, way.most)
}

// The end of an input, said first with an output of no bytes.
fn close(reader: &mut [u8; READER], room: &[u8], got: &mut [u8], at: usize) -> usize
    requires { at ≤ length got.old }
    ensures { result ≤ length got.new }
{
    let none = intake::end(reader, room, &mut got[at..at], false);
    let next = at + none.said;
    let some = intake::end(reader, room, &mut got[next..], false);
    next + some.said
}

// An input read in one way, on a reader and a room that are new.
fn read_in(input: &[u8], way: Way, got: &mut [u8]) -> Came
    ensures { result.at ≤ length got.new }
{
    let mut reader = [0u8; READER];
    let mut room = [0u8; MOST_ROOM];
    let at = feed_all(&mut reader, &mut room, input, way, got);
    let end = close(&mut reader, &room, got, at);
    Came {
        at: end,
        sum: adler::adler32(&room),
    }
}

// Whether an input read in one way gives these lines and this sum.
fn same(input: &[u8], way: Way, lines: &[u8], sum: u32) -> bool {
    let mut got = [0u8; MOST_SAID];
    let came = read_in(input, way, &mut got);
    let at = came.at;
    came.sum == sum && &got[..at] == lines
}

// How many of the cuttings into two give the same.
fn cuttings(input: &[u8], lines: &[u8], sum: u32) -> usize {
    let mut count = 0;
    for first in 0..=input.len() {
        let way = Way {
            first,
            step: MOST_INPUT,
            most: LONG,
        };
        count += usize::from(same(input, way, lines, sum));
    }
    count
}

fn said(rt: HostRuntime, what: &[u8], holds: bool) {
    text(rt, what);
    if holds {
        text(rt, b": the same lines and room\n");
        return;
    }
    text(rt, b": DIFFERS\n");
}

// One input: its lines in one piece, and what came of it in parts.
fn one(rt: HostRuntime, input: &[u8]) {
    let mut got = [0u8; MOST_SAID];
    let whole = Way {
        first: MOST_INPUT,
        step: MOST_INPUT,
        most: LONG,
    };
    let came = read_in(input, whole, &mut got);
    let at = came.at;
    let sum = came.sum;
    text(rt, &got[..at]);
    let alike = cuttings(input, &got[..at], sum);
    let _ = print!(rt; "{alike}");
    text(rt, b" of ");
    let all = input.len() as u64 + 1;
    let _ = print!(rt; "{all}");
    text(rt, b" cuttings into two: the same lines and room\n");
    let single = Way {
        first: 1,
        step: 1,
        most: LONG,
    };
    said(rt, b"single bytes", same(input, single, &got[..at], sum));
    let short = Way {
        first: MOST_INPUT,
        step: MOST_INPUT,
        most: SHORT,
    };
    said(rt, b"short outputs", same(input, short, &got[..at], sum));
}

// An input of so many bytes from standard input: whether they are there.
fn one_of(rt: HostRuntime, bytes: &mut [u8], n: usize) -> bool
    requires { n ≤ length bytes.old }
{
    if !filled(rt, &mut bytes[..n]) {
        let _ = eprintln!(rt; "cannot read standard input");
        return false;
    }
    one(rt, &bytes[..n]);
    true
}

fn number(rt: HostRuntime, value: u64) {
    text(rt, b" ");
    let _ = print!(rt; "{value}");
}

// A part: its number, how many bytes were taken, the state behind it and its lines.
fn try_part(
    rt: HostRuntime,
    reader: &mut [u8; READER],
    room: &mut [u8],
    bytes: &[u8],
    out: &mut [u8],
) {
    let heard = intake::part(reader, room, bytes, out, false);
    let said = heard.said;
    text(rt, b"part");
    number(rt, u64::from(heard.number));
    number(rt, heard.took as u64);
    number(rt, u64::from(adler::adler32(reader)));
    text(rt, b"\n");
    text(rt, &out[..said]);
}

fn taken(rt: HostRuntime, holds: bool) {
    if holds {
        text(rt, b" taken");
        return;
    }
    text(rt, b" not taken");
}

// An end: its number, whether it was taken, the state behind it and its line.
fn try_end(rt: HostRuntime, reader: &mut [u8; READER], room: &[u8], out: &mut [u8]) {
    let closed = intake::end(reader, room, out, false);
    let said = closed.said;
    text(rt, b"end");
    number(rt, u64::from(closed.number));
    taken(rt, closed.taken);
    number(rt, u64::from(adler::adler32(reader)));
    text(rt, b"\n");
    text(rt, &out[..said]);
}

// One step: an end or a part, with an output of so many bytes.
fn step(
    rt: HostRuntime,
    reader: &mut [u8; READER],
    room: &mut [u8],
    ends: u8,
    most: u8,
    bytes: &[u8],
) {
    let mut out = [0u8; MOST_STEP];
    let limit = usize::from(most);
    if ends != 0 {
        try_end(rt, reader, room, &mut out[..limit]);
        return;
    }
    try_part(rt, reader, room, bytes, &mut out[..limit]);
}

// The next step of standard input: whether there is one.
fn next_step(rt: HostRuntime, reader: &mut [u8; READER], room: &mut [u8]) -> bool {
    let mut head = [0u8; 3];
    let mut bytes = [0u8; MOST_STEP];
    if !filled(rt, &mut head) {
        return false;
    }
    let n = usize::from(head[2]);
    if !filled(rt, &mut bytes[..n]) {
        return false;
    }
    step(rt, reader, room, head[0], head[1], &bytes[..n]);
    true
}

// So many steps: whether they are there.
fn steps(rt: HostRuntime, reader: &mut [u8; READER], room: &mut [u8], count: u8) -> bool {
    for _ in 0..count {
        if !next_step(rt, reader, room) {
            let _ = eprintln!(rt; "cannot read standard input");
            return false;
        }
    }
    true
}

// A trial: whether it is there.
fn trial(rt: HostRuntime) -> bool {
    let mut reader = [0u8; READER];
    let mut room = [0u8; MOST_ROOM];
    let mut count = [0u8; 1];
    if !filled(rt, &mut reader) {
        return false;
    }
    if !filled(rt, &mut count) {
        return false;
    }
    steps(rt, &mut reader, &mut room, count[0])
}

// The next input or trial of standard input: whether there is one.
fn next(rt: HostRuntime) -> bool {
    let mut head = [0u8; 2];
    let mut bytes = [0u8; MOST_INPUT];
    if !filled(rt, &mut head) {
        return false;
    }
    let n = usize::from(u16::from_be_bytes(head));
    if n == TRIAL {
        return trial(rt);
    }
    if n > MOST_INPUT {
        let _ = eprintln!(rt; "an input is too long");
        return false;
    }
    one_of(rt, &mut bytes, n)
}

fn main(rt: HostRuntime) {
    for _ in 0..1000 {
        if !next(rt) {
            return;
        }
    }
}
