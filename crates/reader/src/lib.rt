// The bench program's standard input and output (STORE 17): what is read goes to `intake` part by part, and its lines are written. The
// programs `bench`, `trace` and `replay` are `run`.
#![tactic(auto)]

ghost use Rattle.std.specs.Prelude.{◌≡◌, replicate, option_copied};
ghost use Rattle.intake.specs.Input.{stage_at_end, bench_room};
ghost use Rattle.intake.specs.Reader.{reader_bytes, stage_in, reader_of};
ghost use Rattle.reader.specs.Turns.{GoesOn, TakenBy, ReadBy, Turned, most_turns};

use intake::{READER, TRACE};
use layout::MOST_ROOM;
use lines::LONGEST_LINE;
use std::io::Read;

// how many bytes are read at once, and room for the lines of many items
const READ: usize = 4096;

const PRINTED: usize = 16 * (LONGEST_LINE + TRACE);

// Whether the program goes on, and if not why: the input has ended for the reader, by a byte that is no kind byte; standard input has ended;
// a read failed; a write failed.
// kept: no Result, since each case is promised by itself (specs/Turns), and two of the ends are no failures
#[derive(Drop)]
enum Course {
    More,
    Over,
    Finished,
    Unread,
    Unwritten,
}

// Bytes for standard output: whether they could be written. Where they could not, a line on standard error says so.
fn print(rt: HostRuntime, bytes: &[u8]) -> bool {
    if rt.write_all(bytes).is_ok() {
        return true;
    }
    let _ = eprintln!(rt; "cannot write to standard output");
    false
}

// What was read: offered until all of it is taken or the input has ended.
// kept: a `while`, since each turn goes on by as many bytes as were taken
// kept: state and room are two parameters, here and below, as `intake` is lent them and `TakenBy` speaks of them
fn take(
    rt: HostRuntime,
    reader: &mut [u8; READER],
    room: &mut [u8],
    bytes: &[u8],
    traced: bool,
) -> Course
    requires { GoesOn reader.old }
    ensures { TakenBy result reader.old room.old bytes.now reader.new room.new }
{
    let mut out = [0u8; PRINTED];
    let mut at = 0;
    while at < bytes.len() {
        let heard = intake::part(reader, room, &bytes[at..], &mut out, traced);
        let said = heard.said;
        if !print(rt, &out[..said]) {
            return Course::Unwritten;
        }
        let over = heard.number != 0;
        if over {
            return Course::Over;
        }
        at += heard.took;
    }
    Course::More
}

// The end of standard input: said to the reader, with room for its line.
fn finish(rt: HostRuntime, reader: &mut [u8; READER], room: &[u8], traced: bool)
    ensures { reader.new ≡ reader_of (stage_at_end (stage_in reader.old)) }
{
    let mut out = [0u8; PRINTED];
    let closed = intake::end(reader, room, &mut out, traced);
    let said = closed.said;
    print(rt, &out[..said]);
}

// What a read of standard input brought, or none where it failed. No bytes are the end of the input, and no part of it; a read that
// failed stops the program with a line on standard error.
fn hear(
    rt: HostRuntime,
    reader: &mut [u8; READER],
    room: &mut [u8],
    read: Option<&[u8]>,
    traced: bool,
) -> Course
    requires { GoesOn reader.old }
    ensures { ReadBy result (option_copied read.entry) reader.old room.old reader.new room.new }
{
    let Some(bytes) = read else {
        let _ = eprintln!(rt; "cannot read standard input");
        return Course::Unread;
    };
    if bytes.is_empty() {
        finish(rt, reader, room, traced);
        return Course::Finished;
    }
    take(rt, reader, room, bytes, traced)
}

// One read of standard input.
fn turn(rt: HostRuntime, reader: &mut [u8; READER], room: &mut [u8], traced: bool) -> Course
    requires { GoesOn reader.old }
    ensures { Turned result 1 reader.old room.old reader.new room.new }
{
    let mut bytes = [0u8; READ];
    match rt.stdin().read(&mut bytes) {
        Ok(n) => hear(rt, reader, room, Some(&bytes[..n]), traced),
        Err(_) => hear(rt, reader, room, None, traced),
    }
}

// The program on the state and the room that it starts with. A proved loop has to end, and nothing says that an input does: it has
// as many turns as no run uses up.
fn run_on(rt: HostRuntime, reader: &mut [u8; READER], room: &mut [u8], traced: bool) -> Course
    requires { (reader.old ≡ replicate reader_bytes 0) × (room.old ≡ replicate bench_room 0) }
    ensures { Turned result most_turns reader.old room.old reader.new room.new }
{
    for _ in 0..u64::MAX {
        let came = turn(rt, reader, room, traced);
        let Course::More = came else {
            return came;
        };
    }
    Course::More
}

// The program: standard input to standard output, on a room for the largest store that is zero at the start.
// It ends, and hands nothing back: what it is to write is the promise of `intake`, and why it stops that of `run_on`.
pub fn run(rt: HostRuntime, traced: bool)
    ensures { result ≡ tt }
{
    let mut reader = [0u8; READER];
    let mut room = [0u8; MOST_ROOM];
    run_on(rt, &mut reader, &mut room, traced);
}
