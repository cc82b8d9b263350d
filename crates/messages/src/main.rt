// Messages under tags (STORE 21), built and read back. Standard input is items, one behind the other; numbers are big-endian, and a field
// with no size is a byte. Each item prints a line.
//
//     1, form, sender, data's satellite, week 2, time 4, status, counter 4, room, n, data n     b and the number
//     2, form, room, n, message n                                                               r and the number
//
// Room is how many bytes are lent to the call, all a5 before it. Behind 0 stand, of a message read back, the data's satellite, the sender,
// week, time, counter and status; and last the whole lent buffer in hex. A byte that is no kind byte prints `x 13`, an input that ends inside an
// item `x 14`; after either the program stops.
#![tactic(auto)]

ghost use Rattle.std.specs.Prelude.{◌≤◌, length};

use gst::{Gst, Tow, Wn};
use message::Heading;
use refusals::Refusal;
use std::io;
use std::io::Read;
use svn::Svn;
use text::put_hex;

// the bytes of an item that builds behind its kind byte, up to its data
const BUILD_FIELDS: usize = 16;

// those of an item that reads back, up to its message
const READ_FIELDS: usize = 3;

// the most bytes of data, message or room, which one byte counts
const MOST_BYTES: usize = 255;

// what a byte of a lent buffer is before the call
const LENT: u8 = 165;

// A line on standard error where standard output could not be written.
fn heard(rt: HostRuntime, written: io::Result<()>) {
    if written.is_err() {
        let _ = eprintln!(rt; "cannot write to standard output");
    }
}

fn text(rt: HostRuntime, letters: &[u8]) {
    heard(rt, rt.write_all(letters));
}

// A space and a number.
fn number(rt: HostRuntime, n: u32) {
    text(rt, b" ");
    heard(rt, print!(rt; "{n}"));
}

fn byte(rt: HostRuntime, n: u8) {
    number(rt, n.into());
}

// A space and bytes in hex.
fn hex(rt: HostRuntime, bytes: &[u8])
    requires { length bytes.now ≤ 255 }
{
    let mut digits = [0u8; 2 * MOST_BYTES];
    let end = put_hex(&mut digits, 0, bytes);
    text(rt, b" ");
    text(rt, &digits[..end]);
}

// Whether every byte of a lent buffer is as before the call.
fn is_untouched(buffer: &[u8]) -> bool {
    buffer.iter().all(|&byte| byte == LENT)
}

// The number of a refusal. It leaves the buffer as it was; if not, it would show.
fn said_refusal(rt: HostRuntime, why: Refusal, buffer: &[u8]) {
    byte(rt, why.into());
    if !is_untouched(buffer) {
        text(rt, b" changed");
    }
}

// What building answered.
fn said_built(rt: HostRuntime, answer: Result<usize, Refusal>, buffer: &[u8])
    requires { length buffer.now ≤ 255 }
{
    match answer {
        Ok(_) => {
            byte(rt, 0);
            hex(rt, buffer);
        }
        Err(why) => said_refusal(rt, why, buffer),
    }
}

fn said_heading(rt: HostRuntime, h: Heading) {
    byte(rt, h.prnd.0);
    byte(rt, h.prna.0);
    number(rt, h.gst.wn.0.into());
    number(rt, h.gst.tow.0);
    number(rt, h.counter);
    byte(rt, h.status);
}

// What reading back answered.
fn said_read(rt: HostRuntime, answer: Result<Heading, Refusal>, buffer: &[u8])
    requires { length buffer.now ≤ 255 }
{
    match answer {
        Ok(h) => {
            byte(rt, 0);
            said_heading(rt, h);
            hex(rt, buffer);
        }
        Err(why) => said_refusal(rt, why, buffer),
    }
}

// Behind the form: sender, data's satellite, week (2), time (4), status, counter (4).
fn given_heading(fields: &[u8; BUILD_FIELDS]) -> Heading {
    Heading {
        prnd: Svn(fields[2]),
        prna: Svn(fields[1]),
        gst: Gst {
            wn: Wn(numbers::read16(fields, 3)),
            tow: Tow(numbers::read32(fields, 5)),
        },
        counter: numbers::read32(fields, 10),
        status: fields[9],
    }
}

// These bytes from standard input: whether they are all there.
fn filled(rt: HostRuntime, bytes: &mut [u8]) -> bool {
    rt.stdin().read_exact(bytes).is_ok()
}

// The data of an item that builds, and its line: whether the data is there.
fn build_line(
    rt: HostRuntime,
    fields: &[u8; BUILD_FIELDS],
    data: &mut [u8],
    buffer: &mut [u8],
) -> bool
    requires { length buffer.old ≤ 255 }
{
    if !filled(rt, data) {
        return false;
    }
    let answer = message::build(buffer, fields[0], given_heading(fields), data);
    text(rt, b"b");
    said_built(rt, answer, buffer);
    text(rt, b"\n");
    true
}

// The message of an item that reads back, and its line: whether the message is there.
fn read_line(rt: HostRuntime, form: u8, given: &mut [u8], buffer: &mut [u8]) -> bool
    requires { length buffer.old ≤ 255 }
{
    if !filled(rt, given) {
        return false;
    }
    let answer = message::read(buffer, form, given);
    text(rt, b"r");
    said_read(rt, answer, buffer);
    text(rt, b"\n");
    true
}

// An item that builds: whether it is whole.
fn build_one(rt: HostRuntime) -> bool {
    let mut fields = [0u8; BUILD_FIELDS];
    let mut data = [0u8; MOST_BYTES];
    let mut buffer = [LENT; MOST_BYTES];
    if !filled(rt, &mut fields) {
        return false;
    }
    let room = fields[14];
    let n = fields[15];
    build_line(
        rt,
        &fields,
        &mut data[..usize::from(n)],
        &mut buffer[..usize::from(room)],
    )
}

// An item that reads back: whether it is whole.
fn read_one(rt: HostRuntime) -> bool {
    let mut fields = [0u8; READ_FIELDS];
    let mut given = [0u8; MOST_BYTES];
    let mut buffer = [LENT; MOST_BYTES];
    if !filled(rt, &mut fields) {
        return false;
    }
    let room = fields[1];
    let n = fields[2];
    read_line(
        rt,
        fields[0],
        &mut given[..usize::from(n)],
        &mut buffer[..usize::from(room)],
    )
}

// Where the input ends: inside an item, or not. Behind the end a read brings nothing, and one that failed fails again.
fn ended(rt: HostRuntime, inside: bool) {
    let mut more = [0u8; 1];
    if rt.stdin().read(&mut more).is_err() {
        let _ = eprintln!(rt; "cannot read standard input");
        return;
    }
    if inside {
        text(rt, b"x 14\n");
    }
}

// Whether there may be another item behind one.
fn goes_on(rt: HostRuntime, whole: bool) -> bool {
    if !whole {
        ended(rt, true);
    }
    whole
}

// The next item of standard input: whether the program goes on. kept: the kind is a byte of the input, told apart here and nowhere else.
fn next(rt: HostRuntime) -> bool {
    let mut kind = [0u8; 1];
    if !filled(rt, &mut kind) {
        ended(rt, false);
        return false;
    }
    match kind[0] {
        1 => goes_on(rt, build_one(rt)),
        2 => goes_on(rt, read_one(rt)),
        _ => {
            text(rt, b"x 13\n");
            false
        }
    }
}

// A proved loop has to end, and nothing says that an input does: its turns are so many that no run uses them up.
fn main(rt: HostRuntime) {
    for _ in 0..u64::MAX {
        if !next(rt) {
            return;
        }
    }
}
