// Time calls and conversions of a satellite's number, 13 bytes each from standard input, and an answer a line: the form in which
// the oracle takes them (tools/oracle, `times-bytes`), so that the two can be compared on any number of calls.
#![tactic(auto)]

ghost use Rattle.std.specs.Prelude.{◌+◌, ◌≤◌, length};

use gst::Gst;
use refusals::Refusal;
use std::fmt::Display;
use std::io;
use std::io::Read;
use svn::Svn;

// The bytes of a call: which, week 2, time 4, and a second time or a number in the last four.
const CALL: usize = 13;

// A line on standard error where standard output could not be written.
fn heard(rt: HostRuntime, written: io::Result<()>) {
    if written.is_err() {
        let _ = eprintln!(rt; "cannot write to standard output");
    }
}

fn text(rt: HostRuntime, letters: &[u8]) {
    heard(rt, rt.write_all(letters));
}

// kept: each piece is a write of its own, as before, so that what gets out where one fails stays what it was
fn number<N: Display + Drop>(rt: HostRuntime, n: N) {
    heard(rt, print!(rt; "{n}"));
}

// kept: the sign is a piece of its own, as the number is
fn signed(rt: HostRuntime, n: i32) {
    if n < 0 {
        text(rt, b"-");
    }
    number(rt, n.unsigned_abs());
}

fn refused(rt: HostRuntime, why: Refusal) {
    let number = u8::from(why);
    heard(rt, println!(rt; "{number}"));
}

// kept a function: a Display of Gst would stand in its crate, and each program writes a time in a form of its own
fn new_time(rt: HostRuntime, answer: Result<Gst, Refusal>) {
    match answer {
        Ok(gst) => {
            text(rt, b"0 ");
            number(rt, gst.wn.0);
            text(rt, b" ");
            number(rt, gst.tow.0);
            text(rt, b"\n");
        }
        Err(why) => refused(rt, why),
    }
}

fn is_start(rt: HostRuntime, answer: Result<bool, Refusal>) {
    match answer {
        Ok(true) => text(rt, b"0 1\n"),
        Ok(false) => text(rt, b"0 0\n"),
        Err(why) => refused(rt, why),
    }
}

fn apart(rt: HostRuntime, answer: Result<i32, Refusal>) {
    match answer {
        Ok(subframes) => {
            text(rt, b"0 ");
            signed(rt, subframes);
            text(rt, b"\n");
        }
        Err(why) => refused(rt, why),
    }
}

fn satellite(rt: HostRuntime, answer: Result<Svn, Refusal>) {
    match answer {
        Ok(svn) => {
            text(rt, b"0 ");
            text(rt, &svn.letters());
            text(rt, b"\n");
        }
        Err(why) => refused(rt, why),
    }
}

// A number of two bytes is a satellite's only if the first is 0.
fn one_byte(high: u8, low: u8) -> Result<Svn, Refusal> {
    if high != 0 {
        return Err(Refusal::NoSatellite);
    }
    Svn::try_from(low)
}

fn time_at(call: &[u8], at: usize) -> Gst
    requires { at + 6 ≤ length call.now }
{
    Gst::new(numbers::read16(call, at), numbers::read32(call, at + 2))
}

fn answer(rt: HostRuntime, call: &[u8])
    requires { 13 ≤ length call.now }
{
    let first = time_at(call, 1);
    let n = signs::of_bits(numbers::read32(call, 9));
    match call[0] {
        1 => new_time(rt, first.add_seconds(n)),
        2 => new_time(rt, first.add_subframes(n)),
        3 => apart(rt, first.subframes_difference(time_at(call, 7))),
        4 => new_time(rt, first.gst_subframe()),
        5 => is_start(rt, first.is_subframe()),
        _ => satellite(rt, one_byte(call[1], call[2])),
    }
}

// These bytes from standard input: whether they are all there.
fn filled(rt: HostRuntime, bytes: &mut [u8]) -> bool {
    rt.stdin().read_exact(bytes).is_ok()
}

fn one_call(rt: HostRuntime) -> bool {
    let mut call = [0u8; CALL];
    if !filled(rt, &mut call) {
        // behind the end of the input a read brings nothing, and one that failed fails again
        if rt.stdin().read(&mut call).is_err() {
            let _ = eprintln!(rt; "cannot read standard input");
        }
        return false;
    }
    answer(rt, &call);
    true
}

// The calls until the input ends, or 2^64 - 1 of them.
fn main(rt: HostRuntime) {
    for _ in 0..u64::MAX {
        if !one_call(rt) {
            return;
        }
    }
}
