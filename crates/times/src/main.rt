// The worked examples of the Rust's comments (gst.rs, svn.rs), the time examples of STORE 18 and the edges of i32, a line each.
// A line says what is asked, and then the answer: its value, or the number of the refusal.
#![tactic(auto)]

use gst::{Chained, Gst};
use refusals::Refusal;
use std::fmt::Display;
use std::io;
use svn::Svn;

// A line on standard error where standard output could not be written.
fn heard(rt: HostRuntime, written: io::Result<()>) {
    if written.is_err() {
        let _ = eprintln!(rt; "cannot write to standard output");
    }
}

fn text(rt: HostRuntime, letters: &[u8]) {
    heard(rt, rt.write_all(letters));
}

// kept: each piece is a write of its own, as before, so that what gets out where one fails stays what it was
fn number<N: Display + Drop>(rt: HostRuntime, n: N) {
    heard(rt, print!(rt; "{n}"));
}

// kept a function: a Display of Gst would stand in its crate, and each program writes a time in a form of its own
fn time(rt: HostRuntime, gst: Gst) {
    text(rt, b"(");
    number(rt, gst.wn.0);
    text(rt, b", ");
    number(rt, gst.tow.0);
    text(rt, b")");
}

fn change(rt: HostRuntime, n: i32) {
    if n < 0 {
        text(rt, b" - ");
    } else {
        text(rt, b" + ");
    }
    number(rt, n.unsigned_abs());
}

// kept: the sign is a piece of its own, as in `change`
fn signed(rt: HostRuntime, n: i32) {
    if n < 0 {
        text(rt, b"-");
    }
    number(rt, n.unsigned_abs());
}

fn refused(rt: HostRuntime, why: Refusal) {
    let number = u8::from(why);
    heard(rt, println!(rt; ": {number}"));
}

fn new_time(rt: HostRuntime, answer: Result<Gst, Refusal>) {
    match answer {
        Ok(gst) => {
            text(rt, b" = ");
            time(rt, gst);
        }
        Err(why) => {
            let number = u8::from(why);
            heard(rt, print!(rt; ": {number}"));
        }
    }
    text(rt, b"\n");
}

fn seconds(rt: HostRuntime, from: Gst, n: i32) {
    time(rt, from);
    change(rt, n);
    text(rt, b" s");
    new_time(rt, from.add_seconds(n));
}

fn subframes(rt: HostRuntime, from: Gst, n: i32) {
    time(rt, from);
    change(rt, n);
    text(rt, b" subframes");
    new_time(rt, from.add_subframes(n));
}

fn subframe(rt: HostRuntime, of: Gst) {
    text(rt, b"subframe of ");
    time(rt, of);
    new_time(rt, of.gst_subframe());
}

fn start(rt: HostRuntime, gst: Gst) {
    text(rt, b"start ");
    time(rt, gst);
    match gst.is_subframe() {
        Ok(true) => text(rt, b" yes\n"),
        Ok(false) => text(rt, b" no\n"),
        Err(why) => refused(rt, why),
    }
}

fn difference(rt: HostRuntime, gst: Gst, other: Gst) {
    time(rt, gst);
    text(rt, b" against ");
    time(rt, other);
    match gst.subframes_difference(other) {
        Ok(n) => {
            text(rt, b": ");
            signed(rt, n);
            text(rt, b" subframes\n");
        }
        Err(why) => refused(rt, why),
    }
}

fn satellite(rt: HostRuntime, n: u8) {
    text(rt, b"satellite ");
    number(rt, n);
    match Svn::try_from(n) {
        Ok(svn) => {
            text(rt, b": ");
            letters(rt, svn);
        }
        Err(why) => refused(rt, why),
    }
}

fn letters(rt: HostRuntime, svn: Svn) {
    let letters = svn.letters();
    text(rt, &letters);
    text(rt, b"\n");
}

// gst.rs and svn.rs, in the order of their comments.
fn rust(rt: HostRuntime) {
    let gst = Gst::new(1177, 175767);
    time(rt, gst);
    text(rt, b"\n");
    seconds(rt, gst, 2);
    text(rt, b"(1177, 175767) + 2 s - 2 s");
    new_time(rt, gst.add_seconds(2).add_seconds(-2));
    subframes(rt, gst, 3);
    text(rt, b"(1177, 175767) + 3 subframes - 3 subframes");
    new_time(rt, gst.add_subframes(3).add_subframes(-3));
    subframe(rt, gst);
    start(rt, gst);
    start(rt, Gst::new(1177, 175740));
    satellite(rt, 24);
}

// 18.1 to 18.5.
fn paper(rt: HostRuntime) {
    seconds(rt, Gst::new(1177, 175767), 2);
    text(rt, b"subframe of (1177, 175767) + 2 s");
    new_time(rt, Gst::new(1177, 175767).add_seconds(2).gst_subframe());
    seconds(rt, Gst::new(0, 0), -30);
    seconds(rt, Gst::new(1, 0), -30);
    seconds(rt, Gst::new(65535, 604799), 1);
    seconds(rt, Gst::new(5, 0), -604799);
    seconds(rt, Gst::new(5, 0), -604800);
    difference(rt, Gst::new(1, 0), Gst::new(0, 604799));
}

// The ends of i32, of the weeks and of the times of week.
fn edges(rt: HostRuntime) {
    seconds(rt, Gst::new(0, 0), i32::MAX);
    seconds(rt, Gst::new(61985, 161152), i32::MAX);
    seconds(rt, Gst::new(61985, 161153), i32::MAX);
    seconds(rt, Gst::new(65535, 604799), i32::MIN);
    seconds(rt, Gst::new(65535, 604800), i32::MIN);
    subframes(rt, Gst::new(0, 7), 71582788);
    subframes(rt, Gst::new(0, 7), 71582789);
    subframes(rt, Gst::new(65535, 0), -20159);
    subframes(rt, Gst::new(65535, 0), -20160);
    subframes(rt, Gst::new(65535, 0), i32::MIN);
    subframes(rt, Gst::new(0, 604800), i32::MAX);
    subframe(rt, Gst::new(65535, 604799));
    subframe(rt, Gst::new(0, 604800));
    start(rt, Gst::new(0, 604770));
    start(rt, Gst::new(0, 604800));
}

// The quotient of the times of week is rounded toward zero.
fn differences(rt: HostRuntime) {
    difference(rt, Gst::new(65535, 604799), Gst::new(0, 0));
    difference(rt, Gst::new(0, 0), Gst::new(65535, 604799));
    difference(rt, Gst::new(7, 0), Gst::new(7, 59));
    difference(rt, Gst::new(7, 59), Gst::new(7, 0));
    difference(rt, Gst::new(0, 604799), Gst::new(1, 0));
    difference(rt, Gst::new(0, 604800), Gst::new(0, 0));
    difference(rt, Gst::new(0, 0), Gst::new(0, 604800));
}

// A refusal goes through the chain, and what is no satellite is written by the same rule.
fn rest(rt: HostRuntime) {
    text(rt, b"subframe of (0, 604800), - 2147483648 s + 1 subframes");
    new_time(
        rt,
        Gst::new(0, 604800)
            .gst_subframe()
            .add_seconds(i32::MIN)
            .add_subframes(1),
    );
    text(rt, b"(0, 0) - 30 s + 30 s");
    new_time(rt, Gst::new(0, 0).add_seconds(-30).add_seconds(30));
    satellite(rt, 0);
    satellite(rt, 1);
    satellite(rt, 36);
    satellite(rt, 37);
    satellite(rt, 255);
    text(rt, b"0 is written ");
    letters(rt, Svn(0));
    text(rt, b"255 is written ");
    letters(rt, Svn(255));
}

fn main(rt: HostRuntime) {
    rust(rt);
    paper(rt);
    edges(rt);
    differences(rt);
    rest(rt);
}
