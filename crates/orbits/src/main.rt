// Orbits and timing parameters as numbers (STORE 20). Standard input is that of the bench (STORE 17), and so are the lines. Behind the line of
// every asking stands what reading the numbers of the same satellite and family answers, whatever asking answered: `o` or `u` and the number,
// and behind 0 a line for each word, with its whole numbers, and a line with the doubles, each as its 64 bits in hex.
#![tactic(auto)]

ghost use Rattle.std.specs.Prelude.{◌≡◌, ◌≤◌, length};
ghost use Rattle.lines.specs.Kinds.{body_length};

use fields::{Word1, Word2, Word3, Word4, Word5, Word6, Word10};
use layout::MOST_ROOM;
use lines::{Kind, LONGEST_ITEM, LONGEST_LINE};
use orbit::{Got, Orbit, Scaled, ScaledTiming, TimingNumbers};
use refusals::Refusal;
use std::io;
use std::io::Read;
use svn::Svn;

// the digits of a double's bits in hex
const DIGITS: usize = 16;

// A line on standard error where standard output could not be written.
fn heard(rt: HostRuntime, written: io::Result<()>) {
    if written.is_err() {
        let _ = eprintln!(rt; "cannot write to standard output");
    }
}

// kept: each piece is a write of its own, as before, so that what gets out where one fails stays what it was
fn text(rt: HostRuntime, letters: &[u8]) {
    heard(rt, rt.write_all(letters));
}

fn decimal(rt: HostRuntime, n: u32) {
    heard(rt, print!(rt; "{n}"));
}

// A space and a number.
fn whole(rt: HostRuntime, n: u32) {
    text(rt, b" ");
    decimal(rt, n);
}

// A space and a number that may be below 0.
fn signed(rt: HostRuntime, n: i32) {
    text(rt, b" ");
    if n < 0 {
        text(rt, b"-");
    }
    decimal(rt, n.unsigned_abs());
}

// A space and the bits of a double. A NaN has none to print; no field is one (STORE 20.4), and it would show.
fn double(rt: HostRuntime, x: f64) {
    if x.is_nan() {
        text(rt, b" NaN");
        return;
    }
    text(rt, b" ");
    let bits = x.to_bits();
    heard(rt, print!(rt; "{bits:0DIGITS$x}"));
}

// A line of doubles.
fn doubles(rt: HostRuntime, numbers: &[f64]) {
    text(rt, b"d");
    for &x in numbers {
        double(rt, x);
    }
    text(rt, b"\n");
}

// What prints as lines.
trait Lines {
    fn put(self, rt: HostRuntime);
}

// kept: one for each word, since the words differ in their fields; no `impl Display`, since `fields` and `orbit` print nothing
impl Lines for Word1 {
    fn put(self, rt: HostRuntime) {
        text(rt, b"1");
        whole(rt, self.iodnav);
        whole(rt, self.t0e);
        signed(rt, self.m0);
        whole(rt, self.e);
        whole(rt, self.root_a);
        text(rt, b"\n");
    }
}

impl Lines for Word2 {
    fn put(self, rt: HostRuntime) {
        text(rt, b"2");
        whole(rt, self.iodnav);
        signed(rt, self.omega0);
        signed(rt, self.i0);
        signed(rt, self.omega);
        signed(rt, self.i_dot);
        text(rt, b"\n");
    }
}

impl Lines for Word3 {
    fn put(self, rt: HostRuntime) {
        text(rt, b"3");
        whole(rt, self.iodnav);
        signed(rt, self.omega_dot);
        signed(rt, self.delta_n);
        signed(rt, self.cuc);
        signed(rt, self.cus);
        signed(rt, self.crc);
        signed(rt, self.crs);
        whole(rt, self.sisa);
        text(rt, b"\n");
    }
}

impl Lines for Word4 {
    fn put(self, rt: HostRuntime) {
        text(rt, b"4");
        whole(rt, self.iodnav);
        whole(rt, self.svid);
        signed(rt, self.cic);
        signed(rt, self.cis);
        whole(rt, self.t0c);
        signed(rt, self.af0);
        signed(rt, self.af1);
        signed(rt, self.af2);
        text(rt, b"\n");
    }
}

impl Lines for Word5 {
    fn put(self, rt: HostRuntime) {
        text(rt, b"5");
        whole(rt, self.ai0);
        signed(rt, self.ai1);
        signed(rt, self.ai2);
        whole(rt, self.region1);
        whole(rt, self.region2);
        whole(rt, self.region3);
        whole(rt, self.region4);
        whole(rt, self.region5);
        signed(rt, self.bgd_e1_e5a);
        signed(rt, self.bgd_e1_e5b);
        whole(rt, self.e5b_health);
        whole(rt, self.e1b_health);
        whole(rt, self.e5b_validity);
        whole(rt, self.e1b_validity);
        text(rt, b"\n");
    }
}

impl Lines for Word6 {
    fn put(self, rt: HostRuntime) {
        text(rt, b"6");
        signed(rt, self.a0);
        signed(rt, self.a1);
        signed(rt, self.dt_ls);
        whole(rt, self.t0t);
        whole(rt, self.wn0t);
        whole(rt, self.wn_lsf);
        whole(rt, self.dn);
        signed(rt, self.dt_lsf);
        text(rt, b"\n");
    }
}

impl Lines for Word10 {
    fn put(self, rt: HostRuntime) {
        text(rt, b"10");
        signed(rt, self.a0g);
        signed(rt, self.a1g);
        whole(rt, self.t0g);
        whole(rt, self.wn0g);
        text(rt, b"\n");
    }
}

impl Lines for Scaled {
    fn put(self, rt: HostRuntime) {
        doubles(
            rt,
            &[
                self.m0,
                self.e,
                self.root_a,
                self.omega0,
                self.i0,
                self.omega,
                self.i_dot,
                self.omega_dot,
                self.delta_n,
                self.cuc,
                self.cus,
                self.crc,
                self.crs,
                self.cic,
                self.cis,
                self.af0,
                self.af1,
                self.af2,
                self.ai0,
                self.ai1,
                self.ai2,
                self.bgd_e1_e5a,
                self.bgd_e1_e5b,
            ],
        );
    }
}

impl Lines for ScaledTiming {
    fn put(self, rt: HostRuntime) {
        doubles(rt, &[self.a0, self.a1, self.a0g, self.a1g]);
    }
}

impl Lines for Orbit {
    fn put(self, rt: HostRuntime) {
        self.word1.put(rt);
        self.word2.put(rt);
        self.word3.put(rt);
        self.word4.put(rt);
        self.word5.put(rt);
        self.scaled.put(rt);
    }
}

impl Lines for TimingNumbers {
    fn put(self, rt: HostRuntime) {
        self.word6.put(rt);
        self.word10.put(rt);
        self.scaled.put(rt);
    }
}

// The number of a line, and its end.
fn number(rt: HostRuntime, n: u8) {
    whole(rt, n.into());
    text(rt, b"\n");
}

// What reading numbers answered, behind its letter.
fn said<T: Lines>(rt: HostRuntime, letter: &[u8], got: Result<Got<T>, Refusal>) {
    text(rt, letter);
    match got {
        Ok(read) => {
            number(rt, 0);
            read.numbers.put(rt);
        }
        Err(why) => number(rt, why.into()),
    }
}

// What stands behind the line of an item of this kind.
fn behind(rt: HostRuntime, room: &[u8], kind: Kind, svn: Svn) {
    match kind {
        Kind::Ced => said(rt, b"o", orbit::get_orbit(room, svn)),
        Kind::Timing => said(rt, b"u", orbit::get_timing_numbers(room, svn)),
        _ => {}
    }
}

// The line of a whole item.
fn line(rt: HostRuntime, room: &mut [u8], kind: Kind, body: &[u8])
    requires { length body.now ≡ body_length kind }
{
    let mut out = [0u8; LONGEST_LINE];
    let end = benchlines::answer(room, kind, body, &mut out, 0);
    text(rt, &out[..end]);
}

// The body of an item from standard input, and its line.
fn one(rt: HostRuntime, room: &mut [u8], kind: Kind, bytes: &mut [u8]) -> io::Result<()>
    requires { body_length kind ≤ length bytes.old }
{
    let n = kind.body();
    rt.stdin().read_exact(&mut bytes[..n])?;
    line(rt, room, kind, &bytes[..n]);
    Ok(())
}

// Where the input ends: inside an item, or not. Behind the end a read brings nothing, and one that failed fails again.
fn ended(rt: HostRuntime, inside: bool) {
    let mut more = [0u8; 1];
    if rt.stdin().read(&mut more).is_err() {
        let _ = eprintln!(rt; "cannot read standard input");
        return;
    }
    if inside {
        let number = u8::from(Refusal::CutShort);
        heard(rt, println!(rt; "x {number}"));
    }
}

// The next item of standard input: whether the program goes on.
fn next(rt: HostRuntime, room: &mut [u8]) -> bool {
    let mut head = [0u8; 1];
    let mut body = [0u8; LONGEST_ITEM];
    if rt.stdin().read_exact(&mut head).is_err() {
        ended(rt, false);
        return false;
    }
    let kind = Kind::from(head[0]);
    if one(rt, room, kind, &mut body).is_err() {
        ended(rt, true);
        return false;
    }
    behind(rt, room, kind, Svn(body[0]));
    !matches!(kind, Kind::Unknown)
}

// A proved loop has to end, and nothing says that an input does: its turns are so many that no run uses them up.
fn main(rt: HostRuntime) {
    let mut room = [0u8; MOST_ROOM];
    for _ in 0..u64::MAX {
        if !next(rt, &mut room) {
            return;
        }
    }
}
