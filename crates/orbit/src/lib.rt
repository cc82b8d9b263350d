// The orbit, and the timing parameters, as numbers (STORE 20): what asking hands out, each field as a whole number, and those that are
// scaled by a power of two as doubles too. The data is looked into only where asking hands it out.
#![tactic(auto)]

ghost use Rattle.std.specs.Prelude.{◌≡◌, eqb};
ghost use Rattle.paper.specs.Record.{CED, Timing as TIMING, family_if};
ghost use Rattle.paper.specs.Orbit.{one_issue, svid_of, numbers_answer, numbers_data};
ghost use Rattle.orbit.specs.Numbers.{scaled_of, scaled_timing_of, orbit_from, timing_from};
ghost use Rattle.orbit.specs.Got.{placed_answer, place_placed, numbers_place, with_numbers, got_answer, got_orbit, got_timing_answer, got_timing};

use ask::Answering;
use fields::{Word1, Word2, Word3, Word4, Word5, Word6, Word10};
use gst::Gst;
use refusals::Refusal;
use svn::Svn;

// The scaled fields of an orbit: each whole number times 2^-k, exactly. Angles are in semicircles, their harmonic corrections in radians.
// kept: C reads this struct and the next by their fields (include/dawnstook.h), which differ, so neither is an instance of the other.
#[repr(C)]
#[derive(Clone, Copy)]
pub struct Scaled {
    pub m0: f64,
    pub e: f64,
    pub root_a: f64,
    pub omega0: f64,
    pub i0: f64,
    pub omega: f64,
    pub i_dot: f64,
    pub omega_dot: f64,
    pub delta_n: f64,
    pub cuc: f64,
    pub cus: f64,
    pub crc: f64,
    pub crs: f64,
    pub cic: f64,
    pub cis: f64,
    pub af0: f64,
    pub af1: f64,
    pub af2: f64,
    pub ai0: f64,
    pub ai1: f64,
    pub ai2: f64,
    pub bgd_e1_e5a: f64,
    pub bgd_e1_e5b: f64,
}

// The k of each.
impl Scaled {
    pub const M0: u8 = 31;

    pub const E: u8 = 33;

    pub const ROOT_A: u8 = 19;

    pub const OMEGA0: u8 = 31;

    pub const I0: u8 = 31;

    pub const OMEGA: u8 = 31;

    pub const I_DOT: u8 = 43;

    pub const OMEGA_DOT: u8 = 43;

    pub const DELTA_N: u8 = 43;

    pub const CUC: u8 = 29;

    pub const CUS: u8 = 29;

    pub const CRC: u8 = 5;

    pub const CRS: u8 = 5;

    pub const CIC: u8 = 29;

    pub const CIS: u8 = 29;

    pub const AF0: u8 = 34;

    pub const AF1: u8 = 46;

    pub const AF2: u8 = 59;

    pub const AI0: u8 = 2;

    pub const AI1: u8 = 8;

    pub const AI2: u8 = 15;

    pub const BGD_E1_E5A: u8 = 32;

    pub const BGD_E1_E5B: u8 = 32;
}

// The scaled fields of the timing parameters.
#[repr(C)]
#[derive(Clone, Copy)]
pub struct ScaledTiming {
    pub a0: f64,
    pub a1: f64,
    pub a0g: f64,
    pub a1g: f64,
}

impl ScaledTiming {
    pub const A0: u8 = 30;

    pub const A1: u8 = 50;

    pub const A0G: u8 = 35;

    pub const A1G: u8 = 51;
}

// Ephemeris, clock and status of a satellite as numbers, by the words that they came in.
#[derive(Clone, Copy)]
pub struct Orbit {
    pub word1: Word1,
    pub word2: Word2,
    pub word3: Word3,
    pub word4: Word4,
    pub word5: Word5,
    pub scaled: Scaled,
}

// The timing parameters of a satellite as numbers.
#[derive(Clone, Copy)]
pub struct TimingNumbers {
    pub word6: Word6,
    pub word10: Word10,
    pub scaled: ScaledTiming,
}

// Where the fields of each word start in the data: behind those of the word before.
const WORD1_AT: usize = 0;

const WORD2_AT: usize = WORD1_AT + Word1::BITS;

const WORD3_AT: usize = WORD2_AT + Word2::BITS;

const WORD4_AT: usize = WORD3_AT + Word3::BITS;

const WORD5_AT: usize = WORD4_AT + Word4::BITS;

const WORD6_AT: usize = 0;

const WORD10_AT: usize = WORD6_AT + Word6::BITS;

// What was read of authenticated data: its count, its time and its numbers.
#[derive(Clone, Copy)]
pub struct Got<T> {
    pub authbits: u16,
    pub gst: Gst,
    pub numbers: T,
}

// kept beside `scaled_timing`, as `orbit_of` beside `timing_of`: they differ in their fields and not in a type alone.
fn scaled_of(w1: Word1, w2: Word2, w3: Word3, w4: Word4, w5: Word5) -> Scaled
    ensures { result ≡ scaled_of w1 w2 w3 w4 w5 }
{
    Scaled {
        m0: doubles::of_signed(w1.m0, Scaled::M0),
        e: doubles::of_unsigned(w1.e, Scaled::E),
        root_a: doubles::of_unsigned(w1.root_a, Scaled::ROOT_A),
        omega0: doubles::of_signed(w2.omega0, Scaled::OMEGA0),
        i0: doubles::of_signed(w2.i0, Scaled::I0),
        omega: doubles::of_signed(w2.omega, Scaled::OMEGA),
        i_dot: doubles::of_signed(w2.i_dot, Scaled::I_DOT),
        omega_dot: doubles::of_signed(w3.omega_dot, Scaled::OMEGA_DOT),
        delta_n: doubles::of_signed(w3.delta_n, Scaled::DELTA_N),
        cuc: doubles::of_signed(w3.cuc, Scaled::CUC),
        cus: doubles::of_signed(w3.cus, Scaled::CUS),
        crc: doubles::of_signed(w3.crc, Scaled::CRC),
        crs: doubles::of_signed(w3.crs, Scaled::CRS),
        cic: doubles::of_signed(w4.cic, Scaled::CIC),
        cis: doubles::of_signed(w4.cis, Scaled::CIS),
        af0: doubles::of_signed(w4.af0, Scaled::AF0),
        af1: doubles::of_signed(w4.af1, Scaled::AF1),
        af2: doubles::of_signed(w4.af2, Scaled::AF2),
        ai0: doubles::of_unsigned(w5.ai0, Scaled::AI0),
        ai1: doubles::of_signed(w5.ai1, Scaled::AI1),
        ai2: doubles::of_signed(w5.ai2, Scaled::AI2),
        bgd_e1_e5a: doubles::of_signed(w5.bgd_e1_e5a, Scaled::BGD_E1_E5A),
        bgd_e1_e5b: doubles::of_signed(w5.bgd_e1_e5b, Scaled::BGD_E1_E5B),
    }
}

fn scaled_timing(w6: Word6, w10: Word10) -> ScaledTiming
    ensures { result ≡ scaled_timing_of w6 w10 }
{
    ScaledTiming {
        a0: doubles::of_signed(w6.a0, ScaledTiming::A0),
        a1: doubles::of_signed(w6.a1, ScaledTiming::A1),
        a0g: doubles::of_signed(w10.a0g, ScaledTiming::A0G),
        a1g: doubles::of_signed(w10.a1g, ScaledTiming::A1G),
    }
}

// The numbers of CED data; those of no data are 0.
pub fn orbit_of(bytes: &[u8]) -> Orbit
    ensures { result ≡ orbit_from bytes.now }
{
    let word1 = fields::read_word1(bytes, WORD1_AT);
    let word2 = fields::read_word2(bytes, WORD2_AT);
    let word3 = fields::read_word3(bytes, WORD3_AT);
    let word4 = fields::read_word4(bytes, WORD4_AT);
    let word5 = fields::read_word5(bytes, WORD5_AT);
    let scaled = scaled_of(word1, word2, word3, word4, word5);
    Orbit {
        word1,
        word2,
        word3,
        word4,
        word5,
        scaled,
    }
}

// The numbers of timing data; those of no data are 0.
pub fn timing_of(bytes: &[u8]) -> TimingNumbers
    ensures { result ≡ timing_from bytes.now }
{
    let word6 = fields::read_word6(bytes, WORD6_AT);
    let word10 = fields::read_word10(bytes, WORD10_AT);
    let scaled = scaled_timing(word6, word10);
    TimingNumbers {
        word6,
        word10,
        scaled,
    }
}

// STORE 20.6: whether the four IODnav are all equal
#[tactic(auto, using(crate::proofs::Issues::issues_at))]
fn one_issue(bytes: &[u8]) -> bool
    ensures { result ≡ one_issue bytes.now }
{
    let first = fields::whole(bytes, WORD1_AT, Word1::IODNAV);
    if fields::whole(bytes, WORD2_AT, Word2::IODNAV) != first {
        return false;
    }
    if fields::whole(bytes, WORD3_AT, Word3::IODNAV) != first {
        return false;
    }
    fields::whole(bytes, WORD4_AT, Word4::IODNAV) == first
}

// STORE 20.6: whether word 4 names the satellite
#[tactic(auto, using(crate::proofs::Issues::svid_at))]
fn names(bytes: &[u8], sat: u8) -> bool
    ensures { result ≡ eqb (svid_of bytes.now) sat }
{
    fields::whole(bytes, WORD4_AT + Word4::IODNAV, Word4::SVID) == u32::from(sat)
}

// The record whose data may be read: 3, 4, 12, 24, 7, and for CED 21, 22.
pub fn place(room: &[u8], timing: bool, svn: Svn) -> Result<Answering, Refusal>
    ensures { (placed_answer result ≡ numbers_answer (family_if timing) svn.0 room.now)
        × (place_placed result ≡ numbers_place (family_if timing) svn.0 room.now) }
{
    let answer = ask::ask(room, timing, svn)?;
    if timing {
        return Ok(answer);
    }
    let bytes = lookup::data_of(room, answer.at, false);
    if !one_issue(bytes) {
        return Err(Refusal::IssuesDiffer);
    }
    if !names(bytes, svn.0) {
        return Err(Refusal::OtherSatellite);
    }
    Ok(answer)
}

// The numbers of a record, beside the count and the time that asking told of it.
fn with_numbers<T>(answer: Answering, numbers: T) -> Got<T>
    ensures { result ≡ with_numbers answer numbers }
{
    Got {
        authbits: answer.authbits,
        gst: answer.gst,
        numbers,
    }
}

// Authenticated ephemeris, clock and status of a satellite, as numbers.
pub fn get_orbit(room: &[u8], svn: Svn) -> Result<Got<Orbit>, Refusal>
    ensures { (got_answer result ≡ numbers_answer CED svn.0 room.now)
        × (got_orbit result ≡ orbit_from (numbers_data CED svn.0 room.now)) }
{
    let answer = place(room, false, svn)?;
    Ok(with_numbers(answer, orbit_of(lookup::data_of(room, answer.at, false))))
}

// Authenticated timing parameters of a satellite, as numbers.
pub fn get_timing_numbers(room: &[u8], svn: Svn) -> Result<Got<TimingNumbers>, Refusal>
    ensures { (got_timing_answer result ≡ numbers_answer TIMING svn.0 room.now)
        × (got_timing result ≡ timing_from (numbers_data TIMING svn.0 room.now)) }
{
    let answer = ask::ask(room, true, svn)?;
    Ok(with_numbers(answer, timing_of(lookup::data_of(room, answer.at, true))))
}
