// The numbers of `orbit` for C and Rust, under plain names, in a crate of its own: what is compiled for the store's other calls stays as it is,
// and who reads no numbers links none of this. Beside a refusal every number is 0. What is owed with a pointer from C stands
// in include/dawnstook.h. The archive has these calls from `ffi_orbit_c`.
#![tactic(auto)]

ghost use Rattle.std.specs.Prelude.{◌≡◌, length};
ghost use Rattle.paper.specs.Record.{CED, Timing as TIMING, family_if};
ghost use Rattle.paper.specs.Orbit.{numbers_answer, numbers_data};
ghost use Rattle.orbit.specs.Numbers.{orbit_from, timing_from};
ghost use Rattle.orbit.specs.Got.{placed_answer, PlacedWithin, part_placed};
ghost use Rattle.ffi_orbit.specs.Handed.{head_handed, orbit_handed, timing_handed};

use ask::Answering;
use fields::{Word1, Word2, Word3, Word4, Word5, Word6, Word10};
use orbit::{Scaled, ScaledTiming};
use refusals::Refusal;
use svn::Svn;

// An orbit: its number, the count, the time, the whole numbers by their words, and the doubles.
// kept: C has no Result, so the number stands beside the values here, in the next and in `Head`; it reads them by fields, which differ.
#[repr(C)]
#[derive(Clone, Copy)]
pub struct OrbitRead {
    pub number: u8,
    pub authbits: u16,
    pub week: u16,
    pub time: u32,
    pub word1: Word1,
    pub word2: Word2,
    pub word3: Word3,
    pub word4: Word4,
    pub word5: Word5,
    pub scaled: Scaled,
}

// Timing parameters: their number, the count, the time, the whole numbers by their words, and the doubles.
#[repr(C)]
#[derive(Clone, Copy)]
pub struct TimingRead {
    pub number: u8,
    pub authbits: u16,
    pub week: u16,
    pub time: u32,
    pub word6: Word6,
    pub word10: Word10,
    pub scaled: ScaledTiming,
}

// The number, the count and the time.
#[derive(Drop)]
struct Head {
    number: u8,
    authbits: u16,
    week: u16,
    time: u32,
}

// Beside a refusal the count and the time are 0 (STORE 14.3).
impl From<Result<Answering, Refusal>> for Head {
    ghost from_gives = { λ placed head. head ≡ head_handed (placed_answer placed) };

    fn from(placed: Result<Answering, Refusal>) -> Head {
        match placed {
            Ok(answer) => Head {
                number: 0,
                authbits: answer.authbits,
                week: answer.gst.wn.0,
                time: answer.gst.tow.0,
            },
            Err(why) => Head {
                number: u8::from(why),
                authbits: 0,
                week: 0,
                time: 0,
            },
        }
    }
}

// The data that is to be read, or the empty slice.
fn part_placed(room: &[u8], timing: bool, placed: Result<Answering, Refusal>) -> &[u8]
    requires { PlacedWithin (family_if timing) placed (length room.now) }
    ensures { result.now ≡ part_placed (family_if timing) placed room.now }
{
    match placed {
        Ok(answer) => lookup::data_of(room, answer.at, timing),
        Err(_) => &room[0..0],
    }
}

// Authenticated ephemeris, clock and status of a satellite, as numbers.
#[unsafe(no_mangle)]
pub extern "C" fn dawnstook_get_orbit(room: &[u8], sat: u8) -> OrbitRead
    ensures { result ≡ orbit_handed (numbers_answer CED sat room.now) (orbit_from (numbers_data CED sat room.now)) }
{
    let placed = orbit::place(room, false, Svn(sat));
    let head = Head::from(placed);
    let all = orbit::orbit_of(part_placed(room, false, placed));
    let word1 = all.word1;
    let word2 = all.word2;
    let word3 = all.word3;
    let word4 = all.word4;
    let word5 = all.word5;
    let scaled = all.scaled;
    OrbitRead {
        number: head.number,
        authbits: head.authbits,
        week: head.week,
        time: head.time,
        word1,
        word2,
        word3,
        word4,
        word5,
        scaled,
    }
}

// Authenticated timing parameters of a satellite, as numbers.
#[unsafe(no_mangle)]
pub extern "C" fn dawnstook_get_timing_numbers(room: &[u8], sat: u8) -> TimingRead
    ensures { result ≡ timing_handed (numbers_answer TIMING sat room.now) (timing_from (numbers_data TIMING sat room.now)) }
{
    let placed = orbit::place(room, true, Svn(sat));
    let head = Head::from(placed);
    let all = orbit::timing_of(part_placed(room, true, placed));
    let word6 = all.word6;
    let word10 = all.word10;
    let scaled = all.scaled;
    TimingRead {
        number: head.number,
        authbits: head.authbits,
        week: head.week,
        time: head.time,
        word6,
        word10,
        scaled,
    }
}
