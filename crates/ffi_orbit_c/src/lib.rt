// The calls that read numbers as C and Rust link them: each is the function of that name in `ffi_orbit`, under the same contract. They are an
// object of their own in the archive, so that who reads no numbers links none of this.
// kept twice: no crate can name a static library, and the theorems speak of `ffi_orbit`.
#![tactic(auto)]

ghost use Rattle.std.specs.Prelude.{◌≡◌};
ghost use Rattle.paper.specs.Record.{CED, Timing as TIMING};
ghost use Rattle.paper.specs.Orbit.{numbers_answer, numbers_data};
ghost use Rattle.orbit.specs.Numbers.{orbit_from, timing_from};
ghost use Rattle.ffi_orbit.specs.Handed.{orbit_handed, timing_handed};

use ffi_orbit::{OrbitRead, TimingRead};

// Authenticated ephemeris, clock and status of a satellite, as numbers.
#[unsafe(no_mangle)]
pub extern "C" fn dawnstook_get_orbit(room: &[u8], sat: u8) -> OrbitRead
    ensures { result ≡ orbit_handed (numbers_answer CED sat room.now) (orbit_from (numbers_data CED sat room.now)) }
{
    ffi_orbit::dawnstook_get_orbit(room, sat)
}

// Authenticated timing parameters of a satellite, as numbers.
#[unsafe(no_mangle)]
pub extern "C" fn dawnstook_get_timing_numbers(room: &[u8], sat: u8) -> TimingRead
    ensures { result ≡ timing_handed (numbers_answer TIMING sat room.now) (timing_from (numbers_data TIMING sat room.now)) }
{
    ffi_orbit::dawnstook_get_timing_numbers(room, sat)
}
