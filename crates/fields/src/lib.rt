// The fields of the words as whole numbers (STORE 20.1 to 20.3), read from a record's data or from a word: a word's fields stand one behind
// the other from where they start. Past the end of the bytes every bit is 0.
// kept: a struct and a function for each word, since C reads the numbers of each by their names (`repr(C)`)
#![tactic(auto)]

ghost use Rattle.std.specs.Prelude.{◌≡◌, ◌+◌, ◌*◌, ◌^◌, ◌≤◌, ◌<◌, get_or};
ghost use Rattle.paper.specs.Field.{signed as twos, value_of, fields_of, bits_at, numbers_at};
ghost use Rattle.fields.specs.Words.{word1_from, word2_from, word3_from, word4_from, word5_from, word6_from, word10_from};

use numbers::byte_or_zero;

// Word 1: the issue of the data, the reference time of the orbit, mean anomaly, eccentricity, square root of the semi-major axis.
#[repr(C)]
#[derive(Clone, Copy)]
pub struct Word1 {
    pub iodnav: u32,
    pub t0e: u32,
    pub m0: i32,
    pub e: u32,
    pub root_a: u32,
}

// The bits of each.
impl Word1 {
    pub const IODNAV: usize = 10;

    pub const T0E: usize = 14;

    pub const M0: usize = 32;

    pub const E: usize = 32;

    pub const ROOT_A: usize = 32;

    // all of them
    pub const BITS: usize = Word1::IODNAV + Word1::T0E + Word1::M0 + Word1::E + Word1::ROOT_A;
}

// Word 2: longitude of the ascending node, inclination, argument of perigee, rate of the inclination.
#[repr(C)]
#[derive(Clone, Copy)]
pub struct Word2 {
    pub iodnav: u32,
    pub omega0: i32,
    pub i0: i32,
    pub omega: i32,
    pub i_dot: i32,
}

// The bits of each.
impl Word2 {
    pub const IODNAV: usize = 10;

    pub const OMEGA0: usize = 32;

    pub const I0: usize = 32;

    pub const OMEGA: usize = 32;

    pub const I_DOT: usize = 14;

    // all of them
    pub const BITS: usize = Word2::IODNAV + Word2::OMEGA0 + Word2::I0 + Word2::OMEGA + Word2::I_DOT;
}

// Word 3: rate of the right ascension, correction of the mean motion, harmonic corrections, the index of the signal's accuracy.
#[repr(C)]
#[derive(Clone, Copy)]
pub struct Word3 {
    pub iodnav: u32,
    pub omega_dot: i32,
    pub delta_n: i32,
    pub cuc: i32,
    pub cus: i32,
    pub crc: i32,
    pub crs: i32,
    pub sisa: u32,
}

// The bits of each.
impl Word3 {
    pub const IODNAV: usize = 10;

    pub const OMEGA_DOT: usize = 24;

    pub const DELTA_N: usize = 16;

    pub const CUC: usize = 16;

    pub const CUS: usize = 16;

    pub const CRC: usize = 16;

    pub const CRS: usize = 16;

    pub const SISA: usize = 8;

    // all of them
    pub const BITS: usize = Word3::IODNAV
        + Word3::OMEGA_DOT
        + Word3::DELTA_N
        + Word3::CUC
        + Word3::CUS
        + Word3::CRC
        + Word3::CRS
        + Word3::SISA;
}

// Word 4: the satellite, harmonic corrections, the clock's reference time and its polynomial.
#[repr(C)]
#[derive(Clone, Copy)]
pub struct Word4 {
    pub iodnav: u32,
    pub svid: u32,
    pub cic: i32,
    pub cis: i32,
    pub t0c: u32,
    pub af0: i32,
    pub af1: i32,
    pub af2: i32,
}

// The bits of each.
impl Word4 {
    pub const IODNAV: usize = 10;

    pub const SVID: usize = 6;

    pub const CIC: usize = 16;

    pub const CIS: usize = 16;

    pub const T0C: usize = 14;

    pub const AF0: usize = 31;

    pub const AF1: usize = 21;

    pub const AF2: usize = 6;

    // all of them
    pub const BITS: usize = Word4::IODNAV
        + Word4::SVID
        + Word4::CIC
        + Word4::CIS
        + Word4::T0C
        + Word4::AF0
        + Word4::AF1
        + Word4::AF2;
}

// Word 5: the ionosphere's terms and flags, broadcast group delays, health and validity.
#[repr(C)]
#[derive(Clone, Copy)]
pub struct Word5 {
    pub ai0: u32,
    pub ai1: i32,
    pub ai2: i32,
    pub region1: u32,
    pub region2: u32,
    pub region3: u32,
    pub region4: u32,
    pub region5: u32,
    pub bgd_e1_e5a: i32,
    pub bgd_e1_e5b: i32,
    pub e5b_health: u32,
    pub e1b_health: u32,
    pub e5b_validity: u32,
    pub e1b_validity: u32,
}

// The bits of each.
impl Word5 {
    pub const AI0: usize = 11;

    pub const AI1: usize = 11;

    pub const AI2: usize = 14;

    pub const REGION1: usize = 1;

    pub const REGION2: usize = 1;

    pub const REGION3: usize = 1;

    pub const REGION4: usize = 1;

    pub const REGION5: usize = 1;

    pub const BGD_E1_E5A: usize = 10;

    pub const BGD_E1_E5B: usize = 10;

    pub const E5B_HEALTH: usize = 2;

    pub const E1B_HEALTH: usize = 2;

    pub const E5B_VALIDITY: usize = 1;

    pub const E1B_VALIDITY: usize = 1;

    // all of them
    pub const BITS: usize = Word5::AI0
        + Word5::AI1
        + Word5::AI2
        + Word5::REGION1
        + Word5::REGION2
        + Word5::REGION3
        + Word5::REGION4
        + Word5::REGION5
        + Word5::BGD_E1_E5A
        + Word5::BGD_E1_E5B
        + Word5::E5B_HEALTH
        + Word5::E1B_HEALTH
        + Word5::E5B_VALIDITY
        + Word5::E1B_VALIDITY;
}

// Word 6: GST to UTC, leap seconds.
#[repr(C)]
#[derive(Clone, Copy)]
pub struct Word6 {
    pub a0: i32,
    pub a1: i32,
    pub dt_ls: i32,
    pub t0t: u32,
    pub wn0t: u32,
    pub wn_lsf: u32,
    pub dn: u32,
    pub dt_lsf: i32,
}

// The bits of each.
impl Word6 {
    pub const A0: usize = 32;

    pub const A1: usize = 24;

    pub const DT_LS: usize = 8;

    pub const T0T: usize = 8;

    pub const WN0T: usize = 8;

    pub const WN_LSF: usize = 8;

    pub const DN: usize = 3;

    pub const DT_LSF: usize = 8;

    // all of them
    pub const BITS: usize = Word6::A0
        + Word6::A1
        + Word6::DT_LS
        + Word6::T0T
        + Word6::WN0T
        + Word6::WN_LSF
        + Word6::DN
        + Word6::DT_LSF;
}

// The end of word 10: GST to GPS time.
#[repr(C)]
#[derive(Clone, Copy)]
pub struct Word10 {
    pub a0g: i32,
    pub a1g: i32,
    pub t0g: u32,
    pub wn0g: u32,
}

// The bits of each.
impl Word10 {
    pub const A0G: usize = 16;

    pub const A1G: usize = 12;

    pub const T0G: usize = 8;

    pub const WN0G: usize = 6;

    // all of them
    pub const BITS: usize = Word10::A0G + Word10::A1G + Word10::T0G + Word10::WN0G;
}

// Five bytes from byte j on, in which any field of up to 32 bits lies that starts in the first of them.
fn five_bytes(s: &[u8], j: usize) -> u64
    requires { j ≤ 8192 }
    ensures { (result ≡ bits_at s.now (8 * j) 40) × (result < 2 ^ 40) }
{
    let a = byte_or_zero(s, j);
    let b = byte_or_zero(s, j + 1);
    let c = byte_or_zero(s, j + 2);
    let d = byte_or_zero(s, j + 3);
    let e = byte_or_zero(s, j + 4);
    u64::from_be_bytes([0, 0, 0, a, b, c, d, e])
}

// The w bits from bit o on, as a number.
fn number(s: &[u8], o: usize, w: usize) -> u64
    requires { (o ≤ 65535) × (1 ≤ w) × (w ≤ 32) }
    ensures { (result ≡ bits_at s.now o w) × (result < 2 ^ w) }
{
    let v = five_bytes(s, o / 8);
    (v >> (40 - (o % 8 + w))) % (1u64 << w)
}

// A field of w bits from bit o on that has no sign.
pub fn whole(s: &[u8], o: usize, w: usize) -> u32
    requires { (o ≤ 65535) × (1 ≤ w) × (w ≤ 32) }
    ensures { result ≡ bits_at s.now o w }
{
    number(s, o, w) as u32
}

// A field of w bits from bit o on in two's complement. kept: the library's `cast_signed` knows the widths of types alone
pub fn signed(s: &[u8], o: usize, w: usize) -> i32
    requires { (o ≤ 65535) × (1 ≤ w) × (w ≤ 32) }
    ensures { result ≡ value_of twos w (bits_at s.now o w) }
{
    let v = number(s, o, w);
    let half = 1u64 << (w - 1);
    if v < half {
        return v as i32;
    }
    -1 - ((half + half - 1 - v) as i32)
}

// The fields of a word of type 1 that start at bit `at`.
#[tactic(auto, unfolding(crate::specs::Words::word1_from, paper::specs::Field::named, paper::specs::Field::numbers_at, paper::specs::Field::fields_in, paper::specs::Field::layouts))]
pub fn read_word1(s: &[u8], at: usize) -> Word1
    requires { at ≤ 65000 }
    ensures { result ≡ word1_from (numbers_at s.now at (fields_of 1)) }
{
    let t0e_at = at + Word1::IODNAV;
    let m0_at = t0e_at + Word1::T0E;
    let e_at = m0_at + Word1::M0;
    let root_a_at = e_at + Word1::E;
    Word1 {
        iodnav: whole(s, at, Word1::IODNAV),
        t0e: whole(s, t0e_at, Word1::T0E),
        m0: signed(s, m0_at, Word1::M0),
        e: whole(s, e_at, Word1::E),
        root_a: whole(s, root_a_at, Word1::ROOT_A),
    }
}

// The fields of a word of type 2 that start at bit `at`.
#[tactic(auto, unfolding(crate::specs::Words::word2_from, paper::specs::Field::named, paper::specs::Field::numbers_at, paper::specs::Field::fields_in, paper::specs::Field::layouts))]
pub fn read_word2(s: &[u8], at: usize) -> Word2
    requires { at ≤ 65000 }
    ensures { result ≡ word2_from (numbers_at s.now at (fields_of 2)) }
{
    let omega0_at = at + Word2::IODNAV;
    let i0_at = omega0_at + Word2::OMEGA0;
    let omega_at = i0_at + Word2::I0;
    let i_dot_at = omega_at + Word2::OMEGA;
    Word2 {
        iodnav: whole(s, at, Word2::IODNAV),
        omega0: signed(s, omega0_at, Word2::OMEGA0),
        i0: signed(s, i0_at, Word2::I0),
        omega: signed(s, omega_at, Word2::OMEGA),
        i_dot: signed(s, i_dot_at, Word2::I_DOT),
    }
}

// The fields of a word of type 3 that start at bit `at`.
#[tactic(auto, unfolding(crate::specs::Words::word3_from, paper::specs::Field::named, paper::specs::Field::numbers_at, paper::specs::Field::fields_in, paper::specs::Field::layouts))]
pub fn read_word3(s: &[u8], at: usize) -> Word3
    requires { at ≤ 65000 }
    ensures { result ≡ word3_from (numbers_at s.now at (fields_of 3)) }
{
    let omega_dot_at = at + Word3::IODNAV;
    let delta_n_at = omega_dot_at + Word3::OMEGA_DOT;
    let cuc_at = delta_n_at + Word3::DELTA_N;
    let cus_at = cuc_at + Word3::CUC;
    let crc_at = cus_at + Word3::CUS;
    let crs_at = crc_at + Word3::CRC;
    let sisa_at = crs_at + Word3::CRS;
    Word3 {
        iodnav: whole(s, at, Word3::IODNAV),
        omega_dot: signed(s, omega_dot_at, Word3::OMEGA_DOT),
        delta_n: signed(s, delta_n_at, Word3::DELTA_N),
        cuc: signed(s, cuc_at, Word3::CUC),
        cus: signed(s, cus_at, Word3::CUS),
        crc: signed(s, crc_at, Word3::CRC),
        crs: signed(s, crs_at, Word3::CRS),
        sisa: whole(s, sisa_at, Word3::SISA),
    }
}

// The fields of a word of type 4 that start at bit `at`.
#[tactic(auto, unfolding(crate::specs::Words::word4_from, paper::specs::Field::named, paper::specs::Field::numbers_at, paper::specs::Field::fields_in, paper::specs::Field::layouts))]
pub fn read_word4(s: &[u8], at: usize) -> Word4
    requires { at ≤ 65000 }
    ensures { result ≡ word4_from (numbers_at s.now at (fields_of 4)) }
{
    let svid_at = at + Word4::IODNAV;
    let cic_at = svid_at + Word4::SVID;
    let cis_at = cic_at + Word4::CIC;
    let t0c_at = cis_at + Word4::CIS;
    let af0_at = t0c_at + Word4::T0C;
    let af1_at = af0_at + Word4::AF0;
    let af2_at = af1_at + Word4::AF1;
    Word4 {
        iodnav: whole(s, at, Word4::IODNAV),
        svid: whole(s, svid_at, Word4::SVID),
        cic: signed(s, cic_at, Word4::CIC),
        cis: signed(s, cis_at, Word4::CIS),
        t0c: whole(s, t0c_at, Word4::T0C),
        af0: signed(s, af0_at, Word4::AF0),
        af1: signed(s, af1_at, Word4::AF1),
        af2: signed(s, af2_at, Word4::AF2),
    }
}

// The fields of a word of type 5 that start at bit `at`.
#[tactic(auto, unfolding(crate::specs::Words::word5_from, paper::specs::Field::named, paper::specs::Field::numbers_at, paper::specs::Field::fields_in, paper::specs::Field::layouts))]
pub fn read_word5(s: &[u8], at: usize) -> Word5
    requires { at ≤ 65000 }
    ensures { result ≡ word5_from (numbers_at s.now at (fields_of 5)) }
{
    let ai1_at = at + Word5::AI0;
    let ai2_at = ai1_at + Word5::AI1;
    let region1_at = ai2_at + Word5::AI2;
    let region2_at = region1_at + Word5::REGION1;
    let region3_at = region2_at + Word5::REGION2;
    let region4_at = region3_at + Word5::REGION3;
    let region5_at = region4_at + Word5::REGION4;
    let bgd_e1_e5a_at = region5_at + Word5::REGION5;
    let bgd_e1_e5b_at = bgd_e1_e5a_at + Word5::BGD_E1_E5A;
    let e5b_health_at = bgd_e1_e5b_at + Word5::BGD_E1_E5B;
    let e1b_health_at = e5b_health_at + Word5::E5B_HEALTH;
    let e5b_validity_at = e1b_health_at + Word5::E1B_HEALTH;
    let e1b_validity_at = e5b_validity_at + Word5::E5B_VALIDITY;
    Word5 {
        ai0: whole(s, at, Word5::AI0),
        ai1: signed(s, ai1_at, Word5::AI1),
        ai2: signed(s, ai2_at, Word5::AI2),
        region1: whole(s, region1_at, Word5::REGION1),
        region2: whole(s, region2_at, Word5::REGION2),
        region3: whole(s, region3_at, Word5::REGION3),
        region4: whole(s, region4_at, Word5::REGION4),
        region5: whole(s, region5_at, Word5::REGION5),
        bgd_e1_e5a: signed(s, bgd_e1_e5a_at, Word5::BGD_E1_E5A),
        bgd_e1_e5b: signed(s, bgd_e1_e5b_at, Word5::BGD_E1_E5B),
        e5b_health: whole(s, e5b_health_at, Word5::E5B_HEALTH),
        e1b_health: whole(s, e1b_health_at, Word5::E1B_HEALTH),
        e5b_validity: whole(s, e5b_validity_at, Word5::E5B_VALIDITY),
        e1b_validity: whole(s, e1b_validity_at, Word5::E1B_VALIDITY),
    }
}

// The fields of a word of type 6 that start at bit `at`.
#[tactic(auto, unfolding(crate::specs::Words::word6_from, paper::specs::Field::named, paper::specs::Field::numbers_at, paper::specs::Field::fields_in, paper::specs::Field::layouts))]
pub fn read_word6(s: &[u8], at: usize) -> Word6
    requires { at ≤ 65000 }
    ensures { result ≡ word6_from (numbers_at s.now at (fields_of 6)) }
{
    let a1_at = at + Word6::A0;
    let dt_ls_at = a1_at + Word6::A1;
    let t0t_at = dt_ls_at + Word6::DT_LS;
    let wn0t_at = t0t_at + Word6::T0T;
    let wn_lsf_at = wn0t_at + Word6::WN0T;
    let dn_at = wn_lsf_at + Word6::WN_LSF;
    let dt_lsf_at = dn_at + Word6::DN;
    Word6 {
        a0: signed(s, at, Word6::A0),
        a1: signed(s, a1_at, Word6::A1),
        dt_ls: signed(s, dt_ls_at, Word6::DT_LS),
        t0t: whole(s, t0t_at, Word6::T0T),
        wn0t: whole(s, wn0t_at, Word6::WN0T),
        wn_lsf: whole(s, wn_lsf_at, Word6::WN_LSF),
        dn: whole(s, dn_at, Word6::DN),
        dt_lsf: signed(s, dt_lsf_at, Word6::DT_LSF),
    }
}

// The fields of a word of type 10 that start at bit `at`.
#[tactic(auto, unfolding(crate::specs::Words::word10_from, paper::specs::Field::named, paper::specs::Field::numbers_at, paper::specs::Field::fields_in, paper::specs::Field::layouts))]
pub fn read_word10(s: &[u8], at: usize) -> Word10
    requires { at ≤ 65000 }
    ensures { result ≡ word10_from (numbers_at s.now at (fields_of 10)) }
{
    let a1g_at = at + Word10::A0G;
    let t0g_at = a1g_at + Word10::A1G;
    let wn0g_at = t0g_at + Word10::T0G;
    Word10 {
        a0g: signed(s, at, Word10::A0G),
        a1g: signed(s, a1g_at, Word10::A1G),
        t0g: whole(s, t0g_at, Word10::T0G),
        wn0g: whole(s, wn0g_at, Word10::WN0G),
    }
}
