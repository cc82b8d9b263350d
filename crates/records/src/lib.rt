// The two families of records with their sizes, where the fields of a record start, and its ages, which travel as a small array by value.
// What is done to ages is written once, over any number of them.
#![tactic(auto)]

ghost use Rattle.std.specs.Prelude.{◌≡◌, ◌+◌, ◌≤◌, ℕ, List, map, length};
ghost use Rattle.paper.specs.Parts.{part, on_part};
ghost use Rattle.paper.specs.Record.{family_if, size, data_at, data_bytes, ages_at, older, greatest, least};

// Where the fields of a record of either family start, each behind the one before it: its satellite is one byte.
pub const SATELLITE_AT: usize = 0;

// its count is two bytes
pub const COUNT_AT: usize = SATELLITE_AT + 1;

// its ages are a byte each, and its data comes behind them
pub const AGES_AT: usize = COUNT_AT + 2;

// STORE 6.2: the greatest count
pub const MOST_COUNT: u16 = 65535;

// The greatest age there is: as old as that, or never there.
pub const OLDEST: u8 = 255;

// STORE 6.3, the bits past the end: what the lowest bit of the last byte that is data weighs there.
pub const LAST_WEIGHT: u8 = 8;

// STORE 6: the sizes of a CED record.
#[derive(Clone, Copy)]
pub struct Ced;

impl Ced {
    // the bits of its data
    pub const BITS: usize = 549;
    // the bytes that hold them
    pub const BYTES: usize = 69;
    // the words that fill them, with an age for each
    pub const WORDS: usize = 5;
    // where they start in a record
    pub const DATA_AT: usize = AGES_AT + Ced::WORDS;
    // the bytes of a record
    pub const SIZE: usize = Ced::DATA_AT + Ced::BYTES;
}

// STORE 6: the sizes of a timing record.
#[derive(Clone, Copy)]
pub struct Timing;

impl Timing {
    // the bits of its data
    pub const BITS: usize = 141;
    // the bytes that hold them
    pub const BYTES: usize = 18;
    // the words that fill them, with an age for each
    pub const WORDS: usize = 2;
    // where they start in a record
    pub const DATA_AT: usize = AGES_AT + Timing::WORDS;
    // the bytes of a record
    pub const SIZE: usize = Timing::DATA_AT + Timing::BYTES;
}

// The whole record of either family, from whether it is timing.
pub fn size_of(timing: bool) -> usize
    ensures { result ≡ size (family_if timing) }
{
    if timing { Timing::SIZE } else { Ced::SIZE }
}

// Its data.
pub fn bytes_of(timing: bool) -> usize
    ensures { result ≡ data_bytes (family_if timing) }
{
    if timing { Timing::BYTES } else { Ced::BYTES }
}

// Where its data starts.
pub fn data_at(timing: bool) -> usize
    ensures { result ≡ data_at (family_if timing) }
{
    if timing {
        Timing::DATA_AT
    } else {
        Ced::DATA_AT
    }
}

// What follows is over any number of ages: those of a CED record are `Ced::WORDS`, those of a timing record `Timing::WORDS`.

// The ages of a record.
pub fn ages<const N: usize>(bytes: &[u8]) -> [u8; N]
    requires { ages_at + N ≤ length bytes.now }
    ensures { result ≡ part ages_at N bytes.now }
{
    let mut found = [0u8; N];
    found.copy_from_slice(&bytes[AGES_AT..AGES_AT + N]);
    found
}

// The record with these ages in the place of its own.
pub fn put_ages<const N: usize>(bytes: &mut [u8], new: [u8; N])
    requires { ages_at + N ≤ length bytes.old }
    ensures { bytes.new ≡ on_part (λ (_ : List ℕ). new.entry) ages_at N bytes.old }
{
    bytes[AGES_AT..AGES_AT + N].copy_from_slice(&new);
}

// STORE 6.5: an age so much more, held at the greatest.
pub fn one_older(age: u8, by: u8) -> u8
    ensures { result ≡ older by age }
{
    age.saturating_add(by)
}

// Each age so much more.
pub fn older<const N: usize>(ages: [u8; N], by: u8) -> [u8; N]
    ensures { result ≡ map (older by) ages.entry }
{
    let mut aged = ages;
    for age in aged.iter_mut() {
        *age = one_older(*age, by);
    }
    aged
}

// The greatest of the ages.
pub fn greatest<const N: usize>(ages: [u8; N]) -> u8
    ensures { result ≡ greatest ages.entry }
{
    ages.iter().fold(0, |top: u8, age| top.max(*age))
}

// The least of the ages.
pub fn least<const N: usize>(ages: [u8; N]) -> u8
    ensures { result ≡ least ages.entry }
{
    ages.iter().fold(OLDEST, |low: u8, age| low.min(*age))
}
