// The lines of the bench program (STORE 17): what an item asks for, and an answer as one line of text.
#![tactic(auto)]

ghost use Rattle.std.specs.Prelude.{◌≡◌, ◌∷◌, ◌+◌, ◌*◌, ◌≤◌, length};
ghost use Rattle.paper.specs.Number.{number, values};
ghost use Rattle.paper.specs.Record.{CED, data_bytes};
ghost use Rattle.paper.specs.Satellite.{letters_of};
ghost use Rattle.text.specs.Text.{Put, hex_of};
ghost use Rattle.lines.specs.Kinds.{kind_of, body_length, letter_of};
ghost use Rattle.lines.specs.Lines.{most_spaced, most_numbers, most_satellite, most_reading, longest_line};
ghost use Rattle.lines.specs.Lines.{outcome_answer, spaced, numbers_text, reading_text, values_text, line_of};

use gst::Gst;
use limits::WORD_BYTES;
use records::Ced;
use svn::Svn;
use text::{MOST_DIGITS, put_bytes, put_decimal, put_hex};

// STORE 17.2, kind byte 1: satellite, band, week, time, the word
const WORD_BODY: usize = 1 + 1 + 2 + 4 + WORD_BYTES;

// STORE 17.2, kind byte 2: satellite, kind, COP, length, status, verdict, week, time
const TAG_BODY: usize = 6 + 2 + 4;

// the longest item: its kind byte and a word's body
pub const LONGEST_ITEM: usize = 1 + WORD_BODY;

// a number behind its space
const SPACED: usize = 1 + MOST_DIGITS;

// satellite, count, week, time and hex
const READING: usize = (1 + 3) + 3 * SPACED + (1 + 2 * Ced::BYTES);

// the longest line: its letter, its number, a CED record's data behind it and the line's end
pub const LONGEST_LINE: usize = 2 + MOST_DIGITS + READING + 1;

// What an item asks for.
#[derive(Clone, Copy)]
pub enum Kind {
    Word,
    Tag,
    Reset,
    Ced,
    Timing,
    Fresh,
    FreshRuled,
    // kept: no Option around the kinds, since what is unknown has a letter, a body and a line as the others have (STORE 17.4)
    Unknown,
}

// What a call says beside its 0.
#[derive(Clone, Copy)]
pub enum Said {
    // nothing
    Done,
    // how many records took a tag
    Total(u32),
    // a count and a time
    Reading(u16, Gst),
}

// An answer before it is text. kept: a refusal is its number here, since `put_line` and `number_of` promise what they do of any number
pub type Outcome = Result<Said, u8>;

impl From<u8> for Kind {
    ghost from_gives = { λ byte kind. kind ≡ kind_of byte };

    // What an item asks for, by its kind byte.
    #[tactic(auto, unfolding(crate::specs::Kinds::kind_of))]
    fn from(byte: u8) -> Kind {
        match byte {
            1 => Kind::Word,
            2 => Kind::Tag,
            3 => Kind::Reset,
            4 => Kind::Ced,
            5 => Kind::Timing,
            6 => Kind::Fresh,
            9 => Kind::FreshRuled,
            _ => Kind::Unknown,
        }
    }
}

impl Kind {
    // The length of its body.
    pub fn body(self) -> usize
        ensures { result ≡ body_length self }
    {
        match self {
            Kind::Word => WORD_BODY,
            Kind::Tag => TAG_BODY,
            Kind::Reset => 0,
            Kind::Ced => 1,
            Kind::Timing => 1,
            Kind::Fresh => 2,
            Kind::FreshRuled => 3,
            Kind::Unknown => 0,
        }
    }

    fn letter(self) -> [u8; 2]
        ensures { result ≡ letter_of self }
    {
        match self {
            Kind::Word => *b"w ",
            Kind::Tag => *b"t ",
            Kind::Reset => *b"r ",
            Kind::Ced => *b"c ",
            Kind::Timing => *b"p ",
            Kind::Fresh => *b"f ",
            Kind::FreshRuled => *b"f ",
            Kind::Unknown => *b"x ",
        }
    }
}

// The number of STORE 14.1.
pub fn number_of(outcome: Outcome) -> u8
    ensures { result ≡ number (outcome_answer outcome) }
{
    match outcome {
        Ok(_) => 0,
        Err(number) => number,
    }
}

// kept: `out` and `at` are two parameters and no struct, since `Put`, by which every line is promised, speaks of lent bytes and a place

// A space and a number.
fn put_spaced(out: &mut [u8], at: usize, x: u32) -> usize
    requires { at + most_spaced ≤ length out.old }
    ensures { (Put out.old at (spaced x) out.new result) × (result ≤ at + most_spaced) }
{
    let next = put_bytes(out, at, b" ");
    put_decimal(out, next, x)
}

// Count, week and time.
#[tactic(auto, unfolding(crate::specs::Lines::numbers_text))]
fn put_numbers(out: &mut [u8], at: usize, count: u16, gst: Gst) -> usize
    requires { at + most_numbers ≤ length out.old }
    ensures { (Put out.old at (numbers_text count gst.wn.0 gst.tow.0) out.new result) × (result ≤ at + most_numbers) }
{
    let week = gst.wn.0;
    let time = gst.tow.0;
    let counted = put_spaced(out, at, u32::from(count));
    let dated = put_spaced(out, counted, u32::from(week));
    put_spaced(out, dated, time)
}

// A space, and the satellite as E and two digits.
#[tactic(auto, unfolding(paper::specs::Satellite::letters_of))]
fn put_satellite(out: &mut [u8], at: usize, svn: Svn) -> usize
    requires { at + most_satellite ≤ length out.old }
    ensures { (Put out.old at (32 ∷ letters_of svn.0) out.new result) × (result ≤ at + most_satellite) }
{
    let letters = svn.letters();
    let next = put_bytes(out, at, b" ");
    put_bytes(out, next, &letters)
}

// A space, and data in hex.
fn put_data(out: &mut [u8], at: usize, data: &[u8]) -> usize
    requires { at + (1 + 2 * length «data».now) ≤ length out.old }
    ensures { (Put out.old at (32 ∷ hex_of «data».now) out.new result)
        × (result ≤ at + (1 + 2 * length «data».now)) }
{
    let next = put_bytes(out, at, b" ");
    put_hex(out, next, data)
}

// Satellite, count, week, time and hex.
#[tactic(auto, unfolding(crate::specs::Lines::reading_text))]
fn put_reading(out: &mut [u8], at: usize, svn: Svn, count: u16, gst: Gst, data: &[u8]) -> usize
    requires { at + most_reading (length «data».now) ≤ length out.old }
    ensures { (Put out.old at (reading_text svn.0 count gst.wn.0 gst.tow.0 «data».now) out.new result)
        × (result ≤ at + most_reading (length «data».now)) }
{
    let named = put_satellite(out, at, svn);
    let numbered = put_numbers(out, named, count, gst);
    put_data(out, numbered, data)
}

// What stands behind 0, if anything does.
fn put_values(out: &mut [u8], at: usize, svn: Svn, outcome: Outcome, data: &[u8]) -> usize
    requires { at + most_reading (length «data».now) ≤ length out.old }
    ensures { (Put out.old at (values_text svn.0 (values (outcome_answer outcome)) «data».now) out.new result)
        × (result ≤ at + most_reading (length «data».now)) }
{
    match outcome {
        Err(_) => at,
        Ok(Said::Done) => at,
        Ok(Said::Total(records)) => put_spaced(out, at, records),
        Ok(Said::Reading(count, gst)) => put_reading(out, at, svn, count, gst, data),
    }
}

// The line for an answer.
#[tactic(auto, unfolding(crate::specs::Lines::line_of))]
pub fn put_line(
    out: &mut [u8],
    at: usize,
    kind: Kind,
    svn: Svn,
    outcome: Outcome,
    data: &[u8],
) -> usize
    requires { (at + longest_line ≤ length out.old) × (length «data».now ≤ data_bytes CED) }
    ensures { (Put out.old at (line_of kind svn.0 (outcome_answer outcome) «data».now) out.new result)
        × (result ≤ at + longest_line) }
{
    let letter = kind.letter();
    let lettered = put_bytes(out, at, &letter);
    let numbered = put_decimal(out, lettered, u32::from(number_of(outcome)));
    let said = put_values(out, numbered, svn, outcome, data);
    put_bytes(out, said, b"\n")
}
