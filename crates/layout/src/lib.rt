// The lent room, once for all code (a record's fields and sizes are its family's own): a header, then rows of a head and N slots, a slot
// being one CED record and behind it one timing record. Each field starts behind the one before it.
#![tactic(auto)]

ghost use Rattle.std.specs.Prelude.{◌≡◌};
ghost use Rattle.paper.specs.Record.{family_if};
ghost use Rattle.paper.specs.Room.{base};

use records::{Ced, Timing};

// STORE 7.1: the most rows, D
pub const MOST_ROWS: u8 = 16;

// STORE 7.1: the most slots, N
pub const MOST_SLOTS: u8 = 36;

// STORE 7.3: D, N, the current row, the ageing rule, four zeros
pub const DEPTH_AT: usize = 0;

pub const SLOTS_AT: usize = DEPTH_AT + 1;

pub const CURRENT_AT: usize = SLOTS_AT + 1;

pub const RULE_AT: usize = CURRENT_AT + 1;

pub const ZEROS_AT: usize = RULE_AT + 1;

pub const HEADER: usize = ZEROS_AT + 4;

// STORE 7.4: a mark, a week, a time and a spare byte
pub const MARK_AT: usize = 0;

pub const WEEK_AT: usize = MARK_AT + 1;

pub const TIME_AT: usize = WEEK_AT + 2;

pub const SPARE_AT: usize = TIME_AT + 4;

pub const ROW_HEAD: usize = SPARE_AT + 1;

// a row that is marked with a subframe
pub const MARKED: u8 = 1;

// STORE 7.7: the rule under which ages count time; the one before it, 0, counts the moves of the ring
pub const TIME_RULE: u8 = 1;

// where the timing record of a slot starts
pub const TIMING_AT: usize = Ced::SIZE;

pub const SLOT: usize = TIMING_AT + Timing::SIZE;

// the bytes of the largest store
pub const MOST_ROOM: usize = HEADER + MOST_ROWS as usize * (ROW_HEAD + MOST_SLOTS as usize * SLOT);

// Where a record starts in its slot, from whether it is timing.
pub fn base(timing: bool) -> usize
    ensures { result ≡ base (family_if timing) }
{
    if timing { TIMING_AT } else { 0 }
}
