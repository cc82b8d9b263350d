// Which numbers a call takes: the sizes of a store, and the numbers that come with a tag. Each test is of its numbers alone.
// kept: bands, kinds, statuses and rules are numbers, as C hands them in and as the definitions test them, the wrong ones too
#![tactic(auto)]

ghost use Rattle.std.specs.Prelude.{◌≡◌, not, ◌&&◌, leb};
ghost use Rattle.paper.specs.Store.{sizes_allowed, rule_known};
ghost use Rattle.paper.specs.Tag.{kind_known, cop_allowed, length_allowed, status_known, status_adds};

use layout::{MOST_ROWS, MOST_SLOTS, TIME_RULE};

// The bytes of a word.
pub const WORD_BYTES: usize = 16;

// STORE 5.3: the last band; 0 is E1B
const E5B: u8 = 1;

// STORE 11.1: the kinds
const CED_KIND: u8 = 0;

pub const TIMING_KIND: u8 = 4;

const SLOW_CED_KIND: u8 = 12;

// STORE 7.1: whether D and N are in range. The test of a fresh store too.
pub fn sizes_allowed(d: u8, n: u8) -> bool
    ensures { result ≡ sizes_allowed d n }
{
    (1..=MOST_ROWS).contains(&d) && (1..=MOST_SLOTS).contains(&n)
}

// STORE 7.7: the ageing rules
pub fn rule_known(rule: u8) -> bool
    ensures { result ≡ rule_known rule }
{
    rule <= TIME_RULE
}

// 1: D, N or the rule outside its range
pub fn fresh_allowed(d: u8, n: u8, rule: u8) -> bool
    ensures { result ≡ (sizes_allowed d n && rule_known rule) }
{
    sizes_allowed(d, n) && rule_known(rule)
}

// STORE 5.3: the bands. kept: it says when one is refused, not when it is known, as the compiled calls want it (docs/DECISIONS.md)
pub fn band_unknown(band: u8) -> bool
    ensures { not result ≡ leb band 1 }
{
    band > E5B
}

// whether a tag of the kind is known
pub fn kind_known(kind: u8) -> bool
    ensures { result ≡ kind_known kind }
{
    matches!(kind, CED_KIND | TIMING_KIND | SLOW_CED_KIND)
}

// STORE 11.1: the COPs
pub fn cop_allowed(cop: u8) -> bool
    ensures { result ≡ cop_allowed cop }
{
    cop <= 15
}

// STORE 11.1: the lengths
#[tactic(auto, unfolding(paper::specs::Tag::length_allowed))]
pub fn length_allowed(bits: u8) -> bool
    ensures { result ≡ length_allowed bits }
{
    matches!(bits, 20 | 24 | 28 | 32 | 40)
}

// STORE 11.1: the statuses
pub fn status_known(status: u8) -> bool
    ensures { result ≡ status_known status }
{
    status <= 3
}

// STORE 11.5: whether a tag adds under this status
pub fn status_adds(status: u8) -> bool
    ensures { result ≡ status_adds status }
{
    matches!(status, 1 | 2)
}

// 8: COP or tag length not allowed
pub fn tag_allowed(cop: u8, bits: u8) -> bool
    ensures { result ≡ (cop_allowed cop && length_allowed bits) }
{
    cop_allowed(cop) && length_allowed(bits)
}

// 9: kind or status unknown
pub fn tag_known(kind: u8, status: u8) -> bool
    ensures { result ≡ (kind_known kind && status_known status) }
{
    kind_known(kind) && status_known(status)
}
