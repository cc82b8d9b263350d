// The header's numbers, and rows of the room: where one and its records start, which one comes next or lies so many back, its mark and
// its subframe.
#![tactic(auto)]

ghost use Rattle.std.specs.Prelude.{◌≡◌, ◌^◌, ◌≤◌, ◌<◌, length};
ghost use Rattle.paper.specs.Record.{family_if};
ghost use Rattle.paper.specs.Room.{header_size, head_size, row_size, room_size, depth, slots, current, by_time, row_at, row_of, marked, is_at, slot_at, record_at};
ghost use Rattle.paper.specs.Store.{InRange};
ghost use Rattle.paper.specs.Feed.{next_row, marked_at};
ghost use Rattle.paper.specs.Ask.{row_back};

use layout::{
    CURRENT_AT, DEPTH_AT, HEADER, MARK_AT, MARKED, ROW_HEAD, RULE_AT, SLOT, SLOTS_AT, TIME_AT,
    TIME_RULE, WEEK_AT,
};

// D: how many rows the room has.
pub fn depth(room: &[u8]) -> usize
    requires { header_size ≤ length room.now }
    ensures { (result ≡ depth room.now) × (result < 256) }
{
    usize::from(room[DEPTH_AT])
}

// N: how many slots a row has.
pub fn slots(room: &[u8]) -> usize
    requires { header_size ≤ length room.now }
    ensures { (result ≡ slots room.now) × (result < 256) }
{
    usize::from(room[SLOTS_AT])
}

// Which row is current.
pub fn current(room: &[u8]) -> usize
    requires { header_size ≤ length room.now }
    ensures { (result ≡ current room.now) × (result < 256) }
{
    usize::from(room[CURRENT_AT])
}

// STORE 7.7: whether ages count time.
pub fn by_time(room: &[u8]) -> bool
    requires { header_size ≤ length room.now }
    ensures { result ≡ by_time room.now }
{
    room[RULE_AT] == TIME_RULE
}

// The bytes of a row of n slots.
pub fn row_size(n: usize) -> usize
    requires { n < 256 }
    ensures { result ≡ row_size n }
{
    ROW_HEAD + n * SLOT
}

// Where row r starts. D and N are bytes of the room, so nothing here goes by their limits.
pub fn row_start(n: usize, r: usize) -> usize
    requires { (n < 256) × (r < 256) }
    ensures { result ≡ row_at n r }
{
    HEADER + r * row_size(n)
}

// The bytes of a store of d rows of n slots: where a row past the last would start.
pub fn room_size(d: usize, n: usize) -> usize
    requires { (d < 256) × (n < 256) }
    ensures { result ≡ room_size d n }
{
    row_start(n, d)
}

// Row r.
pub fn row(room: &[u8], r: usize) -> &[u8]
    requires { InRange room.now × (r < depth room.now) }
    ensures { (result.now ≡ row_of r room.now) × (length result.now ≡ row_size (slots room.now)) }
{
    let n = slots(room);
    let at = row_start(n, r);
    let e = at + row_size(n);
    &room[at..e]
}

// Where slot i starts in its row. Loops over slots and rows go by their number: of a slice that was lent to `chunks_exact_mut` a proof
// knows afterwards its length alone.
pub fn slot_start(i: usize) -> usize
    requires { slot_at i < 2 ^ 64 }
    ensures { result ≡ slot_at i }
{
    ROW_HEAD + i * SLOT
}

// Where the record of slot i starts in its row.
pub fn record_start(timing: bool, i: usize) -> usize
    requires { i < 256 }
    ensures { result ≡ record_at (family_if timing) i }
{
    slot_start(i) + layout::base(timing)
}

// STORE 10.3: row 0 is behind the last
#[tactic(auto, unfolding(paper::specs::Feed::next_row))]
pub fn next_row(d: usize, c: usize) -> usize
    requires { c < d }
    ensures { result ≡ next_row d c }
{
    if c + 1 < d { c + 1 } else { 0 }
}

// STORE 12.1, backward around the ring: the row j before row c.
#[tactic(auto, unfolding(paper::specs::Ask::row_back))]
pub fn row_back(d: usize, c: usize, j: usize) -> usize
    requires { (c < d) × ((j < d) × (d < 256)) }
    ensures { result ≡ row_back d c j }
{
    if j <= c { c - j } else { d + c - j }
}

// Whether the row has a subframe.
pub fn is_marked(row: &[u8]) -> bool
    requires { head_size ≤ length row.now }
    ensures { result ≡ marked row.now }
{
    row[MARK_AT] == MARKED
}

// Whether the row's subframe is this one; the row's mark is not looked at.
pub fn is_at(row: &[u8], week: u16, time: u32) -> bool
    requires { head_size ≤ length row.now }
    ensures { result ≡ is_at week time row.now }
{
    if numbers::read16(row, WEEK_AT) != week {
        return false;
    }
    numbers::read32(row, TIME_AT) == time
}

// A row marked T: its mark 1, and the week and time of T.
#[tactic(auto, unfolding(paper::specs::Feed::marked_at))]
pub fn mark_row(row: &mut [u8], week: u16, time: u32)
    requires { head_size ≤ length row.old }
    ensures { row.new ≡ marked_at week time row.old }
{
    row[MARK_AT] = MARKED;
    numbers::write16(row, WEEK_AT, week);
    numbers::write32(row, TIME_AT, time);
}
