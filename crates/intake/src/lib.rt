// An input of the bench taken as it comes, part by part (STORE 17.8): a reader's state and the room are lent, and the lines for the
// items that a part makes whole go into a lent output. All zero is the state of a reader at the start.
#![tactic(auto)]

ghost use Rattle.std.specs.Prelude.{◌≡◌, cond, [], ◌+◌, ◌≤◌, ◌<◌, ltb, length, get_or, take};
ghost use Rattle.text.specs.Text.{Put};
ghost use Rattle.lines.specs.Kinds.{kind_of, body_length, longest_item};
ghost use Rattle.benchlines.specs.Items.{whole_room, unknown_kind};
ghost use Rattle.intake.specs.Input.{going, ended, whole, cut, behind, stage_of};
ghost use Rattle.intake.specs.Input.{trace_line, trace_bytes, most_for, lines_for, lines_of};
ghost use Rattle.intake.specs.Reader.{reader_bytes, have_at, kept_in, stage_in, state_of, reader_of, stage_number, full};
ghost use Rattle.intake.specs.Reader.{Took, end_fits, stage_ended, items_ended, number_at_end};
ghost use Rattle.intake.specs.Reader.{standing, number_at_stand, NotWhole, StandsWithin, ByteTook, ByteWithin};

use lines::{Kind, LONGEST_ITEM, LONGEST_LINE};
use refusals::Refusal;
use svn::Svn;
use text::{put_bytes, put_hex32};

// STORE 17.4: the numbers that an input ends with
const UNKNOWN_KIND: u8 = Refusal::UnknownKind as u8;

const CUT_SHORT: u8 = Refusal::CutShort as u8;

// the state: room for an item, how many bytes of it are kept, whether the input has ended, and its number
// kept: bytes in place of a `Stand`, since a reader's state is lent by C
const HAVE_AT: usize = LONGEST_ITEM;

const ENDED_AT: usize = LONGEST_ITEM + 1;

const NUMBER_AT: usize = LONGEST_ITEM + 2;

pub const READER: usize = LONGEST_ITEM + 3;

// what `trace` adds: "# ", eight digits and the line's end
pub const TRACE: usize = 2 + 8 + 1;

// What a part came to: the reader's number, how many bytes of the part were taken, and how many bytes of lines were written.
// kept: numbers, and a flag below, since C is handed both structs
#[repr(C)]
#[derive(Clone, Copy)]
pub struct Heard {
    pub number: u8,
    pub took: usize,
    pub said: usize,
}

// What the end came to: the number of an input that ends here, whether the end was taken, and how many bytes of lines were written.
#[repr(C)]
#[derive(Clone, Copy)]
pub struct Closed {
    pub number: u8,
    pub taken: bool,
    pub said: usize,
}

// Where a reader stands: it goes on, with so many bytes of an unfinished item; or the input has ended, with this number.
#[derive(Clone, Copy)]
enum Stand {
    Going(usize),
    Ended(u8),
}

impl Stand {
    // The reader's number: 0 while it goes on.
    fn number(self) -> u8
        ensures { result ≡ number_at_stand self }
    {
        match self {
            Stand::Going(_) => 0,
            Stand::Ended(number) => number,
        }
    }
}

// After a byte that was taken: where the reader stands, and how many bytes are written.
#[derive(Clone, Copy)]
struct Step {
    stands: Stand,
    said: usize,
}

// After bytes: where the reader stands, and how many are written and taken.
#[derive(Clone, Copy)]
struct Progress {
    stands: Stand,
    said: usize,
    took: usize,
}

// The line that `trace` adds: the Adler-32 of the whole room.
#[tactic(auto, unfolding(crate::specs::Input::trace_line))]
fn put_trace(out: &mut [u8], at: usize, room: &[u8]) -> usize
    requires { at + trace_bytes ≤ length out.old }
    ensures { Put out.old at (trace_line room.now) out.new result }
{
    let marked = put_bytes(out, at, b"# ");
    let summed = put_hex32(out, marked, adler::adler32(room));
    put_bytes(out, summed, b"\n")
}

// How long what is printed for an item can be.
fn most(traced: bool) -> usize
    ensures { result ≡ most_for traced }
{
    if traced {
        return LONGEST_LINE + TRACE;
    }
    LONGEST_LINE
}

// The lines for a whole item.
#[tactic(auto, unfolding(crate::specs::Input::lines_for))]
fn put_item(
    room: &mut [u8],
    kind: Kind,
    body: &[u8],
    out: &mut [u8],
    at: usize,
    traced: bool,
) -> usize
    requires { (length body.now ≡ body_length kind) × (at + most_for traced ≤ length out.old) }
    ensures { (room.new ≡ whole_room kind body.now room.old)
        × (Put out.old at (lines_for traced (whole kind body.now) room.old) out.new result) }
{
    let next = benchlines::answer(room, kind, body, out, at);
    if traced {
        return put_trace(out, next, room);
    }
    next
}

// The lines for an input that ends inside an item.
#[tactic(auto, unfolding(crate::specs::Input::lines_for, paper::specs::Call::run))]
fn put_cut(room: &[u8], out: &mut [u8], traced: bool) -> usize
    requires { most_for traced ≤ length out.old }
    ensures { Put out.old 0 (lines_for traced cut room.now) out.new result }
{
    let next = lines::put_line(out, 0, Kind::Unknown, Svn(0), Err(CUT_SHORT), &room[..0]);
    if traced {
        return put_trace(out, next, room);
    }
    next
}

// Whether the input ends behind an item of this kind.
fn ends(kind: Kind) -> bool
    ensures { behind kind ≡ cond result (ended unknown_kind) (going []) }
{
    matches!(kind, Kind::Unknown)
}

// kept: room, output and `traced` are lent one by one and in no struct, as C lends them and as `Took` speaks of them

// One byte more. An item that is whole by now is answered, unless its lines might not fit: then the byte is not taken.
fn take_byte(
    room: &mut [u8],
    kept: &mut [u8],
    have: usize,
    byte: u8,
    out: &mut [u8],
    at: usize,
    traced: bool,
) -> Option<Step>
    requires { (NotWhole kept.old have) × (at ≤ length out.old) }
    ensures stepped { ByteTook traced kept.old have byte room.old out.old at kept.new room.new out.new result }
    ensures not_whole { ByteWithin kept.new have result }
{
    kept[have] = byte;
    let kind = Kind::from(kept[0]);
    let end = have + 1;
    if have < kind.body() {
        return Some(Step {
            stands: Stand::Going(end),
            said: at,
        });
    }
    if out.len() - at < most(traced) {
        return None;
    }
    let said = put_item(room, kind, &kept[1..end], out, at, traced);
    if ends(kind) {
        return Some(Step {
            stands: Stand::Ended(UNKNOWN_KIND),
            said,
        });
    }
    Some(Step {
        stands: Stand::Going(0),
        said,
    })
}

// More bytes, one after the other: all of them, or those before an item whose lines might not fit.
fn take_bytes(
    room: &mut [u8],
    kept: &mut [u8],
    have: usize,
    bytes: &[u8],
    out: &mut [u8],
    traced: bool,
) -> Progress
    requires { NotWhole kept.old have }
    ensures took { Took traced (going (take have kept.old)) bytes.now room.old out.old
        room.new out.new result.took result.said }
    ensures stopped_after { standing kept.new result.stands
        ≡ stage_of (going (take have kept.old)) (take result.took bytes.now) }
    ensures not_whole { StandsWithin kept.new result.stands }
{
    let mut count = have;
    let mut said = 0;
    for (i, byte) in bytes.iter().enumerate() {
        let Some(step) = take_byte(room, kept, count, *byte, out, said, traced) else {
            return Progress {
                stands: Stand::Going(count),
                said,
                took: i,
            };
        };
        said = step.said;
        let Stand::Going(more) = step.stands else {
            return Progress {
                stands: step.stands,
                said,
                took: bytes.len(),
            };
        };
        count = more;
    }
    let stands = Stand::Going(count);
    Progress {
        stands,
        said,
        took: bytes.len(),
    }
}

// How many bytes of an unfinished item a state keeps.
fn kept_in(reader: &[u8]) -> usize
    requires { length reader.now ≡ reader_bytes }
    ensures { (take result reader.now ≡ kept_in (take (get_or reader.now have_at 0) reader.now))
        × (result ≤ body_length (kind_of (get_or reader.now 0 0))) }
{
    let have = usize::from(reader[HAVE_AT]);
    if have > Kind::from(reader[0]).body() {
        return 0;
    }
    have
}

// Where a state's bytes say that its reader stands.
fn stands_in(reader: &[u8]) -> Stand
    requires { length reader.now ≡ reader_bytes }
    ensures stands { standing reader.now result ≡ stage_in reader.now }
    ensures not_whole { StandsWithin reader.now result }
{
    if reader[ENDED_AT] != 0 {
        return Stand::Ended(reader[NUMBER_AT]);
    }
    Stand::Going(kept_in(reader))
}

fn kept_byte(byte: u8, i: usize, have: usize) -> u8
    ensures { result ≡ cond (ltb i have) byte 0 }
{
    if i < have {
        return byte;
    }
    0
}

// The state with its first bytes kept, and nothing else of what it held. The loop goes over all bytes: one over those that are cleared
// would be made a call of C's library by the compiler, and the archive asks for none.
fn keep(reader: &mut [u8], have: usize, end: u8, number: u8)
    requires { (length reader.old ≡ reader_bytes) × (have < longest_item) }
    ensures { reader.new ≡ state_of (take have reader.old) end number }
{
    for i in 0..LONGEST_ITEM {
        reader[i] = kept_byte(reader[i], i, have);
    }
    let tail = [have as u8, end, number];
    put_bytes(reader, HAVE_AT, &tail);
}

// The state of a reader that stands there.
fn leave(reader: &mut [u8], stands: Stand)
    requires { (length reader.old ≡ reader_bytes) × (StandsWithin reader.old stands) }
    ensures { reader.new ≡ reader_of (standing reader.old stands) }
{
    match stands {
        Stand::Going(have) => keep(reader, have, 0, 0),
        Stand::Ended(number) => keep(reader, 0, 1, number),
    }
}

// A part of an input. It is taken whole, but for an item whose lines might not fit into the output and what stands behind it: the caller
// goes on from there. Behind the input's end every part is taken, and nothing happens.
#[tactic(auto, unfolding(crate::specs::Reader::reader_of))]
pub fn part(
    reader: &mut [u8; READER],
    room: &mut [u8],
    bytes: &[u8],
    out: &mut [u8],
    traced: bool,
) -> Heard
    ensures took { Took traced (stage_in reader.old) bytes.now room.old out.old
        room.new out.new result.took result.said }
    ensures reader_after { reader.new ≡ reader_of (stage_of (stage_in reader.old) (take result.took bytes.now)) }
    ensures number_value { result.number ≡ stage_number (stage_of (stage_in reader.old) (take result.took bytes.now)) }
{
    let progress = match stands_in(reader) {
        Stand::Going(have) => take_bytes(room, reader, have, bytes, out, traced),
        Stand::Ended(number) => Progress {
            stands: Stand::Ended(number),
            said: 0,
            took: bytes.len(),
        },
    };
    leave(reader, progress.stands);
    Heard {
        number: progress.stands.number(),
        took: progress.took,
        said: progress.said,
    }
}

// The end of the input. Where an item is unfinished it is 14 and prints a line; while that might not fit it is not taken, and 14 too.
pub fn end(reader: &mut [u8; READER], room: &[u8], out: &mut [u8], traced: bool) -> Closed
    ensures reader_after { reader.new ≡ reader_of (stage_ended traced out.old (stage_in reader.old)) }
    ensures number_value { (result.number ≡ number_at_end (stage_in reader.old))
        × (result.taken ≡ end_fits traced out.old (stage_in reader.old)) }
    ensures put { Put out.old 0
        (lines_of traced room.now (items_ended traced out.old (stage_in reader.old)))
        out.new result.said }
{
    let stands = stands_in(reader);
    let have = match stands {
        Stand::Going(have) => have,
        Stand::Ended(number) => {
            leave(reader, stands);
            return Closed {
                number,
                taken: true,
                said: 0,
            };
        }
    };
    if have == 0 {
        leave(reader, Stand::Ended(0));
        return Closed {
            number: 0,
            taken: true,
            said: 0,
        };
    }
    if out.len() < most(traced) {
        leave(reader, stands);
        return Closed {
            number: CUT_SHORT,
            taken: false,
            said: 0,
        };
    }
    let said = put_cut(room, out, traced);
    leave(reader, Stand::Ended(CUT_SHORT));
    Closed {
        number: CUT_SHORT,
        taken: true,
        said,
    }
}
