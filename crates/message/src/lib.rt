// The message under a tag (STORE 21): built from the fields in front of the data and the data into a lent buffer, and read back. The fields
// together are one number, of 58 bits or in tag 0 of 50; the data stands behind it.
#![tactic(auto)]

ghost use Rattle.std.specs.Prelude.{◌≡◌, ◌&&◌, cond, [], ◌∷◌, ◌/◌, ◌^◌, ◌<◌, eqb, leb};
ghost use Rattle.paper.specs.Number.{answer, unless};
ghost use Rattle.paper.specs.Parts.{Bytes};
ghost use Rattle.paper.specs.Record.{data_bytes};
ghost use Rattle.paper.specs.Satellite.{is_satellite};
ghost use Rattle.paper.specs.Message.{form_known, is_tag_zero, form_family, head_width, message_bytes, counter_allowed, satellites_read};
ghost use Rattle.paper.specs.Message.{build_number, build_answer, build_buffer, read_answer, read_buffer};
ghost use Rattle.refusals.specs.Reply.{reply_answer};
ghost use Rattle.message.specs.Heads.{head_number, head_from};
ghost use Rattle.message.specs.Outcome.{form_code, form_answer, head_of, built_answer, read_back_answer, lengths_number, fields_number};

use gst::{Gst, Tow, Wn};
use records::{Ced, Timing};
use refusals::Refusal;
use svn::Svn;

// STORE 21.1: the forms, by their numbers. kept: `build` and `read` take any byte and refuse 9 at its place in the order, so their parameter
// is a number; behind that test it is a `Form`.
pub const CED_FORM: u8 = 0;

pub const TAG0_FORM: u8 = 1;

pub const TIMING_FORM: u8 = 2;

// STORE 21.2: the bits of the fields in front of the data
const PRN_BITS: usize = 8;

const WEEK_BITS: usize = 12;

const TIME_BITS: usize = 20;

const COUNTER_BITS: usize = 8;

const STATUS_BITS: usize = 2;

// Their whole bytes, behind which the status stands: without the data's satellite, and with it.
const SHORT_HEAD: usize = (PRN_BITS + WEEK_BITS + TIME_BITS + COUNTER_BITS) / 8;

const LONG_HEAD: usize = PRN_BITS / 8 + SHORT_HEAD;

// The bytes of a message.
pub const CED_MESSAGE: usize = LONG_HEAD + Ced::BYTES;

pub const TAG0_MESSAGE: usize = SHORT_HEAD + Ced::BYTES;

pub const TIMING_MESSAGE: usize = LONG_HEAD + Timing::BYTES;

// STORE 21.3: the greatest week of 12 bits, and the greatest counter
pub const MOST_WEEK: u16 = 4095;

pub const MOST_COUNTER: u32 = 255;

// how many numbers such a field has
const PRNS: u64 = 1 << PRN_BITS;

const WEEKS: u64 = 1 << WEEK_BITS;

const TIMES: u64 = 1 << TIME_BITS;

const COUNTERS: u64 = 1 << COUNTER_BITS;

const STATUSES: u64 = 1 << STATUS_BITS;

// What stands in front of the data: the data's satellite, the sender, the time, the tag's counter and the status. A public field can hold
// any number, so building tests them all. Of a tag 0, which does not carry it, the data's satellite is read as 0.
#[derive(Clone, Copy)]
pub struct Heading {
    pub prnd: Svn,
    pub prna: Svn,
    pub gst: Gst,
    pub counter: u32,
    pub status: u8,
}

// A form behind the test of its number.
#[derive(Clone, Copy)]
enum Form {
    Ced,
    Tag0,
    Timing,
}

impl TryFrom<u8> for Form {
    type Error = Refusal;

    ghost try_from_gives = { λ number r. form_answer r ≡ answer (unless (form_known number) 9 0) (number ∷ []) };

    // The form of a number: 9 where there is none.
    fn try_from(number: u8) -> Result<Form, Refusal> {
        match number {
            CED_FORM => Ok(Form::Ced),
            TAG0_FORM => Ok(Form::Tag0),
            TIMING_FORM => Ok(Form::Timing),
            _ => Err(Refusal::UnknownCode),
        }
    }
}

impl Form {
    // The whole bytes of the fields in front of the data.
    fn head_bytes(self) -> usize
        ensures { result ≡ head_width (form_code self) / 8 }
    {
        match self {
            Form::Tag0 => SHORT_HEAD,
            _ => LONG_HEAD,
        }
    }

    fn data_bytes(self) -> usize
        ensures { result ≡ data_bytes (form_family (form_code self)) }
    {
        match self {
            Form::Timing => Timing::BYTES,
            _ => Ced::BYTES,
        }
    }

    fn message_bytes(self) -> usize
        ensures { result ≡ message_bytes (form_code self) }
    {
        self.head_bytes() + self.data_bytes()
    }

    // 8: the counter, the data's length, the buffer's
    fn allows(self, counter: u32, given: usize, room: usize) -> bool
        ensures { result
            ≡ (counter_allowed counter && eqb given (data_bytes (form_family (form_code self))) && leb (message_bytes (form_code self)) room) }
    {
        (1..=MOST_COUNTER).contains(&counter)
            && given == self.data_bytes()
            && self.message_bytes() <= room
    }

    // The data's satellite where it is carried, else 0.
    fn prnd_sent(self, prnd: u8) -> u8
        ensures { result ≡ cond (is_tag_zero (form_code self)) 0 prnd }
    {
        match self {
            Form::Tag0 => 0,
            _ => prnd,
        }
    }

    // The fields as one number.
    fn head_number(self, h: Heading) -> u64
        requires { (h.gst.wn.0 < 2 ^ 12) × (h.gst.tow.0 < 2 ^ 20) × (h.counter < 2 ^ 8) × (h.status < 2 ^ 2) }
        ensures { result ≡ head_number (form_code self) (head_of h) }
    {
        let prnd = self.prnd_sent(h.prnd.0);
        let prna = h.prna.0;
        let week = h.gst.wn.0;
        let time = h.gst.tow.0;
        let satellites = u64::from(prnd) * PRNS + u64::from(prna);
        let moment = (satellites * WEEKS + u64::from(week)) * TIMES + u64::from(time);
        (moment * COUNTERS + u64::from(h.counter)) * STATUSES + u64::from(h.status)
    }

    // 4: the satellites that the form carries
    fn satellites_read(self, h: Heading) -> bool
        ensures { result ≡ satellites_read (form_code self) (head_of h) }
    {
        h.prna.is_satellite() && (matches!(self, Form::Tag0) || h.prnd.is_satellite())
    }
}

// 4: the data's satellite is tested in tag 0 too, though it is not carried
fn are_satellites(prna: Svn, prnd: Svn) -> bool
    ensures { result ≡ (is_satellite prna.0 && is_satellite prnd.0) }
{
    prna.is_satellite() && prnd.is_satellite()
}

// building: 4, 5, 6, 9, 7, 8
#[tactic(auto, unfolding(paper::specs::Message::build_number))]
fn build_entry(out: &[u8], form: u8, h: Heading, given: &[u8]) -> Result<Form, Refusal>
    ensures { form_answer result ≡ answer (build_number form (head_of h) given.now out.now) (form ∷ []) }
{
    if !are_satellites(h.prna, h.prnd) {
        return Err(Refusal::NoSatellite);
    }
    let time = h.gst.tow.0;
    if gst::tow_too_large(time) {
        return Err(Refusal::TowTooLarge);
    }
    if gst::not_a_start(time) {
        return Err(Refusal::NotAStart);
    }
    let form = Form::try_from(form)?;
    if !limits::status_known(h.status) {
        return Err(Refusal::UnknownCode);
    }
    let week = h.gst.wn.0;
    if week > MOST_WEEK {
        return Err(Refusal::TimeArithmetic);
    }
    if !form.allows(h.counter, given.len(), out.len()) {
        return Err(Refusal::NotAllowed);
    }
    Ok(form)
}

// The message at the start of the lent buffer, and how many bytes it has. That what is given are bytes follows from its type; it is said for
// what holds of two calls.
#[tactic(auto, using(crate::proofs::Building::behind_the_tests))]
pub fn build(out: &mut [u8], form: u8, h: Heading, given: &[u8]) -> Result<usize, Refusal>
    ensures { (built_answer result ≡ build_answer form (head_of h) given.now out.old)
        × (out.new ≡ build_buffer form (head_of h) given.now out.old)
        × Bytes given.now }
{
    let form = build_entry(out, form, h, given)?;
    let bytes = form.message_bytes();
    let head = form.head_number(h);
    packing::write(&mut out[..bytes], form.head_bytes(), head, given);
    Ok(bytes)
}

// The fields of such a number. kept: `as`, since each part fits its field by what is asked, and no `From` narrows.
#[tactic(auto, unfolding(crate::specs::Heads::head_from))]
fn heading_of(head: u64) -> Heading
    requires { head < 2 ^ 58 }
    ensures { head_of result ≡ head_from head }
{
    let counted = head / STATUSES;
    let moment = counted / COUNTERS;
    let week = moment / TIMES;
    let satellites = week / WEEKS;
    Heading {
        prnd: Svn((satellites / PRNS) as u8),
        prna: Svn((satellites % PRNS) as u8),
        gst: Gst {
            wn: Wn((week % WEEKS) as u16),
            tow: Tow((moment % TIMES) as u32),
        },
        counter: (counted % COUNTERS) as u32,
        status: (head % STATUSES) as u8,
    }
}

// reading back: 9, 8
#[tactic(auto, unfolding(crate::specs::Outcome::lengths_number))]
fn lengths_entry(out: &[u8], form: u8, message: &[u8]) -> Result<Form, Refusal>
    ensures { form_answer result ≡ answer (lengths_number form message.now out.now) (form ∷ []) }
{
    let form = Form::try_from(form)?;
    if message.len() != form.message_bytes() {
        return Err(Refusal::NotAllowed);
    }
    if out.len() < form.data_bytes() {
        return Err(Refusal::NotAllowed);
    }
    Ok(form)
}

// reading back: 4, 5, 6, 8
#[tactic(auto, unfolding(crate::specs::Outcome::fields_number))]
fn fields_entry(form: Form, h: Heading) -> Result<(), Refusal>
    ensures { reply_answer result ≡ answer (fields_number (form_code form) (head_of h)) [] }
{
    if !form.satellites_read(h) {
        return Err(Refusal::NoSatellite);
    }
    let time = h.gst.tow.0;
    if gst::tow_too_large(time) {
        return Err(Refusal::TowTooLarge);
    }
    if gst::not_a_start(time) {
        return Err(Refusal::NotAStart);
    }
    let counter = h.counter;
    if counter == 0 {
        return Err(Refusal::NotAllowed);
    }
    Ok(())
}

// The fields of a message, and its data at the start of the lent buffer; and the message are bytes.
#[tactic(auto, using(crate::proofs::Reading::behind_the_tests))]
pub fn read(out: &mut [u8], form: u8, message: &[u8]) -> Result<Heading, Refusal>
    ensures { (read_back_answer result ≡ read_answer form message.now out.old)
        × (out.new ≡ read_buffer form message.now out.old)
        × Bytes message.now }
{
    let form = lengths_entry(out, form, message)?;
    let k = form.head_bytes();
    let h = heading_of(packing::head(message, k));
    fields_entry(form, h)?;
    if message[message.len() - 1] % 2 != 0 {
        return Err(Refusal::PaddingSet);
    }
    packing::body(&mut out[..form.data_bytes()], k, message);
    Ok(h)
}
