// The message under a tag for C and Rust, under plain names, in a crate of its own: what is compiled for the store's calls stays as it is, and
// who builds no message links none of this. Beside a refusal every value is 0. What is owed with a pointer from C stands in
// include/dawnstook.h. The archive has these calls from `ffi_message_c`.
#![tactic(auto)]

ghost use Rattle.std.specs.Prelude.{◌≡◌};
ghost use Rattle.paper.specs.Parts.{Bytes};
ghost use Rattle.paper.specs.Message.{build_answer, build_buffer, read_answer, read_buffer};
ghost use Rattle.message.specs.Outcome.{built_answer, read_back_answer};
ghost use Rattle.ffi_message.specs.Handed.{head_given, built_handed, read_handed};

use gst::{Gst, Tow, Wn};
use message::Heading;
use refusals::Refusal;
use svn::Svn;

// What building came to: its number, and how many bytes the message has. kept: the C interface has a struct with the number beside the value.
#[repr(C)]
#[derive(Clone, Copy)]
pub struct MessageBuilt {
    pub number: u8,
    pub bytes: usize,
}

// What reading back came to: its number, and the fields in front of the data. kept: as above.
#[repr(C)]
#[derive(Clone, Copy, Default)]
pub struct MessageRead {
    pub number: u8,
    pub prnd: u8,
    pub prna: u8,
    pub status: u8,
    pub week: u16,
    pub time: u32,
    pub counter: u32,
}

impl From<Result<usize, Refusal>> for MessageBuilt {
    ghost from_gives = { λ answer r. r ≡ built_handed (built_answer answer) };

    fn from(answer: Result<usize, Refusal>) -> MessageBuilt {
        match answer {
            Ok(bytes) => MessageBuilt { number: 0, bytes },
            Err(why) => MessageBuilt {
                number: u8::from(why),
                bytes: 0,
            },
        }
    }
}

impl From<Result<Heading, Refusal>> for MessageRead {
    ghost from_gives = { λ answer r. r ≡ read_handed (read_back_answer answer) };

    fn from(answer: Result<Heading, Refusal>) -> MessageRead {
        match answer {
            Ok(h) => MessageRead {
                number: 0,
                prnd: h.prnd.0,
                prna: h.prna.0,
                status: h.status,
                week: h.gst.wn.0,
                time: h.gst.tow.0,
                counter: h.counter,
            },
            Err(why) => MessageRead {
                number: u8::from(why),
                ..MessageRead::default()
            },
        }
    }
}

// The message of a tag at the start of the lent buffer, from the data that the tag is over.
#[unsafe(no_mangle)]
pub extern "C" fn dawnstook_build_message(
    out: &mut [u8],
    given: &[u8],
    prna: u8,
    prnd: u8,
    week: u16,
    time: u32,
    form: u8,
    status: u8,
    counter: u32,
) -> MessageBuilt
    ensures { (result ≡ built_handed (build_answer form (head_given prnd prna week time counter status) given.now out.old))
        × (out.new ≡ build_buffer form (head_given prnd prna week time counter status) given.now out.old)
        × Bytes given.now }
{
    let heading = Heading {
        prnd: Svn(prnd),
        prna: Svn(prna),
        gst: Gst {
            wn: Wn(week),
            tow: Tow(time),
        },
        counter,
        status,
    };
    message::build(out, form, heading, given).into()
}

// The fields of a message, and its data at the start of the lent buffer.
#[unsafe(no_mangle)]
pub extern "C" fn dawnstook_read_message(out: &mut [u8], message: &[u8], form: u8) -> MessageRead
    ensures { (result ≡ read_handed (read_answer form message.now out.old))
        × (out.new ≡ read_buffer form message.now out.old)
        × Bytes message.now }
{
    message::read(out, form, message).into()
}
