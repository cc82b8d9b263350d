// The calls for the message under a tag as C and Rust link them: each is the function of that name in `ffi_message`, under the same contract.
// They are an object of their own in the archive, so that who builds no message links none of this.
#![tactic(auto)]

ghost use Rattle.std.specs.Prelude.{◌≡◌};
ghost use Rattle.paper.specs.Parts.{Bytes};
ghost use Rattle.paper.specs.Message.{build_answer, build_buffer, read_answer, read_buffer};
ghost use Rattle.ffi_message.specs.Handed.{head_given, built_handed, read_handed};

use ffi_message::{MessageBuilt, MessageRead};

// The message of a tag at the start of the lent buffer, from the data that the tag is over.
#[unsafe(no_mangle)]
pub extern "C" fn dawnstook_build_message(
    out: &mut [u8],
    given: &[u8],
    prna: u8,
    prnd: u8,
    week: u16,
    time: u32,
    form: u8,
    status: u8,
    counter: u32,
) -> MessageBuilt
    ensures { (result ≡ built_handed (build_answer form (head_given prnd prna week time counter status) given.now out.old))
        × (out.new ≡ build_buffer form (head_given prnd prna week time counter status) given.now out.old)
        × Bytes given.now }
{
    ffi_message::dawnstook_build_message(out, given, prna, prnd, week, time, form, status, counter)
}

// The fields of a message, and its data at the start of the lent buffer.
#[unsafe(no_mangle)]
pub extern "C" fn dawnstook_read_message(out: &mut [u8], message: &[u8], form: u8) -> MessageRead
    ensures { (result ≡ read_handed (read_answer form message.now out.old))
        × (out.new ≡ read_buffer form message.now out.old)
        × Bytes message.now }
{
    ffi_message::dawnstook_read_message(out, message, form)
}
