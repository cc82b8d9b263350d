// The reader's calls as C and Rust link them: each is the function of that name in `ffi_intake`, under the same contract. They are an object of
// their own in the archive, so that who reads no items links none of this.
#![tactic(auto)]

ghost use Rattle.std.specs.Prelude.{◌≡◌, false, take};
ghost use Rattle.text.specs.Text.{Put};
ghost use Rattle.intake.specs.Input.{stage_of, lines_of};
ghost use Rattle.intake.specs.Reader.{stage_in, reader_of, stage_number, Took, end_fits, stage_ended, items_ended, number_at_end};

use intake::{Closed, Heard, READER};

// A part of an input of the bench: its items' lines go into `out`. All zero is the state of a reader at the start.
#[unsafe(no_mangle)]
pub extern "C" fn dawnstook_part(
    reader: &mut [u8; READER],
    room: &mut [u8],
    bytes: &[u8],
    out: &mut [u8],
) -> Heard
    ensures took { Took false (stage_in reader.old) bytes.now room.old out.old
        room.new out.new result.took result.said }
    ensures reader_after { reader.new ≡ reader_of (stage_of (stage_in reader.old) (take result.took bytes.now)) }
    ensures number_value { result.number ≡ stage_number (stage_of (stage_in reader.old) (take result.took bytes.now)) }
{
    ffi_intake::dawnstook_part(reader, room, bytes, out)
}

// The end of an input.
#[unsafe(no_mangle)]
pub extern "C" fn dawnstook_end(reader: &mut [u8; READER], room: &[u8], out: &mut [u8]) -> Closed
    ensures reader_after { reader.new ≡ reader_of (stage_ended false out.old (stage_in reader.old)) }
    ensures number_value { (result.number ≡ number_at_end (stage_in reader.old))
        × (result.taken ≡ end_fits false out.old (stage_in reader.old)) }
    ensures put { Put out.old 0
        (lines_of false room.now (items_ended false out.old (stage_in reader.old)))
        out.new result.said }
{
    ffi_intake::dawnstook_end(reader, room, out)
}
