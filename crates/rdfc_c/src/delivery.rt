//! What of a run goes into memory of the caller.

ghost use Rattle.std.specs.Prelude.{◌≡◌, ℕ, ◌≤◌, min, length, take};
ghost use Rattle.rdfc_c.specs.Answers.{IsFitted, IsDelivered, cause_number, cause_line, cause_of, line_of, file_of, HasNote, delivery_of};

use crate::answer::{Answer, NO_ROOM, NOTE_LEN};
use rdfc_cli::{Cause, Status};

// How a run ends for the caller: the status, how many bytes were written, and how many the output has.
#[derive(Clone, Copy)]
pub(crate) struct Delivery {
    pub(crate) status: u32,
    pub(crate) written: usize,
    pub(crate) needed: usize,
}

// Writes the text where it fits.
fn fit(code: u8, text: &[u8], out: &mut [u8]) -> Delivery
    ensures { IsFitted code text.now out.old out.new result }
{
    let needed = text.len();
    if out.len() < needed {
        return Delivery {
            status: NO_ROOM,
            written: 0,
            needed,
        };
    }
    out[..needed].copy_from_slice(text);
    Delivery {
        status: code as u32,
        written: needed,
        needed,
    }
}

// Writes the text of a run that put it whole, where it fits.
pub(crate) fn deliver(status: &Status, text: &[u8], out: &mut [u8]) -> Delivery
    ensures { IsDelivered status.now text.now out.old out.new result }
{
    let code = status.code();
    match status {
        Status::Done | Status::Unsettled(_) => fit(code, text, out),
        _ => Delivery {
            status: code as u32,
            written: 0,
            needed: 0,
        },
    }
}

fn number_of(cause: Cause) -> u32
    ensures { result ≡ cause_number cause }
{
    match cause {
        Cause::TooLong => 1,
        Cause::NotUtf8 { .. } => 2,
        Cause::BadLine { .. } => 3,
        Cause::RelativeIri { .. } => 4,
        Cause::BadTrig { .. } => 5,
        Cause::UnknownPrefix { .. } => 6,
        Cause::NoBase { .. } => 7,
        Cause::TooManyQuads => 8,
        Cause::NotOneGraph => 9,
    }
}

fn line_in(cause: Cause) -> u64
    ensures { result ≡ cause_line cause }
{
    match cause {
        Cause::NotUtf8 { line } => line,
        Cause::BadLine { line } => line,
        Cause::RelativeIri { line } => line,
        Cause::BadTrig { line } => line,
        Cause::UnknownPrefix { line } => line,
        Cause::NoBase { line } => line,
        Cause::TooLong | Cause::TooManyQuads | Cause::NotOneGraph => 0,
    }
}

fn cause_told(status: &Status) -> u32
    ensures { result ≡ cause_of status.now }
{
    match status {
        Status::Refused(refusal) => number_of(refusal.cause),
        _ => 0,
    }
}

fn line_told(status: &Status) -> u64
    ensures { result ≡ line_of status.now }
{
    match status {
        Status::Refused(refusal) => line_in(refusal.cause),
        _ => 0,
    }
}

fn file_told(status: &Status) -> u32
    ensures { result ≡ file_of status.now }
{
    match status {
        Status::Refused(refusal) => refusal.file as u32 + 1,
        Status::ReadFault { file } => *file as u32 + 1,
        Status::WorkLimit { file, .. } => *file as u32 + 1,
        Status::SearchLimit { .. } => 1,
        _ => 0,
    }
}

// Copies the front of a note, as much as there is room for before the byte 0 that ends it.
fn tell_note(note: &[u8], answer: &mut Answer)
    ensures note { HasNote note.now answer.new }
    ensures rest { answer.new ≡ record answer.old { note_len = answer.new.note_len; note = answer.new.note } }
{
    let len = note.len().min(NOTE_LEN);
    answer.note[..len].copy_from_slice(&note[..len]);
    answer.note[len] = 0;
    answer.note_len = len as u32;
}

// Tells the caller how the run ended.
pub(crate) fn tell(status: &Status, delivery: Delivery, note: &[u8], answer: &mut Answer)
    ensures delivery { delivery_of answer.new ≡ delivery }
    ensures cause { answer.new.cause ≡ cause_of status.now }
    ensures file { answer.new.file ≡ file_of status.now }
    ensures line { answer.new.line ≡ line_of status.now }
    ensures note { HasNote note.now answer.new }
{
    answer.status = delivery.status;
    answer.written = delivery.written;
    answer.needed = delivery.needed;
    answer.cause = cause_told(status);
    answer.file = file_told(status);
    answer.line = line_told(status);
    tell_note(note, answer);
}
