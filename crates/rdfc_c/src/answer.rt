//! What a caller is told of a run.

/// The status of a run whose output has more bytes than the caller has room for.
pub const NO_ROOM: u32 = 10;

/// The most bytes that a note may have.
pub const NOTE_LEN: usize = 239;

/// What a caller is told of a run.
#[repr(C)]
#[derive(Drop)]
pub struct Answer {
    /// The exit status of the program, or [`NO_ROOM`].
    pub status: u32,
    /// What a file is refused for, counted from 1 in the order of `rdfc_cli::Cause`; 0 where none is refused.
    pub cause: u32,
    /// Which file of the command the status is about, counted from 1; 0 where it is about none.
    pub file: u32,
    /// How many bytes of `note` are the note.
    pub note_len: u32,
    /// The line that a file is refused for, counted from 1; 0 where there is none.
    pub line: u64,
    /// How many bytes of the output were written.
    pub written: usize,
    /// How many bytes the output has; 0 where there is none.
    pub needed: usize,
    /// The line that the program notes, cut where it has more than [`NOTE_LEN`] bytes, and a byte 0 behind it.
    pub note: [u8; 240],
}
