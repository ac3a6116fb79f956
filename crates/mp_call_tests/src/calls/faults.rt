// Reads and writes that fail, worked out by hand: how a call ends, what it writes and how many bytes it takes.

use mp_cli::Status;

/// The numbers of the reads and of the writes that fail, and then the status, what is written, and how many bytes are
/// taken.
pub(crate) type Fault = (&'static [u32], &'static [u32], Status, &'static str, u64);

/// A text of 21 bytes in pieces. The third read finds the end, and there is one write.
pub(crate) const TEXT: &[&str] = &["program p; ", "", "begin end."];

pub(crate) const TEXT_FAULTS: &[Fault] = &[
    (&[1], &[], Status::ReadFault, "", 0),
    (&[2], &[], Status::ReadFault, "", 11),
    (&[3], &[], Status::ReadFault, "", 21),
    (&[4], &[2], Status::Done, "accepted\n", 21),
    (&[], &[1], Status::WriteFault, "", 21),
    (&[3], &[1], Status::ReadFault, "", 21),
];

/// A script of 51 bytes in pieces of 11, 25, 9 and 6: four commands, of which the last one is not ended. Each is
/// answered before the next piece is read. The fifth read finds the end, and there are four writes.
pub(crate) const SCRIPT: &[&str] = &[
    "insert 0 1\n",
    "program p; begin end.\nlis",
    "t 2\nfrob\n",
    "text 1",
];

const AFTER_INSERT: &str = "version 2\n";

const AFTER_LIST: &str = "version 2\naccepted\n";

const AFTER_FROB: &str = "version 2\naccepted\n? 20 bad command\n";

const AFTER_TEXT: &str = "version 2\naccepted\n? 20 bad command\nversion 1, 0 lines\n";

pub(crate) const SCRIPT_FAULTS: &[Fault] = &[
    (&[1], &[], Status::ReadFault, "", 0),
    (&[2], &[], Status::ReadFault, "", 11),
    (&[3], &[], Status::ReadFault, AFTER_INSERT, 36),
    (&[4], &[], Status::ReadFault, AFTER_FROB, 45),
    (&[5], &[], Status::ReadFault, AFTER_FROB, 51),
    (&[], &[], Status::Done, AFTER_TEXT, 51),
    (&[], &[1], Status::WriteFault, "", 36),
    (&[], &[2], Status::WriteFault, AFTER_INSERT, 45),
    (&[], &[3], Status::WriteFault, AFTER_LIST, 45),
    (&[], &[4], Status::WriteFault, AFTER_FROB, 51),
    (&[6], &[5], Status::Done, AFTER_TEXT, 51),
];

/// Two lines and a front of a third in one piece of 35 bytes.
pub(crate) const FRONT: &[&str] = &["insert 0 1\nprogram p; begin end.\nli"];

pub(crate) const FRONT_FAULTS: &[Fault] = &[
    (&[2], &[], Status::ReadFault, "version 2\n", 35),
    (&[], &[1], Status::WriteFault, "", 35),
    (&[2], &[1], Status::WriteFault, "", 35),
];

/// A script of 11, 22, 5 and 5 bytes, which comes byte by byte: read k brings byte k, and none comes after the 43rd.
pub(crate) const BYTES: &[u8] = b"insert 0 1\nprogram p; begin end.\nlist\nquit\n";

/// From this read on, up to the next row's, what comes where that read fails.
pub(crate) const BYTES_READS: &[(u32, Status, &str)] = &[
    (1, Status::ReadFault, ""),
    (34, Status::ReadFault, "version 2\n"),
    (39, Status::ReadFault, "version 2\naccepted\n"),
    (44, Status::Done, "version 2\naccepted\n"),
    (45, Status::Done, ""),
];

/// What comes where this write fails, and how many bytes are taken: those up to the end of the command.
pub(crate) const BYTES_WRITES: &[(u32, Status, &str, u64)] = &[
    (1, Status::WriteFault, "", 33),
    (2, Status::WriteFault, "version 2\n", 38),
    (3, Status::Done, "version 2\naccepted\n", 43),
];
