// Texts and scripts at their limits and what is written for them, worked out by hand. 64 lines of 4,095 bytes, each
// ended, are 262,144 bytes; 64 lines of 4,096 bytes are 262,208.

use mp_cli::Status;

/// Bytes too many to be written out, and what is written for them: what stands at the front; then lines of spaces, so
/// many of so many bytes, parted by line ends; and what stands at the end.
pub(crate) type Long = (
    &'static [u8],
    &'static [(usize, usize)],
    &'static [u8],
    &'static str,
);

/// Texts. `program p; begin end.` has 21 bytes.
pub(crate) const TEXTS: &[Long] = &[
    // a line of 4,096 bytes, and of one byte more; its end is no byte of it, and a byte 13 before that is one
    (b"program p; begin end.", &[(1, 4075)], b"\n", "accepted\n"),
    (b"program p; begin end.", &[(1, 4075)], b"", "accepted\n"),
    (
        b"program p; begin end.",
        &[(1, 4075)],
        b"\r\n",
        "? 4 line 1 too long\n",
    ),
    (
        b"program p; begin end.",
        &[(1, 4076)],
        b"\n",
        "? 4 line 1 too long\n",
    ),
    (
        b"program p; begin end.",
        &[(1, 4076)],
        b"",
        "? 4 line 1 too long\n",
    ),
    // a line that fits has its errors listed, and a longer one has not
    (b"?", &[(1, 4095)], b"\n", "1:1 101 bad character\n"),
    (b"?", &[(1, 4095)], b"", "1:1 101 bad character\n"),
    (b"", &[(1, 4095)], b"?", "1:4096 101 bad character\n"),
    (b"?", &[(1, 4096)], b"\n", "? 4 line 1 too long\n"),
    (b"?", &[(1, 4096)], b"", "? 4 line 1 too long\n"),
    // a later line
    (b"\n", &[(1, 4096)], b"\n", "3:1 202 text ends too early\n"),
    (b"\n", &[(1, 4097)], b"\n", "? 4 line 2 too long\n"),
    (
        b"program p; begin end.\n",
        &[(1, 4096)],
        b"\n",
        "accepted\n",
    ),
    (
        b"program p; begin end.\n",
        &[(1, 4097)],
        b"\n",
        "? 4 line 2 too long\n",
    ),
    // 262,144 bytes, also where the last line lacks its end: that counts
    (
        b"program p; begin end.",
        &[(1, 4074), (63, 4095)],
        b"\n",
        "accepted\n",
    ),
    (
        b"program p; begin end.",
        &[(1, 4074), (63, 4095)],
        b"",
        "accepted\n",
    ),
    (
        b"program p; begin end.",
        &[(1, 4074), (63, 4095)],
        b" ",
        "? 3 text too long, 262145 bytes\n",
    ),
    // the errors of a text that fits are listed, and those of a longer one are not
    (
        b"?",
        &[(1, 4094), (63, 4095)],
        b"\n",
        "1:1 101 bad character\n",
    ),
    (
        b"?",
        &[(1, 4094), (63, 4095)],
        b"\n\n",
        "? 3 text too long, 262145 bytes\n",
    ),
    // a line that is too long is told first, also behind the byte at which the text is
    (
        b"?",
        &[(1, 4094), (63, 4095), (1, 0), (1, 4097)],
        b"\n",
        "? 4 line 66 too long\n",
    ),
];

/// Scripts at the limits of texts and lines. The bytes 13 of taken lines count.
pub(crate) const SCRIPTS: &[Long] = &[
    (b"insert 0 1\n", &[(1, 4096)], b"\n", "version 2\n"),
    (
        b"insert 0 1\n",
        &[(1, 4097)],
        b"\n",
        "? 4 line 1 too long\n",
    ),
    (
        b"insert 0 1\n",
        &[(1, 4096)],
        b"\r\n",
        "? 4 line 1 too long\n",
    ),
    (
        b"insert 0 2\na\n",
        &[(1, 4097)],
        b"\n",
        "? 4 line 2 too long\n",
    ),
    (
        b"insert 0 1\n",
        &[(1, 4096)],
        b"\nsub 1 4097 0\nx\n",
        "version 2\n? 4 line 1 too long\n",
    ),
    (b"insert 0 64\n", &[(64, 4095)], b"\n", "version 2\n"),
    (
        b"insert 0 64\n",
        &[(64, 4095)],
        b"\ninsert 64 1\n\n",
        "version 2\n? 3 text too long, 262145 bytes\n",
    ),
    (
        b"insert 0 64\n",
        &[(64, 4095)],
        b"\nsub 64 1 0\nx\n",
        "version 2\n? 3 text too long, 262145 bytes\n",
    ),
    (
        b"insert 0 64\n",
        &[(64, 4096)],
        b"\n",
        "? 3 text too long, 262208 bytes\n",
    ),
    // one refusal after another
    (
        b"delete 1 1\nback 7\nfrob\ntext\ninsert 0 1\n",
        &[(1, 4097)],
        b"\ntext\n",
        "? 2 out of range, last is 0\n? 1 no version 7\n? 20 bad command\nversion 1, 0 lines\n? 4 line 1 too long\nversion 1, 0 lines\n",
    ),
];

/// The order of the refusals 20, 25, 2, 4, 3: scripts for which two of them hold.
pub(crate) const ORDER: &[Long] = &[
    // 20 before 25
    (b"insert 0 1 x", &[], b"", "? 20 bad command\n"),
    (b"insert 0 1000000000\n", &[], b"", "? 20 bad command\n"),
    // 25 before 2, 4 and 3
    (b"insert 9 1\n", &[], b"", "? 25 script ended\n"),
    (b"insert 0 2\n", &[(1, 4097)], b"\n", "? 25 script ended\n"),
    (
        b"insert 0 65\n",
        &[(64, 4096)],
        b"\n",
        "? 25 script ended\n",
    ),
    // 2 before 4 and 3
    (
        b"insert 1 1\n",
        &[(1, 4097)],
        b"\n",
        "? 2 out of range, last is 0\n",
    ),
    (
        b"sub 1 1 0\n",
        &[(1, 4097)],
        b"\n",
        "? 2 out of range, last is 0\n",
    ),
    (
        b"insert 1 64\n",
        &[(64, 4096)],
        b"\n",
        "? 2 out of range, last is 0\n",
    ),
    // of `sub` the line before the column, and that before the count
    (b"sub 0 0 9\nx\n", &[], b"", "? 2 out of range, last is 0\n"),
    (
        b"insert 0 1\nabc\nsub 1 0 9\nx\n",
        &[],
        b"",
        "version 2\n? 2 out of range, last is 4\n",
    ),
    // 4 before 3
    (
        b"insert 0 64\n",
        &[(64, 4097)],
        b"\n",
        "? 4 line 1 too long\n",
    ),
    (
        b"insert 0 65\n",
        &[(64, 4096), (1, 4097)],
        b"\n",
        "? 4 line 65 too long\n",
    ),
];

/// The order of 25, 5, 1, 2, 4, 3, behind a script that made 4,096 versions, each of no lines.
pub(crate) const FULL_ORDER: &[Long] = &[
    (
        b"back 1\n",
        &[],
        b"text 4097\ntext 4096\n",
        "? 5 versions full\n? 1 no version 4097\nversion 4096, 0 lines\n",
    ),
    // 25 before 5
    (b"insert 0 1\n", &[], b"", "? 25 script ended\n"),
    // 5 before 1, 2, 4 and 3
    (b"back 4097\n", &[], b"", "? 5 versions full\n"),
    (b"delete 1 1\n", &[], b"", "? 5 versions full\n"),
    (b"insert 0 1\n", &[(1, 4097)], b"\n", "? 5 versions full\n"),
    (
        b"insert 0 64\n",
        &[(64, 4096)],
        b"\n",
        "? 5 versions full\n",
    ),
    // and where nothing else is wrong
    (b"insert 0 1\nx\n", &[], b"", "? 5 versions full\n"),
];

/// Words over so many spaces, how the call ends, and what it writes.
pub(crate) const SPACES: &[(&str, usize, Status, &str)] = &[
    ("list", 67_108_863, Status::Done, "? 4 line 1 too long\n"),
    ("list", 67_108_864, Status::ScriptLimit, ""),
    ("serial", 67_108_863, Status::Done, "? 20 bad command\n"),
    ("serial", 67_108_864, Status::ScriptLimit, ""),
    ("serial", 67_108_865, Status::ScriptLimit, ""),
];
