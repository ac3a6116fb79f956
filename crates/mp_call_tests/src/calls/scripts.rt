// Small scripts and what a session writes for them, worked out by hand from the rules of docs/COMMANDS.md and never
// taken from a program's output. The comment above a row, or above rows of one kind, says the rule that they show.
// Scripts at the limits are too long to stand here: they are in limits.rt.

use super::Row;

/// Lines of a script: words between spaces and tabs; a byte 13 at the end of a command line is dropped once.
const LINES: &[Row] = &[
    // no line at all
    (b"", ""),
    // a line without a word does nothing
    (b"\n\n", ""),
    (b" \t \n\t\n", ""),
    (b"   ", ""),
    // version 1 is the empty text
    (b"text\n", "version 1, 0 lines\n"),
    // a last line without its line end counts
    (b"text", "version 1, 0 lines\n"),
    (b"text\ntext 1", "version 1, 0 lines\nversion 1, 0 lines\n"),
    // spaces and tabs before, between and behind the words
    (b" \ttext\t 1 \t\n", "version 1, 0 lines\n"),
    // a byte 13 at the end does not count
    (b"text\r\n", "version 1, 0 lines\n"),
    (b"text 1 \r\n", "version 1, 0 lines\n"),
    (b"text\r", "version 1, 0 lines\n"),
    (b"\r\n\r", ""),
    // a second one does, and is part of a word
    (b"text\r\r\n", "? 20 bad command\n"),
    (b"text \r\r\n", "? 20 bad command\n"),
    (b"\r\r\n", "? 20 bad command\n"),
    // so does one in another place
    (b"\rtext\n", "? 20 bad command\n"),
    (b"text\r1\n", "? 20 bad command\n"),
    // other blank bytes separate no words
    (b"text\x0c\n", "? 20 bad command\n"),
    (b"text\x0b1\n", "? 20 bad command\n"),
    (b"\x00\n", "? 20 bad command\n"),
    // command words are in lower case
    (
        b"TEXT\nText\nQUIT\ntext\n",
        "? 20 bad command\n? 20 bad command\n? 20 bad command\nversion 1, 0 lines\n",
    ),
    // a word that is no command word, also where one begins it or it begins one
    (
        b"frob\ntexts\ntex\ntext1\n",
        "? 20 bad command\n? 20 bad command\n? 20 bad command\n? 20 bad command\n",
    ),
    // there are no comments and no second command on a line
    (
        b"# text\ntext; text\n",
        "? 20 bad command\n? 20 bad command\n",
    ),
];

/// Command lines have at most 255 bytes, without the byte 13 at their end; taken lines may have more.
const LENGTHS: &[Row] = &[
    // 255 spaces, and 256
    (
        b"                                                                                                                                                                                                                                                               \n",
        "",
    ),
    (
        b"                                                                                                                                                                                                                                                                \n",
        "? 20 bad command\n",
    ),
    // `text` and 251 spaces, and one space more
    (
        b"text                                                                                                                                                                                                                                                           \n",
        "version 1, 0 lines\n",
    ),
    (
        b"text                                                                                                                                                                                                                                                            \n",
        "? 20 bad command\n",
    ),
    // the byte 13 is dropped before the bytes are counted
    (
        b"text                                                                                                                                                                                                                                                           \r\n",
        "version 1, 0 lines\n",
    ),
    (
        b"text                                                                                                                                                                                                                                                            \r\n",
        "? 20 bad command\n",
    ),
    // a last line without its line end
    (
        b"text                                                                                                                                                                                                                                                           ",
        "version 1, 0 lines\n",
    ),
    (
        b"text                                                                                                                                                                                                                                                            ",
        "? 20 bad command\n",
    ),
    // a line that is too long takes no lines, so `text` is a command
    (
        b"insert 0 1                                                                                                                                                                                                                                                      \ntext\n",
        "? 20 bad command\nversion 1, 0 lines\n",
    ),
    // a taken line of 256 bytes
    (
        b"insert 0 1\nxxxxxxxxxxxxxxxxxxxxxxxxxxxxxxxxxxxxxxxxxxxxxxxxxxxxxxxxxxxxxxxxxxxxxxxxxxxxxxxxxxxxxxxxxxxxxxxxxxxxxxxxxxxxxxxxxxxxxxxxxxxxxxxxxxxxxxxxxxxxxxxxxxxxxxxxxxxxxxxxxxxxxxxxxxxxxxxxxxxxxxxxxxxxxxxxxxxxxxxxxxxxxxxxxxxxxxxxxxxxxxxxxxxxxxxxxxxxxxxxxxxxxxxxxxxxxxxx\ntext\n",
        "version 2\nversion 2, 1 lines\nxxxxxxxxxxxxxxxxxxxxxxxxxxxxxxxxxxxxxxxxxxxxxxxxxxxxxxxxxxxxxxxxxxxxxxxxxxxxxxxxxxxxxxxxxxxxxxxxxxxxxxxxxxxxxxxxxxxxxxxxxxxxxxxxxxxxxxxxxxxxxxxxxxxxxxxxxxxxxxxxxxxxxxxxxxxxxxxxxxxxxxxxxxxxxxxxxxxxxxxxxxxxxxxxxxxxxxxxxxxxxxxxxxxxxxxxxxxxxxxxxxxxxxxxxxxxxxxx\n",
    ),
];

/// A number is 1 to 9 digits; a command has just the numbers of its form.
const NUMBERS: &[Row] = &[
    // leading zeros do not count, and the value is told
    (b"back 000000001\n", "version 2\n"),
    (b"back 007\n", "? 1 no version 7\n"),
    (b"input 001\na\n", "input 1 lines\n"),
    // the greatest number, and one digit more
    (b"back 999999999\n", "? 1 no version 999999999\n"),
    (
        b"back 1000000000\nback 0000000001\n",
        "? 20 bad command\n? 20 bad command\n",
    ),
    // signs, letters and other marks are no part of a number
    (
        b"back +1\nback -1\nback 1.\nback 1,\nback 1x\nback one\n",
        "? 20 bad command\n? 20 bad command\n? 20 bad command\n? 20 bad command\n? 20 bad command\n? 20 bad command\n",
    ),
    // a number too few
    (
        b"insert 0\ndelete 1\nreplace 1 1\nsub 1 1\nback\ninput\n",
        "? 20 bad command\n? 20 bad command\n? 20 bad command\n? 20 bad command\n? 20 bad command\n? 20 bad command\n",
    ),
    // a number too many
    (
        b"insert 0 0 0\ndelete 1 1 1\nreplace 1 1 1 1\nsub 1 1 0 1\n",
        "? 20 bad command\n? 20 bad command\n? 20 bad command\n? 20 bad command\n",
    ),
    (
        b"back 1 1\ntext 1 1\nlist 1 1\ninput 0 0\nquit 1\n",
        "? 20 bad command\n? 20 bad command\n? 20 bad command\n? 20 bad command\n? 20 bad command\n",
    ),
    // no word may take the place of a number
    (
        b"insert x 0\ninsert 0 x\nreplace 1 1 x\ntext x\n",
        "? 20 bad command\n? 20 bad command\n? 20 bad command\n? 20 bad command\n",
    ),
];

/// Each edit makes a new version of the current one, the last one made.
const EDITS: &[Row] = &[
    // `insert` before the first line, between two and after the last
    (
        b"insert 0 1\na\ntext\n",
        "version 2\nversion 2, 1 lines\na\n",
    ),
    (
        b"insert 0 1\nb\ninsert 0 1\na\ntext\n",
        "version 2\nversion 3\nversion 3, 2 lines\na\nb\n",
    ),
    (
        b"insert 0 2\na\nc\ninsert 1 1\nb\ntext\n",
        "version 2\nversion 3\nversion 3, 3 lines\na\nb\nc\n",
    ),
    (
        b"insert 0 1\na\ninsert 1 2\nb\nc\ntext\n",
        "version 2\nversion 3\nversion 3, 3 lines\na\nb\nc\n",
    ),
    // no lines at all make a new version, too
    (b"insert 0 0\ntext\n", "version 2\nversion 2, 0 lines\n"),
    // lines of no bytes are lines
    (
        b"insert 0 2\n\n\ntext\n",
        "version 2\nversion 2, 2 lines\n\n\n",
    ),
    // a taken line keeps its spaces and its byte 13
    (
        b"insert 0 1\n  a \t\ntext\n",
        "version 2\nversion 2, 1 lines\n  a \t\n",
    ),
    (
        b"insert 0 1\r\na\r\ntext\r\n",
        "version 2\nversion 2, 1 lines\na\r\n",
    ),
    (
        b"insert 0 1\n\r\ntext\n",
        "version 2\nversion 2, 1 lines\n\r\n",
    ),
    // a taken line is no command, whatever it says
    (
        b"insert 0 2\nquit\nfrob\ntext\n",
        "version 2\nversion 2, 2 lines\nquit\nfrob\n",
    ),
    // the last line that is taken may lack its line end
    (b"insert 0 1\na", "version 2\n"),
    // `delete` of the first line, one between, the last, the last two, and all
    (
        b"insert 0 3\na\nb\nc\ndelete 1 1\ntext\n",
        "version 2\nversion 3\nversion 3, 2 lines\nb\nc\n",
    ),
    (
        b"insert 0 3\na\nb\nc\ndelete 2 2\ntext\n",
        "version 2\nversion 3\nversion 3, 2 lines\na\nc\n",
    ),
    (
        b"insert 0 3\na\nb\nc\ndelete 3 3\ntext\n",
        "version 2\nversion 3\nversion 3, 2 lines\na\nb\n",
    ),
    (
        b"insert 0 3\na\nb\nc\ndelete 2 3\ntext\n",
        "version 2\nversion 3\nversion 3, 1 lines\na\n",
    ),
    (
        b"insert 0 3\na\nb\nc\ndelete 1 3\ntext\n",
        "version 2\nversion 3\nversion 3, 0 lines\n",
    ),
    // `replace` by as many lines, by more, by fewer and by none
    (
        b"insert 0 3\na\nb\nc\nreplace 2 2 1\nx\ntext\n",
        "version 2\nversion 3\nversion 3, 3 lines\na\nx\nc\n",
    ),
    (
        b"insert 0 3\na\nb\nc\nreplace 3 3 2\nx\ny\ntext\n",
        "version 2\nversion 3\nversion 3, 4 lines\na\nb\nx\ny\n",
    ),
    (
        b"insert 0 3\na\nb\nc\nreplace 1 3 1\nx\ntext\n",
        "version 2\nversion 3\nversion 3, 1 lines\nx\n",
    ),
    (
        b"insert 0 3\na\nb\nc\nreplace 1 2 0\ntext\n",
        "version 2\nversion 3\nversion 3, 1 lines\nc\n",
    ),
];

/// `sub` puts the taken line in place of bytes of one line.
const SUBSTITUTIONS: &[Row] = &[
    // before the first column, and at the column just past the end
    (
        b"insert 0 1\nabc\nsub 1 1 0\nx\ntext\n",
        "version 2\nversion 3\nversion 3, 1 lines\nxabc\n",
    ),
    (
        b"insert 0 1\nabc\nsub 1 4 0\nx\ntext\n",
        "version 2\nversion 3\nversion 3, 1 lines\nabcx\n",
    ),
    // the first byte, one between, the last, and all
    (
        b"insert 0 1\nabc\nsub 1 1 1\nx\ntext\n",
        "version 2\nversion 3\nversion 3, 1 lines\nxbc\n",
    ),
    (
        b"insert 0 1\nabc\nsub 1 2 1\nxyz\ntext\n",
        "version 2\nversion 3\nversion 3, 1 lines\naxyzc\n",
    ),
    (
        b"insert 0 1\nabc\nsub 1 3 1\nx\ntext\n",
        "version 2\nversion 3\nversion 3, 1 lines\nabx\n",
    ),
    (
        b"insert 0 1\nabc\nsub 1 1 3\nx\ntext\n",
        "version 2\nversion 3\nversion 3, 1 lines\nx\n",
    ),
    // by nothing: all bytes, and none
    (
        b"insert 0 1\nabc\nsub 1 1 3\n\ntext\n",
        "version 2\nversion 3\nversion 3, 1 lines\n\n",
    ),
    (
        b"insert 0 1\nabc\nsub 1 2 0\n\ntext\n",
        "version 2\nversion 3\nversion 3, 1 lines\nabc\n",
    ),
    // a line of no bytes has column 1
    (
        b"insert 0 1\n\nsub 1 1 0\nx\ntext\n",
        "version 2\nversion 3\nversion 3, 1 lines\nx\n",
    ),
    // the other lines stay
    (
        b"insert 0 3\na\nb\nc\nsub 2 1 1\nx\ntext\n",
        "version 2\nversion 3\nversion 3, 3 lines\na\nx\nc\n",
    ),
    // the taken line keeps its byte 13, which is then a byte of the line with a column
    (
        b"insert 0 1\nab\nsub 1 3 0\nc\r\nsub 1 4 1\nd\ntext\n",
        "version 2\nversion 3\nversion 4\nversion 4, 1 lines\nabcd\n",
    ),
    // a column is a byte: the first letter has two bytes
    (
        b"insert 0 1\n\xc3\xa9x\nsub 1 3 1\ny\ntext\n",
        "version 2\nversion 3\nversion 3, 1 lines\n\u{e9}y\n",
    ),
    // columns 0 and 5 of a line of three bytes: the last is 4
    (
        b"insert 0 1\nabc\nsub 1 0 0\nx\nsub 1 5 0\nx\n",
        "version 2\n? 2 out of range, last is 4\n? 2 out of range, last is 4\n",
    ),
    // at column c of such a line the last count is 4 - c
    (
        b"insert 0 1\nabc\nsub 1 1 4\nx\nsub 1 3 2\nx\nsub 1 4 1\nx\n",
        "version 2\n? 2 out of range, last is 3\n? 2 out of range, last is 1\n? 2 out of range, last is 0\n",
    ),
    (
        b"insert 0 1\nabc\nsub 1 2 999999999\nx\n",
        "version 2\n? 2 out of range, last is 2\n",
    ),
    // lines 0 and 3 of two
    (
        b"insert 0 2\nabc\nd\nsub 0 1 0\nx\nsub 3 1 0\nx\n",
        "version 2\n? 2 out of range, last is 2\n? 2 out of range, last is 2\n",
    ),
    // the line is tested before the column, and the column before the count
    (
        b"insert 0 2\nabc\nd\nsub 0 0 9\nx\nsub 1 0 9\nx\nsub 1 9 9\nx\n",
        "version 2\n? 2 out of range, last is 2\n? 2 out of range, last is 4\n? 2 out of range, last is 4\n",
    ),
];

/// Versions count from 1, and none is ever lost.
const VERSIONS: &[Row] = &[
    // `back` makes a new version
    (
        b"insert 0 1\na\nback 1\ntext\n",
        "version 2\nversion 3\nversion 3, 0 lines\n",
    ),
    (
        b"insert 0 1\na\ndelete 1 1\nback 2\ntext\n",
        "version 2\nversion 3\nversion 4\nversion 4, 1 lines\na\n",
    ),
    // also of the current version
    (
        b"back 1\nback 2\ntext 3\n",
        "version 2\nversion 3\nversion 3, 0 lines\n",
    ),
    // edits work on the version that `back` made
    (
        b"insert 0 1\na\ninsert 1 1\nb\nback 2\ninsert 1 1\nc\ntext\n",
        "version 2\nversion 3\nversion 4\nversion 5\nversion 5, 2 lines\na\nc\n",
    ),
    // `text` of old versions
    (
        b"insert 0 1\na\nreplace 1 1 1\nb\ntext 1\ntext 2\ntext 3\n",
        "version 2\nversion 3\nversion 1, 0 lines\nversion 2, 1 lines\na\nversion 3, 1 lines\nb\n",
    ),
    // versions that are not there
    (
        b"text 0\ntext 2\nlist 0\nlist 2\nback 0\nback 2\n",
        "? 1 no version 0\n? 1 no version 2\n? 1 no version 0\n? 1 no version 2\n? 1 no version 0\n? 1 no version 2\n",
    ),
    // `text` and `list` of an old version leave the current one as it is
    (
        b"insert 0 1\na\ntext 1\nlist 1\ntext\n",
        "version 2\nversion 1, 0 lines\n1:1 202 text ends too early\nversion 2, 1 lines\na\n",
    ),
];

/// `list` writes the listing of a version.
const LISTINGS: &[Row] = &[
    // the empty text ends at 1:1
    (b"list\n", "1:1 202 text ends too early\n"),
    // the empty program
    (
        b"insert 0 1\nprogram p; begin end.\nlist\n",
        "version 2\naccepted\n",
    ),
    // over lines, and with bytes 13 in them
    (
        b"insert 0 3\r\nprogram p;\r\nbegin\r\nend.\r\nlist\r\n",
        "version 2\naccepted\n",
    ),
    // the first token that departs from the empty program
    (
        b"insert 0 2\nprogram p;\nbegin x end.\nlist\n",
        "version 2\nnot built at 2:7\n",
    ),
    // a program whose last `.` is missing, wrong, put right, and followed by another token
    (
        b"insert 0 2\nprogram p;\nbegin end\nlist\nsub 2 10 0\n;\nlist\nsub 2 10 1\n.\nlist\ninsert 2 1\nend\nlist\nlist 2\n",
        "version 2\n3:1 202 text ends too early\nversion 3\n2:10 201 syntax error\nversion 4\naccepted\nversion 5\n3:1 205 text after the program\n3:1 202 text ends too early\n",
    ),
    // a token that is no statement, and behind it a lexical error, which is told alone
    (
        b"insert 0 1\nprogram p; begin of end.\nlist\nsub 1 24 1\n?\nlist\n",
        "version 2\n1:18 201 syntax error\nversion 3\n1:24 101 bad character\n",
    ),
    // a lexical error, and its repair
    (
        b"insert 0 1\nprogram p; begin end?\nlist\nsub 1 21 1\n.\nlist\nlist 2\n",
        "version 2\n1:21 101 bad character\nversion 3\naccepted\n1:21 101 bad character\n",
    ),
    // every lexical error has a line
    (
        b"insert 0 2\n1.5\n''\nlist\n",
        "version 2\n1:1 106 real number\n2:1 104 empty string\n",
    ),
    // a comment that takes the rest of the text, and versions behind it
    (
        b"insert 0 5\nprogram p;\nprocedure a; begin end;\nprocedure b; begin end;\nprocedure c; begin end;\nbegin a end.\nlist\nsub 2 14 0\n{\nlist\nback 2\nlist 3\nlist 9\n",
        "version 2\nnot built at 2:1\nversion 3\n2:14 102 comment not closed\nversion 4\n2:14 102 comment not closed\n? 1 no version 9\n",
    ),
];

/// `input` takes lines, and makes no version.
const INPUTS: &[Row] = &[
    (b"input 2\na\nb\n", "input 2 lines\n"),
    (b"input 1\na", "input 1 lines\n"),
    (b"input 0\ntext\n", "input 0 lines\nversion 1, 0 lines\n"),
    // each `input` takes the place of the one before
    (
        b"input 2\na\nb\ninput 1\n\n",
        "input 2 lines\ninput 1 lines\n",
    ),
    // its lines are no commands
    (
        b"input 2\nquit\ninsert 0 1\ntext\n",
        "input 2 lines\nversion 1, 0 lines\n",
    ),
];

/// A refused command writes one line and changes nothing; its lines are taken.
const REFUSALS: &[Row] = &[
    // in an empty text the last line is 0
    (
        b"insert 1 0\ndelete 1 1\nreplace 1 1 0\nsub 1 1 0\n\n",
        "? 2 out of range, last is 0\n? 2 out of range, last is 0\n? 2 out of range, last is 0\n? 2 out of range, last is 0\n",
    ),
    // `insert` after a line that is not there
    (
        b"insert 0 1\na\ninsert 2 1\nb\ninsert 999999999 0\n",
        "version 2\n? 2 out of range, last is 1\n? 2 out of range, last is 1\n",
    ),
    // lines from 0, to one past the last, and in the wrong order
    (
        b"insert 0 2\na\nb\ndelete 0 1\ndelete 2 3\ndelete 2 1\ndelete 3 3\n",
        "version 2\n? 2 out of range, last is 2\n? 2 out of range, last is 2\n? 2 out of range, last is 2\n? 2 out of range, last is 2\n",
    ),
    (
        b"insert 0 2\na\nb\nreplace 0 1 0\nreplace 2 3 0\nreplace 2 1 0\nreplace 3 3 0\n",
        "version 2\n? 2 out of range, last is 2\n? 2 out of range, last is 2\n? 2 out of range, last is 2\n? 2 out of range, last is 2\n",
    ),
    // the lines of a refused command are no commands
    (
        b"insert 9 1\nquit\ntext\n",
        "? 2 out of range, last is 0\nversion 1, 0 lines\n",
    ),
    (
        b"replace 1 1 2\nquit\nquit\ntext\n",
        "? 2 out of range, last is 0\nversion 1, 0 lines\n",
    ),
    (
        b"sub 0 0 0\nquit\ntext\n",
        "? 2 out of range, last is 0\nversion 1, 0 lines\n",
    ),
    // a refusal makes no version, and the next one has the next number
    (
        b"insert 9 0\nback 9\ninsert 0 0\ntext\n",
        "? 2 out of range, last is 0\n? 1 no version 9\nversion 2\nversion 2, 0 lines\n",
    ),
    // a bad command takes no lines
    (
        b"insert 0 1 x\ntext\n",
        "? 20 bad command\nversion 1, 0 lines\n",
    ),
    (b"sub 1 1\nquit\ntext\n", "? 20 bad command\n"),
];

/// The end of the script, or `quit`.
const ENDS: &[Row] = &[
    // the end before the lines that a command takes
    (b"insert 0 1", "? 25 script ended\n"),
    (b"insert 0 1\n", "? 25 script ended\n"),
    (b"insert 0 2\na\n", "? 25 script ended\n"),
    (b"insert 0 2\na", "? 25 script ended\n"),
    (b"replace 1 1 1\n", "? 25 script ended\n"),
    (b"sub 1 1 0\n", "? 25 script ended\n"),
    (b"input 1\n", "? 25 script ended\n"),
    // a line of no bytes that is ended is a line
    (b"insert 0 1\n\n", "version 2\n"),
    // a great count takes all lines there are
    (
        b"insert 0 999999999\na\nquit\ntext\n",
        "? 25 script ended\n",
    ),
    (
        b"text\ninput 999999999\n",
        "version 1, 0 lines\n? 25 script ended\n",
    ),
    // the end is told before a number that is out of range
    (b"insert 9 1\n", "? 25 script ended\n"),
    (b"replace 9 0 2\na\n", "? 25 script ended\n"),
    (b"sub 0 0 0", "? 25 script ended\n"),
    // a count of 0 waits for no line
    (b"insert 9 0", "? 2 out of range, last is 0\n"),
    // nothing is read after `quit`
    (b"quit\n", ""),
    (b"text\nquit\ntext\nfrob\n", "version 1, 0 lines\n"),
    (b"quit", ""),
    (b" \tquit \r\ntext\n", ""),
    (b"frob\nquit\ninsert 0 1\n", "? 20 bad command\n"),
    // a `quit` among taken lines is none, and one behind them is
    (b"insert 0 1\nquit\nquit\ntext\n", "version 2\n"),
];

/// Commands of later stages: their form is tested, and nothing else.
const LATER: &[Row] = &[
    (b"ready\n", "? 90 not built\n"),
    (b"run\nrun 5\n", "? 90 not built\n? 90 not built\n"),
    (b"go\ngo 5\n", "? 90 not built\n? 90 not built\n"),
    (b"step\nstep 5\n", "? 90 not built\n? 90 not built\n"),
    (b"break 1\nclear 1\n", "? 90 not built\n? 90 not built\n"),
    (
        b"where\nkill\nshow x\n",
        "? 90 not built\n? 90 not built\n? 90 not built\n",
    ),
    // the values of their numbers do not count yet
    (
        b"run 0\ngo 999999999\nbreak 0\nclear 262145\n",
        "? 90 not built\n? 90 not built\n? 90 not built\n? 90 not built\n",
    ),
    // lines of no command's form
    (
        b"ready 1\nrun 1 1\nrun x\ngo -1\nstep 1000000000\n",
        "? 20 bad command\n? 20 bad command\n? 20 bad command\n? 20 bad command\n? 20 bad command\n",
    ),
    (
        b"break\nclear\nbreak 1 1\nwhere 1\nkill 1\nshow\n",
        "? 20 bad command\n? 20 bad command\n? 20 bad command\n? 20 bad command\n? 20 bad command\n? 20 bad command\n",
    ),
    // accesses: fields, pointers and indexes, in either spelling, with blanks and comments
    (
        b"show a.b\nshow p^.q@\nshow a[1]\nshow a(.1.)\nshow\ta [ 1 , 2 ] [3]\nshow a{c}.b\n",
        "? 90 not built\n? 90 not built\n? 90 not built\n? 90 not built\n? 90 not built\n? 90 not built\n",
    ),
    // indexes: a number with an optional sign, a character, a name
    (
        b"show a[-1]\nshow a[+1]\nshow a['c']\nshow a[red]\nshow a[2147483647]\n",
        "? 90 not built\n? 90 not built\n? 90 not built\n? 90 not built\n? 90 not built\n",
    ),
    // no accesses
    (
        b"show 1\nshow end\nshow a b\nshow a.\nshow a.1\nshow ^\n",
        "? 20 bad command\n? 20 bad command\n? 20 bad command\n? 20 bad command\n? 20 bad command\n? 20 bad command\n",
    ),
    (
        b"show a[]\nshow a[1\nshow a[1,]\nshow a[-c]\nshow a[1+1]\nshow a['cd']\n",
        "? 20 bad command\n? 20 bad command\n? 20 bad command\n? 20 bad command\n? 20 bad command\n? 20 bad command\n",
    ),
    // a lexical error
    (
        b"show a?\nshow a[2147483648]\nshow a{\nshow a['c]\n",
        "? 20 bad command\n? 20 bad command\n? 20 bad command\n? 20 bad command\n",
    ),
    // one refusal after another, in a new session
    (
        b"delete 1 1\nback 7\nfrob\ngo\ntext\n",
        "? 2 out of range, last is 0\n? 1 no version 7\n? 20 bad command\n? 90 not built\nversion 1, 0 lines\n",
    ),
];

/// All tables.
pub(crate) const TABLES: [&[Row]; 11] = [
    LINES,
    LENGTHS,
    NUMBERS,
    EDITS,
    SUBSTITUTIONS,
    VERSIONS,
    LISTINGS,
    INPUTS,
    REFUSALS,
    ENDS,
    LATER,
];
