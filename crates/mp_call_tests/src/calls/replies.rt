// The commands of one session and the reply to each, worked out by hand.

/// A command with the lines that it takes, each line ended, and what is written for it.
pub(crate) type Reply = (&'static str, &'static str);

pub(crate) const REPLIES: &[Reply] = &[
    ("text\n", "version 1, 0 lines\n"),
    ("insert 0 2\nprogram p;\nbegin end.\n", "version 2\n"),
    ("text\n", "version 2, 2 lines\nprogram p;\nbegin end.\n"),
    ("list\n", "accepted\n"),
    ("list 1\n", "1:1 202 text ends too early\n"),
    ("sub 1 9 1\n?\n", "version 3\n"),
    ("list\n", "1:9 101 bad character\n"),
    ("delete 3 3\n", "? 2 out of range, last is 2\n"),
    ("replace 2 2 1\nbegin x end.\n", "version 4\n"),
    ("back 2\n", "version 5\n"),
    ("text\n", "version 5, 2 lines\nprogram p;\nbegin end.\n"),
    ("text 3\n", "version 3, 2 lines\nprogram ?;\nbegin end.\n"),
    ("list 3\n", "1:9 101 bad character\n"),
    ("text 6\n", "? 1 no version 6\n"),
    ("list 0\n", "? 1 no version 0\n"),
    ("back 7\n", "? 1 no version 7\n"),
    ("input 2\n5\n\n", "input 2 lines\n"),
    ("run\n", "? 90 not built\n"),
    ("\n", ""),
    ("delete 1 1\n", "version 6\n"),
    ("list\n", "1:1 201 syntax error\n"),
    ("insert 0 1\nprogram p;\n", "version 7\n"),
    ("sub 2 10 1\n;\n", "version 8\n"),
    ("list\n", "2:10 201 syntax error\n"),
    ("sub 2 10 1\n\n", "version 9\n"),
    ("list\n", "3:1 202 text ends too early\n"),
    ("sub 2 7 0\np \n", "version 10\n"),
    ("sub 2 12 0\n. x\n", "version 11\n"),
    ("list\n", "2:14 205 text after the program\n"),
    ("sub 2 13 2\n\n", "version 12\n"),
    ("list\n", "not built at 2:7\n"),
    ("list 9\n", "3:1 202 text ends too early\n"),
];
