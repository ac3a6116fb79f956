// Texts that are too long to write down, those at the limits of the grammar, and their listings, worked out by hand. A
// line of `procedure q; forward;` declares one procedure.

/// How often each piece stands, one behind the other, and the listing of the text.
pub(crate) type Repeated = (&'static [(usize, &'static str)], &'static str);

/// Openers, blocks and declarations, each up to its limit and one past it.
#[rattlefmt::skip]
pub(crate) const LIMITS: &[Repeated] = &[
    // 128 and 129 openers of a block: 11 bytes stand before the first `begin`, and each has 6
    (&[(1, "program p; "), (128, "begin "), (128, " end"), (1, ".\n")], "not built at 1:18\n"),
    (&[(1, "program p; "), (129, "begin "), (129, " end"), (1, ".\n")], "1:780 203 nested too deep\n"),
    // with the `begin` of the statement part 127 parentheses, and 128; 22 bytes stand before the first
    (&[(1, "program p; begin x := "), (127, "("), (1, "a"), (127, ")"), (1, " end.\n")], "not built at 1:18\n"),
    (&[(1, "program p; begin x := "), (128, "("), (1, "a"), (128, ")"), (1, " end.\n")], "1:150 203 nested too deep\n"),
    // openers of types: 20 bytes stand before the first, and each `file of ` has 8
    (&[(1, "program p; type t = "), (128, "file of "), (1, "u; begin end.\n")], "not built at 1:12\n"),
    (&[(1, "program p; type t = "), (129, "file of "), (1, "u; begin end.\n")], "1:1045 203 nested too deep\n"),
    // what is no opener is wrong there, and so is an opener where none may stand
    (&[(1, "program p; "), (128, "begin "), (1, "of\n")], "1:780 201 syntax error\n"),
    (&[(1, "program p; "), (128, "begin "), (1, "packed\n")], "1:780 201 syntax error\n"),
    // and the end is no opener
    (&[(1, "program p; "), (128, "begin "), (1, "\n")], "2:1 202 text ends too early\n"),
    // 16 and 17 blocks in one another: 11 bytes stand before the first heading, and each has 13
    (&[(1, "program p; "), (15, "procedure q; "), (1, "begin end"), (15, "; begin end"), (1, ".\n")], "not built at 1:12\n"),
    (&[(1, "program p; "), (16, "procedure q; "), (1, "begin end"), (16, "; begin end"), (1, ".\n")], "1:207 203 nested too deep\n"),
    // 4,095 and 4,096 declarations: the first stands on line 2
    (&[(1, "program p;\n"), (4095, "procedure q; forward;\n"), (1, "begin end.\n")], "not built at 2:1\n"),
    (&[(1, "program p;\n"), (4096, "procedure q; forward;\n"), (1, "begin end.\n")], "4097:1 204 too many blocks\n"),
    // the 4,096th declaration in a block of depth 15, and of depth 16
    (&[(1, "program p;\n"), (4081, "procedure q; forward;\n"), (15, "procedure q;\n")], "4097:1 204 too many blocks\n"),
    (&[(1, "program p;\n"), (4080, "procedure q; forward;\n"), (16, "procedure q;\n")], "4097:1 203 nested too deep\n"),
    // behind 4,095 declarations the program ends, and the text does
    (&[(1, "program p;\n"), (4095, "procedure q; forward;\n"), (1, "begin end. procedure\n")], "4097:12 205 text after the program\n"),
    (&[(1, "program p;\n"), (4095, "procedure q; forward;\n")], "4097:1 202 text ends too early\n"),
    // in a line of 4,096 bytes, at its last
    (&[(1, "program p; "), (4084, " "), (1, ";\n")], "1:4096 201 syntax error\n"),
    // on the last of many lines; behind a `.` that ends no program, a field may follow
    (&[(1, "program p; begin end.\n"), (100_000, " \n"), (1, "  .\n")], "100002:3 205 text after the program\n"),
    (&[(1, "program p; begin x := a\n"), (50_000, "+a\n"), (1, "end of\n")], "50002:5 201 syntax error\n"),
    (&[(1, "program p; begin x := a\n"), (50_000, "+a\n"), (1, ".\n")], "50003:1 202 text ends too early\n"),
];
