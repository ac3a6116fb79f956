// Texts and their listings, worked out by hand from the grammar and the limits of docs/LANGUAGE.md and never taken from a
// program's output. Where no column is explained: `program ` has 8 bytes, `program p; ` 11, `program p; begin ` 17 and
// `program p; begin end.` 21.

use super::Row;

/// The first wrong token is of each kind.
const TOKENS: &[Row] = &[
    // an identifier, a number, a string
    (b"program p x; begin end.\n", "1:11 201 syntax error\n"),
    (b"program p; begin x 1 end.\n", "1:20 201 syntax error\n"),
    (b"program p; begin 'a' end.\n", "1:18 201 syntax error\n"),
    // word-symbols
    (b"program p; begin else end.\n", "1:18 201 syntax error\n"),
    (b"program p; begin x := end.\n", "1:23 201 syntax error\n"),
    (
        b"program p; begin while a then end.\n",
        "1:26 201 syntax error\n",
    ),
    (b"program p; begin procedure\n", "1:18 201 syntax error\n"),
    (b"program p; const begin end.\n", "1:18 201 syntax error\n"),
    (
        b"program p; var a: b; type c = d;\n",
        "1:22 201 syntax error\n",
    ),
    (
        b"program p; begin a := div b end.\n",
        "1:23 201 syntax error\n",
    ),
    (b"program p; begin nil end.\n", "1:18 201 syntax error\n"),
    (b"program p; program q;\n", "1:12 201 syntax error\n"),
    (
        b"program p; begin for i := 1 do\n",
        "1:29 201 syntax error\n",
    ),
    // symbols
    (b"program ;\n", "1:9 201 syntax error\n"),
    (b"program p(a,,b);\n", "1:13 201 syntax error\n"),
    (b"program p();\n", "1:11 201 syntax error\n"),
    (b"program p; begin begin end.\n", "1:27 201 syntax error\n"),
    (b"program p; begin (\n", "1:18 201 syntax error\n"),
    (b"program p; begin x:\n", "1:19 201 syntax error\n"),
    (b"program p; begin x = 1 end.\n", "1:20 201 syntax error\n"),
    (b"program p; begin x := a]\n", "1:24 201 syntax error\n"),
    (
        b"program p; begin x := a < b < c end.\n",
        "1:29 201 syntax error\n",
    ),
    (
        b"program p; begin case a of 1..\n",
        "1:29 201 syntax error\n",
    ),
    (
        b"program p; begin x := + + 1 end.\n",
        "1:25 201 syntax error\n",
    ),
    (
        b"program p; begin x := a + -b end.\n",
        "1:27 201 syntax error\n",
    ),
    (
        b"program p; begin x := * 1 end.\n",
        "1:23 201 syntax error\n",
    ),
    (b"program p; begin ^\n", "1:18 201 syntax error\n"),
    // the other spellings, of `^`, `]` and `[`
    (b"program p; begin @\n", "1:18 201 syntax error\n"),
    (b"program p; begin x := a.)\n", "1:24 201 syntax error\n"),
    (b"program p; begin x := a(.1)\n", "1:27 201 syntax error\n"),
    (
        b"program p; begin a(.1.) := b@ end.\n",
        "not built at 1:18\n",
    ),
    // a word behind `packed` that is no structure, and a directive other than `forward`
    (
        b"program p; type t = packed 1..2;\n",
        "1:28 201 syntax error\n",
    ),
    (
        b"program p; procedure q; external;\n",
        "1:25 201 syntax error\n",
    ),
    (
        b"program p; procedure q; forward begin\n",
        "1:33 201 syntax error\n",
    ),
];

/// The text ends where a program begins with all of it.
const ENDS: &[Row] = &[
    // no token
    (b"\n", "2:1 202 text ends too early\n"),
    (b" \t\n", "2:1 202 text ends too early\n"),
    (b"{ a }\n", "2:1 202 text ends too early\n"),
    (b"{ a\n b } (* c *)\n\n", "4:1 202 text ends too early\n"),
    // the end is that of the text, and not that of the last token
    (b"program\n", "2:1 202 text ends too early\n"),
    (b"program p; begin end\n", "2:1 202 text ends too early\n"),
    (
        b"program p; begin end { no dot }  \n",
        "2:1 202 text ends too early\n",
    ),
    (
        b"program p; begin end\n\n\t{ no dot }\n  \n",
        "5:1 202 text ends too early\n",
    ),
    (
        b"program p; begin x := a +\n",
        "2:1 202 text ends too early\n",
    ),
    (
        b"program p; procedure q;\n",
        "2:1 202 text ends too early\n",
    ),
    // of `end1.` a field may follow
    (b"program p; begin end1.\n", "2:1 202 text ends too early\n"),
    // the last token is a wrong one, and the end is none
    (b"program p; begin end;\n", "1:21 201 syntax error\n"),
    (b"program p; begin x := end\n", "1:23 201 syntax error\n"),
];

/// Tokens behind the last `.` of a program.
const BEHIND: &[Row] = &[
    (
        b"program p; begin end. x\n",
        "1:23 205 text after the program\n",
    ),
    (
        b"program p; begin end.1\n",
        "1:22 205 text after the program\n",
    ),
    (
        b"program p; begin end. 'a' b\n",
        "1:23 205 text after the program\n",
    ),
    (
        b"program p; begin end. .\n",
        "1:23 205 text after the program\n",
    ),
    (
        b"program p; begin end.\n\n{ more }\n  begin\n",
        "4:3 205 text after the program\n",
    ),
    // a second program
    (
        b"program p; begin end.\nprogram q; begin end.\n",
        "2:1 205 text after the program\n",
    ),
    // a `.` and what touches it is `..` or `.)`, and no last `.`
    (b"program p; begin end..\n", "1:21 201 syntax error\n"),
    (b"program p; begin end.)\n", "1:21 201 syntax error\n"),
    // separators alone
    (b"program p; begin end. { the end }\n\n \n", "accepted\n"),
];

/// The first error alone is listed, at the column of its first byte.
const PLACES: &[Row] = &[
    // the first token
    (b"end end\n", "1:1 201 syntax error\n"),
    (
        b"program ; begin := else end end\n",
        "1:9 201 syntax error\n",
    ),
    // a tab, a carriage return and each byte of a letter outside of ASCII are one column each
    (b"\t\t\tend\n", "1:4 201 syntax error\n"),
    (b"program p;\tbegin\tx := ;\n", "1:23 201 syntax error\n"),
    (b"program p;\rbegin of\n", "1:18 201 syntax error\n"),
    (b"{ \xc3\xa9 } end\n", "1:8 201 syntax error\n"),
    // a token of many bytes stands at its first
    (
        b"program p; begin x := 'it''s'\n  anotherone\n",
        "2:3 201 syntax error\n",
    ),
    // the lines before count, those without bytes too
    (
        b"program p;\n\nbegin\n\n  x :=\n\n\n\n\n    end.\n",
        "10:5 201 syntax error\n",
    ),
    // lexical errors are listed alone, also behind a syntax error
    (b"program ; ?\n", "1:11 101 bad character\n"),
    (
        b"end 1.5 end\n''\n",
        "1:5 106 real number\n2:1 104 empty string\n",
    ),
    (
        b"program p; begin end. x {\n",
        "1:25 102 comment not closed\n",
    ),
];

/// All tables.
pub(crate) const TABLES: [&[Row]; 4] = [TOKENS, ENDS, BEHIND, PLACES];
