// Small texts and their listings, worked out by hand from the rules of docs/LANGUAGE.md and never taken from a
// program's output. The comment above a row, or above rows of one kind, says the rule that they show. Where no column
// is explained: `program ` has 8 bytes, `program p; ` 11, `program p; begin ` 17 and `program p; begin end.` 21.
// Texts at the limits are too long to stand here: they are in limits.rt.

use super::Row;

/// Programs of this stage; programs that are no such, and the first token that departs from `program`, an identifier,
/// `;`, `begin`, `end`, `.`; and the first token with which no program begins.
const PROGRAMS: &[Row] = &[
    // the six tokens
    (b"program p; begin end.", "accepted\n"),
    // no token at all: the end of a text of no lines is 1:1
    (b"", "1:1 202 text ends too early\n"),
    // one line of no bytes: its end is on line 2
    (b"\n", "2:1 202 text ends too early\n"),
    // three lines of no bytes
    (b"\n\n\n", "4:1 202 text ends too early\n"),
    // spaces alone, a last line without its end
    (b"  ", "2:1 202 text ends too early\n"),
    // a statement is no `end`
    (b"program p; begin ; end.", "not built at 1:18\n"),
    // the end, where each of the six is wanted: a last line counts as ended
    (b"program", "2:1 202 text ends too early\n"),
    (b"program p", "2:1 202 text ends too early\n"),
    (b"program p;", "2:1 202 text ends too early\n"),
    (b"program p; begin", "2:1 202 text ends too early\n"),
    (b"program p; begin end", "2:1 202 text ends too early\n"),
    // a line end after the last line adds no line, a second one does
    (b"program p\n", "2:1 202 text ends too early\n"),
    (b"program p\n\n", "3:1 202 text ends too early\n"),
    // the end of a text of two lines
    (b"program p;\nbegin end", "3:1 202 text ends too early\n"),
    // another token, where each of the six is wanted; behind `begin` an `end` is not the only one that may stand
    (b"begin", "1:1 201 syntax error\n"),
    (b"program; begin end.", "1:8 201 syntax error\n"),
    (b"program p begin end.", "1:11 201 syntax error\n"),
    (b"program p; end.", "1:12 201 syntax error\n"),
    (b"program p; begin begin end.", "1:27 201 syntax error\n"),
    (b"program p; begin end;", "1:21 201 syntax error\n"),
    // a token too many after the last `.`
    (
        b"program p; begin end. .",
        "1:23 205 text after the program\n",
    ),
    (
        b"program p; begin end.p",
        "1:22 205 text after the program\n",
    ),
    // a text that begins with blanks, and one that begins with an identifier
    (b"  p", "1:3 201 syntax error\n"),
    // program parameters are not built yet
    (b"program p(output); begin end.", "not built at 1:10\n"),
    // a directive and a required identifier are identifiers
    (b"program forward; begin end.", "accepted\n"),
    (b"program integer; begin end.", "accepted\n"),
];

/// Words: a letter, then letters and digits, the longest; 35 of them are word-symbols.
const WORDS: &[Row] = &[
    // each of the 35 word-symbols is no identifier
    (b"program and; begin end.", "1:9 201 syntax error\n"),
    (b"program array; begin end.", "1:9 201 syntax error\n"),
    (b"program begin; begin end.", "1:9 201 syntax error\n"),
    (b"program case; begin end.", "1:9 201 syntax error\n"),
    (b"program const; begin end.", "1:9 201 syntax error\n"),
    (b"program div; begin end.", "1:9 201 syntax error\n"),
    (b"program do; begin end.", "1:9 201 syntax error\n"),
    (b"program downto; begin end.", "1:9 201 syntax error\n"),
    (b"program else; begin end.", "1:9 201 syntax error\n"),
    (b"program end; begin end.", "1:9 201 syntax error\n"),
    (b"program file; begin end.", "1:9 201 syntax error\n"),
    (b"program for; begin end.", "1:9 201 syntax error\n"),
    (b"program function; begin end.", "1:9 201 syntax error\n"),
    (b"program goto; begin end.", "1:9 201 syntax error\n"),
    (b"program if; begin end.", "1:9 201 syntax error\n"),
    (b"program in; begin end.", "1:9 201 syntax error\n"),
    (b"program label; begin end.", "1:9 201 syntax error\n"),
    (b"program mod; begin end.", "1:9 201 syntax error\n"),
    (b"program nil; begin end.", "1:9 201 syntax error\n"),
    (b"program not; begin end.", "1:9 201 syntax error\n"),
    (b"program of; begin end.", "1:9 201 syntax error\n"),
    (b"program or; begin end.", "1:9 201 syntax error\n"),
    (b"program packed; begin end.", "1:9 201 syntax error\n"),
    (b"program procedure; begin end.", "1:9 201 syntax error\n"),
    (b"program program; begin end.", "1:9 201 syntax error\n"),
    (b"program record; begin end.", "1:9 201 syntax error\n"),
    (b"program repeat; begin end.", "1:9 201 syntax error\n"),
    (b"program set; begin end.", "1:9 201 syntax error\n"),
    (b"program then; begin end.", "1:9 201 syntax error\n"),
    (b"program to; begin end.", "1:9 201 syntax error\n"),
    (b"program type; begin end.", "1:9 201 syntax error\n"),
    (b"program until; begin end.", "1:9 201 syntax error\n"),
    (b"program var; begin end.", "1:9 201 syntax error\n"),
    (b"program while; begin end.", "1:9 201 syntax error\n"),
    (b"program with; begin end.", "1:9 201 syntax error\n"),
    // a word that begins as a word-symbol, or is the beginning of one, is an identifier
    (b"program ands; begin end.", "accepted\n"),
    (b"program an; begin end.", "accepted\n"),
    (b"program and1; begin end.", "accepted\n"),
    (b"program downt; begin end.", "accepted\n"),
    // words of other Pascals are identifiers
    (b"program unit; begin end.", "accepted\n"),
    (b"program string; begin end.", "accepted\n"),
    // letter case does not matter, in word-symbols and in identifiers
    (b"PROGRAM P; BEGIN END.", "accepted\n"),
    (b"pRoGrAm Zz; bEgIn eNd.", "accepted\n"),
    (b"program gOtO; begin end.", "1:9 201 syntax error\n"),
    // the first and the last letter
    (b"program azAZ; begin end.", "accepted\n"),
    // an identifier goes on with letters and digits
    (b"program p0x9; begin end.", "accepted\n"),
    // the longest word: `programp`, `beginend` and `end1` are identifiers; of `end1.` a field may follow
    (b"programp; begin end.", "1:1 201 syntax error\n"),
    (b"program p; beginend.", "1:12 201 syntax error\n"),
    (b"program p; begin end1.", "2:1 202 text ends too early\n"),
    // no separator is needed beside a symbol
    (b"program p;begin end.", "accepted\n"),
    // a word of many letters
    (
        b"program abcdefghijklmnopqrstuvwxyzabcdefghijklmnopqrstuvwxyz; begin end.",
        "accepted\n",
    ),
];

/// Symbols: each is a token, also in its other spelling, and the longest that stands there.
const SYMBOLS: &[Row] = &[
    // each symbol is a token that no identifier is
    (b"program +", "1:9 201 syntax error\n"),
    (b"program -", "1:9 201 syntax error\n"),
    (b"program *", "1:9 201 syntax error\n"),
    (b"program =", "1:9 201 syntax error\n"),
    (b"program <", "1:9 201 syntax error\n"),
    (b"program >", "1:9 201 syntax error\n"),
    (b"program [", "1:9 201 syntax error\n"),
    (b"program ]", "1:9 201 syntax error\n"),
    (b"program .", "1:9 201 syntax error\n"),
    (b"program ,", "1:9 201 syntax error\n"),
    (b"program :", "1:9 201 syntax error\n"),
    (b"program ;", "1:9 201 syntax error\n"),
    (b"program ^", "1:9 201 syntax error\n"),
    (b"program (", "1:9 201 syntax error\n"),
    (b"program )", "1:9 201 syntax error\n"),
    (b"program <>", "1:9 201 syntax error\n"),
    (b"program <=", "1:9 201 syntax error\n"),
    (b"program >=", "1:9 201 syntax error\n"),
    (b"program :=", "1:9 201 syntax error\n"),
    (b"program ..", "1:9 201 syntax error\n"),
    // the other spellings, of `^`, `[` and `]`
    (b"program @", "1:9 201 syntax error\n"),
    (b"program (.", "1:9 201 syntax error\n"),
    (b"program .)", "1:9 201 syntax error\n"),
    // `..` and `.)` are one symbol each, and no `.` with a token behind it
    (b"program p; begin end..", "1:21 201 syntax error\n"),
    (b"program p; begin end.)", "1:21 201 syntax error\n"),
    // `...` is `..` and `.`
    (b"program p; begin end...", "1:21 201 syntax error\n"),
    // a `.` and the `*` after it are two symbols
    (
        b"program p; begin end.*",
        "1:22 205 text after the program\n",
    ),
    // `(..` is `(.` and `.`, and so no lexical error stands in it
    (b"program p(..5", "1:10 201 syntax error\n"),
    // `(.*)` is `(.`, `*` and `)`: no comment opens
    (b"program (.*)", "1:9 201 syntax error\n"),
    // a space parts `(` from `*`: no comment opens
    (b"program ( * )", "1:9 201 syntax error\n"),
    // `*)` outside of a comment is `*` and `)`
    (b"program *)", "1:9 201 syntax error\n"),
    // no lexical error stands between symbols that touch
    (b"program <<=>>==:=:<>", "1:9 201 syntax error\n"),
];

/// Numbers: digits; with a fraction or an exponent error 106, with a letter after them 105, past maxint 107.
const NUMBERS: &[Row] = &[
    // digits are a number
    (b"0", "1:1 201 syntax error\n"),
    (b"program 7", "1:9 201 syntax error\n"),
    // leading zeros do not count
    (b"007", "1:1 201 syntax error\n"),
    (b"000000000002147483647", "1:1 201 syntax error\n"),
    (b"000000000002147483648", "1:1 107 number too large\n"),
    // maxint, and the first number past it
    (b"2147483647", "1:1 201 syntax error\n"),
    (b"2147483648", "1:1 107 number too large\n"),
    // numbers whose value is small when bits above 32, 64 or 128 are lost
    (b"4294967296", "1:1 107 number too large\n"),
    (b"18446744073709551617", "1:1 107 number too large\n"),
    (
        b"340282366920938463463374607431768211457",
        "1:1 107 number too large\n",
    ),
    // a sign is no part of a number
    (b"-2147483648", "1:2 107 number too large\n"),
    // a number ends before `..`
    (b"1..2", "1:1 201 syntax error\n"),
    (b"1..", "1:1 201 syntax error\n"),
    (b"2147483648..9", "1:1 107 number too large\n"),
    // what follows `..` is a number of its own
    (b"1..2.5", "1:4 106 real number\n"),
    // `1...2` is `1`, `..`, `.`, `2`
    (b"1...2", "1:1 201 syntax error\n"),
    // a `.` with no digit after it is no fraction
    (b"1.", "1:1 201 syntax error\n"),
    (b"1.x", "1:1 201 syntax error\n"),
    (b"1.e5", "1:1 201 syntax error\n"),
    (b"1. 5", "1:1 201 syntax error\n"),
    (b"1 .5", "1:1 201 syntax error\n"),
    (b".5", "1:1 201 syntax error\n"),
    // `1.)` is `1` and `.)`
    (b"1.)", "1:1 201 syntax error\n"),
    (b"a(.1.)", "1:1 201 syntax error\n"),
    (b"a(.1.5.)", "1:4 106 real number\n"),
    // a fraction
    (b"1.5", "1:1 106 real number\n"),
    (b"00.00", "1:1 106 real number\n"),
    // an exponent, in either case, with either sign or none
    (b"1e5", "1:1 106 real number\n"),
    (b"1E5", "1:1 106 real number\n"),
    (b"1e+5", "1:1 106 real number\n"),
    (b"1e-5", "1:1 106 real number\n"),
    // a sign makes an exponent even with no digits after it
    (b"1e+", "1:1 106 real number\n"),
    (b"1E-", "1:1 106 real number\n"),
    (b"1e+x", "1:1 106 real number\n"),
    (b"1e+-2", "1:1 106 real number\n"),
    // a fraction and an exponent are one item
    (b"1.5e3", "1:1 106 real number\n"),
    (b"1.5e-3", "1:1 106 real number\n"),
    (b"1.5e+", "1:1 106 real number\n"),
    // a letter after a fraction or an exponent belongs to the next item, a word
    (b"1.5x", "1:1 106 real number\n"),
    (b"1.5e", "1:1 106 real number\n"),
    (b"1.5ex", "1:1 106 real number\n"),
    (b"1e5x", "1:1 106 real number\n"),
    (b"1e5e5", "1:1 106 real number\n"),
    // that word takes digits, so no second real number begins in it
    (b"1.5x2.5", "1:1 106 real number\n"),
    // a second fraction is `.` and a number
    (b"1.5.5", "1:1 106 real number\n"),
    (b"1e5.5", "1:1 106 real number\n"),
    (
        b"1.5.2147483648",
        "1:1 106 real number\n1:5 107 number too large\n",
    ),
    // a fraction, and then `..`
    (b"1.5..2", "1:1 106 real number\n"),
    // the value of an item that is no number of digits alone does not count
    (b"2147483648.5", "1:1 106 real number\n"),
    (b"2147483648e5", "1:1 106 real number\n"),
    (b"2147483648x", "1:1 105 letter touches number\n"),
    // a letter that begins no exponent takes all letters and digits that follow
    (b"1x", "1:1 105 letter touches number\n"),
    (b"12ab", "1:1 105 letter touches number\n"),
    (b"1x2y3", "1:1 105 letter touches number\n"),
    (b"1Z", "1:1 105 letter touches number\n"),
    (b"1and", "1:1 105 letter touches number\n"),
    // `e` with neither a digit nor a sign after it is such a letter
    (b"1e", "1:1 105 letter touches number\n"),
    (b"1ex", "1:1 105 letter touches number\n"),
    (b"1ee5", "1:1 105 letter touches number\n"),
    (b"1e 5", "1:1 105 letter touches number\n"),
    (b"1e.5", "1:1 105 letter touches number\n"),
    // an exponent inside of such an item is none
    (b"1x5e3", "1:1 105 letter touches number\n"),
    // a fraction after such an item is `.` and a number
    (b"1x.5", "1:1 105 letter touches number\n"),
    // a space, or any byte that is no letter, parts them
    (b"1 x", "1:1 201 syntax error\n"),
    (b"1_x", "1:2 101 bad character\n"),
    // digits in a word are no number
    (b"x1", "1:1 201 syntax error\n"),
    (b"e5", "1:1 201 syntax error\n"),
];

/// Strings: a quote, elements, a quote; an element is two quotes or another byte of the line.
const STRINGS: &[Row] = &[
    // one element and two
    (b"program 'a'", "1:9 201 syntax error\n"),
    (b"program 'ab'", "1:9 201 syntax error\n"),
    // two quotes are one element
    (b"program ''''", "1:9 201 syntax error\n"),
    (b"program 'it''s'", "1:9 201 syntax error\n"),
    (b"program '''a'", "1:9 201 syntax error\n"),
    (b"program 'a'''", "1:9 201 syntax error\n"),
    // any byte but a quote, a line end and a carriage return is an element
    (
        b"program '\x00\t\x0b\x0c ?/{}(*\x7f\x80\xff'",
        "1:9 201 syntax error\n",
    ),
    // no element
    (b"''", "1:1 104 empty string\n"),
    (b"x:=''", "1:4 104 empty string\n"),
    (b"''\n", "1:1 104 empty string\n"),
    // an empty string ends at its second quote, where no third follows
    (b"''a'", "1:1 104 empty string\n1:4 103 string not closed\n"),
    (b"'' ''", "1:1 104 empty string\n1:4 104 empty string\n"),
    // the end, a line end or a carriage return before the closing quote
    (b"'", "1:1 103 string not closed\n"),
    (b"'abc", "1:1 103 string not closed\n"),
    (
        b"'abc\n'",
        "1:1 103 string not closed\n2:1 103 string not closed\n",
    ),
    (
        b"'a\r'",
        "1:1 103 string not closed\n1:4 103 string not closed\n",
    ),
    (b"'a\r\nb", "1:1 103 string not closed\n"),
    (
        b"'\n'",
        "1:1 103 string not closed\n2:1 103 string not closed\n",
    ),
    // three quotes up to a line end are an opening quote and one element: one error, and no empty string
    (b"'''", "1:1 103 string not closed\n"),
    (b"'''\n", "1:1 103 string not closed\n"),
    (b"'a''", "1:1 103 string not closed\n"),
    (b"'''''\n", "1:1 103 string not closed\n"),
    // a string takes all up to the end of its line, errors too, and the next line begins anew
    (
        b"'? / 1x\n?",
        "1:1 103 string not closed\n2:1 101 bad character\n",
    ),
    // a string that is closed leaves what follows
    (b"'a'b'", "1:5 103 string not closed\n"),
    (b"'a'?", "1:4 101 bad character\n"),
    // a double quote is no quote
    (b"\"a\"", "1:1 101 bad character\n1:3 101 bad character\n"),
];

/// Comments: `{` or `(*`, up to the next `}` or `*)`, in any pairing.
const COMMENTS: &[Row] = &[
    // a comment is a separator
    (b"{ a }program{ b }p(* c *); begin end.", "accepted\n"),
    (b"pro{}gram p; begin end.", "1:1 201 syntax error\n"),
    (b"program p; begin end.{}", "accepted\n"),
    // in any pairing
    (b"{ a *)program p; begin end.", "accepted\n"),
    (b"(* a }program p; begin end.", "accepted\n"),
    // of no bytes inside, in each pairing
    (b"{}program p; begin end.", "accepted\n"),
    (b"(**)program p; begin end.", "accepted\n"),
    (b"(*}program p; begin end.", "accepted\n"),
    (b"{*)program p; begin end.", "accepted\n"),
    // `(*)` opens a comment and does not close it
    (b"(*)", "1:1 102 comment not closed\n"),
    (b"(*) ?", "1:1 102 comment not closed\n"),
    (b"(*)*)program p; begin end.", "accepted\n"),
    (b"(*)}program p; begin end.", "accepted\n"),
    // stars before the closing
    (b"(***)program p; begin end.", "accepted\n"),
    (b"{ ** }program p; begin end.", "accepted\n"),
    (b"(* *\n)", "1:1 102 comment not closed\n"),
    // comments do not nest: the first closing ends both openings
    (b"{ { }program p; begin end.", "accepted\n"),
    (b"(* (* *)program p; begin end.", "accepted\n"),
    (b"{ { } }", "1:7 101 bad character\n"),
    (b"(* { *) }", "1:9 101 bad character\n"),
    // the `*)` that is left over is `*` and `)`
    (b"{ (* } *)", "1:8 201 syntax error\n"),
    // over lines
    (b"{ a\nb\r\n\nc }program p; begin end.", "accepted\n"),
    (b"{\n\n} ?", "3:3 101 bad character\n"),
    // any byte stands in a comment, a quote and a bad character too
    (
        b"{ ' ? / 1x \x00\t\x0c\x7f\x80\xff }program p; begin end.",
        "accepted\n",
    ),
    // a comment opens in no string, and a string in no comment
    (b"program '{' ?", "1:13 101 bad character\n"),
    (b"{ ' } '", "1:7 103 string not closed\n"),
    // an unclosed comment goes up to the end, over all lines and their errors
    (b"{", "1:1 102 comment not closed\n"),
    (b"(*", "1:1 102 comment not closed\n"),
    (b"program p; begin end. {", "1:23 102 comment not closed\n"),
    (
        b"program p; { a\n? / ''\n1x",
        "1:12 102 comment not closed\n",
    ),
    (
        b"? { ?",
        "1:1 101 bad character\n1:3 102 comment not closed\n",
    ),
    // a `}` that closes nothing
    (b"}", "1:1 101 bad character\n"),
];

/// Bytes that begin no item, and `/`; the separators beside them.
const BAD_BYTES: &[Row] = &[
    // the bytes between space and 127 that begin no item, each an item by itself
    (
        b"!\"#$%&?\\_`|}~",
        "1:1 101 bad character\n1:2 101 bad character\n1:3 101 bad character\n1:4 101 bad character\n1:5 101 bad character\n1:6 101 bad character\n1:7 101 bad character\n1:8 101 bad character\n1:9 101 bad character\n1:10 101 bad character\n1:11 101 bad character\n1:12 101 bad character\n1:13 101 bad character\n",
    ),
    // byte 0
    (b"\x00", "1:1 101 bad character\n"),
    // bytes 8, 11 and 14, the neighbours of separators
    (
        b"\x08\t\x0b\x0c\r\x0e",
        "1:1 101 bad character\n1:3 101 bad character\n1:6 101 bad character\n",
    ),
    // bytes 31 and 32
    (b"\x1f ", "1:1 101 bad character\n"),
    // bytes 127, 128 and 255
    (
        b"\x7f\x80\xff",
        "1:1 101 bad character\n1:2 101 bad character\n1:3 101 bad character\n",
    ),
    // a letter outside of ASCII is two bad bytes
    (
        b"program caf\xc3\xa9; begin end.",
        "1:12 101 bad character\n1:13 101 bad character\n",
    ),
    // no underscore in an identifier
    (b"program a_b; begin end.", "1:10 101 bad character\n"),
    // bytes 9, 12, 13 and 32 are separators
    (b"program\tp\x0c;\rbegin end.", "accepted\n"),
    (b"\t\x0c\r ", "2:1 202 text ends too early\n"),
    // `/` is real division wherever it stands, and an item by itself
    (b"/", "1:1 108 real division\n"),
    (b"a/b", "1:2 108 real division\n"),
    (b"//", "1:1 108 real division\n1:2 108 real division\n"),
    (b"1/2", "1:2 108 real division\n"),
    (b"/=", "1:1 108 real division\n"),
    (b"(/*", "1:2 108 real division\n"),
    // but in a string or in a comment
    (b"program '/'", "1:9 201 syntax error\n"),
    (b"program{/}p; begin end.", "accepted\n"),
];

/// Several errors, in the order of the text, and places on later lines.
const PLACES: &[Row] = &[
    // a real number and a number that a letter touches, on two lines
    (
        b"program p;\ntype t = 1..3; u = 1.5;\nvar x: 12ab; begin end.\n",
        "2:20 106 real number\n3:8 105 letter touches number\n",
    ),
    // each lexical error once
    (
        b"? ''\n1.5 / 12ab\n2147483648 'x\n{ open",
        "1:1 101 bad character\n1:3 104 empty string\n2:1 106 real number\n2:5 108 real division\n2:7 105 letter touches number\n3:1 107 number too large\n3:12 103 string not closed\n4:1 102 comment not closed\n",
    ),
    // errors that touch
    (
        b"1x?1.5/''2147483648",
        "1:1 105 letter touches number\n1:3 101 bad character\n1:4 106 real number\n1:7 108 real division\n1:8 104 empty string\n1:10 107 number too large\n",
    ),
    // where there is a lexical error, no other line is written
    (b"begin ?", "1:7 101 bad character\n"),
    (b"program p; begin end. ?", "1:23 101 bad character\n"),
    (b"program p; begin ? end.", "1:18 101 bad character\n"),
    // lines of no bytes count, and the tenth line has two digits
    (b"\n\n  ?", "3:3 101 bad character\n"),
    (b"\n\n\n\n\n\n\n\n\n?", "10:1 101 bad character\n"),
    // a tab, a form feed and a carriage return are one column each
    (b"\t\x0c\r?", "1:4 101 bad character\n"),
    // a carriage return ends no line
    (
        b"?\r?\n?",
        "1:1 101 bad character\n1:3 101 bad character\n2:1 101 bad character\n",
    ),
    (b"program p;\rbegin of", "1:18 201 syntax error\n"),
    (b"program p;\rbegin ;", "2:1 202 text ends too early\n"),
    // lines that end in a carriage return and a line end
    (b"program p;\r\nbegin\r\nend.\r\n", "accepted\n"),
    (b"program p;\r\nbegin\r\n?\r\n", "3:1 101 bad character\n"),
    (b"program p;\r\nbegin\r\n", "3:1 202 text ends too early\n"),
    // each token on a line of its own
    (b"program\np\n;\nbegin\nend\n.\n", "accepted\n"),
    (b"program\np\n;\nbegin\n;\nend\n.\n", "not built at 5:1\n"),
    (b"program p;\n\n  end.\n", "3:3 201 syntax error\n"),
    (
        b"program p;\nbegin end.\n\n .",
        "4:2 205 text after the program\n",
    ),
];

/// All tables.
pub(crate) const TABLES: [&[Row]; 8] = [
    PROGRAMS, WORDS, SYMBOLS, NUMBERS, STRINGS, COMMENTS, BAD_BYTES, PLACES,
];
