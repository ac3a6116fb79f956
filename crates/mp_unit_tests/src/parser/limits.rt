use super::Answer::{self, Refused, Tree};

/// How often each piece stands, one behind the other, and the answer to the text.
pub(crate) type Row = (&'static [(usize, &'static str)], Answer);

/// Blocks in one another. 3 tokens stand before the first declaration, and a heading with its `;` has 3.
#[rattlefmt::skip]
pub(crate) const DEPTH: &[Row] = &[
    // 16 blocks
    (&[(1, "program p; "), (15, "procedure q; "), (1, "begin end"), (15, "; begin end"), (1, ".")], Tree),
    // 17 blocks
    (&[(1, "program p; "), (16, "procedure q; "), (1, "begin end"), (16, "; begin end"), (1, ".")], Refused(203, 48)),
    // `forward` in a block of depth 15, and of depth 16
    (&[(1, "program p; "), (14, "procedure q; "), (1, "procedure r; forward; begin end"), (14, "; begin end"), (1, ".")], Tree),
    (&[(1, "program p; "), (15, "procedure q; "), (1, "procedure r; forward; begin end"), (15, "; begin end"), (1, ".")], Refused(203, 48)),
    // a function
    (&[(1, "program p; "), (15, "function f : t; "), (1, "begin end"), (15, "; begin end"), (1, ".")], Tree),
    (&[(1, "program p; "), (15, "procedure q; "), (1, "function f : t; forward; begin end"), (15, "; begin end"), (1, ".")], Refused(203, 48)),
    // formals of the deepest heading are no declarations
    (&[(1, "program p; "), (14, "procedure q; "), (1, "procedure q(procedure r; function s : t); begin end; begin end"), (14, "; begin end"), (1, ".")], Tree),
    // blocks side by side
    (&[(1, "program p; "), (100, "procedure q; begin end; "), (1, "begin end.")], Tree),
    // no block may stand there at any depth
    (&[(1, "program p; "), (15, "procedure q; "), (1, "begin procedure")], Refused(201, 49)),
    // the text ends, also where one more block may stand, and the program ends
    (&[(1, "program p; "), (15, "procedure q; ")], Refused(202, 48)),
    (&[(1, "program p; "), (14, "procedure q; "), (1, "procedure")], Refused(202, 46)),
    (&[(1, "program p; "), (15, "procedure q; "), (1, "begin end"), (15, "; begin end"), (1, ". procedure")], Refused(205, 96)),
];

/// Declarations. 3 tokens stand before the first.
#[rattlefmt::skip]
pub(crate) const DECLARATIONS: &[Row] = &[
    (&[(1, "program p; "), (4095, "procedure q; forward; "), (1, "begin end.")], Tree),
    (&[(1, "program p; "), (4096, "procedure q; forward; "), (1, "begin end.")], Refused(204, 20_478)),
    (&[(1, "program p; "), (4095, "procedure q; begin end; "), (1, "begin end.")], Tree),
    (&[(1, "program p; "), (4096, "procedure q; begin end; "), (1, "begin end.")], Refused(204, 24_573)),
    (&[(1, "program p; "), (4096, "function f : t; forward; "), (1, "begin end.")], Refused(204, 28_668)),
    // the heading that completes a forward declaration counts too
    (&[(1, "program p; "), (2047, "procedure q; forward; procedure q; begin end; "), (1, "procedure q; begin end; begin end.")], Tree),
    (&[(1, "program p; "), (2048, "procedure q; forward; procedure q; begin end; "), (1, "begin end.")], Refused(204, 22_525)),
    // declarations in declarations, 3 at a time
    (&[(1, "program p; "), (1365, "procedure q; procedure r; forward; procedure s; begin end; begin end; "), (1, "begin end.")], Tree),
    (&[(1, "program p; "), (1365, "procedure q; procedure r; forward; procedure s; begin end; begin end; "), (1, "procedure q; forward; begin end.")], Refused(204, 23_208)),
    // formals are no declarations
    (&[(1, "program p; "), (4095, "procedure q(procedure r; function s:t); forward; "), (1, "begin end.")], Tree),
    (&[(1, "program p; "), (4096, "procedure q(procedure r; function s:t); forward; "), (1, "begin end.")], Refused(204, 57_333)),
    // the 4,096th in a block of depth 15, and of depth 16
    (&[(1, "program p; "), (4081, "procedure q; forward; "), (15, "procedure q; ")], Refused(204, 20_450)),
    (&[(1, "program p; "), (4080, "procedure q; forward; "), (16, "procedure q; ")], Refused(203, 20_448)),
    // the 4,095th in a block of depth 15
    (&[(1, "program p; "), (4080, "procedure q; forward; "), (15, "procedure q; "), (1, "begin end"), (15, "; begin end"), (1, ".")], Tree),
    // its first word is enough
    (&[(1, "program p; "), (4094, "procedure q; forward; "), (1, "function")], Refused(202, 20_474)),
    (&[(1, "program p; "), (4095, "procedure q; forward; "), (1, "function")], Refused(204, 20_478)),
    // no declaration may stand there, however few there are
    (&[(1, "program p; "), (4095, "procedure q; forward; "), (1, "begin procedure")], Refused(201, 20_479)),
    // the text ends, and the program ends
    (&[(1, "program p; "), (4095, "procedure q; forward; ")], Refused(202, 20_478)),
    (&[(1, "program p; "), (4095, "procedure q; forward; "), (1, "begin end. procedure")], Refused(205, 20_481)),
];

/// What follows where 128 openers stand open, and its answer.
#[rattlefmt::skip]
pub(crate) const OPEN: &[Row] = &[
    // 128 times `begin`, the last one with index 130
    (&[(1, "program p; "), (128, "begin ")], Refused(202, 131)),
    (&[(1, "program p; "), (129, "begin ")], Refused(203, 131)),
    (&[(1, "program p; "), (128, "begin "), (1, "if")], Refused(203, 131)),
    (&[(1, "program p; "), (128, "begin "), (1, "a (")], Refused(203, 132)),
    (&[(1, "program p; "), (128, "begin "), (1, "a [")], Refused(203, 132)),
    (&[(1, "program p; "), (128, "begin "), (1, "a ^")], Refused(202, 133)),
    (&[(1, "program p; "), (128, "begin "), (1, "1 : case")], Refused(203, 133)),
    (&[(1, "program p; "), (128, "begin "), (1, "a := (")], Refused(203, 133)),
    (&[(1, "program p; "), (128, "begin "), (1, "a := not")], Refused(203, 133)),
    (&[(1, "program p; "), (128, "begin "), (1, "a := b + [")], Refused(203, 135)),
    (&[(1, "program p; "), (128, "begin "), (1, "a := f (")], Refused(203, 134)),
    (&[(1, "program p; "), (128, "begin "), (1, "a := b . c [")], Refused(203, 136)),
    (&[(1, "program p; "), (128, "begin "), (1, "goto")], Refused(202, 132)),
    (&[(1, "program p; "), (128, "begin "), (1, "(")], Refused(201, 131)),
    (&[(1, "program p; "), (128, "begin "), (1, "not")], Refused(201, 131)),
    (&[(1, "program p; "), (128, "begin "), (1, "packed")], Refused(201, 131)),
    (&[(1, "program p; "), (128, "begin "), (1, "a := if")], Refused(201, 133)),
    // an opener that is closed stands open no more
    (&[(1, "program p; "), (125, "begin "), (999, "if a then repeat b until c = (d); "), (125, " end"), (1, ".")], Tree),
    (&[(1, "program p; "), (126, "begin "), (999, "if a then repeat b until c = (d); "), (126, " end"), (1, ".")], Refused(203, 137)),
    (&[(1, "program p; "), (127, "begin "), (999, "begin end; "), (127, " end"), (1, ".")], Tree),
    (&[(1, "program p; "), (127, "begin "), (1, "a := (b) + [] * f(c); d[e] := not g; "), (127, " end"), (1, ".")], Tree),
    // each block has openers of its own
    (&[(1, "program p; procedure q; "), (128, "begin "), (128, "end "), (1, "; "), (128, "begin "), (128, "end "), (1, ".")], Tree),
    (&[(1, "program p; procedure q; "), (129, "begin ")], Refused(203, 134)),
    (&[(1, "program p; procedure q; begin end; "), (129, "begin ")], Refused(203, 137)),
    // 128 times `file of`, the last `of` with index 261
    (&[(1, "program p; type t = "), (128, "file of "), (1, "array")], Refused(203, 262)),
    (&[(1, "program p; type t = "), (128, "file of "), (1, "record")], Refused(203, 262)),
    (&[(1, "program p; type t = "), (128, "file of "), (1, "set")], Refused(203, 262)),
    (&[(1, "program p; type t = "), (128, "file of "), (1, "packed")], Refused(203, 262)),
    (&[(1, "program p; type t = "), (128, "file of "), (1, "case")], Refused(201, 262)),
    (&[(1, "program p; type t = "), (128, "file of "), (1, "begin")], Refused(201, 262)),
    // the `(` of an enumeration is no opener
    (&[(1, "program p; type t = "), (128, "file of "), (1, "(a, b); begin end.")], Tree),
    (&[(1, "program p; type t = "), (128, "file of "), (1, "1 .. 2; begin end.")], Tree),
    // `packed` as the 128th opener, and the word behind it, which opens nothing
    (&[(1, "program p; type t = "), (127, "file of "), (1, "packed array [a] of b; begin end.")], Tree),
    (&[(1, "program p; type t = "), (127, "file of "), (1, "packed array [a] of set")], Refused(203, 266)),
    // a variant part where 128 openers stand open
    (&[(1, "program p; type t = "), (128, "record a : "), (1, "b; case")], Refused(203, 392)),
];

/// Long texts: their bytes, and their answers. They are made, read and dropped.
#[rattlefmt::skip]
pub(crate) const LONG: &[(usize, &[(usize, &str)], Answer)] = &[
    // dense texts of 262,144 bytes
    (262_144, &[(1, "program p;begin "), (37_446, "x(y:1);"), (1, ";;end.")], Tree),
    (262_144, &[(1, "program p;begin "), (262_124, ";"), (1, "end.")], Tree),
    (262_144, &[(1, "program p;begin "), (4_945, "if a then b[1,c]:=not d(e:2)else f.g^:=(h+3)in[4..5];"), (39, ";"), (1, "end.")], Tree),
    // 130,000 terms, factors, selectors, actuals, members and labels
    (260_023, &[(1, "program p;begin a:=b"), (129_999, "+b"), (1, " end.")], Tree),
    (260_023, &[(1, "program p;begin a:=b"), (129_999, "*b"), (1, " end.")], Tree),
    (130_024, &[(1, "program p;begin a:=b"), (130_000, "^"), (1, "end.")], Tree),
    (120_025, &[(1, "program p;begin a:=b"), (60_000, ".c"), (1, " end.")], Tree),
    (180_024, &[(1, "program p;begin a:=b"), (60_000, "[1]"), (1, "end.")], Tree),
    (120_025, &[(1, "program p;begin a:=b[1"), (59_999, ",1"), (1, "]end.")], Tree),
    (260_022, &[(1, "program p;begin f(b"), (129_999, ",b"), (1, ")end.")], Tree),
    (260_024, &[(1, "program p;begin a:=[b"), (129_999, ",b"), (1, "]end.")], Tree),
    (260_026, &[(1, "program p;label 1"), (129_999, ",1"), (1, ";begin end.")], Tree),
    // the other lists
    (262_142, &[(1, "program p;type t=record "), (65_526, "a:b;"), (1, "end;begin end.")], Tree),
    (260_052, &[(1, "program p;type t=record case c of 1:()"), (52_000, ";1:()"), (1, "end;begin end.")], Tree),
    (240_037, &[(1, "program p;begin case a of 1:"), (80_000, ";1:"), (1, " end end.")], Tree),
    (240_037, &[(1, "program p;begin case a of 1"), (120_000, ",1"), (1, ": end end.")], Tree),
    (240_045, &[(1, "program p;procedure q(a:b"), (60_000, ";a:b"), (1, ");forward;begin end.")], Tree),
    (240_026, &[(1, "program p;const "), (60_000, "a=b;"), (1, "begin end.")], Tree),
    (240_025, &[(1, "program p;type "), (60_000, "a=b;"), (1, "begin end.")], Tree),
    (240_024, &[(1, "program p;var "), (60_000, "a:b;"), (1, "begin end.")], Tree),
    (240_028, &[(1, "program p;var a"), (120_000, ",a"), (1, ":b;begin end.")], Tree),
    (240_031, &[(1, "program p;type t=(a"), (120_000, ",a"), (1, ");begin end.")], Tree),
    (240_040, &[(1, "program p;type t=array[a"), (120_000, ",a"), (1, "]of b;begin end.")], Tree),
    (240_030, &[(1, "program p;begin with a"), (120_000, ",a"), (1, " do end.")], Tree),
    (240_023, &[(1, "program p(a"), (120_000, ",a"), (1, ");begin end.")], Tree),
    // an error at the first token and at the last one, and at the end, also behind blanks and behind comments
    (262_144, &[(131_072, ";;")], Refused(201, 0)),
    (262_144, &[(1, "program p;begin "), (37_446, "x(y:1);"), (1, ";;end;")], Refused(201, 262_129)),
    (262_144, &[(1, "program p;begin "), (37_446, "x(y:1);"), (1, ";end.x")], Refused(205, 262_129)),
    (262_144, &[(1, "program p;begin "), (37_446, "x(y:1);"), (1, ";;end ")], Refused(202, 262_129)),
    (262_144, &[(1, "program p;begin end"), (262_125, " ")], Refused(202, 5)),
    (262_144, &[(1, "program p;begin end"), (87_375, "{.}")], Refused(202, 5)),
    // some of the lists with an error before the last token, and at the end
    (260_024, &[(1, "program p;begin a:=b"), (129_999, "+b"), (1, "+ end.")], Refused(201, 260_006)),
    (120_020, &[(1, "program p;begin a:=b"), (60_000, ".c")], Refused(202, 120_007)),
];
