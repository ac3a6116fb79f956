/// What stands before, opens, stands inside, closes and stands behind; how often the second and the fourth may stand
/// at most, where 128 openers stand open; and the index of the 129th opener where they stand once more.
pub(crate) type Nest = (
    &'static str,
    &'static str,
    &'static str,
    &'static str,
    &'static str,
    usize,
    u32,
);

#[rattlefmt::skip]
pub(crate) const NESTS: &[Nest] = &[
    // Structured statements, in the `begin` of the statement part. 4 tokens stand before the first.
    ("program p; begin ", "begin ", "", "end ", "end.", 127, 131),
    ("program p; begin ", "if a then ", "", "", "end.", 127, 385),
    ("program p; begin ", "if a then else ", "", "", "end.", 127, 512),
    ("program p; begin ", "case a of 1 : ", "", " end", " end.", 127, 639),
    ("program p; begin ", "while a do ", "", "", "end.", 127, 385),
    ("program p; begin ", "repeat ", "", "until a ", "end.", 127, 131),
    ("program p; begin ", "for i := 1 to 2 do ", "", "", "end.", 127, 893),
    ("program p; begin ", "with a do ", "", "", "end.", 127, 385),
    // Expressions, in the `begin` of the statement part. 6 tokens stand before the first, or 4.
    ("program p; begin a := ", "(", "b", ")", " end.", 127, 133),
    ("program p; begin a := ", "f(", "b", ")", " end.", 127, 261),
    ("program p; begin ", "f(", "b", ")", " end.", 127, 259),
    ("program p; begin a := ", "b[", "1", "]", " end.", 127, 261),
    ("program p; begin ", "b[", "1", "]", " := 1 end.", 127, 259),
    ("program p; begin a := ", "[", "", "]", " end.", 127, 133),
    ("program p; begin a := ", "not ", "b", "", " end.", 127, 133),
    // Structured types, in nothing. 6 tokens stand before the first.
    ("program p; type t = ", "record a : ", "b", " end", "; begin end.", 128, 390),
    ("program p; type t = ", "packed record a : ", "b", " end", "; begin end.", 128, 518),
    ("program p; type t = ", "array [a] of ", "b", "", "; begin end.", 128, 646),
    ("program p; type t = ", "packed array [a] of ", "b", "", "; begin end.", 128, 774),
    ("program p; type t = ", "file of ", "b", "", "; begin end.", 128, 262),
    ("program p; type t = ", "packed file of ", "b", "", "; begin end.", 128, 390),
    ("program p; type t = ", "file of ", "set of b", "", "; begin end.", 127, 262),
    ("program p; type t = ", "file of ", "packed set of b", "", "; begin end.", 127, 262),
    ("program p; var v : ", "record a : ", "packed array [b] of c", " end", "; begin end.", 127, 390),
    // Variant parts: in one record, and the last one in a record.
    ("program p; type t = record ", "case a of 1 : (", "", ")", " end; begin end.", 127, 769),
    ("program p; type t = ", "record a : ", "record case b of 1 : () end", " end", "; begin end.", 126, 388),
    // Formals, in nothing. 5 tokens stand before the first.
    ("program p; procedure q", "(procedure r", "", ")", "; forward; begin end.", 128, 389),
    ("program p; procedure q", "(function f", "(a : b)", " : c)", "; begin end; begin end.", 127, 389),
    // Openers of two kinds: the last one in a `begin`, and two at a time.
    ("program p; begin ", "begin ", "a := (b)", " end", " end.", 126, 133),
    ("program p; begin a := ", "(not ", "b", ")", " end.", 63, 133),
    ("program p; begin a := ", "f([", "b", "])", " end.", 63, 197),
];
