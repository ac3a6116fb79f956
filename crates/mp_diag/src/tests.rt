ghost use Rattle.std.specs.Prelude.{◌≡◌, ◌≤◌, All, IfOk, length};
ghost use Rattle.mp_base.specs.Text.{bytes_of, lines_of};
ghost use Rattle.mp_diag.specs.Codes.{IsListed};

use crate::messages::text_of;
use crate::{Shown, listing, position, shown_errors};
use mp_ast::LexError;
use mp_base::{At, Bytes, Memory};
use std::alloc::Global;
use std::test::Fail;

// Errors with these lines, columns and codes.
fn errors_at(alloc: Global, rows: &[(u32, u32, u16)]) -> Result<Vec<Shown>, Memory>
    ensures { IfOk result (λ errors. All (λ error. IsListed error.code) errors.items) }
{
    let mut errors = Vec::new(alloc);
    for row in rows {
        text_of(row.2).ok_or(Memory)?;
        errors.push(Shown {
            at: At {
                line: row.0,
                column: row.1,
            },
            code: row.2,
        })?;
    }
    Ok(errors)
}

// Lexical errors of a text at these bytes with these codes.
fn errors_of(alloc: Global, text: &[u8], rows: &[(u32, u16)]) -> Result<Vec<LexError>, Memory>
    ensures within { IfOk result (λ errors. All (λ error. error.start ≤ length text.now) errors.items) }
    ensures listed { IfOk result (λ errors. All (λ error. IsListed error.code) errors.items) }
{
    let mut errors = Vec::new(alloc);
    for row in rows {
        text_of(row.1).ok_or(Memory)?;
        if row.0 as usize > text.len() {
            return Err(Memory);
        }
        errors.push(LexError {
            start: row.0,
            len: 0,
            code: row.1,
        })?;
    }
    Ok(errors)
}

fn text(alloc: Global, bytes: &Bytes) -> Result<String, Fail> {
    let mut out = String::new(alloc);
    for byte in bytes.get() {
        out.push(char::from(*byte))?;
    }
    Ok(out)
}

fn listed_at(alloc: Global, rows: &[(u32, u32, u16)]) -> Result<String, Fail> {
    let errors = errors_at(alloc, rows)?;
    let bytes = listing(alloc, errors.as_slice())?;
    text(alloc, &bytes)
}

// The listing of these lexical errors of a text whose last line is ended.
fn listed_of(alloc: Global, source: &[u8], rows: &[(u32, u16)]) -> Result<String, Fail>
    requires { source.now ≡ bytes_of (lines_of source.now) }
{
    if source.len() > 100 {
        return Err(Memory)?;
    }
    let errors = errors_of(alloc, source, rows)?;
    let shown = shown_errors(alloc, source, errors.as_slice())?;
    let bytes = listing(alloc, shown.as_slice())?;
    text(alloc, &bytes)
}

const LISTINGS: [(&[(u32, u32, u16)], &str); 5] = [
    (&[], "accepted\n"),
    (&[(1, 18, 201)], "1:18 201 syntax error\n"),
    (
        &[(2, 20, 106), (3, 8, 105)],
        "2:20 106 real number\n3:8 105 letter touches number\n",
    ),
    (
        &[(9, 1, 301), (1, 9, 301), (9, 1, 301)],
        "9:1 301 not declared\n1:9 301 not declared\n9:1 301 not declared\n",
    ),
    (
        &[(4_294_967_295, 4_294_967_295, 351), (0, 0, 101)],
        "4294967295:4294967295 351 member types differ\n0:0 101 bad character\n",
    ),
];

#[test]
fn each_error_is_a_line_in_the_order_given(rt: HostRuntime) -> Result<(), Fail> {
    for (rows, want) in LISTINGS {
        let got = listed_at(rt.alloc(), rows)?;
        assert_eq!(rt; got.as_str(), want);
    }
    Ok(())
}

const LINES: [(u16, &str); 60] = [
    (101, "7:30 101 bad character\n"),
    (102, "7:30 102 comment not closed\n"),
    (103, "7:30 103 string not closed\n"),
    (104, "7:30 104 empty string\n"),
    (105, "7:30 105 letter touches number\n"),
    (106, "7:30 106 real number\n"),
    (107, "7:30 107 number too large\n"),
    (108, "7:30 108 real division\n"),
    (201, "7:30 201 syntax error\n"),
    (202, "7:30 202 text ends too early\n"),
    (203, "7:30 203 nested too deep\n"),
    (204, "7:30 204 too many blocks\n"),
    (205, "7:30 205 text after the program\n"),
    (301, "7:30 301 not declared\n"),
    (302, "7:30 302 used before its declaration\n"),
    (303, "7:30 303 needs type real\n"),
    (304, "7:30 304 declared twice\n"),
    (305, "7:30 305 wrong kind of name\n"),
    (306, "7:30 306 label not declared\n"),
    (307, "7:30 307 label declared twice\n"),
    (308, "7:30 308 label stands twice\n"),
    (309, "7:30 309 label stands nowhere\n"),
    (310, "7:30 310 goto may not lead there\n"),
    (311, "7:30 311 label past 9999\n"),
    (312, "7:30 312 forward without block\n"),
    (313, "7:30 313 heading repeated\n"),
    (314, "7:30 314 result type missing\n"),
    (315, "7:30 315 function never assigned\n"),
    (316, "7:30 316 bounds out of order\n"),
    (317, "7:30 317 bounds do not fit\n"),
    (318, "7:30 318 ordinal type needed\n"),
    (319, "7:30 319 set base outside 0..255\n"),
    (320, "7:30 320 file not allowed here\n"),
    (321, "7:30 321 only text files\n"),
    (322, "7:30 322 sign without integer\n"),
    (323, "7:30 323 result not simple or pointer\n"),
    (324, "7:30 324 constant does not fit\n"),
    (325, "7:30 325 constant repeated\n"),
    (326, "7:30 326 no text variable\n"),
    (330, "7:30 330 operands do not fit\n"),
    (331, "7:30 331 sign needs an integer\n"),
    (332, "7:30 332 Boolean needed\n"),
    (334, "7:30 334 types do not fit\n"),
    (335, "7:30 335 not an array\n"),
    (336, "7:30 336 not a record\n"),
    (337, "7:30 337 not a pointer or file\n"),
    (338, "7:30 338 no such field\n"),
    (339, "7:30 339 index does not fit\n"),
    (340, "7:30 340 wrong number of parameters\n"),
    (341, "7:30 341 variable needed\n"),
    (342, "7:30 342 same type needed\n"),
    (343, "7:30 343 packed component or tag\n"),
    (344, "7:30 344 parameter lists differ\n"),
    (345, "7:30 345 width not allowed\n"),
    (346, "7:30 346 no control variable\n"),
    (347, "7:30 347 control variable threatened\n"),
    (348, "7:30 348 cannot be assigned\n"),
    (349, "7:30 349 parameter does not fit\n"),
    (350, "7:30 350 input or output not named\n"),
    (351, "7:30 351 member types differ\n"),
];

#[test]
fn each_code_has_its_text(rt: HostRuntime) -> Result<(), Fail> {
    for (code, want) in LINES {
        let got = listed_at(rt.alloc(), &[(7, 30, code)])?;
        assert_eq!(rt; got.as_str(), want);
    }
    Ok(())
}

// Bytes 0 to 6; the end is byte 7.
const SOURCE: &[u8] = b"ab\n\n{c\n";

#[test]
#[tactic(auto, unfolding(mp_base::specs::Text::bytes_of, mp_base::specs::Text::lines_of, mp_base::specs::Text::cut))]
fn lexical_errors_stand_at_their_bytes(rt: HostRuntime) -> Result<(), Fail> {
    let cases: [(&[(u32, u16)], &str); 4] = [
        (&[], "accepted\n"),
        (&[(4, 102)], "3:1 102 comment not closed\n"),
        (
            &[
                (0, 101),
                (1, 101),
                (2, 103),
                (3, 101),
                (5, 101),
                (6, 101),
                (7, 104),
            ],
            "1:1 101 bad character\n1:2 101 bad character\n1:3 103 string not closed\n2:1 101 bad character\n3:2 101 bad character\n3:3 101 bad character\n4:1 104 empty string\n",
        ),
        (
            &[(5, 107), (0, 108), (5, 105)],
            "3:2 107 number too large\n1:1 108 real division\n3:2 105 letter touches number\n",
        ),
    ];
    for (rows, want) in cases {
        let got = listed_of(rt.alloc(), SOURCE, rows)?;
        assert_eq!(rt; got.as_str(), want);
    }
    Ok(())
}

#[test]
#[tactic(auto, unfolding(mp_base::specs::Text::bytes_of, mp_base::specs::Text::lines_of, mp_base::specs::Text::cut))]
fn a_byte_has_its_line_and_column(rt: HostRuntime) {
    for (byte, line, column) in [
        (0, 1, 1),
        (1, 1, 2),
        (2, 1, 3),
        (3, 2, 1),
        (4, 3, 1),
        (5, 3, 2),
        (6, 3, 3),
        (7, 4, 1),
    ] {
        assert!(rt; byte <= SOURCE.len());
        assert_eq!(rt; position(SOURCE, byte), At { line, column });
    }
}
