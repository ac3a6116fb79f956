ghost use Rattle.std.specs.Prelude.{◌≡◌, ◌==◌, map, find};
ghost use Rattle.std.specs.Option.{option_copied};
ghost use Rattle.mp_diag.specs.Codes.{text_in, text_of};

// Each code with its text; the codes rise.
static MESSAGES: [(u16, &str); 60] = [
    (101, "bad character"),
    (102, "comment not closed"),
    (103, "string not closed"),
    (104, "empty string"),
    (105, "letter touches number"),
    (106, "real number"),
    (107, "number too large"),
    (108, "real division"),
    (201, "syntax error"),
    (202, "text ends too early"),
    (203, "nested too deep"),
    (204, "too many blocks"),
    (205, "text after the program"),
    (301, "not declared"),
    (302, "used before its declaration"),
    (303, "needs type real"),
    (304, "declared twice"),
    (305, "wrong kind of name"),
    (306, "label not declared"),
    (307, "label declared twice"),
    (308, "label stands twice"),
    (309, "label stands nowhere"),
    (310, "goto may not lead there"),
    (311, "label past 9999"),
    (312, "forward without block"),
    (313, "heading repeated"),
    (314, "result type missing"),
    (315, "function never assigned"),
    (316, "bounds out of order"),
    (317, "bounds do not fit"),
    (318, "ordinal type needed"),
    (319, "set base outside 0..255"),
    (320, "file not allowed here"),
    (321, "only text files"),
    (322, "sign without integer"),
    (323, "result not simple or pointer"),
    (324, "constant does not fit"),
    (325, "constant repeated"),
    (326, "no text variable"),
    (330, "operands do not fit"),
    (331, "sign needs an integer"),
    (332, "Boolean needed"),
    (334, "types do not fit"),
    (335, "not an array"),
    (336, "not a record"),
    (337, "not a pointer or file"),
    (338, "no such field"),
    (339, "index does not fit"),
    (340, "wrong number of parameters"),
    (341, "variable needed"),
    (342, "same type needed"),
    (343, "packed component or tag"),
    (344, "parameter lists differ"),
    (345, "width not allowed"),
    (346, "no control variable"),
    (347, "control variable threatened"),
    (348, "cannot be assigned"),
    (349, "parameter does not fit"),
    (350, "input or output not named"),
    (351, "member types differ"),
];

// The first of these messages that has the code.
fn find_message<'a>(
    messages: &'a [(u16, &'static str)],
    code: u16,
) -> Option<&'a (u16, &'static str)>
    ensures { option_copied result ≡ find (λ message. message.0 == code) messages.now }
{
    messages.iter().find(|message| message.0 == code)
}

// The text that these messages give to a code.
fn find_text(messages: &[(u16, &'static str)], code: u16) -> Option<&'static str>
    ensures { option_copied result
        ≡ text_in (map (λ message. (message.0, message.1.now)) messages.now) code }
{
    find_message(messages, code).map(|message| message.1)
}

/// The text of a code, where the table has one.
pub fn text_of(code: u16) -> Option<&'static str>
    ensures { option_copied result ≡ text_of code }
{
    find_text(&MESSAGES, code)
}
