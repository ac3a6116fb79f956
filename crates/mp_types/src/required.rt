ghost use Rattle.std.specs.Prelude.{◌≡◌, [], ◌∷◌, IfOk, codes, find, map};
ghost use Rattle.std.specs.Option.{option_copied};
ghost use Rattle.std.specs.Map.{lookup};
ghost use Rattle.std.specs.Str.{bytes_eq};
ghost use Rattle.mp_tables.specs.RequiredNames as required;

use mp_base::{MAXINT, Memory, Name};
use mp_tables::{Bounds, Required, Shape, Shared, TypeId};
use sqlite_items::Items;
use std::alloc::Global;

// All but `input` and `output`.
static REQUIRED_NAMES: [(&str, Required); 38] = [
    ("integer", Required::Integer),
    ("boolean", Required::Boolean),
    ("char", Required::Char),
    ("text", Required::Text),
    ("false", Required::False),
    ("true", Required::True),
    ("maxint", Required::Maxint),
    ("real", Required::Real),
    ("trunc", Required::Real),
    ("round", Required::Real),
    ("sqrt", Required::Real),
    ("sin", Required::Real),
    ("cos", Required::Real),
    ("exp", Required::Real),
    ("ln", Required::Real),
    ("arctan", Required::Real),
    ("abs", Required::Abs),
    ("sqr", Required::Sqr),
    ("odd", Required::Odd),
    ("ord", Required::Ord),
    ("succ", Required::Succ),
    ("pred", Required::Pred),
    ("chr", Required::Chr),
    ("eof", Required::Eof),
    ("eoln", Required::Eoln),
    ("reset", Required::Reset),
    ("rewrite", Required::Rewrite),
    ("get", Required::Get),
    ("put", Required::Put),
    ("read", Required::Read),
    ("readln", Required::Readln),
    ("write", Required::Write),
    ("writeln", Required::Writeln),
    ("page", Required::Page),
    ("new", Required::New),
    ("dispose", Required::Dispose),
    ("pack", Required::Pack),
    ("unpack", Required::Unpack),
];

// The files that a program has where its heading names them.
static STANDARD_FILES: [(&str, Required); 2] = [
    ("input", Required::Input),
    ("output", Required::Output),
];

// The first of these rows that has the name.
fn find_row<'a>(
    rows: &'a [(&'static str, Required)],
    name: &Name,
) -> Option<&'a (&'static str, Required)>
    ensures { option_copied result ≡ find (λ row. bytes_eq name.now row.0.now) rows.now }
{
    let name = name.get();
    rows.iter().find(|row| name == row.0.as_bytes())
}

// What these rows give to the name.
fn find_name(rows: &[(&'static str, Required)], name: &Name) -> Option<Required>
    ensures { result ≡ lookup (bytes_eq name.now) (map (λ row. (row.0.now, row.1)) rows.now) }
{
    let row = find_row(rows, name)?;
    Some(row.1)
}

/// The required identifier that a name is, `input` and `output` left out (ISO 7185, 6.1.3, 6.2.2.10).
pub fn required_name(name: &Name) -> Option<Required>
    ensures { result ≡ required.required_name name.now }
{
    find_name(&REQUIRED_NAMES, name)
}

/// The standard file that a name is: `input` or `output` (ISO 7185, 6.10).
pub fn standard_file(name: &Name) -> Option<Required>
    ensures { result ≡ required.standard_file name.now }
{
    find_name(&STANDARD_FILES, name)
}

// The constants of Boolean, in order.
fn boolean_constants(alloc: Global) -> Result<Shared<Name>, Memory>
    ensures { IfOk result (λ names. names ≡ codes "false" ∷ codes "true" ∷ []) }
{
    let mut names = Items::new(alloc);
    names.push(Name::new(alloc, b"false")?)?;
    names.push(Name::new(alloc, b"true")?)?;
    Shared::new(alloc, names)
}

/// The shape of a required type (ISO 7185, 6.4.2.2, 6.4.3.5). A type that the program defines has none here.
pub fn required_shape(alloc: Global, id: &TypeId) -> Result<Option<Shape>, Memory>
    ensures { IfOk result (λ shape. shape ≡ required.required_shape id.now) }
{
    Ok(match id {
        TypeId::Integer => Some(Shape::Range(Bounds {
            host: TypeId::Integer,
            low: -(MAXINT as i64),
            high: MAXINT as i64,
        })),
        TypeId::Boolean => Some(Shape::Names(boolean_constants(alloc)?)),
        TypeId::Char => Some(Shape::Range(Bounds {
            host: TypeId::Char,
            low: 0,
            high: 255,
        })),
        TypeId::Text => Some(Shape::Text),
        TypeId::Own(_, _) => None,
    })
}
