// The searches of the definitions over tables, which take no memory.
ghost use Rattle.std.specs.Prelude.{◌≡◌, [], bytes_eq};
ghost use Rattle.std.specs.List.{list_any};
ghost use Rattle.std.specs.Option.{option_copied};
ghost use Rattle.mp_tables.specs.declared.types.TypeId.TheVariants as type;
ghost use Rattle.mp_tables.specs.RequiredNames as required;
ghost use Rattle.mp_tables.specs.Seen as spec;
ghost use Rattle.mp_scope.specs.Lent.{seen_of};

use crate::sight::Sight;
use crate::tables::Tables;
use mp_base::{Name, PathStep, Place};
use mp_tables::{Nested, Shape, Table};
use mp_types::required_name;

fn nested_in<'a>(tables: &'a Tables, path: &[PathStep], step: &PathStep) -> Option<&'a Nested>
    ensures { option_copied result ≡ spec.nested_in tables.now path.now step.now }
{
    match tables.at(path) {
        Some(table) => table.nested.get(step),
        None => None,
    }
}

/// What the enclosing block has of the block with this path.
pub fn nested_at<'a>(tables: &'a Tables, path: &[PathStep]) -> Option<&'a Nested>
    ensures { option_copied result ≡ spec.nested_at tables.now [] path.now }
{
    match path.split_last() {
        Some((step, around)) => nested_in(tables, around, step),
        None => None,
    }
}

/// Whether this is the path of the program, of a block with a table, or of one that such a block has.
pub fn path_stands(tables: &Tables, path: &[PathStep]) -> bool
    ensures { result ≡ spec.path_stands tables.now path.now }
{
    path.is_empty() || tables.at(path).is_some() || nested_at(tables, path).is_some()
}

// What this block says of a name at one of its ordinals; where it does not declare it, what it is outside.
fn here<'a>(
    tables: &'a Tables,
    path: &[PathStep],
    at: u32,
    name: &Name,
    outer: Sight<'a>,
) -> Sight<'a>
    ensures { seen_of result ≡ spec.declared_or (seen_of outer.entry) (spec.here tables.now path.now at name.now) }
{
    let table = match tables.at(path) {
        Some(table) => table,
        None => return outer,
    };
    match table.names.get(name) {
        Some(entry) => {
            if entry.last < at {
                Sight::Is(&entry.decl)
            } else {
                Sight::NotYet
            }
        }
        None => outer,
    }
}

fn semicolon_of(tables: &Tables, path: &[PathStep], step: &PathStep) -> u32
    ensures { result ≡ spec.semicolon_of (spec.nested_in tables.now path.now step.now) }
{
    match nested_in(tables, path, step) {
        Some(nested) => nested.semicolon,
        None => 0,
    }
}

fn around_program<'a>(name: &Name) -> Sight<'a>
    ensures { seen_of result ≡ spec.around_program (required.required_name name.now) }
{
    match required_name(name) {
        Some(required) => Sight::Required(required),
        None => Sight::Absent,
    }
}

/// What a name is at a place: the innermost block that declares it decides.
pub fn seen<'a>(tables: &'a Tables, name: &Name, place: &Place) -> Sight<'a>
    ensures { seen_of result ≡ spec.seen tables.now name.now place.now }
{
    let steps = place.path.steps();
    let mut sight = around_program(name);
    'inward: for i in 0..steps.len() {
        let path = &steps[..i];
        let semicolon = semicolon_of(tables, path, &steps[i]);
        sight = here(tables, path, semicolon, name, sight);
    }
    here(tables, steps, place.ordinal, name, sight)
}

/// The shape of a type of a program, where a block with a table has it.
pub fn own_shape<'a>(tables: &'a Tables, path: &[PathStep], at: u32) -> Option<&'a Shape>
    ensures { option_copied result ≡ spec.own_shape tables.now (type.Own path.now at) }
{
    match tables.at(path) {
        Some(table) => table.shapes.get(at),
        None => None,
    }
}

// Whether the path begins with these steps.
fn begins(path: &[PathStep], outer: &[PathStep]) -> bool
    ensures { result ≡ spec.begins_with outer.now path.now }
{
    path.starts_with(outer)
}

fn has_name(names: &[Name], name: &Name) -> bool
    ensures { result ≡ list_any (bytes_eq name.now) names.now }
{
    names.iter().any(|other| name == other)
}

// Whether the block with this path, or one in it, assigns to this bare name.
fn assigned_within(tables: &[Table], path: &[PathStep], name: &Name) -> bool
    ensures { result ≡ spec.assigned_within tables.now path.now name.now }
{
    'tables: for table in tables {
        if begins(table.path.steps(), path) && has_name(table.assigned.as_slice(), name) {
            return true;
        }
    }
    false
}

/// Whether the block, or one in it, assigns to the bare name of the block's function; true where it has no function.
pub fn assigns(tables: &Tables, path: &[PathStep]) -> bool
    ensures { result ≡ spec.assigns_of tables.now path.now }
{
    match nested_at(tables, path) {
        Some(nested) => !nested.function
            || assigned_within(tables.as_slice(), path, &nested.step.name),
        None => true,
    }
}
