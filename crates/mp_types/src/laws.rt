// What the relations between types promise: each function's contract is one law of them.
ghost use Rattle.std.specs.Prelude.{◌≡◌, ◌↔◌, IsTrue, List, [], ◌∷◌, None, Option, Some, codes, length, map, neg_ℤ, not, pos, ℕ};
ghost use Rattle.std.specs.List.{list_all};
ghost use Rattle.mp_base.specs.Name.{is_name_byte};
ghost use Rattle.mp_base.specs.declared.path.PathStep.{PathStep};
ghost use Rattle.mp_tables.specs.declared.types.Bounds.{Bounds};
ghost use Rattle.mp_tables.specs.declared.types.TypeId.TheVariants as type;
ghost use Rattle.mp_tables.specs.RequiredNames.{required_name, required_names, required_shape, standard_file, standard_files};
ghost use Rattle.mp_tables.specs.declared.types.TypeId.{TypeId};
ghost use Rattle.mp_tables.specs.declared.types.Shape.TheVariants as shapes;
ghost use Rattle.mp_tables.specs.declared.types.Shape.{Shape};
ghost use Rattle.mp_tables.specs.declared.types.Typed.{Typed};
ghost use Rattle.mp_tables.specs.declared.headings.FormalKind.{FormalKind};
ghost use Rattle.mp_tables.specs.declared.headings.Heading.{Heading};
ghost use Rattle.mp_tables.specs.Checked.{unnamed};
ghost use Rattle.mp_tables.specs.Complete.{NamedHeading};
ghost use Rattle.mp_tables.specs.TypeRelations.{OfLength, assignable, compatible, congruous, has_host, holds_file, ordinal, same, string_form};
ghost use Rattle.mp_types.specs.Compatible.{IsAssignable, IsCompatible, IsStringType};
ghost use Rattle.mp_types.specs.Ordinals.{IsOrdinalOf, IsRangeOrNames};

/// An identity is that of one type.
pub fn same_types_have_one_identity()
    ensures { (a b : TypeId) → IsTrue (same a b) ↔ (a ≡ b) }
{}

/// The string types are the character-strings and the packed arrays of more than one character that are numbered from 1.
pub fn string_types()
    ensures { (s : Shape) (n : ℕ) → (string_form s ≡ OfLength n) ↔ IsStringType s n }
{}

/// Types are compatible exactly in the cases of ISO 7185, 6.4.5.
pub fn compatible_types()
    ensures cases { (a b : Typed) → IsTrue (compatible a b) ↔ IsCompatible a b }
    ensures symmetric { (a b : Typed) → compatible a b ≡ compatible b a }
{}

/// A value of a type goes into a variable of the type, unless it is or holds a file.
pub fn values_of_the_type_are_assignable()
    ensures { (id : TypeId) (s : Shape) → assignable (record { id = Some id; shape = s }) (record { id = Some id; shape = s }) ≡ not (holds_file s) }
{}

/// Types are assignment-compatible exactly where they are compatible and, where the two are one type, it is no file and holds
/// none (ISO 7185, 6.4.6).
pub fn assignable_types()
    ensures { (value target : Typed) → IsTrue (assignable value target) ↔ IsAssignable value target }
{}

/// The ordinal types are the subranges, with their values from the least to the greatest, and the enumerations, whose
/// constants are numbered from 0 in their order. A type is of a host exactly where its values are of it (ISO 7185, 6.4.2).
pub fn ordinal_types()
    ensures subrange { (id : Option TypeId) (values : Bounds) → ordinal (record { id = id; shape = shapes.Range values }) ≡ Some values }
    ensures enumeration { (id : TypeId) (first : List ℕ) (later : List (List ℕ)) →
        ordinal (record { id = Some id; shape = shapes.Names (first ∷ later) })
        ≡ Some (record { host = id; low = pos 0; high = pos (length later) }) }
    ensures no_other { (t : Typed) (values : Bounds) → ordinal t ≡ Some values → IsRangeOrNames t.shape }
    ensures host { (host : TypeId) (t : Typed) → IsTrue (has_host host t) ↔ IsOrdinalOf host t }
{}

/// Congruity is symmetric. Headings that differ in names of parameters alone are congruous, and no others are of which no type
/// is missing.
pub fn congruous_headings()
    ensures symmetric { (a b : Heading) → congruous a b ≡ congruous b a }
    ensures enough { (a b : Heading) → unnamed a ≡ unnamed b → IsTrue (congruous a b) }
    ensures needed { (kind : FormalKind) (a b : Heading) → NamedHeading kind a → NamedHeading kind b → IsTrue (congruous a b) → unnamed a ≡ unnamed b }
{}

/// Each required name is found, and means what its row says; it is spelled in lower case. `input` and `output` are not among
/// them.
pub fn required_names_are_found()
    ensures rows { map (λ row. required_name row.0) required_names ≡ map (λ row. Some row.1) required_names }
    ensures files { map (λ row. standard_file row.0) standard_files ≡ map (λ row. Some row.1) standard_files }
    ensures no_files { map (λ row. required_name row.0) standard_files ≡ None ∷ None ∷ [] }
    ensures lower_case { IsTrue (list_all (λ row. list_all is_name_byte row.0) required_names) }
{}

/// The required types have shapes, and those that a program defines have none here.
pub fn required_types_have_shapes()
    ensures none { (path : List PathStep) (at : ℕ) → required_shape (type.Own path at) ≡ None }
    ensures ordinal { (id : TypeId) (s : Shape) (values : Bounds) → required_shape id ≡ Some s → ordinal (record { id = Some id; shape = s }) ≡ Some values → values.host ≡ id }
{}

/// The values of the required ordinal types: integers up to 2,147,483,647 and their negatives, 256 characters, and `false`
/// before `true` (ISO 7185, 6.4.2.2).
pub fn required_types_have_values()
    ensures integer { required_shape type.Integer
        ≡ Some (shapes.Range (record { host = type.Integer; low = neg_ℤ (pos 2147483647); high = pos 2147483647 })) }
    ensures char { required_shape type.Char ≡ Some (shapes.Range (record { host = type.Char; low = pos 0; high = pos 255 })) }
    ensures boolean { required_shape type.Boolean ≡ Some (shapes.Names (codes "false" ∷ codes "true" ∷ [])) }
{}
