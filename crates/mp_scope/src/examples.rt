// What the tables of a small program answer, by computation.
ghost use Rattle.std.specs.Prelude.{◌≡◌, [], ◌∷◌, None, Some, codes, false, true};
ghost use Rattle.mp_tables.specs.declared.types.TypeId.TheVariants as type;
ghost use Rattle.mp_tables.specs.declared.types.Shape.TheVariants as shape;
ghost use Rattle.mp_tables.specs.declared.required.Required.TheVariants as required;
ghost use Rattle.mp_tables.specs.declared.declarations.Decl.TheVariants as decl;
ghost use Rattle.mp_tables.specs.declared.questions.Seen.TheVariants as see;
ghost use Rattle.mp_tables.specs.Seen.{assigns_of, heading_of, path_stands, seen, shape_of};
ghost use Rattle.mp_scope.specs.Examples as example;
ghost use Rattle.mp_scope.specs.Examples.{place, step, tables};

/// A name is seen from behind its definition. A block decides on each name that it declares, also before it does so, and also
/// where a block around it or a required identifier has the name.
pub fn names_of_a_block()
    ensures in_its_definition { seen tables (codes "c") (place [] 6) ≡ see.NotYet }
    ensures behind { seen tables (codes "c") (place [] 7) ≡ see.Is example.outer_c }
    ensures inner_not_yet { seen tables (codes "c") (place example.q 3) ≡ see.NotYet }
    ensures inner { seen tables (codes "c") (place example.q 4) ≡ see.Is example.inner_c }
    ensures required_not_yet { seen tables (codes "odd") (place [] 11) ≡ see.NotYet }
    ensures required_anew { seen tables (codes "odd") (place [] 12) ≡ see.Is (example.variable 1) }
{}

/// Of the blocks around it a block sees what is declared before its own heading ends; around the program stand the required
/// identifiers.
pub fn names_around()
    ensures around { seen tables (codes "x") (place example.q 0) ≡ see.Is (example.variable 0) }
    ensures further_out { seen tables (codes "c") (place example.r 0) ≡ see.Is example.outer_c }
    ensures later { seen tables (codes "late") (place example.q 99) ≡ see.NotYet }
    ensures required_name { seen tables (codes "abs") (place example.r 0) ≡ see.Is (decl.Required required.Abs) }
    ensures nowhere { seen tables (codes "z") (place example.q 99) ≡ see.Absent }
    ensures of_another_block { seen tables (codes "r") (place example.q 99) ≡ see.Absent }
{}

/// A block has the heading that the block around it has of it, and the program none. A function is assigned where its block or
/// one in it assigns to its name.
pub fn headings_and_results()
    ensures program { heading_of tables [] ≡ example.plain }
    ensures function { heading_of tables example.f ≡ example.of_integer }
    ensures procedure { heading_of tables example.r ≡ example.plain }
    ensures assigned_within { assigns_of tables example.f ≡ true }
    ensures assigned_elsewhere { assigns_of tables example.g ≡ false }
    ensures no_function { assigns_of tables example.q ≡ true }
{}

/// What stands: the required types and those of the blocks, and the paths of the blocks.
pub fn types_and_paths()
    ensures required_type { shape_of tables type.Text ≡ Some shape.Text }
    ensures own_type { shape_of tables (type.Own [] 13) ≡ Some (shape.Ptr (Some type.Char)) }
    ensures other_place { shape_of tables (type.Own [] 14) ≡ None }
    ensures other_block { shape_of tables (type.Own example.q 13) ≡ None }
    ensures with_table { path_stands tables example.r ≡ true }
    ensures without_table { path_stands tables example.g ≡ true }
    ensures other_path { path_stands tables (step (codes "r") ∷ []) ≡ false }
    ensures second_of_its_name { path_stands tables (record { name = codes "q"; nth = 2 } ∷ []) ≡ false }
{}
