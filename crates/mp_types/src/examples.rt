// Which of some types fit each other, by computation.
ghost use Rattle.std.specs.Prelude.{◌≡◌, true, false};
ghost use Rattle.mp_tables.specs.TypeRelations.{assignable, compatible};
ghost use Rattle.mp_types.specs.Examples.{char, characters, colours, digits, empty_record, empty_set, integer, letters, nil_type, pointer, set_of_char, text_file, text_of_length};

/// A type is compatible with its subranges, both ways, and they with each other; two enumerations are not, whatever their
/// constants are called.
pub fn ordinal_types()
    ensures subrange { compatible (digits 5) integer ≡ true }
    ensures host { compatible integer (digits 5) ≡ true }
    ensures subranges { compatible (digits 5) (digits 9) ≡ true }
    ensures other_host { compatible integer char ≡ false }
    ensures enumerations { compatible (colours 5) (colours 9) ≡ false }
{}

/// Set types are both packed or both not. A set constructor is either, and the empty one goes with each set type.
pub fn set_types()
    ensures unpacked { compatible (set_of_char 5 false) (set_of_char 9 false) ≡ true }
    ensures packed { compatible (set_of_char 5 true) (set_of_char 9 false) ≡ false }
    ensures constructor { compatible letters (set_of_char 5 true) ≡ true }
    ensures empty { compatible empty_set (set_of_char 5 true) ≡ true }
    ensures no_set { compatible letters char ≡ false }
{}

/// `nil` goes with each pointer type. Two pointer types with one domain are two types.
pub fn pointer_types()
    ensures nil { compatible nil_type (pointer 5) ≡ true }
    ensures with_nil { compatible (pointer 5) nil_type ≡ true }
    ensures both_nil { compatible nil_type nil_type ≡ true }
    ensures itself { compatible (pointer 5) (pointer 5) ≡ true }
    ensures other { compatible (pointer 5) (pointer 9) ≡ false }
{}

/// Strings are of one length, and their arrays are packed.
pub fn string_types()
    ensures same_length { compatible (characters 5 true 3) (characters 9 true 3) ≡ true }
    ensures character_string { compatible (text_of_length 3) (characters 5 true 3) ≡ true }
    ensures other_length { compatible (text_of_length 3) (characters 5 true 4) ≡ false }
    ensures unpacked { compatible (text_of_length 3) (characters 5 false 3) ≡ false }
    ensures one_character { compatible (text_of_length 1) (characters 5 true 1) ≡ false }
{}

/// A record goes into a record of its own type alone, and a file nowhere.
pub fn records_and_files()
    ensures itself { assignable (empty_record 5) (empty_record 5) ≡ true }
    ensures other { assignable (empty_record 5) (empty_record 9) ≡ false }
    ensures file { assignable text_file text_file ≡ false }
{}
