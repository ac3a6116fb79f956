// What the table of codes promises.
ghost use Rattle.std.specs.Prelude.{◌≡◌, All};
ghost use Rattle.mp_diag.specs.Codes.{table, text_of};

/// Each code of the table has the text of its row: no two rows have one code.
pub fn one_text_a_code()
    ensures { All (λ row. text_of row.0 ≡ Some row.1) table }
{}
