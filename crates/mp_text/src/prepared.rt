ghost use Rattle.std.specs.Prelude.{◌≡◌};
ghost use Rattle.mp_base.specs.Text.{bytes_of};
ghost use Rattle.mp_text.specs.Versions.{IsText};

use crate::pieces::VersionReader;
use crate::shared::SharedText;
use std::marker::Model;

/// A text that is to be a version: it keeps the limits, and its memory is found.
#[derive(Drop)]
pub struct Prepared {
    text: SharedText,
}

impl Model for Prepared {
    ghost use Rattle.std.specs.Prelude.{List, ℕ};
    ghost use Rattle.mp_text.specs.Versions.{IsText};

    ghost Value = { List (List ℕ) };

    ghost view = { λ made. made.text };

    ghost invariant = { λ made. IsText made.text };
}

impl Prepared {
    pub(crate) fn new(text: SharedText) -> Prepared
        requires { IsText text }
        ensures { result ≡ text }
    {
        Prepared { text }
    }

    /// The bytes, one by one.
    pub fn reader(&self) -> VersionReader<'_>
        ensures bytes { result ≡ bytes_of self.now }
        ensures text { IsText self.now }
    {
        self.text.reader()
    }

    pub(crate) fn into_text(self) -> SharedText
        ensures text { result ≡ self }
        ensures kept { IsText self }
    {
        self.text
    }
}
