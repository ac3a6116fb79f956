ghost use Rattle.std.specs.Prelude.{◌≡◌, ◌≤◌};
ghost use Rattle.mp_files.specs.Items.{digit_of, is_line_end, is_minus, is_sign};
ghost use Rattle.mp_files.specs.Stored.{is_of};

/// What stands at one place of a text file (ISO 7185, 6.4.3.5). A character with the number 10 is no line end.
#[derive(Clone, Copy, Debug, PartialEq, Eq)]
pub enum Item {
    Character(u8),
    LineEnd,
}

// The classes of items over which reading goes on.
#[derive(Clone, Copy)]
pub(crate) enum ItemClass {
    // Any character, and no line end.
    Character,
    // What stands before a number: a space or a line end.
    Space,
    Digit,
}

impl Item {
    pub(crate) fn is_of(&self, class: ItemClass) -> bool
        ensures { result ≡ is_of class self.now }
    {
        match (class, self) {
            (ItemClass::Character, Item::Character(_)) => true,
            (ItemClass::Space, Item::Character(byte)) => *byte == b' ',
            (ItemClass::Space, Item::LineEnd) => true,
            (ItemClass::Digit, Item::Character(byte)) => b'0' <= *byte && *byte <= b'9',
            _ => false,
        }
    }

    pub(crate) fn is_line_end(&self) -> bool
        ensures { result ≡ is_line_end self.now }
    {
        match self {
            Item::Character(_) => false,
            Item::LineEnd => true,
        }
    }

    pub(crate) fn is_minus(&self) -> bool
        ensures { result ≡ is_minus self.now }
    {
        match self {
            Item::Character(byte) => *byte == b'-',
            Item::LineEnd => false,
        }
    }

    pub(crate) fn is_sign(&self) -> bool
        ensures { result ≡ is_sign self.now }
    {
        match self {
            Item::Character(byte) => *byte == b'+' || *byte == b'-',
            Item::LineEnd => false,
        }
    }

    // The value of a digit.
    pub(crate) fn digit(&self) -> u64
        ensures value { result ≡ digit_of self.now }
        ensures small { result ≤ 255 }
    {
        match self {
            Item::Character(byte) => u64::from(byte.saturating_sub(b'0')),
            Item::LineEnd => 0,
        }
    }
}
