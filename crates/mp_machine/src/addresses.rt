/// A reference to a cell: the number of its root, and how many cells stand before it there.
#[derive(Clone, Copy)]
pub struct Address {
    pub root: u64,
    pub offset: u32,
}
