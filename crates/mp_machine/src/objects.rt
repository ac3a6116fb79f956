/// An object that `new` made (ISO 7185, 6.6.5.3): the root of its cells, and how many are counted.
#[derive(Clone, Copy)]
pub struct Object {
    pub root: u64,
    pub cells: u32,
}
