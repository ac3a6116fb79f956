/// A live activation: its number, which is that of the root of its cells; its block, by its place among the loaded ones;
/// the number of its static parent; the place of its call; its counted cells; how many operands stand below its own; and
/// the index of its next instruction.
#[derive(Clone, Copy)]
pub(crate) struct Activation {
    pub number: u64,
    pub block: usize,
    pub parent: u64,
    pub from: u32,
    pub cells: u32,
    pub below: usize,
    pub next: usize,
}
