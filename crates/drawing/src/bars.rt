// A bar of a row: its letter, the column where it begins, the one where it ends, and the one where its dish has turned.
#[derive(Clone, Copy)]
pub(crate) struct Bar {
    pub(crate) letter: u8,
    pub(crate) begin: usize,
    pub(crate) end: usize,
    pub(crate) turned: usize,
}
