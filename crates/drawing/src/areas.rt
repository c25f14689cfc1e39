// Where a rectangle stands in a drawing.
#[derive(Clone, Copy)]
pub(crate) struct Area {
    pub(crate) x: u64,
    pub(crate) y: u64,
    pub(crate) width: u64,
    pub(crate) height: u64,
}

// Where text stands in a drawing, and how large it is.
#[derive(Clone, Copy)]
pub(crate) struct Spot {
    pub(crate) x: u64,
    pub(crate) y: u64,
    pub(crate) size: u64,
}
