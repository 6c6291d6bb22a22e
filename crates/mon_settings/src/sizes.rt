/// The sizes of a window where an object gives none of its own.
#[derive(Clone, Copy)]
pub(crate) struct Sizes {
    /// How many samples it holds, 1 to 64.
    pub(crate) window: usize,
    /// How many of these may have one boots number, 1 to the window.
    pub(crate) epoch: usize,
}
