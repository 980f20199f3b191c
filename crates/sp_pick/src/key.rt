/// What decides which of the ready versions are picked.
#[derive(Clone, Copy, Drop)]
pub(crate) struct Key {
    pub(crate) survival: u32,
    pub(crate) depth: u32,
    pub(crate) id: u64,
}
