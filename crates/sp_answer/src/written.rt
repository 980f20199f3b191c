/// Whether all lines were written, or the output failed before.
#[derive(Clone, Copy, Debug, Drop, PartialEq, Eq)]
pub enum Written {
    All,
    Failed,
}
