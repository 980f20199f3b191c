use std::alloc::AllocError;

/// Why a line of a sheet is not taken.
#[derive(Drop)]
pub(crate) struct Fault(pub(crate) &'static str);

impl From<AllocError> for Fault {
    fn from(_: AllocError) -> Fault {
        Fault("no memory")
    }
}
