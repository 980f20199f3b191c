/// The allocator's error.
pub type Memory = std::alloc::AllocError;

/// Why a cutter gives no row. It stands as before, so but for `Memory` each later call answers the same.
#[derive(Clone, Copy, PartialEq, Eq)]
pub enum CutFault {
    /// The row of this number, from 1, has more than 65,536 bytes. It comes as soon as so many were fed.
    LongRow { row: u32 },
    /// The input ended inside the quotes of the row of this number, from 1.
    OpenQuote { row: u32 },
    /// There is no memory for the row; a later call may give it.
    Memory,
}
