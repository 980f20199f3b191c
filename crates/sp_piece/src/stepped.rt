/// What a step of a piece did.
#[derive(Clone, Copy, Drop, PartialEq, Eq)]
pub enum Stepped {
    /// The event of this number was read; it was passed over where `skipped`.
    Read { number: u32, skipped: bool },
    /// The window's closing was read.
    Closed,
    /// All that was lent was read before.
    Finished,
}
