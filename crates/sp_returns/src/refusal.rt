/// Why a text of items has no expressions.
#[derive(Clone, Copy, Debug, Drop, PartialEq, Eq)]
pub enum ReturnsRefusal {
    Memory,
    /// The text has this fault, which stands there.
    Fault { code: u8, place: u32 },
}
