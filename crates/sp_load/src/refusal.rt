/// Why a file was not loaded, or why there is no plan of a query.
#[derive(Clone, Copy, Debug, Drop, PartialEq, Eq)]
pub enum Refusal {
    Memory,
    /// The file could not be loaded.
    Read,
    /// The text or the file has more bytes than this.
    Limited { limit: u32 },
    /// The query's text has this fault, which stands there.
    Query { code: u8, place: u32 },
}
