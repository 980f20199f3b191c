use crate::Lent;
use sp_piece::Piece;

/// What came of a piece that was given back.
#[derive(Drop)]
pub enum Given {
    /// Its reading is its version's.
    Home,
    /// Its version is no longer live; the ticket has ended.
    Stale { version: u64 },
    /// Its ticket is not out; nothing changed.
    NotOut { ticket: u64 },
    /// Its job is not what was lent; both sides are handed back, the ticket has ended, and all else of the
    /// machine is as before, the version among it.
    Differs { lent: Lent, piece: Piece },
}
