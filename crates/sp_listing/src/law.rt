// What holds of every text.
ghost use Rattle.sp_listing.specs.Listing.{OneListing};
ghost use Rattle.sp_listing.specs.Written.{WrittenIsListing};

pub use crate::limit::listing_limit_is_defined;

/// Law: a text is the listing of one list of entries at most, has one first bad line at most, and never both.
pub fn one_listing()
    ensures { OneListing }
{}

/// Law: what `proof_text` writes of entries, one after another, is their listing, where no name of the plan has a line
/// feed.
pub fn written_is_listing()
    ensures { WrittenIsListing }
{}
