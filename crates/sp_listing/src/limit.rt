ghost use Rattle.std.specs.Prelude.{◌≡◌};
ghost use Rattle.sp_listing.specs.Limits.{listing_limit};

/// Bytes: the longest file with a listing. A longer one isn't read.
pub const LISTING_LIMIT: u32 = 16_777_216;

/// Law: the constant is the number of its definition.
pub fn listing_limit_is_defined()
    ensures { LISTING_LIMIT ≡ listing_limit }
{}
