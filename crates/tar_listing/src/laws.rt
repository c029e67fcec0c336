//! The law of listings. It does nothing at run time.
ghost use Rattle.tar_listing.specs.Laws.{ListingReadsBack};

/// The law that a listing reads back as the entries that it was listed from, whatever its columns
/// are. So a listing has one reading.
///
/// A caller of `records_of` that calls `listing_reads_back` too knows that the records of a listing
/// of some entries are these entries', and that no such listing is refused.
pub fn listing_reads_back()
    ensures { ListingReadsBack }
{}
