//! A listing as records.
ghost use Rattle.std.specs.Prelude.{IfErr, IfOk};
ghost use Rattle.tar_listing.specs.Form.{IsRead, IsRefusedAt};

use crate::entry::push_entry;
use std::alloc::{AllocError, Global};

/// Returns the entries of a listing as records, for `path_archive`; or the number of the first line
/// that isn't of the form, where the first line's number is 1.
///
/// The form is that of `LC_ALL=C tar -tvP --numeric-owner --quoting-style=c -f x.tar`, of GNU tar.
/// No record is cut off. An empty listing has no records. Allocates for the records, and fails only
/// if an allocation fails.
///
/// For `"-rw-r--r-- 0/0 5 2026-01-31 12:00 \"a\"\n"` it returns `b"f\0a\0\0"`.
pub fn records_of(alloc: Global, listing: &[u8]) -> Result<Result<Vec<u8>, usize>, AllocError>
    ensures read { IfOk result (λ r. IfOk r (λ records. IsRead listing.now records.items)) }
    ensures refused { IfOk result (λ r. IfErr r (λ n. IsRefusedAt listing.now n)) }
{
    let mut records = Vec::new(alloc);
    let mut rest = listing;
    let mut line = 1;
    while !rest.is_empty() {
        match push_entry(rest, &mut records)? {
            Some(after) => rest = after,
            None => return Ok(Err(line)),
        }
        line += 1;
    }
    Ok(Ok(records))
}
