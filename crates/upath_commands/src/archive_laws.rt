//! A law of `archive`: a fact about its exit status, available to a proof that calls it.
ghost use Rattle.upath_commands.specs.ArchiveLaws.{SafeStaysInside};

use path_archive::laws::accepted_stays_inside;

/// If the exit status of `archive` is 0, then whatever an extractor does for the entries of the
/// input in a new, empty directory, nothing outside of that directory changes.
///
/// For an extractor that follows the links that it makes, this needs `--closed`. So a symbolic link
/// `x` to `/etc` and a file `y` leave `/etc` as it was.
pub fn safe_stays_inside()
    ensures { SafeStaysInside }
{
    accepted_stays_inside();
}
