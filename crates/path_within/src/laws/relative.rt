//! Laws of the relative path from one path to another.
ghost use Rattle.path_within.specs.RelativePathLaws.{RelativePathReadsBack, RelativePathLeads};
ghost use Rattle.path_within.specs.RelativePathLaws.{NoRelativePath, RelativePathIsShort};

/// If there is a relative path from one path to another, the first path joined with it resolves to
/// the same bytes as the second path.
///
/// Parsed as a path, the bytes of a relative path have its components. If there is no relative
/// path, no path without a root leads from the first path to the second. Purely lexical: symbolic
/// links are not followed.
///
/// The relative path from `/a/b/c` to `/a/d` is `../../d`, and `/a/b/c/../../d` resolves to `/a/d`.
pub fn relative_path_leads_there()
    ensures values { RelativePathReadsBack }
    ensures leads { RelativePathLeads }
    ensures none { NoRelativePath }
{}

/// The length of a relative path is at most `3 * (from_length + 1) / 2 + to_length`.
///
/// A relative path has a `..` and a slash, 3 bytes, for each name that it goes up, and such a name
/// has at least 2 bytes with its slash.
///
/// The relative path from `a/b` to `c` is `../../c`, of 7 bytes: `3 * (3 + 1) / 2 + 1`.
pub fn relative_path_is_short()
    ensures { RelativePathIsShort }
{}
