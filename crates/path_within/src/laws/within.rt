//! Laws of joins that stay under their root.
ghost use Rattle.path_within.specs.ResolvedLaws.{WithinAddsNames, WithinHasNames};
ghost use Rattle.path_within.specs.ResolvedLaws.{VerbatimStays, VerbatimHasNames};

/// The resolved join with a request that does not escape starts with the resolved root.
///
/// The components of the resolved join are those of the resolved root and then those of the
/// resolved request, which are only names. Purely lexical: symbolic links are not followed.
///
/// `/srv/./www` joined with `a/../b` resolves to `/srv/www/b`, which is `/srv/www` and then `b`.
pub fn stays_within()
    ensures values { WithinAddsNames }
    ensures names { WithinHasNames }
{}

/// A request that has neither a root nor a `..` does not escape, and has only names after its
/// leading `.`, if it has one.
///
/// The law `join_starts_with` says what a join with it adds to the root.
///
/// `./a` is such a request: without its leading `.` it is the name `a`.
pub fn verbatim_stays_within()
    ensures escapes { VerbatimStays }
    ensures names { VerbatimHasNames }
{}
