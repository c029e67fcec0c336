//! Laws of accepted entries: facts about the definitions. Calling one makes them available.
#![tactic(auto)]

ghost use Rattle.path_archive.specs.Laws.{AcceptedStaysInside, ClosedLeadsInside};
ghost use Rattle.path_archive.specs.Laws.{OrdinaryIsAccepted};

/// Whatever an extractor does for accepted entries below an empty directory, nothing outside of the
/// directory changes.
///
/// So a symbolic link `x` to `/etc` and a file `y` leave `/etc` as it was.
pub fn accepted_stays_inside()
    ensures { AcceptedStaysInside }
{}

/// If no link leads out, a path of names leads to a place inside, whichever links it meets.
///
/// So after a symbolic link `a/b` to `../c`, the path `a/b/d` leads to `c/d`.
pub fn closed_leads_inside()
    ensures { ClosedLeadsInside }
{}

/// Directories and files with allowed paths, none of them below a file, are accepted in any order.
///
/// So are a file `a/b` and, after it, a directory `a/`.
pub fn ordinary_is_accepted()
    ensures { OrdinaryIsAccepted }
{}
