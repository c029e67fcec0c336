//! Levels at which entries are accepted.
ghost use Rattle.std.specs.Prelude.{◌≡◌};
ghost use Rattle.path_archive.specs.Levels.{asks_closed};

/// What is asked of the entries, which says for which extractors they are safe.
///
/// A symbolic link `x` to `/etc` alone is accepted at the level `Inside`, and refused at the level
/// `Closed`.
#[derive(Clone, Copy, Debug, PartialEq, Eq)]
pub enum Level {
    /// Safe for extractors that do not follow a symbolic link when they work on its own path.
    Inside,
    /// Also no symbolic link leads out, so that the entries are safe for the other extractors, too.
    Closed,
}

impl Level {
    // Returns true if no symbolic link may lead out.
    #[inline]
    pub(crate) fn asks_closed(self) -> bool
        ensures { result ≡ asks_closed self }
    {
        matches!(self, Level::Closed)
    }
}
