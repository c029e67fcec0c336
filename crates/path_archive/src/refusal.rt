//! Refusals of entries.

/// Why an entry is refused.
///
/// For a symbolic link `x` and a file `x/new`, the file is refused as `BelowLeaf`.
#[derive(Clone, Copy, Debug, PartialEq, Eq)]
pub enum Reason {
    /// A path that is used has a root, a `..` or a NUL, or ends in no name though it is no
    /// directory's.
    Name,
    /// The entry is neither a directory, a file nor a link.
    Kind,
    /// A path that is used is below a path that isn't a directory's.
    BelowLeaf,
    /// The path of a symbolic link is used twice.
    LinkUsedTwice,
    /// The target of a hard link is a link.
    TargetIsLink,
    /// A symbolic link leads out. Only the level `Closed` refuses it.
    LeadsOut,
}

/// An entry that is refused, and why.
///
/// For a symbolic link `x` and a file `x/new`, its `entry` is 1 and its `cause` is 0.
#[derive(Clone, Copy, Debug, PartialEq, Eq)]
pub struct Refusal {
    /// The number of the entry; the first entry's is 0.
    pub entry: usize,
    /// The number of the entry that it clashes with, or its own number.
    pub cause: usize,
    /// Why it is refused.
    pub reason: Reason,
}
