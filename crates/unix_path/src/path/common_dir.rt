//! The leading bytes that two paths have in common, up to a slash.
ghost use Rattle.std.specs.Prelude.{◌≡◌, ◌≤◌, length};
ghost use Rattle.unix_path.specs.CommonDir.{common_dir_of};

use crate::path::Path;
use unix_bytes::internal::{after_last, common_len};

impl<'a> Path<'a> {
    /// Returns the index just after the last `/` of the longest common prefix of both paths, or 0
    /// if that prefix contains no `/`.
    ///
    /// The prefix is compared byte by byte, not by components. If the index isn't 0, the components
    /// after it determine the order of the two paths. A `/` or a `.` piece directly after the index
    /// is filler, not a component.
    ///
    /// For `a/./b` and `a/b` it is 2, and for `a/b` and `ab` it is 0.
    #[must_use]
    #[inline]
    pub fn common_dir(self, other: Path<'_>) -> usize
        ensures value { result ≡ common_dir_of self.entry.bytes.now other.entry.bytes.now }
        ensures in_first { result ≤ length self.entry.bytes.now }
        ensures in_second { result ≤ length other.entry.bytes.now }
    {
        let common = common_len(self.bytes, other.bytes);
        after_last(&self.bytes[..common], b'/')
    }
}
