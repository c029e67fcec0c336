//! Reserving and releasing the spare capacity of an owned path.
ghost use Rattle.std.specs.Prelude.{◌≡◌, ◌≤◌, ◌+◌, length, max, min, OnOk, IsOk};
ghost use Rattle.unix_path.specs.Buffers.{path_bytes, capacity};

use crate::buf::PathBuf;
use std::alloc::AllocError;

impl PathBuf {
    /// Reserves spare capacity for at least `count` more bytes. If it allocates, it may reserve
    /// more.
    ///
    /// Allocates only if the spare capacity is less than `count`. If the allocation fails, the
    /// bytes are unchanged.
    ///
    /// After `reserve(6)` a push that adds 6 bytes does not allocate.
    pub fn reserve(&mut self, count: usize) -> Result<(), AllocError>
        ensures bytes { path_bytes self.new ≡ path_bytes self.old }
        ensures ok { OnOk result (length (path_bytes self.old) + count ≤ capacity self.new) }
        ensures succeeds { length (path_bytes self.old) + count ≤ capacity self.old
            → IsOk result }
        ensures capacity { capacity self.old ≤ capacity self.new }
    {
        self.inner.reserve(count)
    }

    /// Reserves spare capacity for at least `count` more bytes. If it allocates, it reserves
    /// exactly `count`.
    ///
    /// Allocates only if the spare capacity is less than `count`. If the allocation fails, the
    /// bytes are unchanged.
    ///
    /// After `reserve_exact(6)` a push that adds 6 bytes does not allocate.
    pub fn reserve_exact(&mut self, count: usize) -> Result<(), AllocError>
        ensures bytes { path_bytes self.new ≡ path_bytes self.old }
        ensures ok { OnOk result (capacity self.new
            ≡ max (length (path_bytes self.old) + count) (capacity self.old)) }
        ensures succeeds { length (path_bytes self.old) + count ≤ capacity self.old
            → IsOk result }
        ensures capacity { capacity self.old ≤ capacity self.new }
    {
        self.inner.reserve_exact(count)
    }

    /// Releases the spare capacity, so that the capacity equals the length.
    ///
    /// If there is no spare capacity, it does not allocate. Otherwise it moves the bytes, which can
    /// fail. After a failure the bytes are unchanged, and the capacity is no greater than before.
    ///
    /// For `foo` with the capacity 10, the capacity is then 3.
    pub fn shrink_to_fit(&mut self) -> Result<(), AllocError>
        ensures bytes { path_bytes self.new ≡ path_bytes self.old }
        ensures ok { OnOk result (capacity self.new ≡ length (path_bytes self.old)) }
        ensures succeeds { capacity self.old ≡ length (path_bytes self.old) → IsOk result }
        ensures shrinks { capacity self.new ≤ capacity self.old }
    {
        self.inner.shrink_to_fit()
    }

    /// Lowers the capacity to `min_capacity` bytes, or to the path's length if the length is
    /// greater.
    ///
    /// If the capacity is already that low or lower, it is kept, and nothing is allocated.
    /// Otherwise the call moves the bytes, which can fail. After a failure the bytes are unchanged,
    /// and the capacity is no greater than before.
    ///
    /// For `foo` with the capacity 10, `shrink_to(5)` makes it 5, `shrink_to(0)` makes it 3, and
    /// `shrink_to(20)` leaves it.
    pub fn shrink_to(&mut self, min_capacity: usize) -> Result<(), AllocError>
        ensures bytes { path_bytes self.new ≡ path_bytes self.old }
        ensures ok { OnOk result
            (capacity self.new ≤ max min_capacity (length (path_bytes self.old))) }
        ensures succeeds { capacity self.old ≤ max min_capacity (length (path_bytes self.old))
            → IsOk result }
        ensures capacity { min min_capacity (capacity self.old) ≤ capacity self.new }
        ensures shrinks { capacity self.new ≤ capacity self.old }
    {
        self.inner.shrink_to(min_capacity)
    }
}
