//! For tests: makes allocations fail.
//!
//! Functions do not allocate unless they take an allocator or say so. Lengths and sizes count
//! bytes.
#![tactic(auto)]

use std::alloc::{AllocError, Global};

// The maximum number of blocks that are held.
const BLOCKS: usize = 50_000;

// The number of blocks of `STEP` bytes that can be released one by one.
const STEPS: usize = 200;

// The size of a block that can be released on its own. The C library keeps smaller freed blocks
// apart by size, and merges freed blocks of this size with free neighbours.
const STEP: usize = 2048;

// The number of different sizes of the small blocks that are allocated: 16 bytes, 32 bytes, and so
// on. The C library keeps freed blocks apart by size only up to these sizes.
const SIZES: usize = 65;

/// All memory that the process can still allocate. Dropping it releases the memory.
///
/// While an `Exhausted` exists, each allocation fails, except where a block grows in place. This
/// relies on the C library's allocator and on a finite address space.
///
/// With `let _exhausted = Exhausted::begin(alloc)?;` in scope, `Vec::<u8>::with_capacity(alloc, 1)`
/// is an error.
#[derive(Drop)]
pub struct Exhausted {
    steps: Vec<Vec<u8>>,
    blocks: Vec<Vec<u8>>,
}

impl Exhausted {
    /// Allocates all memory, or returns `None` once it has allocated 50,000 blocks.
    ///
    /// Fails if a list of its blocks, or one of the 200 blocks that `release` releases, can't be
    /// allocated; then no memory is held.
    ///
    /// If no allocation ever fails, for example under a memory checker, the result is `None`.
    pub fn begin(alloc: Global) -> Result<Option<Exhausted>, AllocError> {
        let mut steps = Vec::with_capacity(alloc, STEPS)?;
        for _ in 0..STEPS {
            steps.push(Vec::with_capacity(alloc, STEP)?)?;
        }
        let mut blocks = Vec::with_capacity(alloc, BLOCKS)?;
        let mut len = 1usize << 47;
        for _ in 0..48 {
            if !takes_all(&mut blocks, alloc, len) {
                return Ok(None);
            }
            len /= 2;
        }
        for size in 1..=SIZES {
            if !takes_all(&mut blocks, alloc, 16 * size) {
                return Ok(None);
            }
        }
        Ok(Some(Exhausted { steps, blocks }))
    }

    /// Releases a block of 2,048 bytes. Returns false if none of the 200 is left.
    ///
    /// After the first call, an allocation of 2,048 bytes succeeds, and an allocation of 4,096
    /// bytes fails.
    pub fn release(&mut self) -> bool {
        self.steps.pop().is_some()
    }
}

// Allocates blocks of `len` bytes until an allocation fails. Returns false if the list of blocks is
// full before that.
fn takes_all(blocks: &mut Vec<Vec<u8>>, alloc: Global, len: usize) -> bool {
    for _ in blocks.len()..blocks.capacity() {
        let Ok(block) = Vec::with_capacity(alloc, len) else {
            return true;
        };
        if blocks.push(block).is_err() {
            return false;
        }
    }
    false
}
