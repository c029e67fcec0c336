//! Functions that accept only types with certain traits.
use std::error::Error;
use std::fmt::{Debug, Display};
use std::hash::Hash;
use std::iter::FusedIterator;

// Accepts what is compared, ordered, hashed and shown.
pub(crate) fn is_ordered<T: Ord + Hash + Debug>(_: &T) {}

// Accepts what is copied.
pub(crate) fn is_copied<T: Copy>(_: &T) {}

// Accepts errors, which are displayed.
pub(crate) fn is_error<T: Error + Debug + Display>(_: &T) {}

// Accepts iterators that stay at their end.
pub(crate) fn is_fused<T: FusedIterator>(_: &T) {}
