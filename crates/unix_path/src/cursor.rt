//! Walks over the components of a path, from both ends and without filler, and walks over a path
//! and its ancestors.
mod component;
mod hash;
mod iter;
mod order;
mod parents;
mod steps;
mod walk;

pub use component::Component;
pub use iter::Iter;
pub use parents::Ancestors;
pub(crate) use steps::split_last_root_or_name;
pub use walk::Components;
