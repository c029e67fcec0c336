//! Boxed paths, paths with several owners, and paths that are borrowed or owned.

mod boxed;
mod cow;
mod rc;

pub use boxed::BoxedPath;
pub use cow::CowPath;
pub use rc::RcPath;
