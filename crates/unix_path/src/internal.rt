//! Functions on the single bytes of a path, for the crates of this repository. Programs use `Path`
//! and `Components` instead: what is here may change.

pub use crate::filler::{after_filler, filler_len, is_filler, is_trailing, trimmed_len};
pub use crate::first_component::{name_step, parent_dir_step, starts_with_parent_dir};
pub use crate::name_run_ends::{
    has_no_name_run_end, may_end_name_run_simd16, name_run_end, name_run_end_expect_short,
    no_name_starts_at,
};
pub use crate::path_end::{ends_in_name, needs_no_separator};
pub use crate::stems::{dot_before, has_slash, stem_end};
