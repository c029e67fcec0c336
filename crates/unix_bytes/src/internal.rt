//! Functions that search, compare and write bytes, for the crates of this repository. Programs
//! don't use them: what is here may change.

pub use crate::buffers::write_at;
pub use crate::order::compare_bytes;
pub use crate::search::{
    after_last, after_last_of_two, common_len, common_len_expect_short, find_byte,
};
