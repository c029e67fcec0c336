//! Laws of paths. Each law states a fact, which a function's proof can use if the function calls
//! the law.
mod edits;
mod hashes;
mod joins;
mod order;
mod parts;
mod queries;
mod spelling;
mod tables;

pub use edits::{edits_congruent, extension_set, push_then_pop};
pub use hashes::hash_input_injective;
pub use joins::{join_associative, join_starts_with, join_values, strip_then_join};
pub use order::{
    base_before_under, descendants_contiguous, order_after_prefix, order_total, prefix_both_ways,
};
pub use parts::{no_part_no_byte, parts_fit, rest_reads_again};
pub use queries::{ancestors_step, name_rejoined, parent_before, queries_congruent};
pub use spelling::{canonical_form, canonical_is_short, spelling_joined};
pub use tables::{insert_by_values, lookup_by_values, remove_by_values};
pub use unix_bytes::laws::{bytes_ordered, lossy_of_text};
pub use unix_path::laws::{components_ordered, ends_meet, walks_in_order};
