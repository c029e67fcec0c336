//! Laws of resolved paths and joins: facts about the definitions. Calling one makes them available.
mod below;
mod relative;
mod resolved;
mod within;

pub use below::{contained_is_joined, joins_stay_below, requests_are_names};
pub use relative::{relative_path_is_short, relative_path_leads_there};
pub use resolved::{
    resolved_by_rules, resolved_congruent, resolved_is_normal, resolved_is_short, resolved_of_join,
};
pub use within::{stays_within, verbatim_stays_within};
