//! The commands of `upath`: what its arguments ask for, and what is done with each path.
//!
//! Arguments, paths and records are bytes, and need not be valid UTF-8. Functions do not allocate
//! unless they take an allocator or say so. A function that appends to a buffer allocates when that
//! buffer grows, and fails if the allocation fails. After a failed allocation the contents of that
//! buffer are unspecified. Everything here is lexical: symbolic links are not followed. Indices and
//! lengths count bytes.
//!
//! Five modules have laws, each of which a proof can use if it calls a function:
//! - [`argument_laws`], of the meaning of arguments: `paths_after_dashes`, `paths_after_root`,
//!   `help_first`, `help_after_command`, `options_follow_operands`, `letters_join`,
//!   `value_after_equals_sign`, and of which wrong usage is reported: `unknown_option_first`,
//!   `unknown_command_second` and `foreign_option_third`;
//! - [`answer_laws`], of what is printed: `escapes_tested`, `answers_are_never_empty`,
//!   `output_reads_back` and `quiet_prints_nothing`;
//! - [`sort_laws`], of what `sort` and `uniq` print: `sort_orders`, `uniq_keeps_firsts` and
//!   `sort_unique_keeps_firsts`;
//! - [`key_laws`], of keys: `unkey_undoes_key` and `key_undoes_unkey`;
//! - [`archive_laws`], of the status of `archive`: `safe_stays_inside`.
#![tactic(auto)]

mod ancestors;
mod answer;
pub mod answer_laws;
mod archive;
pub mod archive_laws;
pub mod argument_laws;
mod arguments;
mod bases;
mod command;
mod engine;
mod escapes;
mod hex;
mod input;
mod items;
mod joins;
pub mod key_laws;
mod keys;
mod messages;
mod options;
mod output;
mod parts;
mod push;
mod reasons;
mod records;
mod refused;
mod replies;
mod runs;
mod searches;
mod selection;
mod shown;
pub mod sort_laws;
mod sorting;
mod task;
mod usage;

pub use arguments::{argument_paths, invocation_of};
pub use command::{Command, Invocation, JoinRule, Options, Task};
pub use output::RunError;
pub use records::records_in;
pub use replies::Replies;
pub use runs::{HelpText, Texts, run_arguments};
pub use selection::Selection;
pub use sorting::sort_paths;
pub use usage::{UsageError, UsageErrorKind};
