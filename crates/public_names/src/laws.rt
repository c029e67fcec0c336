//! The module `laws` of `path_runs`.
use path_runs::laws;

/// Calls the laws of components and of canonical forms.
pub fn components() {
    laws::canonical_form();
    laws::no_part_no_byte();
    laws::rest_reads_again();
    laws::walks_in_order();
    laws::ends_meet();
}

/// Calls the laws of joins and edits.
pub fn edits() {
    laws::join_associative();
    laws::join_values();
    laws::edits_congruent();
    laws::push_then_pop();
    laws::strip_then_join();
    laws::extension_set();
}

/// Calls the laws of the order.
pub fn order() {
    laws::prefix_both_ways();
    laws::order_total();
    laws::parent_before();
}

/// Calls the laws of queries and of lossy text.
pub fn queries() {
    laws::ancestors_step();
    laws::name_rejoined();
    laws::queries_congruent();
    laws::lossy_of_text();
}
