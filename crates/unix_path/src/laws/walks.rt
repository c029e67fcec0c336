//! The laws of walks.
ghost use Rattle.std.specs.Iterator.Runs.{EveryRun, ItemsMapTo, ItemsMapToReversed};
ghost use Rattle.unix_bytes.specs.declared.bytes.UnixStr.{UnixStr};
ghost use Rattle.unix_path.specs.Ancestors.{GivesAncestor, remaining_ancestors};
ghost use Rattle.unix_path.specs.Cursor.{cursor_values, GivesFirstPart, GivesLastPart};
ghost use Rattle.unix_path.specs.Cursor.{iter_bytes, name_bytes, GivesFirstName, GivesLastName};
ghost use Rattle.unix_path.specs.Cursor.{cursor_rest, iter_cursor};
ghost use Rattle.unix_path.specs.Views.{value_of};
ghost use Rattle.unix_path.specs.CallsMixed.{EndsMeet, RestIsBetween};
ghost use Rattle.unix_path.specs.declared.path.Path.{Path};

/// The items that remain in a walk are yielded in order by `next`, and in reverse by `next_back`.
///
/// This holds for `Components` (clauses `parts` and `parts_back`), for `Iter` (`items` and
/// `items_back`), and for `Ancestors` (`ancestors`), which has only `next`. With this law the
/// prover can show what a chain of iterators over a walk yields.
///
/// If `a` and `b` remain in a walk, `next` yields `a`, then `b`, and `next_back` yields `b`, then
/// `a`.
pub fn walks_in_order()
    ensures parts { EveryRun GivesFirstPart
        (λ run. ItemsMapTo run value_of (cursor_values run.from)) }
    ensures parts_back { EveryRun GivesLastPart
        (λ run. ItemsMapToReversed run value_of (cursor_values run.from)) }
    ensures items { EveryRun {A = UnixStr} GivesFirstName
        (λ run. ItemsMapTo run name_bytes (iter_bytes run.from)) }
    ensures items_back { EveryRun {A = UnixStr} GivesLastName
        (λ run. ItemsMapToReversed run name_bytes (iter_bytes run.from)) }
    ensures ancestors { EveryRun {A = Path} GivesAncestor
        (λ run. ItemsMapTo run (λ path. path.bytes.now) (remaining_ancestors run.from)) }
{}

/// However calls of `next` and `next_back` are mixed, the items that remained before are those that
/// `next` yielded, then those that remain, then those that `next_back` yielded, in reverse.
///
/// This holds for every sequence of calls on a `Components` (clause `parts`) or on an `Iter`
/// (`items`). The bytes that remain, which `as_path` returns, are those that remained before the
/// calls, without one leading component for each item that `next` yielded, and without one trailing
/// component for each item that `next_back` yielded (clauses `rest` and `items_rest`).
///
/// On `/a/b/c`, `next`, `next_back` and `next` yield the root and `a` from the front and `c` from
/// the back, and `b` remains.
pub fn ends_meet()
    ensures parts { EndsMeet value_of cursor_values GivesFirstPart GivesLastPart }
    ensures rest { RestIsBetween cursor_rest GivesFirstPart GivesLastPart }
    ensures items { EndsMeet name_bytes iter_bytes GivesFirstName GivesLastName }
    ensures items_rest { RestIsBetween (λ it. cursor_rest (iter_cursor it))
        GivesFirstName GivesLastName }
{}
