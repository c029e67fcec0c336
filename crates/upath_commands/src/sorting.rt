//! Paths in the order of paths.
ghost use Rattle.std.specs.Prelude.{◌≡◌, OnOk, OnErr, option_map, reverse, true};
ghost use Rattle.std.specs.List.{dedup};
ghost use Rattle.std.specs.Option.{option_to_list};
ghost use Rattle.upath_commands.specs.Records.{paths_of};
ghost use Rattle.upath_commands.specs.Sorting.{chosen, comes_before, disorder_of, is_gathered};
ghost use Rattle.upath_commands.specs.Sorting.{is_uniq, may_precede, same_path, sorted_by};
ghost use Rattle.upath_commands.specs.Sorting.{sorted_of};

use crate::command::{Command, Options, Task};
use std::alloc::AllocError;
use unix_path::Path;

// Sorts paths. Equal paths stay in their order. Allocates for at most as many paths.
#[tactic(auto, using(crate::proofs::lemmas::SortingLemmas::paths_in_order))]
fn order_paths(paths: &mut Vec<Path<'_>>) -> Result<(), AllocError>
    ensures ok { OnOk result (paths_of paths.new.items
        ≡ sorted_by comes_before (paths_of paths.old.items)) }
    ensures err { OnErr result (paths_of paths.new.items ≡ paths_of paths.old.items) }
{
    paths.sort()?;
    Ok(())
}

// Keeps the first of each row of equal paths.
#[tactic(auto, using(crate::proofs::lemmas::SortingLemmas::deduped_paths))]
fn keep_firsts(paths: &mut Vec<Path<'_>>)
    ensures { paths_of paths.new.items ≡ dedup same_path (paths_of paths.old.items) }
{
    paths.dedup();
}

// Reverses the order of paths.
#[tactic(auto, using(crate::proofs::lemmas::SortingLemmas::turned_paths))]
fn reverse_order(paths: &mut Vec<Path<'_>>)
    ensures { paths_of paths.new.items ≡ reverse (paths_of paths.old.items) }
{
    paths.reverse();
}

/// Sorts paths, and drops and reverses them as the options say. Equal paths stay in their order.
///
/// Allocates for at most as many paths. Fails if the allocation fails, and then the paths are
/// unchanged.
///
/// With `unique`, `b`, `a//b` and `a/b` become `a//b` and `b`.
pub fn sort_paths(options: Options, paths: &mut Vec<Path<'_>>) -> Result<(), AllocError>
    ensures ok { OnOk result (paths_of paths.new.items
        ≡ sorted_of options (paths_of paths.old.items)) }
    ensures err { OnErr result (paths_of paths.new.items ≡ paths_of paths.old.items) }
{
    order_paths(paths)?;
    if options.unique {
        keep_firsts(paths);
    }
    if options.reversed {
        reverse_order(paths);
    }
    Ok(())
}

// Returns true if and only if the first path may come just before the second in a sorted list.
fn may_precede(options: Options, path: Path<'_>, next: Path<'_>) -> bool
    ensures { result ≡ may_precede options path.entry.bytes.now next.entry.bytes.now }
{
    let (first, second) = if options.reversed {
        (next, path)
    } else {
        (path, next)
    };
    if options.unique {
        first < second
    } else {
        !(second < first)
    }
}

// Returns the first path that is out of order, or `None` if there is none.
//
// Of `a`, `c` and `b` it is `b`.
pub(crate) fn disorder_of<'a>(options: Options, paths: &[Path<'a>]) -> Option<Path<'a>>
    ensures { option_map (λ path. path.bytes.now) result
        ≡ disorder_of options (paths_of paths.now) }
{
    let mut rest = paths;
    while let [path, after @ ..] = rest {
        if let [next, ..] = after {
            if !may_precede(options, *path, *next) {
                return Some(*next);
            }
        }
        rest = after;
    }
    None
}

// Leaves only the first path that is out of order.
fn keep_disorder(options: Options, paths: &mut Vec<Path<'_>>) -> Result<(), AllocError>
    ensures { OnOk result (paths_of paths.new.items
        ≡ option_to_list (disorder_of options (paths_of paths.old.items))) }
{
    let found = disorder_of(options, paths.as_slice());
    paths.clear();
    if let Some(path) = found {
        paths.push(path)?;
    }
    Ok(())
}

// Returns true if and only if the command needs all paths before it answers.
pub(crate) fn is_gathered(command: Command) -> bool
    ensures { result ≡ is_gathered command }
{
    matches!(command, Command::Sort | Command::Check)
}

// Leaves the paths that a command answers that needs all paths, in their order.
pub(crate) fn choose(task: &Task<'_>, paths: &mut Vec<Path<'_>>) -> Result<(), AllocError>
    requires { is_gathered task.now.command ≡ true }
    ensures { OnOk result (paths_of paths.new.items
        ≡ chosen task.now.command task.now.options (paths_of paths.old.items)) }
{
    match task.command {
        Command::Sort => sort_paths(task.options, paths),
        Command::Check => keep_disorder(task.options, paths),
        _ => Ok(()),
    }
}

// Returns true if the command answers only the first of equal paths.
pub(crate) fn is_uniq(command: Command) -> bool
    ensures { result ≡ is_uniq command }
{
    matches!(command, Command::Uniq)
}
