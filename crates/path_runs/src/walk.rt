//! A walk over a path's components by a list of turns.
ghost use Rattle.std.specs.Prelude.{◌≡◌, ◌++◌, [], IfOk, OnOk, IsOk, length, map, reverse, take};
ghost use Rattle.std.specs.Prelude.{None};
ghost use Rattle.std.specs.Option.{option_to_list};
ghost use Rattle.unix_path.specs.Parts.{values};
ghost use Rattle.unix_path.specs.Rest.{rest};
ghost use Rattle.unix_path.specs.Slices.{LiesIn};
ghost use Rattle.unix_path.specs.Views.{value_of};
ghost use Rattle.path_runs.specs.Turns.{back_turns, front_turns};

use std::alloc::{AllocError, Global};
use unix_path::{Component, Path};

/// The end of a path from which the next component is taken.
///
/// `Turn::Front` takes `a` from `a/b`, and `Turn::Back` takes `b`.
#[derive(Clone, Copy, Debug, PartialEq, Eq)]
pub enum Turn {
    /// Takes the first component of the rest, like `Components::next`.
    Front,
    /// Takes the last component of the rest, like `Components::next_back`.
    Back,
}

/// The components that a walk has taken from each end of a path, and the rest between them.
///
/// For `a/b/c` and the turns front and back, `front` is `a`, `rest` is `b` and `behind` is `c`.
#[derive(Debug, Drop)]
pub struct Walked<'a> {
    /// The components taken from the front, in the order of the path.
    pub front: Vec<Component<'a>>,
    /// The rest of the path, as a slice of the path: from the first to the last of the components
    /// that were not taken.
    pub rest: Path<'a>,
    /// The components taken from the back, in the order taken: the path's last component comes
    /// first.
    pub behind: Vec<Component<'a>>,
}

// Appends the component to the list, if there is one.
#[inline]
fn push_some<'a>(
    list: &mut Vec<Component<'a>>,
    part: Option<Component<'a>>,
) -> Result<(), AllocError>
    ensures items { OnOk result (list.new.items ≡ list.old.items ++ option_to_list part.entry) }
    ensures succeeds { part.entry ≡ None → IsOk result }
{
    if let Some(part) = part {
        list.push(part)?;
    }
    Ok(())
}

/// Takes a component from one end of the path for each turn, and returns the components taken from
/// each end and the rest between them.
///
/// A turn takes nothing if no component remains. The components of `front`, then of `rest`, and
/// then of `behind` in reverse order are the components of the path. The rest is a slice of the
/// path. Allocates as the two lists grow. Fails if an allocation fails, and then drops both lists.
/// Without turns, or for the empty path, does not allocate, and succeeds. Each turn is a `next` or
/// `next_back` of Rust's `Components`.
///
/// For `/a/./b/../c` and the turns front, back, front, back, `front` is `/` and `a`, `rest` is `b`,
/// and `behind` is `c` and `..`. For `foo/` and no turns, `rest` is `foo`.
pub fn walk<'a>(alloc: Global, path: Path<'a>, turns: &[Turn]) -> Result<Walked<'a>, AllocError>
    ensures front { let all = values path.entry.bytes.now in
        IfOk result (λ w. map value_of w.front.items ≡
        take (front_turns (length all) turns.now) all) }
    ensures rest { let n = length (values path.entry.bytes.now) in
        IfOk result (λ w. w.rest.bytes.now ≡
        rest path.entry.bytes.now (front_turns n turns.now) (back_turns n turns.now)) }
    ensures behind { let all = values path.entry.bytes.now in
        IfOk result (λ w. map value_of w.behind.items ≡
        take (back_turns (length all) turns.now) (reverse all)) }
    ensures whole { IfOk result (λ w. map value_of w.front.items
        ++ values w.rest.bytes.now ++ reverse (map value_of w.behind.items)
        ≡ values path.entry.bytes.now) }
    ensures place { IfOk result (λ w. LiesIn w.rest.bytes path.entry.bytes) }
    ensures succeeds { turns.now ≡ [] → IsOk result }
    ensures succeeds_empty { path.entry.bytes.now ≡ [] → IsOk result }
{
    let mut remaining = path.components();
    let mut front = Vec::new(alloc);
    let mut behind = Vec::new(alloc);
    for turn in turns {
        match turn {
            Turn::Front => push_some(&mut front, remaining.next())?,
            Turn::Back => push_some(&mut behind, remaining.next_back())?,
        }
    }
    Ok(Walked {
        front,
        rest: remaining.as_path(),
        behind,
    })
}
