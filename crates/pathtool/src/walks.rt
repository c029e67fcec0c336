//! Answers to walks by turns.
ghost use Rattle.std.specs.Prelude.{◌≡◌, ◌++◌, [], ◌∷◌, OnOk, IfOk, is_some};
ghost use Rattle.std.specs.Fmt.{decimal};
ghost use Rattle.std.specs.List.{filter_map, list_all};
ghost use Rattle.pathtool.specs.Steps.{tab};
ghost use Rattle.pathtool.specs.Walks.{turn_of, walk_answer};

use crate::lists::push_list;
use crate::texts::push_bad_command;
use path_runs::Turn;
use path_runs::walk::walk;
use std::alloc::{AllocError, Global};
use std::iter::once;
use unix_path::{Component, Path};

// Returns the turn that the letter represents, if any.
fn turn_from(letter: u8) -> Option<Turn>
    ensures { result ≡ turn_of letter }
{
    match letter {
        b'f' => Some(Turn::Front),
        b'b' => Some(Turn::Back),
        _ => None,
    }
}

// Returns true if and only if each letter represents a turn.
fn are_turns(letters: &[u8]) -> bool
    ensures { result ≡ list_all (λ letter. is_some (turn_of letter)) letters.now }
{
    letters.iter().all(|letter| turn_from(*letter).is_some())
}

// Returns the turns that the letters represent.
fn turns_from(alloc: Global, letters: &[u8]) -> Result<Vec<Turn>, AllocError>
    ensures { IfOk result (λ turns. turns.items ≡ filter_map turn_of letters.now) }
{
    letters
        .iter()
        .filter_map(|letter| turn_from(*letter))
        .collect(alloc)
}

// Appends a count in decimal, and a tab.
fn push_count(count: usize, answer: &mut Vec<u8>) -> Result<(), AllocError>
    ensures { OnOk result (answer.new.items
        ≡ (answer.old.items ++ decimal count) ++ tab ∷ []) }
{
    let text = format!(in *answer.allocator(); "{count}")?;
    answer.extend_from_slice(text.as_bytes())?;
    answer.push(b'\t')?;
    Ok(())
}

/// Takes a component from one end of the path for each letter, and appends the results to `answer`,
/// as a list.
///
/// The letter `f` takes a component from the front, and `b` takes one from the back. For any other
/// letter, appends only `bad command`. The list consists of:
///
/// - the number of components taken from the front, and the number taken from the back
/// - the components taken from the front
/// - the rest of the path
/// - the components taken from the back, in the order taken
///
/// Also allocates for the turns, for the components and for the text of each count.
///
/// For `//` and `bf` appends `0`, `1`, the empty path and `/`, with tabs between them.
pub fn push_walk(path: Path<'_>, letters: &[u8], answer: &mut Vec<u8>) -> Result<(), AllocError>
    ensures { OnOk result (answer.new.items
        ≡ answer.old.items ++ walk_answer path.entry.bytes.now letters.now) }
{
    if !are_turns(letters) {
        return push_bad_command(answer);
    }
    let alloc = *answer.allocator();
    let turns = turns_from(alloc, letters)?;
    let walked = walk(alloc, path, turns.as_slice())?;
    push_count(walked.front.len(), answer)?;
    push_count(walked.behind.len(), answer)?;
    let front = walked.front.iter().map(|part| part.as_unix_str());
    let behind = walked.behind.iter().map(|part| part.as_unix_str());
    push_list(
        front.chain(once(walked.rest.as_unix_str())).chain(behind),
        answer,
    )
}
