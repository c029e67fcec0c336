//! The start of a line: the letter of the kind, and the columns before the name.
ghost use Rattle.std.specs.Prelude.{◌≡◌, IfSome, None, ℕ, List};
ghost use Rattle.tar_listing.specs.Form.{kind_of};
ghost use Rattle.tar_listing.specs.Reading.{StartsLine};
ghost use Rattle.tar_listing.specs.declared.columns.Kind.{Kind};

use crate::fields::are_columns;
use unix_bytes::internal::find_byte;

// The kind of an entry.
#[derive(Clone, Copy)]
pub(crate) enum Kind {
    Directory,
    File,
    Symlink,
    HardLink,
    Other,
}

// Returns the kind with this letter, or `None` if there is none.
fn kind_of(letter: u8) -> Option<Kind>
    ensures { result ≡ kind_of letter }
{
    match letter {
        b'd' => Some(Kind::Directory),
        b'-' | b'C' => Some(Kind::File),
        b'l' => Some(Kind::Symlink),
        b'h' => Some(Kind::HardLink),
        b'b' | b'c' | b'p' => Some(Kind::Other),
        _ => None,
    }
}

// Returns the kind of the entry of a line, and what follows the first `"`, or `None` if what comes
// before is of another form.
pub(crate) fn line_start(line: &[u8]) -> Option<(Kind, &[u8])>
    ensures some { IfSome result (λ r. StartsLine line.now r.0 r.1.now) }
    ensures none { result ≡ None → (kind : Kind) (rest : List ℕ) → StartsLine line.now kind rest
        → ⊥ }
{
    let end = find_byte(line, b'"');
    if end == 0 || end == line.len() {
        return None;
    }
    let kind = kind_of(line[0])?;
    if !are_columns(&line[1..end]) {
        return None;
    }
    Some((kind, &line[end + 1..]))
}
