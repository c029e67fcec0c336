//! Splits an input into lines, and a line into fields.
ghost use Rattle.std.specs.Prelude.{◌≡◌, ◌+◌, ◌<◌, ◌≤◌, ◌==◌, [], ◌∷◌, length};
ghost use Rattle.std.specs.Prelude.{MatchOption, IfSome};
ghost use Rattle.std.specs.List.{slice_split};
ghost use Rattle.std.specs.Str.{bytes_eq};
ghost use Rattle.pathtool.specs.Answers.{lines_of};
ghost use Rattle.pathtool.specs.Fields.{fields_of};
ghost use Rattle.pathtool.specs.ExtraFields.{extra_fields, min_count};

use unix_bytes::internal::find_byte;
use unix_path::Path;

/// Splits bytes at the first byte that is `end`. Returns the bytes before that byte, and `Some` of
/// the bytes after it, or all bytes and `None` if no byte is `end`.
///
/// `split_at_byte(b"a:b:c", b':')` is `a` and `b:c`.
pub fn split_at_byte(bytes: &[u8], end: u8) -> (&[u8], Option<&[u8]>)
    ensures value { MatchOption result.1 (slice_split (λ b. b == end) bytes.now ≡ result.0.now ∷ [])
        (λ rest. slice_split (λ b. b == end) bytes.now
        ≡ result.0.now ∷ slice_split (λ b. b == end) rest.now) }
    ensures shorter { IfSome result.1 (λ rest. length rest.now < length bytes.now) }
{
    let index = find_byte(bytes, end);
    if index == bytes.len() {
        return (bytes, None);
    }
    (&bytes[..index], Some(&bytes[index + 1..]))
}

/// Returns the first line of the input, without its newline, and the rest of the input after that
/// newline. The input must not be empty.
///
/// `first_line(b"a\nb")` is `a` and `b`.
#[tactic(auto, using(crate::proofs::LineLemmas::cut_lines, crate::proofs::LineLemmas::only_line))]
pub fn first_line(input: &[u8]) -> (&[u8], &[u8])
    requires { 0 < length input.now }
    ensures value { lines_of input.now ≡ result.0.now ∷ lines_of result.1.now }
    ensures shorter { length result.1.now < length input.now }
{
    let (line, rest) = split_at_byte(input, b'\n');
    match rest {
        Some(rest) => (line, rest),
        None => (line, b"".as_slice()),
    }
}

/// Returns true if and only if `field` has the same bytes as `name`.
///
/// `is_named(b"pop", b"pop")` is true.
pub fn is_named(field: &[u8], name: &[u8]) -> bool
    ensures { result ≡ bytes_eq field.now name.now }
{
    field == name
}

/// The extra fields of a line: those that follow its path.
///
/// If the only extra field is `pop`, the value is `One`. If the extra fields are `pop`, a tab and
/// `pop`, the value is `Several`.
#[derive(Clone, Copy)]
pub enum ExtraFields<'a> {
    /// No field follows the path.
    None,
    /// One field.
    One(&'a [u8]),
    /// At least two fields, with a tab between neighbours.
    Several(&'a [u8]),
}

/// A line, split into its command, its path and its extra fields.
///
/// For `parts`, a tab and `a` these are `parts`, `a` and no extra field.
#[derive(Clone, Copy)]
pub struct Line<'a> {
    /// The first field.
    pub command: &'a [u8],
    /// The second field.
    pub path: Path<'a>,
    /// The fields after the path.
    pub extra: ExtraFields<'a>,
    ghost count: { min_count extra ≤ length (extra_fields extra) },
}

// Returns the extra fields of a line, from the bytes after the tab that follows the path.
fn extra_fields_from(fields: &[u8]) -> ExtraFields<'_>
    ensures value { extra_fields result ≡ fields_of fields.now }
    ensures count { min_count result ≤ length (extra_fields result) }
{
    let (field, extra) = split_at_byte(fields, b'\t');
    match extra {
        None => ExtraFields::One(field),
        Some(_) => ExtraFields::Several(fields),
    }
}

/// Returns the command, the path and the extra fields of a line, or `None` for a line without a
/// tab.
///
/// For `join`, a tab, `a`, a tab and `b` these are `join`, `a` and the one extra field `b`.
pub fn line_from(line: &[u8]) -> Option<Line<'_>>
    ensures { MatchOption result (fields_of line.now ≡ line.now ∷ [])
        (λ parsed. fields_of line.now
        ≡ parsed.command.now ∷ parsed.path.bytes.now ∷ extra_fields parsed.extra) }
{
    let (command, fields) = split_at_byte(line, b'\t');
    let Some(fields) = fields else {
        return None;
    };
    let (path, extra) = split_at_byte(fields, b'\t');
    let path = Path { bytes: path };
    let extra = match extra {
        None => ExtraFields::None,
        Some(fields) => extra_fields_from(fields),
    };
    Some(Line {
        command,
        path,
        extra,
    })
}
