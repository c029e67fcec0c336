//! A fast step over the first component in the rest of a walk. It applies if the rest ends in a
//! component, and begins with neither the root nor a `.`. After a walk's first step this is always
//! so.
ghost use Rattle.std.specs.Prelude.{◌≡◌, ◌≤◌, ◌<◌, ◌∷◌, false, length, take, drop, IfSome};
ghost use Rattle.unix_path.specs.Parts.{inner_parts, parts, value_bytes};
ghost use Rattle.unix_path.specs.Scan.{is_filler, EndsInPart};
ghost use Rattle.unix_path_c.specs.Walks.{value_of_kind};

use unix_path::internal::{
    is_filler, is_trailing, name_step, parent_dir_step, starts_with_parent_dir,
};

// The `kind` of the component `..`.
pub(crate) const PARENT_DIR: u32 = 2;

// The `kind` of a name.
pub(crate) const NORMAL: u32 = 3;

// Returns the length of the first component, the length of a step over it and the filler after it,
// and its kind. Returns `None` if the bytes begin with the root or a `.`, or do not end in a
// component.
#[inline(always)]
pub(crate) fn first_part(bytes: &[u8]) -> Option<(usize, usize, u32)>
    requires { 0 < length bytes.now }
    ensures ends { IfSome result (λ _. EndsInPart bytes.now) }
    ensures in_range { IfSome result (λ part. part.1 ≤ length bytes.now) }
    ensures parts { IfSome result (λ part. parts bytes.now
        ≡ record { start = 0; end = part.0; value = value_of_kind part.2 (take part.0 bytes.now) }
        ∷ inner_parts part.1 (drop part.1 bytes.now)) }
    ensures size { IfSome result (λ part.
        part.0 ≡ length (value_bytes (value_of_kind part.2 (take part.0 bytes.now)))) }
    ensures kind { IfSome result (λ part. part.2 < 4) }
    ensures not_filler { IfSome result (λ part.
        part.1 < length bytes.now → is_filler bytes.now part.1 ≡ false) }
{
    if is_filler(bytes, 0) || is_trailing(bytes, bytes.len() - 1) {
        return None;
    }
    if starts_with_parent_dir(bytes) {
        return Some((2, parent_dir_step(bytes), PARENT_DIR));
    }
    let (length, step) = name_step(bytes);
    Some((length, step, NORMAL))
}
