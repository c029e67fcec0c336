//! Paths from outside: resolved, or joined to a root so that they stay below it.
ghost use Rattle.std.specs.Prelude.{◌≡◌, ◌↔◌, ◌⊎◌, ◌≤◌, ◌+◌, true, false, length};
ghost use Rattle.unix_path.specs.Joins.{join_of};
ghost use Rattle.unix_path.specs.Parts.{values};
ghost use Rattle.unix_path.specs.Prefixes.{IsPrefixOf};
ghost use Rattle.path_within.specs.Resolved.{resolved_bytes_of};
ghost use Rattle.path_within.specs.Below.{below_of, has_nul, names_below, IsBelow};
ghost use Rattle.path_within.specs.Escapes.{Escapes, has_root_or_parent_dir};
ghost use Rattle.path_within.specs.Requests.{request_names};
ghost use Rattle.unix_path_c.specs.ErrorCodes.{IsLength};
ghost use Rattle.path_runs.specs.Buffer.{buffer_after};

use crate::error_codes::{ESCAPES, NUL_IN_REQUEST, TOO_LONG};
use crate::joins::unix_path_join;
use crate::output::len_or_too_long;
use path_within::resolved::write_resolved;
use path_within::within::has_root_or_parent_dir;
use path_within::{Request, RequestError, has_nul};
use unix_path::Path;

/// Writes the resolved path to `out` if it fits, and returns its length. Each `..` is dropped
/// together with the name before it.
///
/// The result is canonical: each `.` is dropped too, and so is each `..` directly after the root.
/// If the path has no root, a `..` that finds no name to drop stays, at the beginning of the
/// result. The result is never longer than the path.
///
/// Purely lexical: if a component before a `..` may be a symbolic link, only the system knows where
/// that `..` leads. A result of no bytes represents the current directory. Go's `path.Clean` then
/// returns `.`, and otherwise the same path.
///
/// For `a/../..//b/.` it is `../b`, for `/../a` it is `/a`, and for `a/..` the empty path.
#[tactic(auto, using(crate::proofs::lemmas::buffers::BoundLemmas::bounds))]
#[unsafe(no_mangle)]
pub extern "C" fn unix_path_resolved(path: &[u8], out: &mut [u8]) -> usize
    ensures out { out.new ≡ buffer_after (resolved_bytes_of path.now) out.old }
    ensures length { result ≡ length (resolved_bytes_of path.now) }
    ensures len_bound { result ≤ length path.now }
{
    write_resolved(Path { bytes: path }, out)
}

/// Joins the root and the request, both verbatim: writes the join to `out` if it fits, and returns
/// its length. A request that has a root, a `..` or a NUL is refused.
///
/// It is for a root whose components may be symbolic links: each `..` of the root stays. Lexically,
/// the request only goes down from the root. The system follows a link below the root wherever it
/// leads.
///
/// Returns `UNIX_PATH_ESCAPES` if and only if the request has a root or any `..`. Otherwise returns
/// `UNIX_PATH_NUL_IN_REQUEST` if and only if the request has a NUL byte, at which a system call
/// would end the join. Otherwise the length is at most `root.len() + 1 + request.len()`, or the
/// call returns `UNIX_PATH_TOO_LONG` if the join has more than `PTRDIFF_MAX` bytes, which no buffer
/// has.
///
/// A trailing slash of the request stays, the root may have a NUL, and the join may be the root
/// itself with a trailing slash. The join is that of `path_within`'s `join_verbatim`.
///
/// `/srv/../www` with `./a` is `/srv/../www/./a`. With `a/../b` the result is `UNIX_PATH_ESCAPES`,
/// and with `..\0/a` it is `UNIX_PATH_NUL_IN_REQUEST`.
#[tactic(auto, using(crate::proofs::lemmas::buffers::BoundLemmas::bounds))]
#[unsafe(no_mangle)]
pub extern "C" fn unix_path_join_verbatim(root: &[u8], request: &[u8], out: &mut [u8]) -> usize
    ensures answers { IsLength result
        ⊎ ((result ≡ ESCAPES) ⊎ ((result ≡ NUL_IN_REQUEST) ⊎ (result ≡ TOO_LONG))) }
    ensures escapes { (result ≡ ESCAPES) ↔ (has_root_or_parent_dir (values request.now) ≡ true) }
    ensures nul { (result ≡ NUL_IN_REQUEST)
        ↔ ((has_root_or_parent_dir (values request.now) ≡ false) × (has_nul request.now ≡ true)) }
    ensures too_long { result ≡ TOO_LONG → TOO_LONG ≤ length (join_of root.now request.now) }
    ensures length { IsLength result → result ≡ length (join_of root.now request.now) }
    ensures len_bound { IsLength result → result ≤ length root.now + 1 + length request.now }
    ensures out { IsLength result
        → out.new ≡ buffer_after (join_of root.now request.now) out.old }
    ensures within { IsLength result
        → IsPrefixOf (values root.now) (values (join_of root.now request.now)) }
    ensures escapes_unchanged { result ≡ ESCAPES → out.new ≡ out.old }
    ensures nul_unchanged { result ≡ NUL_IN_REQUEST → out.new ≡ out.old }
    ensures too_long_unchanged { result ≡ TOO_LONG → out.new ≡ out.old }
{
    if has_root_or_parent_dir(Path::from_bytes(request)) {
        return ESCAPES;
    }
    if has_nul(request) {
        return NUL_IN_REQUEST;
    }
    len_or_too_long(unix_path_join(root, request, out))
}

// Writes the join of the root and the request to the beginning of `out` if the join fits. Returns
// the length of the join, or `TOO_LONG` if the length is greater than that of any buffer.
#[inline]
fn write_below(root: &[u8], request: Request<'_>, out: &mut [u8]) -> usize
    ensures answers { IsLength result ⊎ (result ≡ TOO_LONG) }
    ensures too_long { result ≡ TOO_LONG
        → TOO_LONG ≤ length (below_of root.now (request_names request.entry)) }
    ensures length { IsLength result
        → result ≡ length (below_of root.now (request_names request.entry)) }
    ensures out { IsLength result
        → out.new ≡ buffer_after (below_of root.now (request_names request.entry)) out.old }
    ensures below { IsLength result
        → IsBelow root.now (below_of root.now (request_names request.entry)) }
    ensures too_long_unchanged { result ≡ TOO_LONG → out.new ≡ out.old }
{
    len_or_too_long(request.write_below(Path::from_bytes(root), out))
}

/// Joins a request that has to stay beneath the root: writes the root's bytes, verbatim, and after
/// them the names of the resolved request to `out` if the join fits, and returns its length.
///
/// A `/` is written between two names, and before the first name unless the root is empty or ends
/// in `/`. The length is at most `root.len() + 1 + request.len()`. Returns `UNIX_PATH_TOO_LONG` if
/// the join has more than `PTRDIFF_MAX` bytes, which no buffer has.
///
/// Returns `UNIX_PATH_ESCAPES` if and only if the request escapes: it has a root, or goes above
/// where it starts. Otherwise returns `UNIX_PATH_NUL_IN_REQUEST` if and only if the request has a
/// NUL byte, at which a system call would end the join.
///
/// Purely lexical: if a component below the root may be a symbolic link, the system has to refuse
/// links. If the request has no name, the join is the root itself. A trailing slash of the request
/// is dropped. In `path_within` it is a `Request::beneath` that is joined to a `Root::verbatim`.
///
/// `/srv/www` with `a/../b` is `/srv/www/b`; `/../a` and `a/../..` are refused.
#[tactic(auto, using(crate::proofs::lemmas::buffers::BoundLemmas::bounds))]
#[unsafe(no_mangle)]
pub extern "C" fn unix_path_join_beneath(root: &[u8], request: &[u8], out: &mut [u8]) -> usize
    ensures answers { IsLength result
        ⊎ ((result ≡ ESCAPES) ⊎ ((result ≡ NUL_IN_REQUEST) ⊎ (result ≡ TOO_LONG))) }
    ensures escapes { (result ≡ ESCAPES) ↔ Escapes (values request.now) }
    ensures nul { (result ≡ NUL_IN_REQUEST)
        ↔ ((Escapes (values request.now) → ⊥) × (has_nul request.now ≡ true)) }
    ensures too_long { result ≡ TOO_LONG
        → TOO_LONG ≤ length (below_of root.now (names_below (values request.now))) }
    ensures length { IsLength result
        → result ≡ length (below_of root.now (names_below (values request.now))) }
    ensures len_bound { IsLength result → result ≤ length root.now + 1 + length request.now }
    ensures out { IsLength result
        → out.new ≡ buffer_after (below_of root.now (names_below (values request.now))) out.old }
    ensures below { IsLength result
        → IsBelow root.now (below_of root.now (names_below (values request.now))) }
    ensures escapes_unchanged { result ≡ ESCAPES → out.new ≡ out.old }
    ensures nul_unchanged { result ≡ NUL_IN_REQUEST → out.new ≡ out.old }
    ensures too_long_unchanged { result ≡ TOO_LONG → out.new ≡ out.old }
{
    match Request::beneath(Path::from_bytes(request)) {
        Ok(request) => write_below(root, request, out),
        Err(RequestError::Rooted) => ESCAPES,
        Err(RequestError::Escapes) => ESCAPES,
        Err(RequestError::Nul) => NUL_IN_REQUEST,
    }
}

/// Joins a request, which is read as in a chroot, to the root. This is `unix_path_join_beneath`,
/// except that leading slashes of the request are dropped, and that a `..` at the root stays at the
/// root.
///
/// It is for decoded paths of URLs, and for other requests that are read as in a chroot; for
/// entries of archives use `unix_path_join_beneath`. Returns `UNIX_PATH_NUL_IN_REQUEST` if and only
/// if the request has a NUL byte. In `path_within` it is a `Request::in_root` that is joined to a
/// `Root::verbatim`.
///
/// `/srv/www` with `/../a` is `/srv/www/a`.
#[tactic(auto, using(crate::proofs::lemmas::buffers::BoundLemmas::bounds))]
#[unsafe(no_mangle)]
pub extern "C" fn unix_path_join_in_root(root: &[u8], request: &[u8], out: &mut [u8]) -> usize
    ensures answers { IsLength result ⊎ ((result ≡ NUL_IN_REQUEST) ⊎ (result ≡ TOO_LONG)) }
    ensures nul { (result ≡ NUL_IN_REQUEST) ↔ (has_nul request.now ≡ true) }
    ensures too_long { result ≡ TOO_LONG
        → TOO_LONG ≤ length (below_of root.now (names_below (values request.now))) }
    ensures length { IsLength result
        → result ≡ length (below_of root.now (names_below (values request.now))) }
    ensures len_bound { IsLength result → result ≤ length root.now + 1 + length request.now }
    ensures out { IsLength result
        → out.new ≡ buffer_after (below_of root.now (names_below (values request.now))) out.old }
    ensures below { IsLength result
        → IsBelow root.now (below_of root.now (names_below (values request.now))) }
    ensures nul_unchanged { result ≡ NUL_IN_REQUEST → out.new ≡ out.old }
    ensures too_long_unchanged { result ≡ TOO_LONG → out.new ≡ out.old }
{
    match Request::in_root(Path::from_bytes(request)) {
        Ok(request) => write_below(root, request, out),
        Err(_) => NUL_IN_REQUEST,
    }
}
