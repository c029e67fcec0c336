//! Callers of the laws that bound the length of a result. A law that is called in a body is a fact
//! there, so no function here needs a line of proof.
ghost use Rattle.std.specs.Prelude.{◌≤◌, ◌+◌, ◌*◌, IfOk, length};
ghost use Rattle.unix_bytes.specs.Text.{text_bytes};
ghost use Rattle.unix_path.specs.Buffers.{path_bytes};

use path_runs::canonical::canonical;
use path_within::WithinError;
use path_within::resolved::resolved;
use path_within::within::join_within;
use std::alloc::{AllocError, Global};
use std::test::Fail;
use unix_bytes::bytes::{LossyText, UnixStr};
use unix_path::{Path, PathBuf};

fn short_canonical(alloc: Global, path: Path<'_>) -> Result<PathBuf, AllocError>
    ensures { IfOk result (λ p. length (path_bytes p) ≤ length path.entry.bytes.now) }
{
    path_runs::laws::canonical_is_short();
    canonical(alloc, path)
}

fn short_resolved(alloc: Global, path: Path<'_>) -> Result<PathBuf, AllocError>
    ensures { IfOk result (λ p. length (path_bytes p) ≤ length path.entry.bytes.now) }
{
    path_within::laws::resolved_is_short();
    resolved(alloc, path)
}

fn short_join(alloc: Global, root: Path<'_>, request: Path<'_>) -> Result<PathBuf, WithinError>
    ensures { IfOk result (λ p. length (path_bytes p)
        ≤ length root.entry.bytes.now + 1 + length request.entry.bytes.now) }
{
    path_within::laws::resolved_is_short();
    join_within(alloc, root, request)
}

fn short_lossy<'a>(alloc: Global, bytes: UnixStr<'a>) -> Result<LossyText<'a>, AllocError>
    ensures { IfOk result (λ text. length (text_bytes text) ≤ 3 * length bytes.entry.bytes.now) }
{
    unix_bytes::laws::lossy_is_short();
    bytes.to_string_lossy(alloc)
}

// Returns true if the path has this length.
fn has_len(path: &PathBuf, len: usize) -> bool {
    path.as_path().as_unix_str().len() == len
}

#[test]
fn answers_are_short(rt: HostRuntime) -> Result<(), Fail> {
    let alloc = rt.alloc();
    let root = Path::from_text("/srv/./www");
    assert!(rt; has_len(&short_canonical(alloc, Path::from_text(".//a/./b/"))?, 5));
    assert!(rt; has_len(&short_resolved(alloc, root)?, 8));
    let joined = short_join(alloc, Path::from_text("/srv"), Path::from_text("a"));
    assert!(rt; joined.is_ok_and(|path| has_len(&path, 6)));
    assert!(rt;
        short_lossy(alloc, UnixStr::from_bytes(b"\xFF\xFF"))?
            .as_str()
            .len()
            == 6
    );
    Ok(())
}
