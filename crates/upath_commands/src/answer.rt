//! Answers that are views of a path or owned paths.
ghost use Rattle.std.specs.Prelude.{◌≡◌, option_map};
ghost use Rattle.unix_path.specs.Buffers.{path_bytes};
ghost use Rattle.unix_path.specs.Pointers.{cow_bytes};
ghost use Rattle.upath_commands.specs.Answers.{dot_if_empty};

use unix_bytes::bytes::{UnixStr, UnixString};
use unix_path::{CowPath, Path, PathBuf};

// Returns the path, or `.` in place of the empty one.
pub(crate) fn dot_if_empty(path: Path<'_>) -> Path<'_>
    ensures { result.bytes.now ≡ dot_if_empty path.entry.bytes.now }
{
    if path.bytes.is_empty() {
        Path { bytes: b"." }
    } else {
        path
    }
}

// Returns the path, or `.` in place of the empty one.
pub(crate) fn dotted<'a>(path: PathBuf) -> CowPath<'a>
    ensures { cow_bytes result ≡ dot_if_empty (path_bytes path) }
{
    if path.as_path().bytes.is_empty() {
        CowPath::Borrowed(Path { bytes: b"." })
    } else {
        CowPath::Owned(path)
    }
}

// Returns these bytes as a path.
pub(crate) fn path_of_bytes<'a>(bytes: Vec<u8>) -> CowPath<'a>
    ensures { cow_bytes result ≡ bytes.items }
{
    CowPath::Owned(PathBuf::from(UnixString::from(bytes)))
}

// Returns a name as a path, if there is one.
pub(crate) fn path_of_name(name: Option<UnixStr<'_>>) -> Option<CowPath<'_>>
    ensures { option_map cow_bytes result ≡ option_map (λ name. name.bytes.now) name.entry }
{
    let bytes = name?.as_bytes();
    Some(CowPath::Borrowed(Path { bytes }))
}
