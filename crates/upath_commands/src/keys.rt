//! The answers of `key` and `unkey`: keys of paths in hexadecimal, and the paths of such keys.
ghost use Rattle.std.specs.Prelude.{◌≡◌, IfOk, Some, option_map};
ghost use Rattle.unix_path.specs.Buffers.{path_bytes};
ghost use Rattle.unix_path.specs.Parts.{values};
ghost use Rattle.path_keys.specs.Keys.{key_of};
ghost use Rattle.upath_commands.specs.Answers.{Finds};
ghost use Rattle.upath_commands.specs.Hex.{hex_of};
ghost use Rattle.upath_commands.specs.KeyTexts.{unkey_of, unkeyed_path};

use crate::answer::path_of_bytes;
use crate::hex::{hex_of, hex_value};
use crate::searches::has_newline;
use path_keys::{KeyError, PathKey, path_of};
use path_within::has_nul;
use std::alloc::{AllocError, Global};
use unix_path::{CowPath, Path, PathBuf};

// Returns the key in hexadecimal.
pub(crate) fn key_answer<'a>(
    alloc: Global,
    path: Path<'_>,
) -> Result<Option<CowPath<'a>>, AllocError>
    ensures { Finds result (Some (hex_of (key_of (values path.entry.bytes.now)))) }
{
    let key = PathKey::from_path(alloc, path)?;
    let text = hex_of(alloc, key.as_bytes())?;
    Ok(Some(path_of_bytes(text)))
}

// Returns the path of the key that this text is in hexadecimal, or `None` if it is no key.
pub(crate) fn unkeyed_path(alloc: Global, text: &[u8]) -> Result<Option<PathBuf>, AllocError>
    ensures { IfOk result (λ found. option_map path_bytes found ≡ unkeyed_path text.now) }
{
    let Some(key) = hex_value(alloc, text)? else {
        return Ok(None);
    };
    match path_of(alloc, key.as_slice()) {
        Ok(path) => Ok(Some(path)),
        Err(KeyError::NotAKey) => Ok(None),
        Err(KeyError::Memory(error)) => Err(error),
    }
}

// Returns the path of a key in hexadecimal. Refuses a path with the byte that ends records.
pub(crate) fn unkey_answer<'a>(
    alloc: Global,
    null: bool,
    text: Path<'_>,
) -> Result<Option<CowPath<'a>>, AllocError>
    ensures { Finds result (unkey_of null text.entry.bytes.now) }
{
    match unkeyed_path(alloc, text.bytes)? {
        Some(path) if null && has_nul(path.as_path().bytes) => Ok(None),
        Some(path) if !null && has_newline(path.as_path().bytes) => Ok(None),
        Some(path) => Ok(Some(CowPath::Owned(path))),
        None => Ok(None),
    }
}
