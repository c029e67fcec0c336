//! Callers of `extend` and `from_iter`: pushing paths that fit into the capacity never fails.
ghost use Rattle.std.specs.Prelude.{◌≡◌, ◌≤◌, ◌+◌, ◌-◌, false, [], fold, length, IsOk};
ghost use Rattle.std.specs.List.{AllByRecursion};
ghost use Rattle.unix_path.specs.Buffers.{capacity, path_bytes, bytes_of_each};
ghost use Rattle.unix_path.specs.Joins.{join_of};
ghost use Rattle.unix_path.specs.Parts.{is_rooted};

use std::alloc::{AllocError, Global};
use std::test::Fail;
use unix_path::bytes::UnixStr;
use unix_path::{Path, PathBuf};

fn extend_all(buffer: &mut PathBuf, paths: &[Path<'_>]) -> Result<(), AllocError>
    ensures { AllByRecursion (λ b. is_rooted b ≡ false) (bytes_of_each paths.now)
        → length (fold join_of (path_bytes buffer.old) (bytes_of_each paths.now))
        ≤ capacity buffer.old → IsOk result }
{
    buffer.extend(paths.iter().copied())?;
    Ok(())
}

fn extend_by_none(buffer: &mut PathBuf) -> Result<(), AllocError>
    ensures { IsOk result }
{
    buffer.extend(std::iter::empty())
}

fn extend_by_these(buffer: &mut PathBuf, paths: &[Path<'_>]) -> Result<(), AllocError>
    ensures { paths.now ≡ [] → IsOk result }
{
    buffer.extend(paths.iter().copied())
}

fn extend_in_spare_capacity(buffer: &mut PathBuf, paths: &[Path<'_>]) -> Result<(), AllocError>
    ensures { fold (λ sum path. sum + (1 + length path.bytes.now)) 0 paths.now
        ≤ capacity buffer.old - length (path_bytes buffer.old)
        → IsOk result }
{
    buffer.extend(paths.iter().copied())
}

fn path_from_empty_iter(alloc: Global) -> Result<PathBuf, AllocError>
    ensures { IsOk result }
{
    PathBuf::from_iter(alloc, std::iter::empty())
}

#[test]
fn what_fits_is_joined(rt: HostRuntime) -> Result<(), Fail> {
    let mut buffer = PathBuf::with_capacity(rt.alloc(), 10)?;
    let paths = [
        Path::new(UnixStr::new("foo")),
        Path::new(UnixStr::new("a")),
        Path::new(UnixStr::new("bc")),
        Path::new(UnixStr::new("")),
    ];
    extend_all(&mut buffer, paths.as_slice())?;
    extend_by_none(&mut buffer)?;
    extend_by_these(&mut buffer, &[])?;
    assert!(rt; buffer.as_path().as_unix_str() == UnixStr::new("foo/a/bc/"));
    Ok(())
}

#[test]
fn what_fits_the_room_is_joined(rt: HostRuntime) -> Result<(), Fail> {
    let mut buffer = path_from_empty_iter(rt.alloc())?;
    buffer.reserve(7)?;
    let paths = [Path::from_text("/a"), Path::from_text("bcd")];
    extend_in_spare_capacity(&mut buffer, paths.as_slice())?;
    assert!(rt; buffer.as_path().as_unix_str() == UnixStr::new("/a/bcd"));
    Ok(())
}
