//! Loops over a path's components. They show what a caller can prove with only loop invariants.
ghost use Rattle.std.specs.Prelude.{◌≡◌, IfOk, is_some, map, reverse, filter};
ghost use Rattle.std.specs.List.{position_or_len};
ghost use Rattle.unix_path.specs.Names.{name_of};
ghost use Rattle.unix_path.specs.Parts.{value_bytes, values};
ghost use Rattle.unix_path.specs.Views.{value_of};

use super::{is_list, is_name};
use std::alloc::{AllocError, Global};
use unix_path::bytes::UnixStr;
use unix_path::{Component, Path};

fn first_name(path: Path<'_>) -> usize
    ensures { result
        ≡ position_or_len (λ v. is_some (name_of v)) (values path.entry.bytes.now) }
{
    let mut n = 0;
    for part in path.components() {
        if is_name(part) {
            return n;
        }
        n += 1;
    }
    n
}

fn push_reversed<'a>(alloc: Global, path: Path<'a>) -> Result<Vec<UnixStr<'a>>, AllocError>
    ensures { IfOk result (λ list. map (λ name. name.bytes.now) list.items
        ≡ map value_bytes (reverse (values path.entry.bytes.now))) }
{
    let mut list = Vec::new(alloc);
    for part in path.components().rev() {
        list.push(part.as_unix_str())?;
    }
    Ok(list)
}

fn push_names<'a>(alloc: Global, path: Path<'a>) -> Result<Vec<Component<'a>>, AllocError>
    ensures { IfOk result (λ list. map value_of list.items
        ≡ filter (λ v. is_some (name_of v)) (values path.entry.bytes.now)) }
{
    let mut list = Vec::new(alloc);
    for part in path.components() {
        if is_name(part) {
            list.push(part)?;
        }
    }
    Ok(list)
}

fn push_all<'a>(alloc: Global, path: Path<'a>) -> Result<Vec<UnixStr<'a>>, AllocError>
    ensures { IfOk result (λ list. map (λ name. name.bytes.now) list.items
        ≡ map value_bytes (values path.entry.bytes.now)) }
{
    let mut list = Vec::new(alloc);
    for name in path {
        list.push(name)?;
    }
    Ok(list)
}

#[test]
fn loops_over_parts(rt: HostRuntime) {
    let alloc = rt.alloc();
    let path = Path::new(UnixStr::new("./../a//b/"));
    let a = UnixStr::new("a");
    let b = UnixStr::new("b");
    let dot = UnixStr::new(".");
    let parent_dir = UnixStr::new("..");
    assert!(rt; first_name(path) == 2);
    let names = [Component::Normal(a), Component::Normal(b)];
    assert!(rt;
        is_list(
            push_reversed(alloc, path),
            [b, a, parent_dir, dot].as_slice()
        )
    );
    assert!(rt; is_list(push_names(alloc, path), names.as_slice()));
    assert!(rt; is_list(push_all(alloc, path), [dot, parent_dir, a, b].as_slice()));
}
