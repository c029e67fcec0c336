//! Functions over a walk that is a parameter. They show what a caller can prove about chains of
//! iterators and loops.
ghost use Rattle.std.specs.Prelude.{◌≡◌, IfOk, length, map, reverse};
ghost use Rattle.unix_path.specs.Cursor.{cursor_values, iter_bytes};
ghost use Rattle.unix_path.specs.Parts.{value_bytes};
ghost use Rattle.unix_path.specs.Views.{value_of};

use super::is_list;
use path_runs::laws;
use std::alloc::{AllocError, Global};
use unix_path::bytes::UnixStr;
use unix_path::{Component, Components, Iter, Path};

fn list_parts<'a>(alloc: Global, parts: Components<'a>) -> Result<Vec<Component<'a>>, AllocError>
    ensures { IfOk result (λ list. map value_of list.items ≡ cursor_values parts.entry) }
{
    laws::walks_in_order();
    parts.collect(alloc)
}

fn list_back<'a>(alloc: Global, parts: Components<'a>) -> Result<Vec<Component<'a>>, AllocError>
    ensures { IfOk result (λ list. map value_of list.items ≡ reverse (cursor_values parts.entry)) }
{
    laws::walks_in_order();
    parts.rev().collect(alloc)
}

fn lengths(alloc: Global, parts: Components<'_>) -> Result<Vec<usize>, AllocError>
    ensures { IfOk result (λ list. list.items ≡
        map (λ v. length (value_bytes v)) (cursor_values parts.entry)) }
{
    laws::walks_in_order();
    parts.map(|part| part.as_unix_str().len()).collect(alloc)
}

fn lengths_back(alloc: Global, parts: Components<'_>) -> Result<Vec<usize>, AllocError>
    ensures { IfOk result (λ list. list.items ≡
        map (λ v. length (value_bytes v)) (reverse (cursor_values parts.entry))) }
{
    laws::walks_in_order();
    parts
        .rev()
        .map(|part| part.as_unix_str().len())
        .collect(alloc)
}

fn push_parts<'a>(alloc: Global, parts: Components<'a>) -> Result<Vec<Component<'a>>, AllocError>
    ensures { IfOk result (λ list. map value_of list.items ≡ cursor_values parts.entry) }
{
    let mut list = Vec::new(alloc);
    for part in parts {
        list.push(part)?;
    }
    Ok(list)
}

fn count(parts: Components<'_>) -> usize
    ensures { result ≡ length (cursor_values parts.entry) }
{
    laws::walks_in_order();
    parts.count()
}

fn names<'a>(alloc: Global, parts: Iter<'a>) -> Result<Vec<UnixStr<'a>>, AllocError>
    ensures { IfOk result (λ list. map (λ name. name.bytes.now) list.items ≡
        iter_bytes parts.entry) }
{
    laws::walks_in_order();
    parts.collect(alloc)
}

fn names_back<'a>(alloc: Global, parts: Iter<'a>) -> Result<Vec<UnixStr<'a>>, AllocError>
    ensures { IfOk result (λ list. map (λ name. name.bytes.now) list.items ≡
        reverse (iter_bytes parts.entry)) }
{
    laws::walks_in_order();
    parts.rev().collect(alloc)
}

fn name_lengths_back(alloc: Global, parts: Iter<'_>) -> Result<Vec<usize>, AllocError>
    ensures { IfOk result (λ list. list.items ≡ map length (reverse (iter_bytes parts.entry))) }
{
    parts.rev().map(|name| name.len()).collect(alloc)
}

fn push_names<'a>(alloc: Global, parts: Iter<'a>) -> Result<Vec<UnixStr<'a>>, AllocError>
    ensures { IfOk result (λ list. map (λ name. name.bytes.now) list.items ≡
        iter_bytes parts.entry) }
{
    let mut list = Vec::new(alloc);
    for name in parts {
        list.push(name)?;
    }
    Ok(list)
}

fn path() -> Path<'static> {
    Path::from_text("/tmp/./foo.txt/")
}

#[test]
fn lists_of_parts(rt: HostRuntime) {
    let alloc = rt.alloc();
    let tmp = Component::Normal(UnixStr::new("tmp"));
    let foo = Component::Normal(UnixStr::new("foo.txt"));
    let parts = [Component::RootDir, tmp, foo];
    let back = [foo, tmp, Component::RootDir];
    assert!(rt; is_list(list_parts(alloc, path().components()), parts.as_slice()));
    assert!(rt; is_list(list_back(alloc, path().components()), back.as_slice()));
    assert!(rt; is_list(push_parts(alloc, path().components()), parts.as_slice()));
}

#[test]
fn lengths_of_parts(rt: HostRuntime) {
    let alloc = rt.alloc();
    let back = [7usize, 3, 1];
    assert!(rt; is_list(lengths(alloc, path().components()), [1, 3, 7].as_slice()));
    assert!(rt; is_list(lengths_back(alloc, path().components()), back.as_slice()));
    assert!(rt; is_list(name_lengths_back(alloc, path().iter()), back.as_slice()));
    assert!(rt; count(path().components()) == 3);
}

#[test]
fn lists_of_names(rt: HostRuntime) {
    let alloc = rt.alloc();
    let root = UnixStr::new("/");
    let tmp = UnixStr::new("tmp");
    let foo = UnixStr::new("foo.txt");
    let list = [root, tmp, foo];
    let back = [foo, tmp, root];
    assert!(rt; is_list(names(alloc, path().iter()), list.as_slice()));
    assert!(rt; is_list(names_back(alloc, path().iter()), back.as_slice()));
    assert!(rt; is_list(push_names(alloc, path().iter()), list.as_slice()));
}
