//! Functions with contracts. They show what a caller can prove about chains of iterators over a
//! path's components, names and ancestors.
ghost use Rattle.std.specs.Prelude.{◌≡◌, ◌≢◌, ◌↔◌, ◌<◌, ◌≤◌, ◌+◌, ◌-◌, ℕ, IfNone, IfOk, IfSome};
ghost use Rattle.std.specs.Prelude.{IsSome, IsTrue, Some, count_by, drop, is_some, length, map};
ghost use Rattle.std.specs.Prelude.{option_map, reverse, slice_get, slice_index_or, take};
ghost use Rattle.std.specs.List.{All, Any};
ghost use Rattle.unix_path.specs.Buffers.{path_bytes};
ghost use Rattle.unix_path.specs.Parents.{ancestors_of};
ghost use Rattle.unix_path.specs.Names.{name_of};
ghost use Rattle.unix_path.specs.Parts.{Value, ParentDir, value_bytes, values};
ghost use Rattle.unix_path.specs.Views.{value_of};

use super::{is_list, is_name};
use path_runs::laws::walks_in_order;
use std::alloc::{AllocError, Global};
use std::test::Fail;
use unix_path::bytes::UnixStr;
use unix_path::{Component, Path, PathBuf};

fn count(path: Path<'_>) -> usize
    ensures { result ≡ length (values path.entry.bytes.now) }
{
    walks_in_order();
    path.components().count()
}

fn nth<'a>(path: Path<'a>, n: usize) -> Option<Component<'a>>
    ensures { option_map value_of result ≡ slice_get (values path.entry.bytes.now) n }
{
    walks_in_order();
    path.components().nth(n)
}

fn last<'a>(path: Path<'a>) -> Option<Component<'a>>
    ensures { let all = values path.entry.bytes.now in
        option_map value_of result ≡ slice_get all (length all - 1) }
{
    walks_in_order();
    path.components().last()
}

fn list_parts<'a>(alloc: Global, path: Path<'a>) -> Result<Vec<Component<'a>>, AllocError>
    ensures { IfOk result (λ list. map value_of list.items ≡ values path.entry.bytes.now) }
{
    walks_in_order();
    path.components().collect(alloc)
}

fn list_back<'a>(alloc: Global, path: Path<'a>) -> Result<Vec<Component<'a>>, AllocError>
    ensures { IfOk result (λ list. map value_of list.items
        ≡ reverse (values path.entry.bytes.now)) }
{
    walks_in_order();
    path.components().rev().collect(alloc)
}

// Returns the components after the first one.
fn after_first<'a>(alloc: Global, path: Path<'a>) -> Result<Vec<Component<'a>>, AllocError>
    ensures { IfOk result (λ list. map value_of list.items
        ≡ drop 1 (values path.entry.bytes.now)) }
{
    walks_in_order();
    let mut parts = path.components();
    let _first = parts.next();
    parts.collect(alloc)
}

fn all_but_first<'a>(alloc: Global, path: Path<'a>) -> Result<Vec<Component<'a>>, AllocError>
    ensures { IfOk result (λ list. map value_of list.items
        ≡ drop 1 (values path.entry.bytes.now)) }
{
    walks_in_order();
    path.components().skip(1).collect(alloc)
}

fn skip_parts<'a>(alloc: Global, path: Path<'a>, n: usize) -> Result<Vec<Component<'a>>, AllocError>
    ensures len { IfOk result (λ list.
        length list.items ≡ length (values path.entry.bytes.now) - n) }
    ensures parts { IfOk result (λ list. (k : ℕ) → option_map value_of (slice_get list.items k)
        ≡ slice_get (values path.entry.bytes.now) (n + k)) }
{
    walks_in_order();
    path.components().skip(n).collect(alloc)
}

fn lengths_back(alloc: Global, path: Path<'_>) -> Result<Vec<usize>, AllocError>
    ensures { IfOk result (λ list. list.items
        ≡ map (λ v. length (value_bytes v)) (reverse (values path.entry.bytes.now))) }
{
    walks_in_order();
    path.components()
        .rev()
        .map(|part| part.as_unix_str().len())
        .collect(alloc)
}

fn nth_with_number<'a>(path: Path<'a>, n: usize) -> Option<(usize, Component<'a>)>
    ensures number { IfSome result (λ x. x.0 ≡ n) }
    ensures part { option_map (λ x. value_of x.1) result
        ≡ slice_get (values path.entry.bytes.now) n }
{
    walks_in_order();
    path.components().enumerate().nth(n)
}

fn shared_len(a: Path<'_>, b: Path<'_>) -> usize
    ensures first { result ≤ length (values a.entry.bytes.now) }
    ensures second { result ≤ length (values b.entry.bytes.now) }
    ensures same { (k : ℕ) (d : Value) → k < result →
        slice_index_or (values a.entry.bytes.now) k d
        ≡ slice_index_or (values b.entry.bytes.now) k d }
{
    walks_in_order();
    a.components()
        .zip(b.components())
        .take_while(|(x, y)| x == y)
        .count()
}

fn all_names(path: Path<'_>) -> bool
    ensures { IsTrue result
        ↔ All (λ v. IsTrue (is_some (name_of v))) (values path.entry.bytes.now) }
{
    walks_in_order();
    path.components().all(|part| is_name(part))
}

fn has_parent_dir(path: Path<'_>) -> bool
    ensures { IsTrue result ↔ Any (λ v. v ≡ ParentDir) (values path.entry.bytes.now) }
{
    walks_in_order();
    path.components().any(|part| part == Component::ParentDir)
}

fn count_names(path: Path<'_>) -> usize
    ensures { result
        ≡ count_by (λ v. is_some (name_of v)) (values path.entry.bytes.now) }
{
    walks_in_order();
    path.components().filter(|part| is_name(*part)).count()
}

fn names<'a>(alloc: Global, path: Path<'a>) -> Result<Vec<Component<'a>>, AllocError>
    ensures names { IfOk result (λ list.
        All (λ part. IsTrue (is_some (name_of (value_of part)))) list.items) }
    ensures len { IfOk result (λ list. length list.items
        ≡ count_by (λ v. is_some (name_of v)) (values path.entry.bytes.now)) }
{
    walks_in_order();
    path.components()
        .filter(|part| is_name(*part))
        .collect(alloc)
}

fn first_parent_dir<'a>(path: Path<'a>) -> Option<Component<'a>>
    ensures some { IsSome result ↔ Any (λ v. v ≡ ParentDir) (values path.entry.bytes.now) }
    ensures part { IfSome result (λ part. value_of part ≡ ParentDir) }
{
    walks_in_order();
    path.components().find(|part| *part == Component::ParentDir)
}

fn parent_dir_index(path: Path<'_>) -> Option<usize>
    ensures none { IfNone result (All (λ v. v ≢ ParentDir) (values path.entry.bytes.now)) }
    ensures there { IfSome result (λ i.
        slice_get (values path.entry.bytes.now) i ≡ Some ParentDir) }
    ensures first { IfSome result (λ i.
        All (λ v. v ≢ ParentDir) (take i (values path.entry.bytes.now))) }
{
    walks_in_order();
    path.components()
        .position(|part| part == Component::ParentDir)
}

fn count_byte_strings(path: Path<'_>) -> usize
    ensures { result ≡ length (values path.entry.bytes.now) }
{
    walks_in_order();
    path.iter().count()
}

fn byte_strings_back<'a>(alloc: Global, path: Path<'a>) -> Result<Vec<UnixStr<'a>>, AllocError>
    ensures { IfOk result (λ list. map (λ name. name.bytes.now) list.items
        ≡ reverse (map value_bytes (values path.entry.bytes.now))) }
{
    walks_in_order();
    path.iter().rev().collect(alloc)
}

fn nth_byte_string<'a>(path: Path<'a>, n: usize) -> Option<UnixStr<'a>>
    ensures { option_map (λ name. name.bytes.now) result
        ≡ slice_get (map value_bytes (values path.entry.bytes.now)) n }
{
    walks_in_order();
    path.into_iter().nth(n)
}

fn last_of_buffer<'a>(path: &'a PathBuf) -> Option<UnixStr<'a>>
    ensures { let all = map value_bytes (values (path_bytes path.now)) in
        option_map (λ name. name.bytes.now) result ≡ slice_get all (length all - 1) }
{
    walks_in_order();
    path.into_iter().last()
}

fn count_ancestors(path: Path<'_>) -> usize
    ensures { result ≡ length (ancestors_of path.entry.bytes.now) }
{
    walks_in_order();
    path.ancestors().count()
}

fn parents<'a>(alloc: Global, path: Path<'a>) -> Result<Vec<Path<'a>>, AllocError>
    ensures { IfOk result (λ list. map (λ parent. parent.bytes.now) list.items
        ≡ drop 1 (ancestors_of path.entry.bytes.now)) }
{
    walks_in_order();
    path.ancestors().skip(1).collect(alloc)
}

fn nth_ancestor<'a>(path: Path<'a>, n: usize) -> Option<(usize, Path<'a>)>
    ensures { option_map (λ x. x.1.bytes.now) result
        ≡ slice_get (ancestors_of path.entry.bytes.now) n }
{
    walks_in_order();
    path.ancestors().enumerate().nth(n)
}

fn path(text: &str) -> Path<'_> {
    Path::from_text(text)
}

fn name(text: &str) -> Component<'_> {
    Component::Normal(UnixStr::new(text))
}

#[test]
fn numbers_of_parts(rt: HostRuntime) {
    let long = path("/a/../b//c/.");
    assert!(rt; count(long) == 5 && count(path("")) == 0);
    assert!(rt; shared_len(long, path("/a/./../c")) == 3);
    assert!(rt; count_names(long) == 3 && count_byte_strings(long) == 5);
    assert!(rt; count_ancestors(path("../a")) == 3);
}

#[test]
fn parts_by_number(rt: HostRuntime) {
    let long = path("/a/../b//c/.");
    assert!(rt; nth(long, 3) == Some(name("b")) && nth(long, 5) == None);
    assert!(rt; last(long) == Some(name("c")));
    assert!(rt; nth_with_number(long, 2) == Some((2, Component::ParentDir)));
    assert!(rt; nth_byte_string(long, 0) == Some(UnixStr::new("/")));
}

#[test]
fn parts_that_are_sought(rt: HostRuntime) {
    let long = path("/a/../b//c/.");
    assert!(rt; first_parent_dir(long) == Some(Component::ParentDir));
    assert!(rt; parent_dir_index(long) == Some(2) && parent_dir_index(path("a/b")) == None);
    assert!(rt; has_parent_dir(long) && !has_parent_dir(path("a/..b")));
    assert!(rt; all_names(path("a/b")) && !all_names(path("./a")));
}

#[test]
fn lists_of_parts(rt: HostRuntime) {
    let alloc = rt.alloc();
    let short = path("./a//bc/");
    let all = [Component::CurDir, name("a"), name("bc")];
    let back = [name("bc"), name("a"), Component::CurDir];
    assert!(rt; is_list(list_parts(alloc, short), all.as_slice()));
    assert!(rt; is_list(list_back(alloc, short), back.as_slice()));
}

#[test]
fn lists_without_the_first_part(rt: HostRuntime) {
    let alloc = rt.alloc();
    let short = path("./a//bc/");
    let later = [name("a"), name("bc")];
    assert!(rt; is_list(after_first(alloc, short), later.as_slice()));
    assert!(rt; is_list(all_but_first(alloc, short), later.as_slice()));
    assert!(rt; is_list(skip_parts(alloc, short, 1), later.as_slice()));
    assert!(rt; is_list(names(alloc, short), later.as_slice()));
}

#[test]
fn lists_of_bytes_from_the_end(rt: HostRuntime) {
    let alloc = rt.alloc();
    let short = path("./a//bc/");
    let back = [UnixStr::new("bc"), UnixStr::new("a"), UnixStr::new(".")];
    assert!(rt; is_list(lengths_back(alloc, short), [2, 1, 1].as_slice()));
    assert!(rt; is_list(byte_strings_back(alloc, short), back.as_slice()));
}

#[test]
fn buffers_and_parents(rt: HostRuntime) -> Result<(), Fail> {
    let alloc = rt.alloc();
    let buffer = PathBuf::from_text(alloc, "/a/b/")?;
    assert!(rt; last_of_buffer(&buffer) == Some(UnixStr::new("b")));
    let above = [path("/a"), path("/")];
    assert!(rt; is_list(parents(alloc, buffer.as_path()), above.as_slice()));
    assert!(rt; nth_ancestor(buffer.as_path(), 2) == Some((2, path("/"))));
    Ok(())
}
