//! Callers of laws. The proof of a function can use each law that the function calls. No function
//! here needs a proof by hand.
ghost use Rattle.std.specs.Prelude.{◌≡◌, ◌≤◌, ◌↔◌, ◌++◌, false, [], map, reverse, IfOk, IsTrue};
ghost use Rattle.std.specs.Prelude.{IsFalse, length};
ghost use Rattle.std.specs.Cmp.Lexicographic.{slice_cmp};
ghost use Rattle.std.specs.List.{sum_by};
ghost use Rattle.std.specs.Option.{option_to_list};
ghost use Rattle.std.specs.Ordering.{nat_cmp};
ghost use Rattle.unix_path.specs.Buffers.{path_bytes};
ghost use Rattle.unix_path.specs.Prefixes.{IsPrefixOf};
ghost use Rattle.unix_path.specs.Cursor.{cursor_values};
ghost use Rattle.unix_path.specs.Order.{value_cmp, values_cmp, IsBefore};
ghost use Rattle.unix_path.specs.Parts.{is_rooted, value_bytes, values, SameValues};
ghost use Rattle.unix_path.specs.Views.{value_of};
ghost use Rattle.path_runs.specs.HashLaws.{bytes_fed};

use path_runs::laws;
use std::alloc::{AllocError, Global};
use std::cmp::Ordering;
use std::test::Fail;
use unix_path::bytes::UnixStr;
use unix_path::{Component, Components, Path, PathBuf};

fn join_under_root(alloc: Global, root: Path<'_>, request: Path<'_>) -> Result<PathBuf, AllocError>
    requires { is_rooted request.bytes.now ≡ false }
    ensures { IfOk result (λ p. IsPrefixOf (values root.entry.bytes.now) (values (path_bytes p))) }
{
    laws::join_starts_with();
    root.join(alloc, request)
}

fn join_starts_with_root(
    alloc: Global,
    root: Path<'_>,
    request: Path<'_>,
) -> Result<bool, AllocError>
    requires { is_rooted request.bytes.now ≡ false }
    ensures { IfOk result (λ b. IsTrue b) }
{
    laws::join_starts_with();
    let joined = root.join(alloc, request)?;
    Ok(joined.as_path().starts_with(root))
}

fn bound_of_parts(path: Path<'_>) -> usize
    ensures count { length (values path.entry.bytes.now) ≤ result }
    ensures bytes { sum_by (λ v. length (value_bytes v)) (values path.entry.bytes.now) ≤ result }
{
    laws::parts_fit();
    path.as_unix_str().len()
}

fn has_no_component(path: Path<'_>) -> bool
    ensures { IsTrue result ↔ (values path.entry.bytes.now ≡ []) }
{
    laws::no_part_no_byte();
    path == Path::new(UnixStr::new(""))
}

fn compares_equal(a: Path<'_>, b: Path<'_>) -> bool
    ensures { IsTrue result ↔ SameValues a.entry.bytes.now b.entry.bytes.now }
{
    laws::order_total();
    a.cmp(&b).is_eq()
}

fn reverse_order(a: Path<'_>, b: Path<'_>) -> Ordering
    ensures { result ≡ values_cmp (values a.entry.bytes.now) (values b.entry.bytes.now) }
{
    laws::order_total();
    b.cmp(&a).reverse()
}

fn equal_if_same_input(a: Path<'_>, b: Path<'_>) -> bool
    requires { bytes_fed a.bytes.now ≡ bytes_fed b.bytes.now }
    ensures { IsTrue result }
{
    laws::hash_input_injective();
    a == b
}

fn is_not_greater(a: Path<'_>, b: Path<'_>) -> bool
    requires { IsBefore (values a.bytes.now) (values b.bytes.now) }
    ensures { IsFalse result }
{
    laws::order_total();
    b < a || a == b
}

fn is_first_of_three(a: Path<'_>, b: Path<'_>, c: Path<'_>) -> bool
    requires first { IsBefore (values a.bytes.now) (values b.bytes.now) }
    requires second { IsBefore (values b.bytes.now) (values c.bytes.now) }
    ensures { IsTrue result }
{
    laws::order_total();
    let _between = b;
    a < c
}

fn is_same_part(a: Component<'_>, b: Component<'_>) -> bool
    ensures { IsTrue result ↔ (value_of a.entry ≡ value_of b.entry) }
{
    laws::components_ordered();
    a == b
}

fn order_of_parts(a: Component<'_>, b: Component<'_>) -> Ordering
    ensures { result ≡ value_cmp (value_of a.entry) (value_of b.entry) }
{
    laws::components_ordered();
    a.cmp(&b)
}

fn is_same_name(a: UnixStr<'_>, b: UnixStr<'_>) -> bool
    ensures { IsTrue result ↔ (a.entry.bytes.now ≡ b.entry.bytes.now) }
{
    laws::bytes_ordered();
    a == b
}

fn order_of_names(a: UnixStr<'_>, b: UnixStr<'_>) -> Ordering
    ensures { result ≡ slice_cmp nat_cmp a.entry.bytes.now b.entry.bytes.now }
{
    laws::bytes_ordered();
    a.cmp(&b)
}

// Takes the first component of the rest, and then the last one. The first component, the components
// of the new rest and the last component, in this order, are the components of the old rest.
fn take_both<'a>(parts: &mut Components<'a>) -> (Option<Component<'a>>, Option<Component<'a>>)
    ensures { map value_of (option_to_list result.0) ++ cursor_values parts.new
        ++ reverse (map value_of (option_to_list result.1)) ≡ cursor_values parts.old }
{
    laws::ends_meet();
    let first = parts.next();
    let last = parts.next_back();
    (first, last)
}

#[test]
fn laws_are_facts(rt: HostRuntime) -> Result<(), Fail> {
    let alloc = rt.alloc();
    let root = Path::new(UnixStr::new("/srv/"));
    let request = Path::new(UnixStr::new("./a//b"));
    let empty = Path::new(UnixStr::new(""));
    let joined = join_under_root(alloc, root, request)?;
    assert_eq!(rt; joined.as_path().as_unix_str(), UnixStr::new("/srv/./a//b"));
    assert!(rt; join_starts_with_root(alloc, empty, request)?);
    assert_eq!(rt; bound_of_parts(request), 6);
    assert!(rt; has_no_component(empty));
    assert!(rt; compares_equal(request, Path::new(UnixStr::new("./a/b/."))));
    assert_eq!(rt; reverse_order(root, request), Ordering::Less);
    assert!(rt; equal_if_same_input(request, request));
    Ok(())
}

// Returns true if the names `a` and `ab`, and some different components, compare as different and
// in the expected order.
fn are_in_order() -> bool {
    let (a, b) = (UnixStr::new("a"), UnixStr::new("ab"));
    is_same_name(a, a)
        && !is_same_name(a, b)
        && order_of_names(a, b).is_lt()
        && !is_same_part(Component::CurDir, Component::Normal(UnixStr::new(".")))
        && order_of_parts(Component::RootDir, Component::CurDir).is_lt()
        && order_of_parts(Component::CurDir, Component::ParentDir).is_lt()
        && order_of_parts(Component::ParentDir, Component::Normal(a)).is_lt()
        && order_of_parts(Component::Normal(a), Component::Normal(b)).is_lt()
}

#[test]
fn laws_of_order_are_facts(rt: HostRuntime) {
    assert!(rt; are_in_order());
    let (a, b) = (Path::from_text("a/b"), Path::from_text("a.b"));
    assert!(rt; a < b);
    let mut parts = Path::from_text("/a/b").components();
    let (first, last) = take_both(&mut parts);
    assert_eq!(rt; first, Some(Component::RootDir));
    assert_eq!(rt; last, Some(Component::Normal(UnixStr::new("b"))));
    assert_eq!(rt; parts.as_path().as_unix_str(), UnixStr::new("a"));
}
