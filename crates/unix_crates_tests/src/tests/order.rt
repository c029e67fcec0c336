//! Tests of equality, order and hash, and what a caller can prove about them.
ghost use Rattle.std.specs.Prelude.{◌≡◌, ◌↔◌, IsTrue, fold};
ghost use Rattle.std.specs.Ordering.{nat_cmp};
ghost use Rattle.std.specs.Cmp.Lexicographic.{slice_cmp};
ghost use Rattle.unix_bytes.specs.Hashed.{name_input};
ghost use Rattle.unix_path.specs.Parts.{values, SameValues};
ghost use Rattle.unix_path.specs.Cursor.{cursor_values};
ghost use Rattle.unix_path.specs.Order.{value_cmp, values_cmp};
ghost use Rattle.unix_path.specs.Hashed.{value_input, hash_input_of};
ghost use Rattle.unix_path.specs.Views.{value_of};

use super::answers::assert_each;
use super::recording_hasher::RecordingHasher;
use super::views::path;
use std::cmp::Ordering;
use std::hash::{Hash, Hasher};
use unix_bytes::bytes::UnixStr;
use unix_path::{Component, Components, Path};

fn same_names<'a>(a: UnixStr<'a>, b: UnixStr<'a>) -> bool
    ensures { IsTrue result ↔ (a.entry.bytes.now ≡ b.entry.bytes.now) }
{
    a == b
}

fn order_names<'a>(a: UnixStr<'a>, b: UnixStr<'a>) -> Ordering
    ensures { result ≡ slice_cmp nat_cmp a.entry.bytes.now b.entry.bytes.now }
{
    a.cmp(&b)
}

fn feed_name<H: Hasher>(a: UnixStr<'_>, state: &mut H)
    ensures { state.new ≡ fold H.write state.old (name_input a.entry.bytes.now) }
{
    a.hash(state);
}

fn same_components<'a>(a: Component<'a>, b: Component<'a>) -> bool
    ensures { IsTrue result ↔ (value_of a.entry ≡ value_of b.entry) }
{
    a == b
}

fn order_components<'a>(a: Component<'a>, b: Component<'a>) -> Ordering
    ensures { result ≡ value_cmp (value_of a.entry) (value_of b.entry) }
{
    a.cmp(&b)
}

fn feed_component<H: Hasher>(a: Component<'_>, state: &mut H)
    ensures { state.new ≡ fold H.write state.old (value_input (value_of a.entry)) }
{
    a.hash(state);
}

fn same_walks<'a>(a: Components<'a>, b: Components<'a>) -> bool
    ensures { IsTrue result ↔ (cursor_values a.entry ≡ cursor_values b.entry) }
{
    a == b
}

fn order_walks<'a>(a: Components<'a>, b: Components<'a>) -> Ordering
    ensures { result ≡ values_cmp (cursor_values a.entry) (cursor_values b.entry) }
{
    Ord::cmp(&a, &b)
}

fn same_paths<'a>(a: Path<'a>, b: Path<'a>) -> bool
    ensures { IsTrue result ↔ SameValues a.entry.bytes.now b.entry.bytes.now }
{
    a == b
}

fn feed_path<H: Hasher>(a: Path<'_>, state: &mut H)
    ensures { state.new ≡ fold H.write state.old (hash_input_of (values a.entry.bytes.now)) }
{
    a.hash(state);
}

// Returns the input that the path feeds a hasher.
fn hash_input(text: &str) -> RecordingHasher {
    let mut state = RecordingHasher::new();
    feed_path(path(text), &mut state);
    state
}

// Two paths, and how the first compares with the second.
static ORDERS: [(&str, &str, Ordering); 30] = [
    ("a/./b", "a/b", Ordering::Equal),
    ("foo", "foo", Ordering::Equal),
    ("a/b", "a.b", Ordering::Less),
    ("./a", "a", Ordering::Less),
    ("a/./b//", "a/b", Ordering::Equal),
    ("..", "+", Ordering::Less),
    ("/", ".", Ordering::Less),
    ("a", "", Ordering::Greater),
    ("./.", ".", Ordering::Equal),
    ("", "", Ordering::Equal),
    ("foo", "", Ordering::Greater),
    ("foo/", "foo", Ordering::Equal),
    ("foo/bar", "foo/bar/baz", Ordering::Less),
    ("a/b/", "a/b", Ordering::Equal),
    ("a/b/.", "a/b", Ordering::Equal),
    ("./a/b", "a/b", Ordering::Less),
    ("a/c", "a/b/../c", Ordering::Greater),
    (".", "..", Ordering::Less),
    ("a/b", "ab", Ordering::Less),
    ("a/bc", "a/b", Ordering::Greater),
    ("/./a", "/a", Ordering::Equal),
    ("a/.", "a/..", Ordering::Less),
    (".a", ".", Ordering::Greater),
    ("a/", "a/.", Ordering::Equal),
    ("a//b", "a/b", Ordering::Equal),
    ("//", "/", Ordering::Equal),
    ("x/y/a", "x/y/a", Ordering::Equal),
    ("x/+", "x/..", Ordering::Greater),
    ("x/a/b", "x/a.b", Ordering::Less),
    (
        "a longer name/of/two/parts",
        "a longer name/of//two/partial",
        Ordering::Greater,
    ),
];

// Returns true if two paths, and walks over both, compare as `order` says, and if equal paths feed
// a hasher the same input.
fn is_ordered(a: &str, b: &str, order: Ordering) -> bool {
    let (p, q) = (path(a), path(b));
    let (walk, other) = (p.components(), q.components());
    p.partial_cmp(&q) == Some(order)
        && same_paths(p, q) == order.is_eq()
        && order_walks(walk, other) == order
        && PartialOrd::partial_cmp(&walk, &other) == Some(order)
        && same_walks(walk, other) == order.is_eq()
        && (!order.is_eq() || hash_input(a) == hash_input(b))
}

#[test]
fn rows_of_the_order(rt: HostRuntime) {
    for row in ORDERS.iter() {
        assert!(rt; is_ordered(row.0, row.1, row.2), "{} {}", row.0, row.1);
    }
}

#[test]
fn walks_are_equal_by_what_is_left(rt: HostRuntime) {
    let mut walk = path("x/a/b").components();
    let other = path("a//b").components();
    let first = Component::Normal(UnixStr::new("x"));
    assert_each(
        &rt,
        &[
            !same_walks(walk, other),
            walk.next() == Some(first),
            same_walks(walk, other),
        ],
    );
}

// Returns true if the components are strictly increasing.
fn are_ascending(kinds: &[Component<'_>]) -> bool {
    for (i, x) in kinds.iter().enumerate() {
        for (j, y) in kinds.iter().enumerate() {
            let same = same_components(*x, *y) == (i == j);
            if order_components(*x, *y) != i.cmp(&j) || !same {
                return false;
            }
        }
    }
    true
}

#[test]
fn components_and_names(rt: HostRuntime) {
    let (a, b) = (UnixStr::new("a"), UnixStr::new("a."));
    let plus = Component::Normal(UnixStr::new("+"));
    let names = (Component::Normal(a), Component::Normal(b));
    let kinds = [
        Component::RootDir,
        Component::CurDir,
        Component::ParentDir,
        plus,
        names.0,
        names.1,
    ];
    assert_each(
        &rt,
        &[
            are_ascending(&kinds),
            order_names(a, b) == Ordering::Less,
            order_names(b, a) == Ordering::Greater,
            same_names(a, a),
            !same_names(a, b),
        ],
    );
}

// Paths, and the input that each feeds a hasher, written by hand: for each component its bytes, a
// slash, and zeros up to the next multiple of eight bytes.
static HASH_INPUTS: [(&str, &str); 14] = [
    ("", ""),
    ("/", "//\0\0\0\0\0\0"),
    ("./.", "./\0\0\0\0\0\0"),
    ("..", "../\0\0\0\0\0"),
    ("a", "a/\0\0\0\0\0\0"),
    ("ab", "ab/\0\0\0\0\0"),
    ("abc", "abc/\0\0\0\0"),
    ("abcd", "abcd/\0\0\0"),
    ("abcde", "abcde/\0\0"),
    ("abcdef", "abcdef/\0"),
    ("abcdefg", "abcdefg/"),
    ("abcdefgh", "abcdefgh/\0\0\0\0\0\0\0"),
    ("/tmp//", "//\0\0\0\0\0\0tmp/\0\0\0\0"),
    (
        "ninebytes/../x",
        "ninebytes/\0\0\0\0\0\0../\0\0\0\0\0x/\0\0\0\0\0\0",
    ),
];

// Returns true if the path feeds a hasher the bytes of `input`.
fn feeds(text: &str, input: &str) -> bool {
    let mut state = RecordingHasher::new();
    state.write(input.as_bytes());
    hash_input(text) == state
}

#[test]
fn rows_of_what_is_fed(rt: HostRuntime) {
    for row in HASH_INPUTS.iter() {
        assert!(rt; feeds(row.0, row.1), "{}", row.0);
    }
}

// Returns true if no two of the paths feed a hasher the same input.
fn feed_differently(texts: &[&str]) -> bool {
    for (i, a) in texts.iter().enumerate() {
        for (j, b) in texts.iter().enumerate() {
            if (hash_input(a) == hash_input(b)) != (i == j) {
                return false;
            }
        }
    }
    true
}

// Returns the input that the component feeds a hasher.
fn component_hash_input(part: Component<'_>) -> RecordingHasher {
    let mut state = RecordingHasher::new();
    feed_component(part, &mut state);
    state
}

#[test]
fn paths_feed_their_components(rt: HostRuntime) {
    let paths = ["a", "b", "/a", "./a", "..", "ab", "a/b", "b/a", "a\0", ""];
    let mut parts = component_hash_input(Component::Normal(UnixStr::new("a")));
    feed_component(Component::Normal(UnixStr::new("b")), &mut parts);
    let mut name = RecordingHasher::new();
    feed_name(UnixStr::new("a"), &mut name);
    assert_each(
        &rt,
        &[
            feed_differently(&paths),
            hash_input("a//b") == parts,
            parts.len > 0,
            name.len > 0,
            name != hash_input("a"),
        ],
    );
}

// No path has a name `.` or `..`. A component made of such a name is not equal to `CurDir` or
// `ParentDir`, although it feeds a hasher the same input.
#[test]
fn components_may_feed_alike(rt: HostRuntime) {
    let dot = Component::Normal(UnixStr::new("."));
    let dots = Component::Normal(UnixStr::new(".."));
    assert_each(
        &rt,
        &[
            dot != Component::CurDir,
            dots != Component::ParentDir,
            component_hash_input(dot) == component_hash_input(Component::CurDir),
            component_hash_input(dots) == component_hash_input(Component::ParentDir),
        ],
    );
}
