//! Tests of how boxed, shared, and borrowed or owned paths compare and hash, and what a caller can
//! prove about them.
ghost use Rattle.std.specs.Prelude.{◌↔◌, IsTrue};
ghost use Rattle.unix_path.specs.Pointers.{boxed_bytes};
ghost use Rattle.unix_path.specs.Parts.{SameValues};

use super::answers::assert_each;
use super::kept_paths::owners_of;
use super::recording_hasher::RecordingHasher;
use super::views::path;
use std::alloc::{AllocError, Global};
use std::cmp::Ordering;
use std::collections::{BTreeMap, HashMap};
use std::hash::Hash;
use unix_bytes::bytes::UnixStr;
use unix_path::{BoxedPath, CowPath, Path, PathBuf, RcPath};

fn same_boxed(a: &BoxedPath, b: &BoxedPath) -> bool
    ensures { IsTrue result ↔ SameValues (boxed_bytes a.now) (boxed_bytes b.now) }
{
    *a == *b
}

// Returns the input that the value feeds a hasher.
fn hash_input<T: Hash>(value: &T) -> RecordingHasher {
    let mut state = RecordingHasher::new();
    value.hash(&mut state);
    state
}

// Returns true if each of the paths has this text.
fn have_text(paths: &[Path<'_>], text: &str) -> bool {
    for path in paths {
        if path.as_unix_str() != UnixStr::new(text) {
            return false;
        }
    }
    true
}

// Returns true if the path is equal to each of `others`.
fn equals_each(path: Path<'_>, others: &[Path<'_>]) -> bool {
    for other in others {
        if path != *other || path.cmp(other) != Ordering::Equal {
            return false;
        }
    }
    true
}

// Returns true if each of the paths is equal to each of `others`.
fn each_equals_each(paths: &[Path<'_>], others: &[Path<'_>]) -> bool {
    for path in paths {
        if !equals_each(*path, others) {
            return false;
        }
    }
    true
}

// The types that own a path: a buffer, a boxed path and a shared one.
type Owners = (PathBuf, BoxedPath, RcPath);

// Returns five views: of the path `text`, of the three owners, and of `cow`.
fn views_of<'a>(text: &'a str, owners: &'a Owners, cow: &'a CowPath<'_>) -> [Path<'a>; 5] {
    [
        path(text),
        owners.0.as_path(),
        owners.1.as_path(),
        owners.2.as_path(),
        cow.as_path(),
    ]
}

// Returns true if the five types of path keep the bytes of `a//b` and of `a/b`, and each path
// `a//b` is equal to each path `a/b`.
fn compare_alike(owners: &Owners, others: &Owners, owned: CowPath<'_>) -> bool {
    let cow = CowPath::from(&owners.0);
    let paths = views_of("a//b", owners, &cow);
    let others = views_of("a/b", others, &owned);
    let have_texts = have_text(&paths, "a//b") && have_text(&others, "a/b");
    have_texts && each_equals_each(&paths, &others)
}

// Returns true if `compare_alike` is true of the paths `a//b` and `a/b`, created in each type.
fn all_compare_alike(alloc: Global) -> Result<bool, AllocError> {
    let owners = owners_of(alloc, "a//b")?;
    let others = owners_of(alloc, "a/b")?;
    let owned = CowPath::from(others.0.clone()?);
    Ok(compare_alike(&owners, &others, owned))
}

#[test]
fn all_types_compare_alike(rt: HostRuntime) {
    assert!(rt; matches!(all_compare_alike(rt.alloc()), Ok(true)));
}

// Returns true if each of the five types feeds a hasher this input.
fn feed_alike(owners: &Owners, owned: CowPath<'_>, input: RecordingHasher) -> bool {
    let cow = CowPath::from(&owners.0);
    hash_input(&owners.0) == input
        && hash_input(&owners.1) == input
        && hash_input(&owners.2) == input
        && hash_input(&cow) == input
        && hash_input(&owned) == input
}

// Returns true if each type of path with this text feeds a hasher this input.
fn all_feed_alike(alloc: Global, text: &str, input: RecordingHasher) -> Result<bool, AllocError> {
    let owners = owners_of(alloc, text)?;
    let owned = CowPath::from(owners.0.clone()?);
    Ok(feed_alike(&owners, owned, input))
}

#[test]
fn all_types_hash_alike(rt: HostRuntime) {
    let input = hash_input(&path("a/b"));
    assert_each(
        &rt,
        &[
            input.len > 0,
            matches!(all_feed_alike(rt.alloc(), "a/b", input), Ok(true)),
            matches!(all_feed_alike(rt.alloc(), "a//b", input), Ok(true)),
        ],
    );
}

// Returns true if `less` is less than `a` and `b`, which are equal.
fn are_ordered<T: Ord>(less: &T, a: &T, b: &T) -> bool {
    a == b
        && less != a
        && a.cmp(b) == Ordering::Equal
        && less.cmp(a) == Ordering::Less
        && a.partial_cmp(less) == Some(Ordering::Greater)
}

// Returns true if boxed paths are ordered by their components.
fn boxed_are_ordered(alloc: Global) -> Result<bool, AllocError> {
    let less = BoxedPath::from_path(alloc, path("a/b"))?;
    let a = BoxedPath::from_path(alloc, path("a.b//"))?;
    let b = BoxedPath::from_path(alloc, path("a.b/."))?;
    Ok(are_ordered(&less, &a, &b) && same_boxed(&a, &b) && !same_boxed(&less, &a))
}

// Returns true if shared paths are ordered by their components.
fn shared_are_ordered(alloc: Global) -> Result<bool, AllocError> {
    let less = RcPath::from_path(alloc, path("a/b"))?;
    let a = RcPath::from_path(alloc, path("a.b//"))?;
    let b = RcPath::from_path(alloc, path("a.b/."))?;
    Ok(are_ordered(&less, &a, &b))
}

// Returns true if borrowed and owned paths are ordered by their components.
fn cows_are_ordered(alloc: Global) -> Result<bool, AllocError> {
    let less = CowPath::from(PathBuf::from_text(alloc, "a/b")?);
    let buffer = PathBuf::from_text(alloc, "a.b//")?;
    let (a, b) = (CowPath::from(&buffer), CowPath::from(path("a.b/.")));
    Ok(are_ordered(&less, &a, &b))
}

#[test]
fn kept_paths_are_ordered(rt: HostRuntime) {
    assert_each(
        &rt,
        &[
            matches!(boxed_are_ordered(rt.alloc()), Ok(true)),
            matches!(shared_are_ordered(rt.alloc()), Ok(true)),
            matches!(cows_are_ordered(rt.alloc()), Ok(true)),
        ],
    );
}

// Returns true if an ordered map finds a boxed path by an equal one.
fn ordered_map_finds(alloc: Global) -> Result<bool, AllocError> {
    let mut map = BTreeMap::new(alloc);
    map.insert(BoxedPath::from_path(alloc, path("a//b"))?, 1)?;
    Ok(map.get(&BoxedPath::from_path(alloc, path("a/b/."))?) == Some(&1))
}

// Returns true if a hashed map finds a shared path by an equal one.
fn hashed_map_finds(alloc: Global) -> Result<bool, AllocError> {
    let mut map = HashMap::new(alloc);
    map.insert(RcPath::from_path(alloc, path("a//b"))?, 1)?;
    Ok(map.get(&RcPath::from_path(alloc, path("a/b/."))?) == Some(&1))
}

#[test]
fn maps_find_equal_paths(rt: HostRuntime) {
    assert!(rt; matches!(ordered_map_finds(rt.alloc()), Ok(true)));
    assert!(rt; matches!(hashed_map_finds(rt.alloc()), Ok(true)));
}

// Returns true if the path `foo/bar`, the same path pushed component by component, and both as
// borrowed or owned paths are all equal to each other.
fn receivers_are_equal(alloc: Global) -> Result<bool, AllocError> {
    let borrowed = path("foo/bar");
    let mut owned = PathBuf::new(alloc);
    owned.push(path("foo"))?;
    owned.push(path("bar"))?;
    let borrowed_cow = CowPath::from(borrowed);
    let owned_cow = CowPath::from(owned.clone()?);
    let all = [
        borrowed,
        owned.as_path(),
        borrowed_cow.as_path(),
        owned_cow.as_path(),
    ];
    Ok(each_equals_each(&all, &all))
}

#[test]
fn each_receiver_equals_each(rt: HostRuntime) {
    assert!(rt; matches!(receivers_are_equal(rt.alloc()), Ok(true)));
}
