//! Tests of how buffers are created, of their capacity, and of how they compare.
use super::answers::assert_each;
use super::edits::has_bytes;
use super::views::path;
use std::alloc::{AllocError, Global};
use std::cmp::Ordering;
use std::test::Fail;
use unix_bytes::bytes::{UnixStr, UnixString};
use unix_path::PathBuf;

// Returns true if a path keeps these bytes, and if they are the same after the path is cloned,
// copied, and converted to a byte string and back.
fn are_kept(alloc: Global, bytes: UnixStr<'_>) -> Result<bool, AllocError> {
    let first = PathBuf::from_unix_str(alloc, bytes)?;
    let copy: UnixString = first.clone()?.as_path().to_path_buf(alloc)?.into();
    let is_copied = PathBuf::from(copy).into_unix_string().as_unix_str() == bytes;
    Ok(is_copied && first.as_path().as_unix_str() == bytes)
}

#[test]
fn conversions_keep_the_bytes(rt: HostRuntime) {
    let answer = are_kept(rt.alloc(), UnixStr::from_bytes(b"a//\xff/"));
    assert!(rt; matches!(answer, Ok(true)));
}

// Returns true if the components are the root and this name.
fn gives_root_and_name(buffer: &PathBuf, name: &str) -> bool {
    let mut parts = buffer.into_iter();
    parts.next() == Some(UnixStr::new("/"))
        && parts.next() == Some(UnixStr::new(name))
        && parts.next().is_none()
}

#[test]
fn a_buffer_gives_its_parts(rt: HostRuntime) -> Result<(), Fail> {
    let owned = PathBuf::from_text(rt.alloc(), "/tmp/")?;
    assert!(rt; gives_root_and_name(&owned, "tmp"));
    Ok(())
}

// Returns true if `foo` can reserve capacity for 100 more bytes, and then shrink to a smaller
// capacity of at least 5.
fn lends_room(buffer: &mut PathBuf) -> bool {
    buffer.reserve(100).is_ok()
        && buffer.capacity() >= 103
        && buffer.shrink_to(5).is_ok()
        && buffer.capacity() >= 5
        && buffer.capacity() < 103
}

// Returns true if `foo` can reserve capacity for 50 more bytes, and then release some of it.
fn lends_exact_room(buffer: &mut PathBuf) -> bool {
    buffer.reserve_exact(50).is_ok()
        && buffer.capacity() >= 53
        && buffer.shrink_to_fit().is_ok()
        && buffer.capacity() < 53
}

// Returns true if `foo` is pushed to an empty path within its capacity, and shrinking to a greater
// capacity changes nothing.
fn has_room_for_foo(buffer: &mut PathBuf) -> bool {
    let before = buffer.capacity();
    buffer.push(path("foo")).is_ok()
        && buffer.capacity() == before
        && buffer.shrink_to(1000).is_ok()
        && buffer.capacity() == before
        && has_bytes(buffer, "foo")
}

#[test]
fn room_is_made_and_given_back(rt: HostRuntime) -> Result<(), Fail> {
    let mut buffer = PathBuf::with_capacity(rt.alloc(), 10)?;
    let answers = [
        buffer.capacity() >= 10,
        has_room_for_foo(&mut buffer),
        lends_room(&mut buffer),
        lends_exact_room(&mut buffer),
        has_bytes(&buffer, "foo"),
    ];
    drop(buffer);
    assert_each(&rt, &answers);
    Ok(())
}

// Two paths, and how the first compares with the second.
static COMPARISONS: [(&str, &str, Ordering); 9] = [
    ("a/b", "a/./b", Ordering::Equal),
    ("a/b", "a/b/", Ordering::Equal),
    ("a/b", "a/b/.", Ordering::Equal),
    ("a/b", "a//b", Ordering::Equal),
    ("a/b", "./a/b", Ordering::Greater),
    ("a/b", "a/c", Ordering::Less),
    ("a/b", "a/b/../c", Ordering::Less),
    ("a/b", "a.b", Ordering::Less),
    ("./a", "a", Ordering::Less),
];

// Returns true if owned copies of `a` and `b` compare as `order` says.
fn are_ordered(alloc: Global, a: &str, b: &str, order: Ordering) -> Result<bool, AllocError> {
    let first = PathBuf::from_text(alloc, a)?;
    let second = PathBuf::from_text(alloc, b)?;
    let is_equal = (first == second) == order.is_eq();
    Ok(is_equal && first.cmp(&second) == order && (first < second) == order.is_lt())
}

#[test]
fn owned_paths_compare_by_their_parts(rt: HostRuntime) {
    for row in COMPARISONS.iter() {
        let answer = are_ordered(rt.alloc(), row.0, row.1, row.2);
        assert!(rt; matches!(answer, Ok(true)), "{}", row.1);
    }
}
