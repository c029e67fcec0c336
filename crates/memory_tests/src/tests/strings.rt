//! Byte strings while allocations fail.
use super::{exhaust, fails, is_borrowed, succeeds};
use std::alloc::{AllocError, Global};
use std::test::Fail;
use unix_bytes::bytes::{UnixStr, UnixString};

// Returns true if pushes to `foo` that fit its capacity, and other calls that need no more, succeed
// and leave the capacity unchanged.
fn fits_pushes(text: &mut UnixString) -> bool {
    let capacity = text.capacity();
    text.push(UnixStr::new("/a")).is_ok()
        && text.push(UnixStr::new("/bc")).is_ok()
        && text.push(UnixStr::new("/")).is_ok()
        && text.as_unix_str() == UnixStr::new("foo/a/bc/")
        && text.capacity() == capacity
        && text.shrink_to(capacity).is_ok()
        && text.reserve(0).is_ok()
        && text.reserve_exact(0).is_ok()
}

#[test]
fn within_the_room_a_push_does_not_allocate(rt: HostRuntime) -> Result<(), Fail> {
    let alloc = rt.alloc();
    let mut text = UnixStr::new("foo").to_unix_string(alloc)?;
    let has_room = text.reserve(6).is_ok();
    let _exhausted = exhaust(alloc)?;
    assert!(rt; has_room && fits_pushes(&mut text));
    Ok(())
}

// Returns true if each call that would make `foo` longer fails, and leaves `foo` unchanged.
fn refuses_growth(text: &mut UnixString, long: UnixStr<'_>) -> bool {
    let foo = UnixStr::new("foo");
    text.push(long).is_err()
        && text.as_unix_str() == foo
        && text.reserve(4096).is_err()
        && text.as_unix_str() == foo
        && text.reserve_exact(4096).is_err()
        && text.as_unix_str() == foo
}

fn refuses_copies(alloc: Global, text: &UnixString, long: UnixStr<'_>) -> bool {
    fails(text.clone())
        && fails(long.to_unix_string(alloc))
        && fails(UnixString::with_capacity(alloc, 4096))
        && fails(UnixStr::from_bytes(b"a\xff").to_string_lossy(alloc))
}

#[test]
fn a_failed_push_keeps_the_bytes(rt: HostRuntime) -> Result<(), Fail> {
    let alloc = rt.alloc();
    let long = [b'x'; 4096];
    let long = UnixStr::from_bytes(long.as_slice());
    let mut text = UnixStr::new("foo").to_unix_string(alloc)?;
    let exhausted = exhaust(alloc)?;
    assert!(rt; refuses_growth(&mut text, long) && refuses_copies(alloc, &text, long));
    drop(exhausted);
    assert!(rt; text.push(long).is_ok() && text.as_unix_str().len() == 4099);
    Ok(())
}

// Returns true if reserving more bytes than a string can have is an error, and the string is still
// `foo`.
fn refuses_all_memory(text: &mut UnixString) -> bool {
    text.reserve(usize::MAX).is_err()
        && text.reserve_exact(usize::MAX).is_err()
        && text.as_unix_str() == UnixStr::new("foo")
}

#[test]
fn a_string_longer_than_memory_is_an_error(rt: HostRuntime) -> Result<(), Fail> {
    let alloc = rt.alloc();
    let mut text = UnixStr::new("foo").to_unix_string(alloc)?;
    assert!(rt;
        refuses_all_memory(&mut text) && fails(UnixString::with_capacity(alloc, usize::MAX))
    );
    Ok(())
}

fn makes_empty_strings(alloc: Global) -> bool {
    let is_empty = UnixString::new(alloc).as_unix_str().is_empty();
    is_empty && succeeds(UnixString::with_capacity(alloc, 0))
}

// Returns true if a `UnixString` of the bytes 1 and 2 has these bytes, and returns them as a
// vector.
fn gives_back(bytes: Vec<u8>) -> bool {
    let text = UnixString::from(bytes);
    let has_bytes = text.as_unix_str().as_bytes() == [1u8, 2].as_slice();
    let bytes = text.into_bytes();
    has_bytes && bytes.as_slice() == [1u8, 2].as_slice()
}

fn becomes(word: String, text: &UnixString) -> bool {
    let made = UnixString::from(word);
    made == *text
}

// Returns true if `foo` is cut to its first byte, and then to no bytes.
fn is_cut(text: &mut UnixString) -> bool {
    text.truncate(1);
    let is_first = text.as_unix_str() == UnixStr::new("f");
    text.clear();
    is_first && text.as_unix_str().is_empty()
}

#[test]
fn promised_calls_of_strings_do_not_allocate(rt: HostRuntime) -> Result<(), Fail> {
    let alloc = rt.alloc();
    let foo = UnixStr::new("foo");
    let bytes = [1u8, 2].to_vec(alloc)?;
    let word = String::from_str(alloc, "foo")?;
    let mut text = foo.to_unix_string(alloc)?;
    let _exhausted = exhaust(alloc)?;
    let is_given_back = gives_back(bytes);
    let is_word = becomes(word, &text);
    assert!(rt; is_given_back && is_word && is_cut(&mut text));
    assert!(rt; makes_empty_strings(alloc) && is_borrowed(foo.to_string_lossy(alloc), "foo"));
    Ok(())
}

// Returns true if an empty string with a capacity of 10 grows and shrinks as requested, and is
// `foobar` at the end.
fn grows_and_shrinks(text: &mut UnixString) -> bool {
    text.capacity() >= 10
        && text.push(UnixStr::new("foo")).is_ok()
        && text.reserve(100).is_ok()
        && text.capacity() >= 103
        && text.shrink_to(5).is_ok()
        && (5..103).contains(&text.capacity())
        && text.reserve_exact(50).is_ok()
        && text.capacity() >= 53
        && text.shrink_to_fit().is_ok()
        && text.capacity() < 53
        && text.push(UnixStr::new("bar")).is_ok()
        && text.as_unix_str() == UnixStr::new("foobar")
}

// Returns true if a copy of `foobar` equals the original, and is less once the original is longer.
fn is_copied(alloc: Global, text: &mut UnixString) -> Result<bool, AllocError> {
    let copy = text.clone()?;
    let is_equal = copy == *text;
    text.push(UnixStr::new("!"))?;
    let is_less = copy < *text;
    let shown = format!(in alloc; "{copy:?}")?;
    Ok(is_equal && is_less && shown.as_str() == "\"foobar\"")
}

#[test]
fn with_ample_memory_strings_grow_and_shrink(rt: HostRuntime) -> Result<(), Fail> {
    let alloc = rt.alloc();
    let mut text = UnixString::with_capacity(alloc, 10)?;
    assert!(rt; grows_and_shrinks(&mut text));
    assert!(rt; is_copied(alloc, &mut text)?);
    Ok(())
}
