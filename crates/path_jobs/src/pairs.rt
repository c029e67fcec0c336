//! Compares and matches paths with paths similar to them, and walks the similar ones. Each result
//! is added to the digest.
use crate::digest::Digest;
use crate::long::make_deep;
use crate::random::Random;
use crate::requests::push_request;
use crate::tree::{Tree, noise_of, separator};
use std::alloc::{AllocError, Global};
use std::cmp::Ordering;
use unix_path::{Component, Path};

// The bytes by which a byte of a path is replaced.
static BYTES: [u8; 4] = [b'/', b'.', b'b', 0xFF];

// Appends the path, with each slash replaced by a separator. Three bits of the noise select each
// separator, beginning with the lowest three.
fn push_respelled(out: &mut Vec<u8>, path: &[u8], noise: u64) -> Result<(), AllocError> {
    let mut noise = noise;
    for byte in path {
        if *byte == b'/' {
            out.extend_from_slice(separator(noise).as_bytes())?;
            noise = noise.rotate_right(3);
        } else {
            out.push(*byte)?;
        }
    }
    Ok(())
}

// Returns the path or a part of it, which `word` selects: the bytes before index `place`, the bytes
// from index `place` on, the path's parent, or its file name. Returns the path if it has no such
// part.
fn part_of(path: &[u8], place: usize, word: u64) -> &[u8] {
    let part = match word & 7 {
        0 => path.get(..place),
        1 => path.get(place..),
        2 => Path::from_bytes(path)
            .parent()
            .map(|folder| folder.as_unix_str().as_bytes()),
        3 => Path::from_bytes(path)
            .file_name()
            .map(|name| name.as_bytes()),
        _ => None,
    };
    part.unwrap_or(path)
}

// Sets `near` to a path similar to `path`: all or a part of it, half of the time in another
// spelling, sometimes with one byte replaced, and sometimes with more bytes at the end.
fn make_near(near: &mut Vec<u8>, path: &[u8], word: u64) -> Result<(), AllocError> {
    let place = (word >> 32) as usize % (path.len() + 1);
    let noise = if word & 1 == 0 {
        noise_of(word >> 8)
    } else {
        0
    };
    near.clear();
    push_respelled(near, part_of(path, place, word >> 1), noise)?;
    match word >> 4 & 7 {
        0 => {
            if let Some(byte) = near.get_mut(place) {
                *byte = BYTES[(word >> 7 & 3) as usize];
            }
        }
        1 => near.extend_from_slice(b"/x")?,
        2 => near.push(b'x')?,
        _ => {}
    }
    Ok(())
}

// Adds to the digest whether two paths are equal, and then their order.
fn compare(first: Path<'_>, second: Path<'_>, digest: &mut Digest) {
    digest.add_flag(first == second);
    digest.add(match first.cmp(&second) {
        Ordering::Less => 2,
        Ordering::Equal => 3,
        Ordering::Greater => 4,
    });
}

// Adds to the digest whether `path` starts with `other`, whether it ends with `other`, and the rest
// of `path` after `other`, or 2 if `path` doesn't start with `other`.
fn match_ends(path: Path<'_>, other: Path<'_>, digest: &mut Digest) {
    digest.add_flag(path.starts_with(other));
    digest.add_flag(path.ends_with(other));
    match path.strip_prefix(other) {
        Ok(rest) => digest.add_path(rest),
        Err(_) => digest.add(2),
    }
}

// Adds the kind and the bytes of a component to the digest.
fn add_part(part: Component<'_>, digest: &mut Digest) {
    digest.add(match part {
        Component::RootDir => 1,
        Component::CurDir => 2,
        Component::ParentDir => 3,
        Component::Normal(_) => 4,
    });
    digest.add_path(part.as_path());
}

// Walks the path from both ends, for at most 64 steps. Each bit of `turns` selects the end for one
// step, beginning with the lowest bit. Adds to the digest, for each step, the component that it
// takes and the rest of the path.
fn walk(path: Path<'_>, turns: u64, digest: &mut Digest) {
    let mut walk = path.components();
    let mut turns = turns;
    for _ in 0..64 {
        let part = if turns & 1 == 0 {
            walk.next()
        } else {
            walk.next_back()
        };
        let Some(part) = part else {
            return;
        };
        turns = turns.rotate_right(1);
        add_part(part, digest);
        digest.add_path(walk.as_path());
    }
}

// Adds to the digest the results for a path and a similar one.
fn answer(
    path: &[u8],
    near: &mut Vec<u8>,
    random: &mut Random,
    digest: &mut Digest,
) -> Result<(), AllocError> {
    make_near(near, path, random.next())?;
    let (path, other) = (Path::from_bytes(path), Path::from_bytes(near));
    compare(path, other, digest);
    match_ends(path, other, digest);
    match_ends(other, path, digest);
    walk(other, random.next(), digest);
    Ok(())
}

// Returns the digest of the results for `count` paths, alternately files of a tree and requests.
// After one path in 64 come the results for a deep path.
pub(crate) fn run(alloc: Global, seed: u64, count: u64) -> Result<u64, AllocError> {
    let mut digest = Digest::new();
    let mut random = Random::new(seed);
    let files = Tree::new("/srv/../work/sources", seed);
    let requests = Tree::new("", seed);
    let mut bytes = Vec::new(alloc);
    let mut near = Vec::new(alloc);
    for place in 0..count {
        bytes.clear();
        if place & 1 == 0 {
            files.push(&mut bytes, random.next() & 0xF_FFFF, 0)?;
        } else {
            push_request(&mut bytes, requests, &mut random, place)?;
        }
        answer(&bytes, &mut near, &mut random, &mut digest)?;
        if place & 63 == 0 {
            make_deep(&mut bytes, &mut random)?;
            answer(&bytes, &mut near, &mut random, &mut digest)?;
        }
    }
    Ok(digest.get())
}
