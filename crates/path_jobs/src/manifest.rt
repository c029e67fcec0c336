//! Normalises two manifests: sorts the canonical forms of each manifest's paths, each form once.
use crate::digest::Digest;
use crate::lines::Lines;
use crate::random::Random;
use crate::tree::{Tree, noise_of, shuffled};
use callers::manifest::normalise;
use path_runs::canonical::canonical;
use std::alloc::{AllocError, Global};
use unix_path::{Path, PathBuf};

// Returns the noise for a path from a random word. For one word in five it changes the path's
// spelling; for the other words it is 0.
fn noise(word: u64) -> u64 {
    if word % 5 == 0 {
        noise_of(word >> 8)
    } else {
        0
    }
}

// Returns the paths of `count` files in the order of a walk over the tree, and then as many paths
// in an order that looks random. One in ten of the latter may be a file of the walk, in another
// spelling. The others are not files of the walk.
fn listing(alloc: Global, tree: Tree<'_>, seed: u64, count: u64) -> Result<Lines, AllocError> {
    let mut random = Random::new(seed);
    let mut lines = Lines::new(alloc);
    for place in 0..count {
        tree.push(lines.buffer(), place << 1 & 0xF_FFFF, noise(random.next()))?;
        lines.end_line()?;
    }
    for place in 0..count {
        let word = random.next();
        let number = shuffled(place, seed);
        if word % 10 == 0 {
            tree.push(lines.buffer(), number, noise_of(word >> 8))?;
        } else {
            tree.push(lines.buffer(), number | 1, noise(word >> 4))?;
        }
        lines.end_line()?;
    }
    Ok(lines)
}

// Adds the canonical form of each path to the digest, in path order and each form once. A set sorts
// the forms.
fn order_set(alloc: Global, paths: &[Path<'_>], digest: &mut Digest) -> Result<(), AllocError> {
    for path in normalise(alloc, paths)?.iter() {
        digest.add_path(path.as_path());
    }
    Ok(())
}

// Adds the canonical form of each path to the digest, in path order and each form once. The forms
// are sorted as a list.
fn order_list(alloc: Global, paths: &[Path<'_>], digest: &mut Digest) -> Result<(), AllocError> {
    let mut list: Vec<PathBuf> = Vec::with_capacity(alloc, paths.len())?;
    for path in paths {
        list.push(canonical(alloc, *path)?)?;
    }
    list.sort()?;
    let mut last = Path::from_bytes(b"");
    for path in list.iter() {
        if path.as_path() != last {
            digest.add_path(path.as_path());
        }
        last = path.as_path();
    }
    Ok(())
}

// Normalises two manifests of twice `count` paths each, one as a set and one as a list. Returns the
// digest of both.
pub(crate) fn run(alloc: Global, seed: u64, count: u64) -> Result<u64, AllocError> {
    let mut digest = Digest::new();
    let packages = listing(alloc, Tree::new("usr/lib/packages", seed), seed, count)?;
    order_set(alloc, &packages.paths(alloc)?, &mut digest)?;
    let other = seed ^ 1 << 40;
    let backup = listing(
        alloc,
        Tree::new("/srv/backup/daily/host", other),
        other,
        count,
    )?;
    order_list(alloc, &backup.paths(alloc)?, &mut digest)?;
    Ok(digest.get())
}
