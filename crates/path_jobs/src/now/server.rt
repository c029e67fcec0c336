//! Joins requests below roots, like a server. Each root is created once and each request is checked
//! once. The joins are written to one buffer, which is reused.
use crate::digest::Digest;
use crate::random::Random;
use crate::requests::{ROOTS, push_request};
use crate::tree::Tree;
use path_within::{Request, RequestError, Root};
use std::alloc::{AllocError, Global};
use unix_path::{Path, PathBuf};

// The roots of the job `requests`: each of them once resolved, and once verbatim.
#[derive(Drop)]
struct Roots {
    resolved: Vec<Root>,
    kept: Vec<Root>,
}

impl Roots {
    fn new(alloc: Global) -> Result<Roots, AllocError> {
        let mut resolved = Vec::with_capacity(alloc, ROOTS.len())?;
        let mut kept = Vec::with_capacity(alloc, ROOTS.len())?;
        for root in ROOTS.iter() {
            resolved.push(Root::new(alloc, Path::from_text(root))?)?;
            kept.push(Root::verbatim(alloc, Path::from_text(root))?)?;
        }
        Ok(Roots { resolved, kept })
    }
}

// Adds to the digest the join below a resolved root, and the rest of the join after the root.
fn answer(
    root: &Root,
    file: &mut PathBuf,
    request: Request<'_>,
    digest: &mut Digest,
) -> Result<(), AllocError> {
    root.join_into(file, request)?;
    digest.add_path(file.as_path());
    if let Ok(rest) = file.as_path().strip_prefix(root.as_path()) {
        digest.add_path(rest);
    }
    Ok(())
}

// Adds to the digest the results for a request: its joins below three resolved roots, and below one
// verbatim root.
fn answer_all(
    roots: &Roots,
    file: &mut PathBuf,
    request: Request<'_>,
    place: u64,
    digest: &mut Digest,
) -> Result<(), AllocError> {
    for turn in 0..3 {
        if let Some(root) = roots.resolved.get((place.wrapping_add(turn) & 7) as usize) {
            answer(root, file, request, digest)?;
        }
    }
    if let Some(root) = roots.kept.get((place.wrapping_add(3) & 7) as usize) {
        root.join_into(file, request)?;
        digest.add_path(file.as_path());
    }
    Ok(())
}

// Returns the number that represents the error in the digest.
fn number_of(error: RequestError) -> u64 {
    match error {
        RequestError::Rooted => 1,
        RequestError::Escapes => 2,
        RequestError::Nul => 3,
    }
}

// Returns the digest of the results for the requests that the job `requests` has with the same seed
// and count. Each is joined below the same roots as there.
pub(crate) fn run(alloc: Global, seed: u64, count: u64) -> Result<u64, AllocError> {
    let mut digest = Digest::new();
    let mut random = Random::new(seed);
    let tree = Tree::new("", seed);
    let roots = Roots::new(alloc)?;
    let mut file = PathBuf::new(alloc);
    let mut bytes = Vec::new(alloc);
    for place in 0..count {
        bytes.clear();
        push_request(&mut bytes, tree, &mut random, place)?;
        match Request::beneath(Path::from_bytes(&bytes)) {
            Ok(request) => answer_all(&roots, &mut file, request, place, &mut digest)?,
            Err(error) => digest.add(number_of(error)),
        }
    }
    Ok(digest.get())
}
