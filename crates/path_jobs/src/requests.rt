//! Resolves requests under a root, as servers and sandboxes do.
use crate::digest::Digest;
use crate::now::{escapes, joined_verbatim, joined_within, relative_path};
use crate::random::Random;
use crate::tree::{Tree, noise_of, push_tag};
use path_within::resolved::resolved;
use std::alloc::{AllocError, Global};
use unix_path::Path;

pub(crate) static ROOTS: [&str; 8] = [
    "/srv/www/site/public",
    "/var/lib/tenant/7f/files",
    "/home/build/sandbox/work",
    "data/uploads",
    "/srv/../srv/static//assets",
    "/opt/app/share",
    "./public",
    "/",
];

// Hidden directories. Some requests begin with one of them.
static HIDDEN: [&str; 4] = [".well-known/acme", ".git/objects", ".config/app", ".cache"];

// Strings that some requests begin with: they have a `..`, a `.` or a root, and some of them
// escape.
static UPS: [&str; 8] = [
    "../",
    "a/../../",
    "a/b/../../c/../../",
    "..",
    "/",
    "a/../",
    "./..x/",
    "./",
];

// Appends a request of a hostile client: a tag, and then two names and up to 127 `..`, or 64 to 120
// random bytes.
fn push_hostile(out: &mut Vec<u8>, random: &mut Random, place: u64) -> Result<(), AllocError> {
    let word = random.next();
    push_tag(out, place)?;
    if word & 1 == 0 {
        out.extend_from_slice(b"/b/c")?;
        for _ in 0..word >> 8 & 127 {
            out.extend_from_slice(b"/..")?;
        }
        return Ok(());
    }
    for _ in 0..8 + (word >> 8 & 7) {
        out.extend_from_slice(&random.next().to_le_bytes())?;
    }
    Ok(())
}

// Appends a request. Most are plain paths, some of which begin with a hidden name. One in ten has
// `.`, `..` or `//`, a few escape, and a few are hostile. No two requests are the same, because
// each has a tag made from `place`. Inlined into the loop of each job that generates requests.
#[inline(always)]
pub(crate) fn push_request(
    out: &mut Vec<u8>,
    tree: Tree<'_>,
    random: &mut Random,
    place: u64,
) -> Result<(), AllocError> {
    let word = random.next();
    let number = word >> 24;
    let mut noise = 0;
    match word & 63 {
        0 => return push_hostile(out, random, place),
        1..=3 => {
            out.extend_from_slice(UPS[(word >> 8 & 7) as usize].as_bytes())?;
            tree.push_first(out, number)?;
        }
        4..=9 => {
            tree.push_first(out, number)?;
            noise = noise_of(word >> 8);
        }
        10 | 11 => {
            tree.push_first(out, number)?;
            out.extend_from_slice(b"/../")?;
            tree.push_first(out, number ^ 1 << 20)?;
        }
        12..=17 => out.extend_from_slice(HIDDEN[(word >> 8 & 3) as usize].as_bytes())?,
        _ => tree.push_first(out, number)?,
    }
    tree.push_short(out, number, noise, place)
}

// Adds the result for a request to the digest: the join within the root and, if the join starts
// with `root`, the rest of the join after `root`; or 0 if the request escapes.
fn answer(
    alloc: Global,
    root: Path<'_>,
    request: Path<'_>,
    digest: &mut Digest,
) -> Result<(), AllocError> {
    match joined_within(alloc, root, request)? {
        Some(path) => {
            digest.add_path(path.as_path());
            if let Ok(rest) = path.as_path().strip_prefix(root) {
                digest.add_path(rest);
            }
        }
        None => digest.add(0),
    }
    Ok(())
}

// Adds to the digest whether the request escapes, and then its verbatim join, or 0 if the request
// is rejected because it has a root, a `..` or a NUL byte.
fn answer_verbatim_join(
    alloc: Global,
    root: Path<'_>,
    request: Path<'_>,
    digest: &mut Digest,
) -> Result<(), AllocError> {
    digest.add_flag(escapes(request));
    match joined_verbatim(alloc, root, request)? {
        Some(path) => digest.add_path(path.as_path()),
        None => digest.add(0),
    }
    Ok(())
}

// Adds to the digest the results for a request as a link on a page: the resolved request, and the
// relative path from the page to the request, or 1 if there is none.
fn answer_link(
    alloc: Global,
    page: Path<'_>,
    request: Path<'_>,
    digest: &mut Digest,
) -> Result<(), AllocError> {
    digest.add_path(resolved(alloc, request)?.as_path());
    match relative_path(alloc, page, request)? {
        Some(path) => digest.add_path(path.as_path()),
        None => digest.add(1),
    }
    Ok(())
}

// Returns the digest of the results for `count` requests. Each is joined within three roots, and
// verbatim with one more. Each is also a link on a page, whose path is the request before it.
pub(crate) fn run(alloc: Global, seed: u64, count: u64) -> Result<u64, AllocError> {
    let mut digest = Digest::new();
    let mut random = Random::new(seed);
    let tree = Tree::new("", seed);
    let mut page = Vec::new(alloc);
    let mut request = Vec::new(alloc);
    for place in 0..count {
        request.clear();
        push_request(&mut request, tree, &mut random, place)?;
        let asked = Path::from_bytes(&request);
        for turn in 0..3 {
            let root = Path::from_text(ROOTS[(place.wrapping_add(turn) & 7) as usize]);
            answer(alloc, root, asked, &mut digest)?;
        }
        let root = Path::from_text(ROOTS[(place.wrapping_add(3) & 7) as usize]);
        answer_verbatim_join(alloc, root, asked, &mut digest)?;
        answer_link(alloc, Path::from_bytes(&page), asked, &mut digest)?;
        page.clear();
        page.extend_from_slice(&request)?;
    }
    Ok(digest.get())
}
