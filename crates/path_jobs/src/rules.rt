//! Matches a build's rules against its sources.
use crate::digest::Digest;
use crate::lines::Lines;
use crate::random::Random;
use crate::tree::{Tree, noise_of};
use std::alloc::{AllocError, Global};
use unix_path::bytes::UnixStr;
use unix_path::{ExtensionError, Path, PathBuf};

const BASES: u64 = 40;

const SUFFIXES: u64 = 20;

// Returns the directories for which there are rules. One in four is in another spelling than the
// paths of the sources.
fn bases(alloc: Global, tree: Tree<'_>, random: &mut Random) -> Result<Vec<PathBuf>, AllocError> {
    let mut bases = Vec::new(alloc);
    let mut bytes = Vec::new(alloc);
    for place in 0..BASES {
        let word = random.next();
        let noise = if place % 4 == 0 { noise_of(word) } else { 0 };
        bytes.clear();
        tree.push(&mut bytes, word >> 40 & 0xF_FFFF, noise)?;
        let mut base = PathBuf::from_unix_str(alloc, UnixStr::from_bytes(&bytes))?;
        for _ in 0..1 + place % 5 {
            base.pop();
        }
        bases.push(base)?;
    }
    Ok(bases)
}

// Returns the suffixes of paths for which there are rules: the names of files, every second one
// with the name of its directory before it.
fn suffixes(alloc: Global, tree: Tree<'_>, random: &mut Random) -> Result<Lines, AllocError> {
    let mut suffixes = Lines::new(alloc);
    for place in 0..SUFFIXES {
        let word = random.next();
        let mut bytes = Vec::new(alloc);
        tree.push(&mut bytes, word >> 40 & 0xF_FFFF, 0)?;
        let path = Path::from_bytes(&bytes);
        let folder = path.parent().and_then(|folder| folder.file_name());
        if place % 2 == 0 {
            if let Some(name) = folder {
                suffixes.buffer().extend_from_slice(name.as_bytes())?;
                suffixes.buffer().push(b'/')?;
            }
        }
        if let Some(name) = path.file_name() {
            suffixes.buffer().extend_from_slice(name.as_bytes())?;
        }
        suffixes.end_line()?;
    }
    Ok(suffixes)
}

// Adds the file name of a source to the digest, and its stem, extension and file prefix.
fn add_names(source: Path<'_>, digest: &mut Digest) {
    digest.add_text(source.file_name());
    digest.add_text(source.file_stem());
    digest.add_text(source.extension());
    digest.add_text(source.file_prefix());
}

// Returns the last base in the list that the source starts with, or `None` if there is none.
fn base_of<'a>(source: Path<'_>, bases: &[Path<'a>]) -> Option<Path<'a>> {
    let mut found = None;
    for base in bases {
        if source.starts_with(*base) {
            found = Some(*base);
        }
    }
    found
}

// Returns the number of suffixes that the source ends with.
fn suffix_count(source: Path<'_>, suffixes: &[Path<'_>]) -> u64 {
    let mut count = 0_u64;
    for suffix in suffixes {
        count = count.wrapping_add(u64::from(source.ends_with(*suffix)));
    }
    count
}

// Returns the path of a source's output: the rest of the source after the base, below another
// directory and with another extension.
fn output_of(alloc: Global, source: Path<'_>, base: Path<'_>) -> Result<PathBuf, ExtensionError> {
    let folder = Path::from_text("/work/out/debug/objects");
    let rest = match source.strip_prefix(base) {
        Ok(rest) => rest,
        Err(_) => source,
    };
    let object = folder.join(alloc, rest)?;
    object.as_path().with_extension(alloc, UnixStr::new("o"))
}

// Returns the path of the list of a source's dependencies, in the source's directory.
fn list_of(alloc: Global, source: Path<'_>) -> Result<PathBuf, ExtensionError> {
    let mut list = source.with_file_name(alloc, UnixStr::new("depends"))?;
    list.add_extension(UnixStr::new("d"))?;
    Ok(list)
}

// Adds to the digest the paths that a build creates for a source: the path of its output, if the
// source has a base, and the path of the list of its dependencies.
fn add_outputs(
    alloc: Global,
    source: Path<'_>,
    base: Option<Path<'_>>,
    digest: &mut Digest,
) -> Result<(), ExtensionError> {
    if let Some(base) = base {
        digest.add_path(output_of(alloc, source, base)?.as_path());
    }
    digest.add_path(list_of(alloc, source)?.as_path());
    Ok(())
}

// Adds to the digest the length of each ancestor of the source, and `common_dir` of the source and
// the source before it.
fn add_place(source: Path<'_>, before: Path<'_>, digest: &mut Digest) {
    for folder in source.ancestors() {
        digest.add(folder.as_unix_str().len() as u64);
    }
    digest.add(source.common_dir(before) as u64);
}

// Returns the digest of `count` sources, each matched against the rules.
pub(crate) fn run(alloc: Global, seed: u64, count: u64) -> Result<u64, AllocError> {
    let mut digest = Digest::new();
    let mut random = Random::new(seed);
    let tree = Tree::new("/work/checkout/sources", seed);
    let owned = bases(alloc, tree, &mut random)?;
    let bases: Vec<Path<'_>> = owned.iter().map(|base| base.as_path()).collect(alloc)?;
    let lines = suffixes(alloc, tree, &mut random)?;
    let suffixes = lines.paths(alloc)?;
    let mut before = Vec::new(alloc);
    let mut bytes = Vec::new(alloc);
    for place in 0..count {
        bytes.clear();
        tree.push(&mut bytes, place & 0xF_FFFF, 0)?;
        let source = Path::from_bytes(&bytes);
        let base = base_of(source, &bases);
        digest.add(suffix_count(source, &suffixes));
        add_names(source, &mut digest);
        add_place(source, Path::from_bytes(&before), &mut digest);
        match add_outputs(alloc, source, base, &mut digest) {
            Ok(()) => {}
            Err(ExtensionError::Separator) => digest.add(2),
            Err(ExtensionError::Memory(error)) => return Err(error),
        }
        before.clear();
        before.extend_from_slice(&bytes)?;
    }
    Ok(digest.get())
}
