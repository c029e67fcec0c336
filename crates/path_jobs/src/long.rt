//! Long and awkward paths: hundreds of components, long filler, lists of edits, and invalid UTF-8.
use crate::digest::Digest;
use crate::random::Random;
use path_runs::canonical::canonical;
use path_runs::edits::{ApplyError, apply};
use path_runs::{Answer, Edit};
use std::alloc::{AllocError, Global};
use unix_path::bytes::UnixStr;
use unix_path::json::{JsonError, from_json, to_json};
use unix_path::{Component, Path, PathBuf};

// The number of names of a deep path, which has about 3,800 bytes.
const NAMES: usize = 850;

// The strings that long runs repeat. All are filler except the last two, a name and a `..`.
static IDLE: [&str; 8] = ["/.", "./", "//", "/./", "/", "/./././", "/a", "/.."];

// Names in several scripts. The last four are not valid UTF-8: they have a byte of Latin-1, a
// sequence that is cut short, a surrogate, and the byte FF.
static TEXTS: [&[u8]; 16] = [
    b"plain-name",
    b"na\xC3\xAFve",
    b"\xC3\x9Cbersicht",
    b"\xD1\x84\xD0\xB0\xD0\xB9\xD0\xBB",
    b"\xE6\x96\x87\xE4\xBB\xB6\xE5\xA4\xB9",
    b"\xCE\xBB",
    b"\xF0\x9F\x93\x81",
    b"archive.tar",
    b"\xEF\xBC\x9A",
    b"data",
    b"\xE3\x83\x87\xE3\x83\xBC\xE3\x82\xBF",
    b"old",
    b"caf\xE9",
    b"\xE2\x82",
    b"\xED\xA0\x80",
    b"\xFF",
];

// Sets `bytes` to a path of `NAMES` names of one to six letters. About one name in eight has a `.`
// before it.
pub(crate) fn make_deep(bytes: &mut Vec<u8>, random: &mut Random) -> Result<(), AllocError> {
    bytes.clear();
    for _ in 0..NAMES {
        let word = random.next();
        bytes.extend_from_slice(if word & 7 == 0 { b"/./" } else { b"/" })?;
        let letters = (word >> 8 & 0x0F0F_0F0F_0F0F | 0x6161_6161_6161).to_le_bytes();
        let len = 1 + (word >> 60) as usize % 6;
        bytes.extend_from_slice(letters.get(..len).unwrap_or(&[]))?;
    }
    Ok(())
}

// Sets `bytes` to a path with 16 runs, of about 22,500 bytes in all. On average three runs in four
// are filler.
fn make_filler(bytes: &mut Vec<u8>, random: &mut Random) -> Result<(), AllocError> {
    bytes.clear();
    bytes.extend_from_slice(b"x")?;
    for _ in 0..16 {
        let word = random.next();
        let piece = IDLE[(word & 7) as usize].as_bytes();
        for _ in 0..word >> 8 & 1023 {
            bytes.extend_from_slice(piece)?;
        }
    }
    Ok(())
}

// Sets `bytes` to a path of twelve names, each of which begins with one of `TEXTS`. About one such
// path in 16 is not valid UTF-8.
fn make_text(bytes: &mut Vec<u8>, random: &mut Random) -> Result<(), AllocError> {
    bytes.clear();
    for _ in 0..12 {
        let word = random.next();
        let least = if word & 63 == 0 { 12 } else { 0 };
        let text = TEXTS[((word >> 8) % 12 + least & 15) as usize];
        bytes.extend_from_slice(b"/")?;
        bytes.extend_from_slice(text)?;
        if word >> 32 & 1 == 0 {
            bytes.extend_from_slice(b"_and_plain.text")?;
        }
    }
    Ok(())
}

// Adds the kind of a component to the digest, and the length if the component is a name.
fn add_part(part: Option<Component<'_>>, digest: &mut Digest) {
    digest.add(match part {
        Some(Component::Normal(name)) => 8 | (name.len() as u64) << 4,
        Some(Component::RootDir) => 1,
        Some(Component::CurDir) => 2,
        Some(Component::ParentDir) => 3,
        None => 4,
    });
}

// Walks the path from the front, from the back, and alternately from both ends.
fn walk(path: Path<'_>, digest: &mut Digest) {
    for part in path.components() {
        add_part(Some(part), digest);
    }
    for part in path.components().rev() {
        add_part(Some(part), digest);
    }
    let mut walk = path.components();
    for _ in 0..NAMES {
        let first = walk.next();
        let last = walk.next_back();
        if first.is_none() {
            return;
        }
        add_part(first, digest);
        add_part(last, digest);
    }
}

// Compares the path with its canonical form, and with a path that has one component more.
fn compare(alloc: Global, path: Path<'_>, digest: &mut Digest) -> Result<(), AllocError> {
    let mut other = canonical(alloc, path)?;
    digest.add_path(other.as_path());
    digest.add_flag(other.as_path() == path);
    digest.add_flag(path.starts_with(other.as_path()));
    other.push(Path::from_text("zz"))?;
    digest.add_flag(path < other.as_path());
    digest.add_flag(other.as_path() == path);
    if let Ok(rest) = other.as_path().strip_prefix(path) {
        digest.add_path(rest);
    }
    Ok(())
}

// Returns the edit for a random word. Five words in sixteen are for a pop.
fn edit_of(word: u64) -> Edit<'static> {
    match word & 15 {
        0..=4 => Edit::Pop,
        5 | 6 => Edit::SetExtension(UnixStr::new("tmp")),
        7 => Edit::AddExtension(UnixStr::new("gz")),
        8 | 9 => Edit::SetFileName(UnixStr::new("renamed.txt")),
        10 => Edit::Push(Path::from_text("./inner//folder")),
        11 => Edit::Push(Path::from_text("..")),
        12 => Edit::SetExtension(UnixStr::new("")),
        _ => Edit::Push(Path::from_text("name.orig")),
    }
}

// Applies ten thousand edits to a copy of the path.
fn edit(
    alloc: Global,
    path: Path<'_>,
    random: &mut Random,
    digest: &mut Digest,
) -> Result<(), AllocError> {
    let mut edits = Vec::with_capacity(alloc, 10_000)?;
    for _ in 0..10_000 {
        edits.push(edit_of(random.next()))?;
    }
    let mut edited = path.to_path_buf(alloc)?;
    match apply(alloc, &mut edited, &edits) {
        Ok(answers) => {
            for answer in answers.iter() {
                digest.add_flag(*answer == Answer::Flag(true));
            }
        }
        Err(ApplyError { done }) => digest.add(done as u64),
    }
    digest.add_path(edited.as_path());
    Ok(())
}

// Displays the path and converts it lossily to a string. If it is valid UTF-8, also writes it as
// JSON and reads it back.
fn show(alloc: Global, path: Path<'_>, digest: &mut Digest) -> Result<(), AllocError> {
    digest.add_bytes(path.to_string_lossy(alloc)?.as_str().as_bytes());
    digest.add_bytes(format!(in alloc; "{}", path.display())?.as_bytes());
    match to_json(alloc, path) {
        Ok(value) => match from_json(alloc, &value) {
            Ok(read) => digest.add_path(read.as_path()),
            Err(JsonError::Memory(error)) => return Err(error),
            Err(_) => digest.add(5),
        },
        Err(JsonError::Memory(error)) => return Err(error),
        Err(_) => digest.add(6),
    }
    Ok(())
}

// Walks and compares `count` deep paths. For each of them, shows twenty paths with names in several
// scripts. For one deep path in 32, also applies a list of edits to the path, and walks and
// compares a path with long runs of filler.
pub(crate) fn run(alloc: Global, seed: u64, count: u64) -> Result<u64, AllocError> {
    let mut digest = Digest::new();
    let mut random = Random::new(seed);
    let mut bytes = Vec::new(alloc);
    for place in 0..count {
        make_deep(&mut bytes, &mut random)?;
        walk(Path::from_bytes(&bytes), &mut digest);
        compare(alloc, Path::from_bytes(&bytes), &mut digest)?;
        if place % 32 == 0 {
            edit(alloc, Path::from_bytes(&bytes), &mut random, &mut digest)?;
            make_filler(&mut bytes, &mut random)?;
            walk(Path::from_bytes(&bytes), &mut digest);
            compare(alloc, Path::from_bytes(&bytes), &mut digest)?;
        }
        for _ in 0..20 {
            make_text(&mut bytes, &mut random)?;
            show(alloc, Path::from_bytes(&bytes), &mut digest)?;
        }
    }
    Ok(digest.get())
}
