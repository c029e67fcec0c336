//! Compares random lists of edits with the `PathBuf` methods of the same names, and with the `Path`
//! methods that return an edited copy.
use path_runs::edits::{Answer, Edit, apply};
use std::alloc::{AllocError, Global};
use std::test::Fail;
use test_inputs::Random;
use unix_path::bytes::UnixStr;
use unix_path::{ExtensionError, Path, PathBuf};

const LISTS: u32 = 2_000;

const EXTENSIONS: u32 = 10_000;

// Edits that leave filler, `..`, and names with and without dots. Some of the names have 64 bytes
// or more.
static EDITS: [Edit<'static>; 32] = [
    Edit::Push(Path { bytes: b"" }),
    Edit::Push(Path { bytes: b"." }),
    Edit::Push(Path { bytes: b".." }),
    Edit::Push(Path { bytes: b"/" }),
    Edit::Push(Path { bytes: b"//./" }),
    Edit::Push(Path { bytes: b"b" }),
    Edit::Push(Path { bytes: b"b/c.d" }),
    Edit::Push(Path { bytes: b"./e/." }),
    Edit::Push(Path {
        bytes: b"0123456789abcdef0123456789abcdef0123456789abcdef0123456789abcdef012345",
    }),
    Edit::Push(Path {
        bytes: b"0123456789abcdef0123456789abcdef0123456789abcdef0123456789abcdef01.ffffffffff",
    }),
    Edit::Push(Path {
        bytes: b".0123456789abcdef0123456789abcdef0123456789abcdef0123456789abcdef012345",
    }),
    Edit::Push(Path {
        bytes: b"a/0123456789abcdef0123456789abcdef0123456789abcdef0123456789abcdef012345/.",
    }),
    Edit::Push(Path { bytes: b"g" }),
    Edit::SetFileName(UnixStr { bytes: b"" }),
    Edit::SetFileName(UnixStr { bytes: b"." }),
    Edit::SetFileName(UnixStr { bytes: b"x" }),
    Edit::SetFileName(UnixStr { bytes: b"/x" }),
    Edit::SetFileName(UnixStr { bytes: b".." }),
    Edit::SetFileName(UnixStr {
        bytes: b"0123456789abcdef0123456789abcdef0123456789abcdef0123456789abcdef012345",
    }),
    Edit::SetFileName(UnixStr { bytes: b"y.z" }),
    Edit::SetExtension(UnixStr { bytes: b"" }),
    Edit::SetExtension(UnixStr { bytes: b"x" }),
    Edit::SetExtension(UnixStr { bytes: b"." }),
    Edit::SetExtension(UnixStr { bytes: b"x/y" }),
    Edit::AddExtension(UnixStr { bytes: b"" }),
    Edit::AddExtension(UnixStr { bytes: b"y" }),
    Edit::AddExtension(UnixStr { bytes: b"." }),
    Edit::SetExtension(UnixStr { bytes: b"" }),
    Edit::Pop,
    Edit::Pop,
    Edit::Pop,
    Edit::Clear,
];

// Returns at most 40 random edits.
fn edits_from(alloc: Global, random: &mut Random) -> Result<Vec<Edit<'static>>, AllocError> {
    let mut edits = Vec::new(alloc);
    for _ in 0..random.next() % 41 {
        edits.push(EDITS[(random.next() & 31) as usize])?;
    }
    Ok(edits)
}

fn extension_answer(edited: Result<bool, ExtensionError>) -> Option<Answer> {
    match edited {
        Ok(is_made) => Some(Answer::Flag(is_made)),
        Err(ExtensionError::Separator) => Some(Answer::Separator),
        Err(ExtensionError::Memory(_)) => None,
    }
}

fn plain_answer(edited: Result<(), AllocError>) -> Option<Answer> {
    match edited {
        Ok(()) => Some(Answer::Plain),
        Err(AllocError) => None,
    }
}

// Calls the method with the edit's name, and returns the method's result as an answer, or `None` if
// an allocation fails.
fn call_method(path: &mut PathBuf, edit: &Edit<'_>) -> Option<Answer> {
    match edit {
        Edit::Push(other) => plain_answer(path.push(*other)),
        Edit::Pop => Some(Answer::Flag(path.pop())),
        Edit::SetFileName(name) => plain_answer(path.set_file_name(*name)),
        Edit::SetExtension(extension) => extension_answer(path.set_extension(*extension)),
        Edit::AddExtension(extension) => extension_answer(path.add_extension(*extension)),
        Edit::Clear => {
            path.clear();
            Some(Answer::Plain)
        }
    }
}

// Calls the method that returns a copy with the edit made, and returns its result, or `None` if
// there is no such method.
fn edited_copy(
    alloc: Global,
    path: Path<'_>,
    edit: &Edit<'_>,
) -> Option<Result<PathBuf, ExtensionError>> {
    match edit {
        Edit::Push(other) => Some(path.join(alloc, *other).map_err(ExtensionError::Memory)),
        Edit::SetFileName(name) => {
            Some(
                path.with_file_name(alloc, *name)
                    .map_err(ExtensionError::Memory),
            )
        }
        Edit::SetExtension(extension) => Some(path.with_extension(alloc, *extension)),
        Edit::AddExtension(extension) => Some(path.with_added_extension(alloc, *extension)),
        Edit::Pop | Edit::Clear => None,
    }
}

// Returns true if `copied` has the bytes of `edited`, or if the method rejected the extension and
// the answer is `Separator`. If there is no such method, returns true.
fn copy_matches(
    copied: Option<Result<PathBuf, ExtensionError>>,
    edited: Path<'_>,
    answer: Option<&Answer>,
) -> bool {
    let is_refused = answer == Some(&Answer::Separator);
    match copied {
        Some(Ok(copy)) => !is_refused && copy.as_path().bytes == edited.bytes,
        Some(Err(ExtensionError::Separator)) => is_refused,
        Some(Err(ExtensionError::Memory(_))) => false,
        None => true,
    }
}

// Makes the edits by calls of methods. Returns true if each edit's answer is the result of its
// method, and the edited path has the bytes of the edited copy.
fn answers_match(
    alloc: Global,
    path: &mut PathBuf,
    edits: &[Edit<'_>],
    answers: &[Answer],
) -> bool {
    for (index, edit) in edits.iter().enumerate() {
        let copied = edited_copy(alloc, path.as_path(), edit);
        let answer = answers.get(index);
        if call_method(path, edit).as_ref() != answer
            || !copy_matches(copied, path.as_path(), answer)
        {
            return false;
        }
    }
    edits.len() == answers.len()
}

// Returns true if applying the list leaves the same bytes and returns the same answers as calling
// the methods.
fn list_matches_methods(
    alloc: Global,
    start: &[u8],
    edits: &[Edit<'_>],
) -> Result<bool, AllocError> {
    let mut path = PathBuf::from_unix_str(alloc, UnixStr::from_bytes(start))?;
    let mut one_by_one = path.clone()?;
    let Ok(answers) = apply(alloc, &mut path, edits) else {
        return Err(AllocError);
    };
    let answers_are_same = answers_match(alloc, &mut one_by_one, edits, answers.as_slice());
    Ok(answers_are_same && path.as_path().as_unix_str() == one_by_one.as_path().as_unix_str())
}

#[test]
fn lists_are_their_methods(rt: HostRuntime) -> Result<(), Fail> {
    let mut random = Random::new(9);
    for number in 0..LISTS {
        let start = random.string(rt.alloc())?;
        let edits = edits_from(rt.alloc(), &mut random)?;
        let is_match = list_matches_methods(rt.alloc(), start.as_slice(), edits.as_slice());
        assert!(rt; matches!(is_match, Ok(true)), "{number}");
    }
    Ok(())
}

// Returns a random extension. In half of the cases, all slashes are left out.
fn extension_from(alloc: Global, random: &mut Random) -> Result<Vec<u8>, AllocError> {
    let keeps_slashes = random.next() >> 32 & 1 == 0;
    let mut bytes = Vec::new(alloc);
    for byte in random.string(alloc)?.iter() {
        if keeps_slashes || *byte != b'/' {
            bytes.push(*byte)?;
        }
    }
    Ok(bytes)
}

// Returns true if setting and adding the extension have the same results by edits as by methods.
fn extension_matches(alloc: Global, start: &[u8], extension: &[u8]) -> Result<bool, AllocError> {
    let extension = UnixStr::from_bytes(extension);
    let set = [Edit::SetExtension(extension)];
    let added = [Edit::AddExtension(extension)];
    Ok(
        list_matches_methods(alloc, start, set.as_slice())?
            && list_matches_methods(alloc, start, added.as_slice())?,
    )
}

#[test]
fn extensions_are_their_methods(rt: HostRuntime) -> Result<(), Fail> {
    let mut random = Random::new(24);
    for _ in 0..EXTENSIONS {
        let start = random.string(rt.alloc())?;
        let extension = extension_from(rt.alloc(), &mut random)?;
        let is_match = extension_matches(rt.alloc(), &start, &extension)?;
        assert!(rt; is_match, "{start:?} {extension:?}");
    }
    // A name that consists of many dots.
    let dots = vec![in rt.alloc(); b'.'; 100_000]?;
    assert!(rt; extension_matches(rt.alloc(), &dots, b"x")?);
    Ok(())
}
