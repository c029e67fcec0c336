//! Random calls of a tree, compared with a list of the same paths and values.
use path_keys::{PathKey, path_of};
use path_tree::PathTree;
use std::alloc::{AllocError, Global};
use std::test::Fail;
use test_inputs::Random;
use unix_path::{Component, Path, PathBuf};

const TREES: u64 = 60;

const CALLS: u32 = 60;

static LETTERS: [u8; 8] = *b"/./.aabb";

// Returns a random path of at most six bytes.
fn path_from(alloc: Global, random: &mut Random) -> Result<PathBuf, AllocError> {
    let mut bytes = Vec::new(alloc);
    for _ in 0..random.next() % 7 {
        bytes.push(LETTERS[(random.next() & 7) as usize])?;
    }
    Path::from_bytes(&bytes).to_path_buf(alloc)
}

// Returns the path's first component after the base, if there is one.
fn first_behind<'a>(path: Path<'a>, base: Path<'_>) -> Option<Component<'a>> {
    match path.strip_prefix(base) {
        Ok(rest) => rest.components().next(),
        Err(_) => None,
    }
}

// Paths, no two of which are equal, and their values.
#[derive(Drop)]
struct Listed {
    files: Vec<(PathBuf, u32)>,
}

impl Listed {
    fn place(&self, path: Path<'_>) -> Option<usize> {
        self.files.iter().position(|file| file.0.as_path() == path)
    }

    fn get(&self, path: Path<'_>) -> Option<u32> {
        match self.place(path) {
            Some(place) => self.files.get(place).map(|file| file.1),
            None => None,
        }
    }

    // Returns the number of paths that start with the base.
    fn count_under(&self, base: Path<'_>) -> usize {
        let mut count = 0usize;
        for (path, _) in &self.files {
            if path.as_path().starts_with(base) {
                count = count.wrapping_add(1);
            }
        }
        count
    }

    // Returns the number of children of the base: components that follow it directly, each counted
    // once.
    fn count_children(&self, base: Path<'_>) -> usize {
        let mut count = 0usize;
        for (place, (path, _)) in self.files.iter().enumerate() {
            let first = first_behind(path.as_path(), base);
            let is_known = self
                .files
                .iter()
                .take(place)
                .any(|file| first_behind(file.0.as_path(), base) == first);
            if first.is_some() && !is_known {
                count = count.wrapping_add(1);
            }
        }
        count
    }

    // Finds the longest listed path that this path starts with. Returns the rest of this path after
    // the listed path, and the listed path's value.
    fn longest_prefix<'a>(&self, path: Path<'a>) -> Option<(Path<'a>, u32)> {
        let mut most = 0;
        let mut found = None;
        for (base, value) in &self.files {
            let count = base.as_path().components().count();
            if let Ok(rest) = path.strip_prefix(base.as_path()) {
                if found.is_none() || count > most {
                    most = count;
                    found = Some((rest, *value));
                }
            }
        }
        found
    }

    fn insert(&mut self, path: PathBuf, value: u32) -> Result<Option<u32>, AllocError> {
        let old = self.remove(path.as_path());
        self.files.push((path, value))?;
        Ok(old)
    }

    // Inserts each value at its path, one after the other.
    fn insert_all(&mut self, alloc: Global, files: &[(Path<'_>, u32)]) -> Result<(), AllocError> {
        for (path, value) in files {
            self.insert(path.to_path_buf(alloc)?, *value)?;
        }
        Ok(())
    }

    fn remove(&mut self, path: Path<'_>) -> Option<u32> {
        match self.place(path) {
            Some(place) if place < self.files.len() => {
                let (_, value) = self.files.swap_remove(place);
                Some(value)
            }
            _ => None,
        }
    }

    // Removes the paths that start with the base, and returns the number of paths removed.
    fn remove_under(&mut self, base: Path<'_>) -> usize {
        let before = self.files.len();
        self.files
            .retain(|file| !file.0.as_path().starts_with(base));
        before.wrapping_sub(self.files.len())
    }
}

// Moves the entries under the path to a random path, in the tree and in the list. Returns true if
// both then have the same files, whether the move succeeds or is refused.
fn moves_alike(
    alloc: Global,
    random: &mut Random,
    tree: &mut PathTree<u32>,
    listed: &mut Listed,
    from: Path<'_>,
) -> Result<bool, AllocError> {
    let target = path_from(alloc, random)?;
    let to = target.as_path();
    let is_refused = to.starts_with(from) || listed.count_under(to) > 0;
    match tree.move_under(
        &PathKey::from_path(alloc, from)?,
        &PathKey::from_path(alloc, to)?,
    ) {
        Ok(count) => {
            let is_alike = !is_refused && count == listed.count_under(from);
            for file in listed.files.iter_mut() {
                let moved = match file.0.as_path().strip_prefix(from) {
                    Ok(rest) => Some(to.join(alloc, rest)?),
                    Err(_) => None,
                };
                if let Some(path) = moved {
                    file.0 = path;
                }
            }
            Ok(is_alike && has_exactly(tree, listed)?)
        }
        Err(_) => Ok(is_refused && has_exactly(tree, listed)?),
    }
}

fn are_alike(found: Option<(Path<'_>, &u32)>, want: Option<(Path<'_>, u32)>) -> bool {
    match (found, want) {
        (Some(near), Some(listed)) => near.0 == listed.0 && *near.1 == listed.1,
        (None, None) => true,
        _ => false,
    }
}

// Returns true if the tree has exactly the files of the list.
fn has_exactly(tree: &PathTree<u32>, listed: &Listed) -> Result<bool, AllocError> {
    for (path, value) in &listed.files {
        if tree.get_path(path.as_path())? != Some(value) {
            return Ok(false);
        }
    }
    Ok(tree.len() == listed.files.len())
}

// Extends the tree and the list by two entries: the value at the path, and another value at a
// random path. Returns true if both then have the same files.
fn extends_alike(
    alloc: Global,
    random: &mut Random,
    tree: &mut PathTree<u32>,
    listed: &mut Listed,
    file: (Path<'_>, u32),
) -> Result<bool, AllocError> {
    let other = path_from(alloc, random)?;
    let files = [file, (other.as_path(), file.1.wrapping_add(CALLS)), file];
    tree.extend(files.iter().copied())?;
    listed.insert_all(alloc, files.as_slice())?;
    has_exactly(tree, listed)
}

// Compares the tree with a tree of three random paths. Returns true if `difference` returns as many
// entries as the list has files at other paths than these three, and each entry is such a file.
fn lacks_alike(
    alloc: Global,
    random: &mut Random,
    tree: &PathTree<u32>,
    listed: &Listed,
) -> Result<bool, AllocError> {
    let mut other = Listed {
        files: Vec::new(alloc),
    };
    let mut others = PathTree::new(alloc);
    for value in 0..3u32 {
        let path = path_from(alloc, random)?;
        others.insert(path.as_path(), value)?;
        other.insert(path, value)?;
    }
    let mut count = 0usize;
    for (path, _) in &listed.files {
        if other.place(path.as_path()).is_none() {
            count = count.wrapping_add(1);
        }
    }
    let found = tree.difference(&others)?;
    for (key, value) in &found {
        let Ok(path) = path_of(alloc, key) else {
            return Ok(false);
        };
        let path = path.as_path();
        if other.place(path).is_some() || listed.get(path) != Some(**value) {
            return Ok(false);
        }
    }
    Ok(found.len() == count && changes_alike(tree, listed, &others, &other)?)
}

// Returns true if as many paths have different values in the two trees as in the two lists.
fn changes_alike(
    tree: &PathTree<u32>,
    listed: &Listed,
    others: &PathTree<u32>,
    other: &Listed,
) -> Result<bool, AllocError> {
    let mut count = 0usize;
    for (path, value) in &listed.files {
        let is_changed = match other.get(path.as_path()) {
            Some(found) => found != *value,
            None => false,
        };
        if is_changed {
            count = count.wrapping_add(1);
        }
    }
    Ok(tree.changed(others)?.len() == count)
}

// Returns true if the base has as many children in the tree as in the list, and each child is
// right: it is the base and one more component, some file's path starts with it, and it has the
// value that the list has at this path, if any.
fn has_children(
    alloc: Global,
    tree: &PathTree<u32>,
    listed: &Listed,
    base: Path<'_>,
) -> Result<bool, AllocError> {
    let found = tree.children(&PathKey::from_path(alloc, base)?)?;
    let depth = base.components().count().wrapping_add(1);
    for (key, value) in &found {
        let Ok(path) = path_of(alloc, key) else {
            return Ok(false);
        };
        let path = path.as_path();
        let is_below = path.starts_with(base) && path.components().count() == depth;
        let is_found = listed.count_under(path) > 0 && listed.get(path) == value.copied();
        if !is_below || !is_found {
            return Ok(false);
        }
    }
    Ok(found.len() == listed.count_children(base))
}

// Makes one call of the tree and one of the list, and returns true if the results are the same.
fn answers_alike(
    alloc: Global,
    random: &mut Random,
    tree: &mut PathTree<u32>,
    listed: &mut Listed,
    value: u32,
) -> Result<bool, AllocError> {
    let owned = path_from(alloc, random)?;
    let path = owned.as_path();
    let key = PathKey::from_path(alloc, path)?;
    Ok(match random.next() % 19 {
        0..3 => tree.insert(path, value)? == listed.insert(path.to_path_buf(alloc)?, value)?,
        3 => tree.remove(&key) == listed.remove(path),
        4 => tree.remove_path(path)? == listed.remove(path),
        5 => tree.get(&key).copied() == listed.get(path),
        6 => tree.contains(&key) == listed.get(path).is_some(),
        7 => tree.get_path(path)?.copied() == listed.get(path),
        8 => tree.under(&key)?.count() == listed.count_under(path),
        9 => extends_alike(alloc, random, tree, listed, (path, value))?,
        11 => lacks_alike(alloc, random, tree, listed)?,
        12 | 13 => has_children(alloc, tree, listed, path)?,
        14 | 15 => moves_alike(alloc, random, tree, listed, path)?,
        10 => tree.remove_under(&key) == listed.remove_under(path) && has_exactly(tree, listed)?,
        _ => are_alike(tree.longest_prefix(path)?, listed.longest_prefix(path)),
    })
}

// Makes the same random calls of a tree and of a list. Returns the number of pairs of calls before
// the first pair whose results differ, or that leaves different numbers of files.
fn calls_alike(alloc: Global, seed: u64) -> Result<u32, AllocError> {
    let mut random = Random::new(seed);
    let mut tree = PathTree::new(alloc);
    let mut listed = Listed {
        files: Vec::new(alloc),
    };
    for value in 0..CALLS {
        let alike = answers_alike(alloc, &mut random, &mut tree, &mut listed, value)?;
        if !alike || tree.len() != listed.files.len() {
            return Ok(value);
        }
    }
    Ok(CALLS)
}

#[test]
fn a_tree_answers_as_a_list(rt: HostRuntime) -> Result<(), Fail> {
    for seed in 0..TREES {
        let calls = calls_alike(rt.alloc(), seed)?;
        assert!(rt; calls == CALLS, "tree {seed}, call {calls}");
    }
    Ok(())
}
