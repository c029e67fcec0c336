//! Random calls of a table and of a list with the same paths and values. Their results are
//! compared.
use path_table::PathTable;
use std::alloc::{AllocError, Global};
use std::test::Fail;
use test_inputs::Random;
use unix_path::{Path, PathBuf};

const TABLES: u64 = 60;

const CALLS: u32 = 60;

static LETTERS: [u8; 8] = *b"/./.aabb";

// Returns a random path of at most six bytes.
fn path_from(alloc: Global, random: &mut Random) -> Result<PathBuf, AllocError> {
    let mut bytes = Vec::new(alloc);
    for _ in 0..random.next() % 7 {
        bytes.push(LETTERS[(random.next() & 7) as usize])?;
    }
    Path::from_bytes(&bytes).to_path_buf(alloc)
}

// Paths, no two of which are equal, and their values.
#[derive(Drop)]
struct ListTable {
    entries: Vec<(PathBuf, u32)>,
}

impl ListTable {
    fn index(&self, path: &PathBuf) -> Option<usize> {
        self.entries.iter().position(|file| file.0 == *path)
    }

    fn get(&self, path: &PathBuf) -> Option<u32> {
        match self.index(path) {
            Some(index) => self.entries.get(index).map(|file| file.1),
            None => None,
        }
    }

    fn insert(&mut self, path: PathBuf, value: u32) -> Result<Option<u32>, AllocError> {
        let old = self.remove(&path);
        self.entries.push((path, value))?;
        Ok(old)
    }

    fn remove(&mut self, path: &PathBuf) -> Option<u32> {
        match self.index(path) {
            Some(index) if index < self.entries.len() => {
                let (_, value) = self.entries.swap_remove(index);
                Some(value)
            }
            _ => None,
        }
    }

    // Returns true if `found` are the rests after `base`, in path order, of all paths that start
    // with `base`, with their values.
    fn has_under(&self, base: Path<'_>, found: &[(Path<'_>, &u32)]) -> bool {
        let mut count = 0usize;
        for (path, value) in &self.entries {
            if let Ok(rest) = path.as_path().strip_prefix(base) {
                count = count.wrapping_add(1);
                if !found
                    .iter()
                    .any(|answer| answer.0 == rest && answer.1 == value)
                {
                    return false;
                }
            }
        }
        count == found.len() && found.is_sorted_by(|a, b| a.0 < b.0)
    }
}

// Makes the same random call of the table and of the list, and returns true if the results are the
// same.
fn calls_match(
    alloc: Global,
    random: &mut Random,
    table: &mut PathTable<u32>,
    list: &mut ListTable,
    value: u32,
) -> Result<bool, AllocError> {
    let path = path_from(alloc, random)?;
    Ok(match random.next() % 8 {
        0..3 => {
            let other = path.as_path().to_path_buf(alloc)?;
            table.insert(path, value)? == list.insert(other, value)?
        }
        3 => table.remove(&path) == list.remove(&path),
        4 => table.get(&path).copied() == list.get(&path),
        _ => {
            let found = table.under(alloc, &path)?;
            list.has_under(path.as_path(), found.as_slice())
        }
    })
}

// Makes the same calls of a table and of a list. Returns the number of calls before the first one
// whose results differ, or after which the two have different numbers of entries.
fn count_matching_calls(alloc: Global, seed: u64) -> Result<u32, AllocError> {
    let mut random = Random::new(seed);
    let mut table = PathTable::new(alloc);
    let mut list = ListTable {
        entries: Vec::new(alloc),
    };
    for value in 0..CALLS {
        let is_match = calls_match(alloc, &mut random, &mut table, &mut list, value)?;
        if !is_match || table.len() != list.entries.len() {
            return Ok(value);
        }
    }
    Ok(CALLS)
}

#[test]
fn a_table_answers_as_a_list(rt: HostRuntime) -> Result<(), Fail> {
    for seed in 0..TABLES {
        let calls = count_matching_calls(rt.alloc(), seed)?;
        assert!(rt; calls == CALLS, "table {seed}, call {calls}");
    }
    Ok(())
}
