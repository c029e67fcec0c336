//! Maps whose keys are views of paths.
use super::views::path;
use std::alloc::{AllocError, Global};
use std::collections::{BTreeMap, HashMap};

// Returns true if a hashed map finds an equal path, and no other.
fn hashed_map_finds(alloc: Global) -> Result<bool, AllocError> {
    let mut map = HashMap::new(alloc);
    map.insert(path("a//b"), 1)?;
    Ok(map.get(&path("a/b/.")) == Some(&1) && map.get(&path("./a/b")).is_none())
}

// Returns true if an ordered map finds an equal path, and no other.
fn ordered_map_finds(alloc: Global) -> Result<bool, AllocError> {
    let mut map = BTreeMap::new(alloc);
    map.insert(path("a//b"), 1)?;
    Ok(map.get(&path("a/b/.")) == Some(&1) && map.get(&path("./a/b")).is_none())
}

#[test]
fn maps_find_equal_paths(rt: HostRuntime) {
    assert!(rt; matches!(hashed_map_finds(rt.alloc()), Ok(true)));
    assert!(rt; matches!(ordered_map_finds(rt.alloc()), Ok(true)));
}
