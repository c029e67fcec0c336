//! Tests of where the first component of a path ends.
use unix_path::internal::{is_filler, name_step, parent_dir_step, starts_with_parent_dir};

// Bytes, and whether their first component is `..`.
static PARENTS: [(&[u8], bool); 12] = [
    (b"..", true),
    (b".", false),
    (b"/", false),
    (b"../", true),
    (b"../a", true),
    (b"..a", false),
    (b"...", false),
    (b"a..", false),
    (b"a/..", false),
    (b"/..", false),
    (b"../..", true),
    (b"a/", false),
];

fn begins(bytes: &[u8]) -> bool {
    !bytes.is_empty() && starts_with_parent_dir(bytes)
}

#[test]
fn first_pieces_are_parents(rt: HostRuntime) {
    for &(bytes, is_parent) in &PARENTS {
        assert!(rt; begins(bytes) == is_parent);
    }
}

// Bytes that begin with a component, its length, and its length with the filler after it.
static FIRST_PARTS: [(&[u8], usize, usize); 10] = [
    (b"..", 2, 2),
    (b"../", 2, 3),
    (b".././a", 2, 5),
    (b"..//../", 2, 4),
    (b"a", 1, 1),
    (b"a/", 1, 2),
    (b"a/./b", 1, 4),
    (b"..a/..", 3, 4),
    (b"...", 3, 3),
    (b".a//.", 2, 5),
];

fn steps_over(bytes: &[u8], size: usize, step: usize) -> bool {
    if bytes.is_empty() || is_filler(bytes, 0) {
        return false;
    }
    if starts_with_parent_dir(bytes) {
        return size == 2 && parent_dir_step(bytes) == step;
    }
    name_step(bytes) == (size, step)
}

#[test]
fn first_parts_are_stepped_over(rt: HostRuntime) {
    for &(bytes, size, step) in &FIRST_PARTS {
        assert!(rt; steps_over(bytes, size, step));
    }
}
