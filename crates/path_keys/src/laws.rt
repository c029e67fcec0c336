//! Laws of keys: facts about the definitions, each available to a proof that calls it.
ghost use Rattle.path_keys.specs.Laws.{KeyIsShort, KeyOfJoin, KeyOfStripped, KeysBegin};
ghost use Rattle.path_keys.specs.Laws.{KeysInOrder, KeysTell};

/// The keys of two paths, compared by their bytes, are in the order of the paths.
///
/// The keys are equal if and only if the paths are equal. A store that compares keys by their bytes
/// therefore keeps paths in path order, without duplicates.
///
/// The key of `a/b` is less than the key of `a.b`. The paths `a//b` and `a/b` have the same key.
pub fn keys_in_order()
    ensures order { KeysInOrder }
    ensures equal { KeysTell }
{}

/// The key of one path is a prefix of the key of another if and only if the components of the first
/// path are a prefix of the components of the other.
///
/// The keys of the paths that start with a base therefore start with the key of the base, and no
/// other keys do.
///
/// The key of `a` is a prefix of the key of `a/b`, but not of the key of `ab`.
pub fn keys_begin()
    ensures { KeysBegin }
{}

/// If a path starts with a base, the key of the path is the key of the base followed by the key of
/// the rest, which `Path::strip_prefix` returns.
///
/// To rename a directory in a store, a caller therefore replaces the key of the directory at the
/// beginning of each key. The empty path can't be renamed this way: the rest may begin with a root
/// or a `.`, whose codes occur only at the beginning of a key.
///
/// The key of `a/b` without `a` is 61 00, followed by the key of `b`, 62 00.
pub fn key_of_stripped()
    ensures { KeyOfStripped }
{}

/// The key of a join with a path that has no root and no leading `.` is the key of the first path
/// followed by the key of the second.
///
/// The key of `a/b` is the bytes 61 00 62 00: the key of `a`, followed by the key of `b`.
pub fn key_of_join()
    ensures { KeyOfJoin }
{}

/// The key of a path has at most two bytes more than the path.
///
/// So a buffer with two bytes more than the path is always long enough.
///
/// The path `/a` has 2 bytes, and its key has 4.
pub fn key_is_short()
    ensures { KeyIsShort }
{}
