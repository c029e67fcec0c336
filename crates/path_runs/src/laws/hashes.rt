//! Laws of the bytes that a path feeds a hasher.
ghost use Rattle.path_runs.specs.HashLaws.{InputsInjective, InputsReflectPrefixes};

/// Paths that feed a hasher the same bytes are equal.
///
/// This holds however the bytes are split into writes. If the bytes that one path feeds are a
/// prefix of the bytes that another path feeds, the components of the first path are a prefix of
/// the components of the other.
///
/// `ab` and `a/b` feed different bytes, and so do `/a`, `./a` and `a`.
pub fn hash_input_injective()
    ensures equal { InputsInjective }
    ensures begins { InputsReflectPrefixes }
{}
