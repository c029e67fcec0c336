//! Laws of keys in hexadecimal: facts that a proof can use if it calls them.
ghost use Rattle.upath_commands.specs.KeyLaws.{KeyUndoesUnkey, UnkeyIsCanonical, UnkeyUndoesKey};

/// The path of the key of a path, in hexadecimal, is the path in canonical form.
///
/// `unkey` prints it, unless it has the byte that ends records.
///
/// The key of `a//b` is `61006200` in hexadecimal, and `upath unkey 61006200` prints `a/b`.
pub fn unkey_undoes_key()
    ensures { UnkeyUndoesKey }
{}

/// The path of a key in hexadecimal is in canonical form (`canonical`), and has this key, in lower
/// case (`text`).
///
/// `upath unkey 612F6200` prints `a.b`, and `upath key a.b` prints `612f6200`.
pub fn key_undoes_unkey()
    ensures canonical { UnkeyIsCanonical }
    ensures text { KeyUndoesUnkey }
{}
