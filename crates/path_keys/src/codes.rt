//! The codes of a key, read one by one.
ghost use Rattle.std.specs.Prelude.{◌≡◌, ◌<◌, ◌^◌, ℕ, List, [], ◌∷◌, ◌++◌, length, map};
ghost use Rattle.std.specs.Prelude.{◌↔◌, false, option_map, None, Some, IfSome, IsTrue};
ghost use Rattle.std.specs.Borrow.{Bor};
ghost use Rattle.unix_path.specs.Names.{name_of};
ghost use Rattle.unix_path.specs.Parts.{Normal, RootDir, Value};
ghost use Rattle.unix_path.specs.Prefixes.{IsPrefixOf};
ghost use Rattle.path_keys.specs.Keys.{code, raised};
ghost use Rattle.path_keys.specs.Codes.{code_bytes, IsComponent};
ghost use Rattle.path_keys.specs.declared.codes.Code.TheVariants.{Name};

use unix_bytes::internal::find_byte;

// The byte after the 0 in the code of a root.
pub(crate) const ROOT_MARK: u8 = 1;

// The byte after the 0 in the code of a leading `.`.
pub(crate) const CUR_DIR_MARK: u8 = 2;

// The byte after the 0 in the code of a `..`.
pub(crate) const PARENT_DIR_MARK: u8 = 3;

// The code of a component in a key.
#[derive(Clone, Copy)]
pub(crate) enum Code<'a> {
    Root,
    Dot,
    Up,
    // The bytes of a name in the key, without its end mark.
    Name(&'a [u8]),
}

impl<'a> Code<'a> {
    // Returns the length of the code.
    #[inline]
    pub(crate) fn len(self) -> usize
        requires { length (code_bytes self) < 2 ^ 64 }
        ensures { result ≡ length (code_bytes self.entry) }
    {
        match self {
            Code::Name(name) => name.len() + 1,
            _ => 2,
        }
    }

    // Returns true if this is the code of a root.
    #[inline]
    pub(crate) fn is_root(self) -> bool
        ensures { IsTrue result ↔ (code_bytes self.entry ≡ code RootDir) }
    {
        match self {
            Code::Root => true,
            Code::Dot => false,
            Code::Up => false,
            Code::Name(_) => false,
        }
    }

    // Returns the bytes of the name in the key; `None` if this is not the code of a name.
    #[inline]
    pub(crate) fn name(self) -> Option<&'a [u8]>
        ensures name { (name : Bor (List ℕ)) → self.entry ≡ Name name → result ≡ Some name }
        ensures value { (v : Value) → code v ≡ code_bytes self.entry
            → option_map (λ name. name.now) result
            ≡ option_map (λ name. map raised name) (name_of v) }
    {
        match self {
            Code::Root => None,
            Code::Dot => None,
            Code::Up => None,
            Code::Name(name) => Some(name),
        }
    }
}

// Returns the name at the beginning of these bytes, as its bytes in the key; `None` if the bytes
// don't begin with the code of a name.
#[inline]
fn name_in(bytes: &[u8]) -> Option<&[u8]>
    ensures some { IfSome result (λ name. (v : Value) × IsComponent false v
        × (code v ≡ name.now ++ 0 ∷ []) × IsPrefixOf (code v) bytes.now) }
    ensures none { result ≡ None → (name : List ℕ) → IsComponent false (Normal name)
        → IsPrefixOf (code (Normal name)) bytes.now → ⊥ }
{
    let len = find_byte(bytes, 0);
    if len == 0 {
        return None;
    }
    if len == bytes.len() {
        return None;
    }
    let name = &bytes[..len];
    // A slash is a raised dot.
    if name == b"/".as_slice() {
        return None;
    }
    if name == b"//".as_slice() {
        return None;
    }
    Some(name)
}

// Returns the code that is 0 and this mark. Returns `None` if no component has this code, or if
// only the first component of a path may have it and `first` is false.
#[inline]
fn mark_code<'a>(mark: u8, first: bool) -> Option<Code<'a>>
    ensures some { IfSome result (λ found. (v : Value) × IsComponent first v
        × (code v ≡ code_bytes found) × (code v ≡ 0 ∷ mark ∷ [])) }
    ensures none { result ≡ None → (v : Value) (rest : List ℕ) → IsComponent first v
        → IsPrefixOf (code v) (0 ∷ mark ∷ rest) → ⊥ }
{
    if mark == PARENT_DIR_MARK {
        return Some(Code::Up);
    }
    if !first {
        return None;
    }
    if mark == ROOT_MARK {
        return Some(Code::Root);
    }
    if mark == CUR_DIR_MARK {
        return Some(Code::Dot);
    }
    None
}

// Returns the code with which these bytes begin. Returns `None` if they don't begin with a code, or
// if only the first component of a path may have this code and `first` is false.
#[inline]
pub(crate) fn code_in(bytes: &[u8], first: bool) -> Option<Code<'_>>
    ensures some { IfSome result (λ found. (v : Value) × IsComponent first v
        × (code v ≡ code_bytes found) × IsPrefixOf (code v) bytes.now) }
    ensures none { result ≡ None → (v : Value) → IsComponent first v
        → IsPrefixOf (code v) bytes.now → ⊥ }
{
    // Each code has two bytes or more.
    if bytes.len() < 2 {
        return None;
    }
    if bytes[0] == 0 {
        return mark_code(bytes[1], first);
    }
    let Some(name) = name_in(bytes) else {
        return None;
    };
    Some(Code::Name(name))
}
