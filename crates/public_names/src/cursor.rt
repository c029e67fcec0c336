//! The module `cursor`.
use crate::traits::{is_copied, is_fused, is_ordered};
use std::fmt::Debug;
use unix_path::Path;
use unix_path::bytes::UnixStr;
use unix_path::cursor::{Ancestors, Component, Components, Iter};

/// Names the forms of `Component`, and calls its functions.
pub fn component<'a>(name: UnixStr<'a>) -> [Component<'a>; 3] {
    let it: Component<'a> = Component::Normal(name);
    let _: UnixStr<'a> = it.as_unix_str();
    let _: Path<'a> = it.as_path();
    is_copied(&it);
    is_ordered(&it);
    [Component::RootDir, Component::CurDir, Component::ParentDir]
}

/// Calls the functions of `Components`.
pub fn components<'a>(mut it: Components<'a>) -> Components<'a> {
    let _: Option<Component<'a>> = it.next();
    let _: Option<Component<'a>> = it.next_back();
    let _: Path<'a> = it.as_path();
    is_copied(&it);
    is_fused(&it);
    it
}

/// Calls the functions of `Iter`.
pub fn iter<'a>(mut it: Iter<'a>) -> Iter<'a> {
    let _: Option<UnixStr<'a>> = it.next();
    let _: Option<UnixStr<'a>> = it.next_back();
    let _: Path<'a> = it.as_path();
    is_copied(&it);
    is_fused(&it);
    it
}

/// Calls the function of `Ancestors`.
pub fn ancestors<'a>(mut it: Ancestors<'a>) -> Ancestors<'a> {
    let _: Option<Path<'a>> = it.next();
    is_copied(&it);
    is_fused(&it);
    it
}
