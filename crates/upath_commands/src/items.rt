//! What arguments say before the command is known: options, their values, operands and requests.
ghost use Rattle.std.specs.Prelude.{◌≡◌, ◌++◌, ◌∷◌, [], IfOk, OnOk, map, None, take};
ghost use Rattle.upath_commands.specs.Items.{argument_items, character, item_value, items_after};
ghost use Rattle.upath_commands.specs.Items.{letter_items, long_items, operand};
ghost use Rattle.upath_commands.specs.Invocations.{view_bytes};
ghost use Rattle.unix_bytes.specs.Lossy.{is_text};

use crate::options::{
    Flag, Request, is, option_by_letter, option_by_name, request_by_word, value_awaited,
};
use crate::usage::UsageErrorKind;
use std::alloc::{AllocError, Global};
use unix_bytes::bytes::UnixStr;
use unix_bytes::internal::find_byte;
use unix_bytes::laws::tests_are_right;
use unix_path::Path;

// The kind of an item.
#[derive(Clone, Copy)]
pub(crate) enum ItemKind {
    // An operand.
    Operand,
    // `--`, after which all arguments are operands.
    Dashes,
    // An option, which is known.
    Option(Flag),
    // The value of this option.
    Value(Flag),
    // `--help`, `-h` or `--version`.
    Request(Request),
    // Wrong usage, whatever the command is.
    Wrong(UsageErrorKind),
}

// What an argument says, or a letter of it. Its bytes are the argument, the letter of a short
// option, or the value after a `=`.
#[derive(Clone, Copy)]
pub(crate) struct Item<'a> {
    pub(crate) kind: ItemKind,
    pub(crate) bytes: Path<'a>,
}

// Appends one item.
fn push_item<'a>(
    kind: ItemKind,
    bytes: &'a [u8],
    items: &mut Vec<Item<'a>>,
) -> Result<(), AllocError>
    ensures { OnOk result (map item_value items.new.items
        ≡ map item_value items.old.items ++ (kind, bytes.now) ∷ []) }
{
    items.push(Item {
        kind,
        bytes: Path { bytes },
    })?;
    Ok(())
}

// Appends the items of an argument that is `--` and this text.
fn push_long<'a>(
    argument: &'a [u8],
    text: &'a [u8],
    items: &mut Vec<Item<'a>>,
) -> Result<(), AllocError>
    ensures { OnOk result (map item_value items.new.items
        ≡ map item_value items.old.items ++ long_items argument.now text.now) }
{
    let end = find_byte(text, b'=');
    let Some(flag) = option_by_name(&text[..end]) else {
        let kind = ItemKind::Wrong(UsageErrorKind::UnknownOption);
        return push_item(kind, argument, items);
    };
    if end == text.len() {
        return push_item(ItemKind::Option(flag), argument, items);
    }
    if !matches!(flag, Flag::From | Flag::Or) {
        let kind = ItemKind::Wrong(UsageErrorKind::UnexpectedValue);
        return push_item(kind, argument, items);
    }
    push_item(ItemKind::Option(flag), argument, items)?;
    push_item(ItemKind::Value(flag), &text[end + 1..], items)
}

// Returns true if and only if a prefix, or all of `bytes` if it is shorter, is valid UTF-8.
fn begins_with_text(bytes: &[u8], len: usize) -> bool
    ensures { result ≡ is_text (take len bytes.now) }
{
    tests_are_right();
    let len = len.min(bytes.len());
    UnixStr::from_bytes(&bytes[..len]).to_str().is_some()
}

// Returns the first character, or the first byte if no character comes first.
fn character(bytes: &[u8]) -> &[u8]
    ensures { result.now ≡ character bytes.now }
{
    let len = match () {
        _ if begins_with_text(bytes, 1) => 1,
        _ if begins_with_text(bytes, 2) => 2,
        _ if begins_with_text(bytes, 3) => 3,
        _ if begins_with_text(bytes, 4) => 4,
        _ => 1,
    };
    &bytes[..bytes.len().min(len)]
}

// Appends an item for each letter.
fn push_letters<'a>(letters: &'a [u8], items: &mut Vec<Item<'a>>) -> Result<(), AllocError>
    ensures { OnOk result (map item_value items.new.items
        ≡ map item_value items.old.items ++ letter_items letters.now) }
{
    for (index, letter) in letters.iter().enumerate() {
        let rest = &letters[index..];
        match option_by_letter(*letter) {
            Some(flag) => push_item(ItemKind::Option(flag), &rest[..1], items)?,
            None => {
                let kind = ItemKind::Wrong(UsageErrorKind::UnknownLetter);
                push_item(kind, character(rest), items)?;
            }
        }
    }
    Ok(())
}

// Appends the items of an argument that may be an option or a request.
fn push_argument<'a>(argument: &'a [u8], items: &mut Vec<Item<'a>>) -> Result<(), AllocError>
    ensures { OnOk result (map item_value items.new.items
        ≡ map item_value items.old.items ++ argument_items argument.now) }
{
    if let Some(request) = request_by_word(argument) {
        push_item(ItemKind::Request(request), argument, items)
    } else if argument.starts_with(b"--") {
        push_long(argument, &argument[2..], items)
    } else if argument.starts_with(b"-") && !is(argument, b"-") {
        push_letters(&argument[1..], items)
    } else {
        push_item(ItemKind::Operand, argument, items)
    }
}

// Appends an operand for each argument.
fn push_operands<'a>(arguments: &[Path<'a>], items: &mut Vec<Item<'a>>) -> Result<(), AllocError>
    ensures { OnOk result (map item_value items.new.items
        ≡ map item_value items.old.items ++ map operand (map view_bytes arguments.now)) }
{
    for argument in arguments {
        push_item(ItemKind::Operand, argument.bytes, items)?;
    }
    Ok(())
}

// Appends wrong usage, if an option still awaits its value.
fn push_missing(awaits: Option<Flag>, items: &mut Vec<Item<'_>>) -> Result<(), AllocError>
    ensures { OnOk result (map item_value items.new.items
        ≡ map item_value items.old.items ++ items_after awaits []) }
{
    let kind = ItemKind::Wrong(UsageErrorKind::MissingValue);
    match awaits {
        None => Ok(()),
        Some(Flag::Or) => push_item(kind, b"--or", items),
        Some(_) => push_item(kind, b"--from", items),
    }
}

// Returns what the arguments say, in their order.
pub(crate) fn items_of<'a>(
    alloc: Global,
    arguments: &[Path<'a>],
) -> Result<Vec<Item<'a>>, AllocError>
    ensures { IfOk result (λ items. map item_value items.items
        ≡ items_after None (map view_bytes arguments.now)) }
{
    let mut items = Vec::new(alloc);
    let mut awaits = None;
    for (index, argument) in arguments.iter().enumerate() {
        let argument = argument.bytes;
        if let Some(flag) = awaits {
            push_item(ItemKind::Value(flag), argument, &mut items)?;
            awaits = None;
        } else if is(argument, b"--") {
            push_item(ItemKind::Dashes, argument, &mut items)?;
            push_operands(&arguments[index + 1..], &mut items)?;
            return Ok(items);
        } else {
            push_argument(argument, &mut items)?;
            awaits = value_awaited(argument);
        }
    }
    push_missing(awaits, &mut items)?;
    Ok(items)
}
