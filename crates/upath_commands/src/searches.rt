//! Searches among the items of a list of arguments.
ghost use Rattle.std.specs.Prelude.{◌≡◌, IfOk, map, option_map};
ghost use Rattle.upath_commands.specs.Arguments.{asked_in, asked_of, dashes_at, fault_of, first_of};
ghost use Rattle.upath_commands.specs.Arguments.{foreign_option, has, has_newline, last_value};
ghost use Rattle.upath_commands.specs.Arguments.{newline_fault, operands_of, requested};
ghost use Rattle.upath_commands.specs.Invocations.{invocation_value, meaning_value, view_bytes};
ghost use Rattle.upath_commands.specs.Invocations.{usage_value};
ghost use Rattle.upath_commands.specs.Options.{command_by_name};
ghost use Rattle.upath_commands.specs.Items.{item_value};

use crate::command::{Command, Invocation};
use crate::items::{Item, ItemKind};
use crate::options::{Flag, Request, command_by_name, has_option};
use crate::usage::{UsageError, UsageErrorKind, wrong};
use std::alloc::{AllocError, Global};
use unix_bytes::internal::find_byte;
use unix_path::Path;

// Returns true if and only if the option is among the items.
pub(crate) fn has(items: &[Item<'_>], option: Flag) -> bool
    ensures { result ≡ has (map item_value items.now) option }
{
    for item in items {
        if let ItemKind::Option(given) = item.kind {
            if given == option {
                return true;
            }
        }
    }
    false
}

// Returns what is asked for, with this name of a command.
pub(crate) fn requested(request: Request, name: Path<'_>) -> Invocation<'_>
    ensures { invocation_value result ≡ requested request (view_bytes name.entry) }
{
    match request {
        Request::Help => Invocation::Help(name),
        Request::Version => Invocation::Version,
    }
}

// Returns what is asked for just after this name, or wrong usage if no command has it.
pub(crate) fn asked_of<'a>(
    request: Request,
    name: Path<'a>,
) -> Result<Invocation<'a>, UsageError<'a>>
    ensures { meaning_value result ≡ asked_of request (view_bytes name.entry)
        (command_by_name (view_bytes name.entry)) }
{
    match command_by_name(name.bytes) {
        Some(_) => Ok(requested(request, name)),
        None => Err(wrong(UsageErrorKind::UnknownCommand, name)),
    }
}

// Returns what is asked for just after the command, or `None` if nothing is. After another word it
// is wrong usage.
pub(crate) fn request_in<'a>(items: &[Item<'a>]) -> Option<Result<Invocation<'a>, UsageError<'a>>>
    ensures { option_map meaning_value result ≡ asked_in (map item_value items.now) }
{
    for (index, item) in items.iter().enumerate() {
        if let ItemKind::Operand = item.kind {
            let next = items.get(index + 1)?;
            return match next.kind {
                ItemKind::Request(request) => Some(asked_of(request, item.bytes)),
                _ => None,
            };
        }
    }
    None
}

// Returns the first item that is wrong usage whatever the command is, or `None` if there is none.
pub(crate) fn fault_in<'a>(items: &[Item<'a>]) -> Option<UsageError<'a>>
    ensures { option_map usage_value result ≡ first_of fault_of (map item_value items.now) }
{
    for item in items {
        let kind = match item.kind {
            ItemKind::Wrong(kind) => kind,
            ItemKind::Request(_) => UsageErrorKind::MisplacedRequest,
            _ => continue,
        };
        return Some(wrong(kind, item.bytes));
    }
    None
}

// Returns the first option that the command doesn't have, as an unknown option, or `None` if it
// has all of them.
pub(crate) fn foreign_option<'a>(command: Command, items: &[Item<'a>]) -> Option<UsageError<'a>>
    ensures { option_map usage_value result
        ≡ first_of (foreign_option command) (map item_value items.now) }
{
    for item in items {
        if let ItemKind::Option(flag) = item.kind {
            if !has_option(command, flag) {
                let kind = match item.bytes.bytes {
                    [_] => UsageErrorKind::UnknownLetter,
                    _ => UsageErrorKind::UnknownOption,
                };
                return Some(wrong(kind, item.bytes));
            }
        }
    }
    None
}

// Returns the last value of the option, or `None` if there is none.
pub(crate) fn last_value<'a>(items: &[Item<'a>], option: Flag) -> Option<Path<'a>>
    ensures { option_map view_bytes result ≡ last_value (map item_value items.now) option }
{
    let mut value = None;
    for item in items {
        if let ItemKind::Value(given) = item.kind {
            if given == option {
                value = Some(item.bytes);
            }
        }
    }
    value
}

// Returns the operands, in their order.
pub(crate) fn operands_in<'a>(
    alloc: Global,
    items: &[Item<'a>],
) -> Result<Vec<Path<'a>>, AllocError>
    ensures { IfOk result (λ operands. map view_bytes operands.items
        ≡ operands_of (map item_value items.now)) }
{
    let mut operands = Vec::new(alloc);
    for item in items {
        if let ItemKind::Operand = item.kind {
            operands.push(item.bytes)?;
        }
    }
    Ok(operands)
}

// Returns the number of operands before `--`, or 0 without it.
pub(crate) fn dashes_at(items: &[Item<'_>]) -> usize
    ensures { result ≡ dashes_at (map item_value items.now) }
{
    let mut count = 0;
    for item in items {
        match item.kind {
            ItemKind::Dashes => return count,
            ItemKind::Operand => count += 1,
            _ => {}
        }
    }
    0
}

// Returns true if and only if the bytes have a newline.
pub(crate) fn has_newline(bytes: &[u8]) -> bool
    ensures { result ≡ has_newline bytes.now }
{
    find_byte(bytes, b'\n') < bytes.len()
}

// Returns the first operand with a newline, or the value of `--or`, as wrong usage. Returns `None`
// if none has a newline, or if `-z` is among the items.
pub(crate) fn newline_fault<'a>(items: &[Item<'a>], operands: &[Path<'a>]) -> Option<UsageError<'a>>
    ensures { option_map usage_value result
        ≡ newline_fault (map item_value items.now) (map view_bytes operands.now) }
{
    if has(items, Flag::Null) {
        return None;
    }
    for operand in operands {
        if has_newline(operand.bytes) {
            return Some(wrong(UsageErrorKind::NewlineInOperand, *operand));
        }
    }
    match last_value(items, Flag::Or) {
        Some(text) if has_newline(text.bytes) => {
            Some(wrong(UsageErrorKind::NewlineInOperand, text))
        }
        _ => None,
    }
}
