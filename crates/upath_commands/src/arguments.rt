//! The meaning of a list of arguments.
ghost use Rattle.std.specs.Prelude.{◌≡◌, ◌∷◌, [], IfErr, IfOk, map, option_map};
ghost use Rattle.upath_commands.specs.Arguments.{asked_first, command_meaning, each, each_after};
ghost use Rattle.upath_commands.specs.Arguments.{equal_meaning, join_rule, meaning_of};
ghost use Rattle.upath_commands.specs.Arguments.{meaning_of_command, options_of, words_value};
ghost use Rattle.upath_commands.specs.Invocations.{meaning_value, usage_value, view_bytes};
ghost use Rattle.upath_commands.specs.Items.{item_value};

use crate::command::{Command, Invocation, JoinRule, Options, Task};
use crate::items::{Item, items_of};
use crate::options::{Flag, Request, command_by_name, is, request_by_word};
use crate::searches::{
    asked_of, dashes_at, fault_in, foreign_option, has, last_value, newline_fault, operands_in,
    request_in, requested,
};
use crate::usage::{UsageError, UsageErrorKind, wrong};
use std::alloc::{AllocError, Global};
use unix_path::Path;

// A command's name, what the arguments say, and the number of operands before `--`.
#[derive(Clone, Copy)]
struct Words<'a, 'b> {
    name: Path<'a>,
    items: &'b [Item<'a>],
    dashes: usize,
}

// The path that a command takes as ROOT, BASE or DIR if it takes none.
const NO_BASE: Path<'static> = Path { bytes: b"" };

// Returns the rule of a join, or `None` if its options contradict each other.
fn join_rule(items: &[Item<'_>]) -> Option<JoinRule>
    ensures { result ≡ join_rule (map item_value items.now) }
{
    let beneath = has(items, Flag::Beneath);
    let in_root = has(items, Flag::InRoot);
    let verbatim = has(items, Flag::Verbatim);
    match (beneath, in_root, verbatim) {
        (false, false, false) => Some(JoinRule::Trusted),
        (true, false, false) => Some(JoinRule::Beneath),
        (false, true, false) => Some(JoinRule::InRoot),
        (false, false, true) => Some(JoinRule::Verbatim),
        _ => None,
    }
}

// Returns the options.
fn options_of(items: &[Item<'_>]) -> Options
    ensures { result ≡ options_of (map item_value items.now) }
{
    Options {
        null: has(items, Flag::Null),
        pair: has(items, Flag::Pair),
        quiet: has(items, Flag::Quiet),
        from_back: has(items, Flag::FromBack),
        rule: join_rule(items).unwrap_or(JoinRule::Trusted),
        inverted: has(items, Flag::Inverted),
        with_reason: has(items, Flag::Reason),
        tar_list: has(items, Flag::TarList),
        closed: has(items, Flag::Closed),
        stripped: has(items, Flag::Strip),
        by_components: has(items, Flag::ByComponents),
        unique: has(items, Flag::Unique),
        reversed: has(items, Flag::Reversed),
    }
}

// Takes the first operand off, or returns wrong usage of this kind.
fn take_operand<'a>(
    operands: &mut Vec<Path<'a>>,
    kind: UsageErrorKind,
    name: Path<'a>,
) -> Result<Path<'a>, UsageError<'a>>
    ensures ok { IfOk result (λ operand. map view_bytes operands.old.items
        ≡ view_bytes operand ∷ map view_bytes operands.new.items) }
    ensures err { IfErr result (λ error. (operands.old.items ≡ [])
        × (usage_value error ≡ (kind, view_bytes name.entry))) }
{
    if operands.is_empty() {
        return Err(wrong(kind, name));
    }
    Ok(operands.remove(0))
}

// Returns the meaning of a command for these paths, before which come `own` operands: its name, and
// ROOT or BASE.
fn each<'a>(
    command: Command,
    base: Path<'a>,
    words: Words<'a, '_>,
    own: usize,
    operands: Vec<Path<'a>>,
) -> Result<Invocation<'a>, UsageError<'a>>
    ensures { meaning_value result ≡ each command (view_bytes base.entry)
        (words_value words.entry) own (map view_bytes operands.entry.items) }
{
    let task = Task {
        command,
        options: options_of(words.items),
        or: last_value(words.items, Flag::Or),
        base,
    };
    match operands.first() {
        Some(path) if own < words.dashes => Err(wrong(UsageErrorKind::BeforeDashes, *path)),
        None if own > words.dashes => Ok(Invocation::Each(task, None)),
        _ => Ok(Invocation::Each(task, Some(operands))),
    }
}

// Returns the meaning of a command whose first operand is its ROOT or BASE.
fn each_after<'a>(
    command: Command,
    missing: UsageErrorKind,
    words: Words<'a, '_>,
    mut operands: Vec<Path<'a>>,
) -> Result<Invocation<'a>, UsageError<'a>>
    ensures { meaning_value result ≡ each_after command missing (words_value words.entry)
        (map view_bytes operands.entry.items) }
{
    let base = take_operand(&mut operands, missing, words.name)?;
    each(command, base, words, 2, operands)
}

// Returns the meaning of `equal` with these operands.
fn equal_of<'a>(
    words: Words<'a, '_>,
    operands: &[Path<'a>],
) -> Result<Invocation<'a>, UsageError<'a>>
    ensures { meaning_value result ≡ equal_meaning (words_value words.entry)
        (map view_bytes operands.now) }
{
    match operands {
        [a, b] => Ok(Invocation::Equal(options_of(words.items), *a, *b)),
        [_, _, c, ..] => Err(wrong(UsageErrorKind::UnexpectedOperand, *c)),
        _ => Err(wrong(UsageErrorKind::MissingPair, words.name)),
    }
}

// Returns the meaning of a command with these operands after its name.
fn meaning_of_command<'a>(
    command: Command,
    words: Words<'a, '_>,
    operands: Vec<Path<'a>>,
) -> Result<Invocation<'a>, UsageError<'a>>
    ensures { meaning_value result ≡ meaning_of_command command (words_value words.entry)
        (map view_bytes operands.entry.items) }
{
    match command {
        Command::Join if join_rule(words.items).is_none() => {
            Err(wrong(UsageErrorKind::ContradictoryOptions, words.name))
        }
        Command::Join => each_after(command, UsageErrorKind::MissingRoot, words, operands),
        Command::Strip | Command::Under => {
            each_after(command, UsageErrorKind::MissingBase, words, operands)
        }
        Command::Relative => match last_value(words.items, Flag::From) {
            Some(dir) => each(command, dir, words, 1, operands),
            None => Err(wrong(UsageErrorKind::MissingFrom, words.name)),
        },
        Command::Archive => match operands.first() {
            Some(operand) => Err(wrong(UsageErrorKind::UnexpectedOperand, *operand)),
            None => Ok(Invocation::Archive(options_of(words.items))),
        },
        Command::Equal => equal_of(words, operands.as_slice()),
        Command::Sort if has(words.items, Flag::Check) => {
            each(Command::Check, NO_BASE, words, 1, operands)
        }
        _ => each(command, NO_BASE, words, 1, operands),
    }
}

// Returns the meaning of operands, the first of which is the command.
fn command_of<'a>(
    items: &[Item<'a>],
    mut operands: Vec<Path<'a>>,
) -> Result<Invocation<'a>, UsageError<'a>>
    ensures { meaning_value result ≡ command_meaning (map item_value items.now)
        (map view_bytes operands.entry.items) }
{
    let name = take_operand(&mut operands, UsageErrorKind::MissingCommand, NO_BASE)?;
    let Some(command) = command_by_name(name.bytes) else {
        return Err(wrong(UsageErrorKind::UnknownCommand, name));
    };
    if let Some(error) = foreign_option(command, items) {
        return Err(error);
    }
    if let Some(error) = newline_fault(items, operands.as_slice()) {
        return Err(error);
    }
    let words = Words {
        name,
        items,
        dashes: dashes_at(items),
    };
    meaning_of_command(command, words, operands)
}

// Returns what the first argument asks for in the place of a command. Help is on the command that
// the next argument names, unless that begins with a dash.
fn asked_first<'a>(arguments: &[Path<'a>]) -> Option<Result<Invocation<'a>, UsageError<'a>>>
    ensures { option_map meaning_value result ≡ asked_first (map view_bytes arguments.now) }
{
    let [word, words @ ..] = arguments else {
        return None;
    };
    let request = if is(word.bytes, b"help") {
        Request::Help
    } else {
        request_by_word(word.bytes)?
    };
    Some(match (request, words) {
        (_, []) => Ok(requested(request, NO_BASE)),
        (Request::Help, [name, ..]) if !name.bytes.starts_with(b"-") => asked_of(request, *name),
        (_, [name, ..]) => Ok(requested(request, *name)),
    })
}

/// Returns what the arguments, without the program's name, ask for, or why they are wrong usage.
///
/// The rules are those of GNU's programs, but that requests count only where they stand first:
/// - `--help`, `-h` and `help` as the first argument ask for help on the command that the second
///   argument names, or in general if that begins with a dash or is missing; `--version` asks for
///   the version. So do `--help`, `-h` and `--version` just after the command's name. Elsewhere
///   they are wrong usage.
/// - An argument that begins with `--` is a long option, and one that begins with `-` is one short
///   option for each letter after the dash. All others are operands, and so is a single `-`.
/// - Options may come before and after operands. A `--` ends them: it is no operand, and everything
///   after it is.
/// - `--from` and `--or` take the next argument as their value, whatever that is, or what follows
///   the `=` of `--from=DIR`. No other option takes a value.
/// - Names of options and commands are written out: abbreviations are unknown.
/// - An option may be repeated. The last `--from` and the last `--or` count.
///
/// The first operand is the command. `join`, `strip` and `under` take the next one as ROOT or BASE,
/// `equal` takes exactly two, `archive` none, and all others are paths. Without paths those of the
/// input are asked for, unless `--` comes after the command and its ROOT or BASE: then only what
/// follows it are paths, even if that is nothing. `archive` always reads the input.
///
/// Of wrong usage, the first of these is reported:
/// 1. a word that is no command, just before a request or just after `--help`, `-h` or `help` as
///    the first argument: that word;
/// 2. an unknown option, an option without its value, a value for another option, or a request that
///    doesn't count;
/// 3. no command, or an unknown one;
/// 4. an option that this command doesn't have;
/// 5. without `-z`, an operand or a value of `--or` with a newline;
/// 6. two of `--beneath`, `--in-root` and `--verbatim`;
/// 7. a missing or surplus operand, no `--from` for `relative`, or a path before `--`.
///
/// Allocates for what the arguments say, and for the operands. Fails only if an allocation fails.
///
/// For `canon`, `-z` and `a` it is `Invocation::Each` of `Command::Canon`, with the option `null`,
/// and of the path `a`.
#[tactic(auto, unfolding(crate::specs::Arguments::meaning_of))]
pub fn invocation_of<'a>(
    alloc: Global,
    arguments: &[Path<'a>],
) -> Result<Result<Invocation<'a>, UsageError<'a>>, AllocError>
    ensures { IfOk result (λ meaning. meaning_value meaning
        ≡ meaning_of (map view_bytes arguments.now)) }
{
    if let Some(meaning) = asked_first(arguments) {
        return Ok(meaning);
    }
    let items = items_of(alloc, arguments)?;
    let items = items.as_slice();
    if let Some(meaning) = request_in(items) {
        return Ok(meaning);
    }
    if let Some(error) = fault_in(items) {
        return Ok(Err(error));
    }
    let operands = operands_in(alloc, items)?;
    Ok(command_of(items, operands))
}

/// Returns the arguments as paths, in the same memory.
///
/// Allocates for the list. Fails only if that allocation fails.
///
/// For the bytes `canon` and `-z` it returns the paths `canon` and `-z`.
pub fn argument_paths(alloc: Global, arguments: &[Vec<u8>]) -> Result<Vec<Path<'_>>, AllocError>
    ensures { IfOk result (λ paths. map view_bytes paths.items
        ≡ map (λ argument. argument.items) arguments.now) }
{
    let mut paths = Vec::new(alloc);
    for argument in arguments {
        paths.push(Path::from_bytes(argument.as_slice()))?;
    }
    Ok(paths)
}
