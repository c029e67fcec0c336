//! Wrong usage: lists of arguments without a meaning.
ghost use Rattle.std.specs.Prelude.{◌≡◌, ◌++◌, OnOk};
ghost use Rattle.upath_commands.specs.Invocations.{usage_value, view_bytes};
ghost use Rattle.upath_commands.specs.Usage.{shown_argument, usage_line, usage_text};

use crate::shown::push_shown;
use std::alloc::AllocError;
use unix_path::Path;

/// What is wrong with a list of arguments.
///
/// `upath cannon` is an `UnknownCommand`.
#[derive(Clone, Copy, Debug, PartialEq, Eq)]
pub enum UsageErrorKind {
    /// There is no operand, and so no command. The error's argument is empty.
    MissingCommand,
    /// The first operand, which is the error's argument, is not the name of a command.
    UnknownCommand,
    /// The command doesn't have this option, or no command has it.
    UnknownOption,
    /// The same of a short option. The error's argument is its letter.
    UnknownLetter,
    /// `--help`, `-h` or `--version` is neither the first argument nor just after the command.
    MisplacedRequest,
    /// The last argument is this option, which needs a value.
    MissingValue,
    /// This argument gives a value to an option that takes none.
    UnexpectedValue,
    /// Two options of this command exclude each other.
    ContradictoryOptions,
    /// This command needs the operand ROOT.
    MissingRoot,
    /// This command needs the operand BASE.
    MissingBase,
    /// This command needs the option `--from`.
    MissingFrom,
    /// This command needs two operands.
    MissingPair,
    /// The command has this operand too many.
    UnexpectedOperand,
    /// This path comes before a `--` that begins the paths.
    BeforeDashes,
    /// This operand has a newline, although newlines end the records.
    NewlineInOperand,
}

/// Wrong usage: its kind, and the argument that it is about.
///
/// For `upath canon --nul` the argument is `--nul`, and for `upath join` it is `join`.
#[derive(Clone, Copy)]
pub struct UsageError<'a> {
    /// What is wrong.
    pub kind: UsageErrorKind,
    /// The argument, with its dashes and its value, or only the letter of a short option.
    pub argument: Path<'a>,
}

// Returns wrong usage of this kind.
pub(crate) fn wrong<'a>(kind: UsageErrorKind, argument: Path<'a>) -> UsageError<'a>
    ensures { usage_value result ≡ (kind, view_bytes argument.entry) }
{
    UsageError { kind, argument }
}

// Returns what is wrong with the argument of wrong usage.
fn usage_text(kind: UsageErrorKind) -> &'static [u8]
    ensures { result.now ≡ usage_text kind }
{
    match kind {
        UsageErrorKind::MissingCommand => b"COMMAND is missing",
        UsageErrorKind::UnknownCommand => b"unknown command",
        UsageErrorKind::UnknownOption | UsageErrorKind::UnknownLetter => b"unknown option",
        UsageErrorKind::MisplacedRequest => b"must be the first argument or follow the command",
        UsageErrorKind::MissingValue => b"its value is missing",
        UsageErrorKind::UnexpectedValue => b"takes no value",
        UsageErrorKind::ContradictoryOptions => {
            b"--beneath, --in-root and --verbatim exclude one another"
        }
        UsageErrorKind::MissingRoot => b"ROOT is missing",
        UsageErrorKind::MissingBase => b"BASE is missing",
        UsageErrorKind::MissingFrom => b"--from=DIR is missing",
        UsageErrorKind::MissingPair => b"A or B is missing",
        UsageErrorKind::UnexpectedOperand => b"one operand too many",
        UsageErrorKind::BeforeDashes => b"comes before --",
        UsageErrorKind::NewlineInOperand => b"has a newline, which needs -z",
    }
}

// Appends the argument of wrong usage and a colon, unless there is none.
fn push_argument(error: UsageError<'_>, out: &mut Vec<u8>) -> Result<(), AllocError>
    ensures { OnOk result (out.new.items ≡ out.old.items
        ++ shown_argument (usage_value error.entry)) }
{
    match error.kind {
        UsageErrorKind::MissingCommand => return Ok(()),
        UsageErrorKind::UnknownLetter => out.push(b'-')?,
        _ => {}
    }
    push_shown(error.argument.bytes, out)?;
    out.extend_from_slice(b": ")?;
    Ok(())
}

// Appends the line for wrong usage.
pub(crate) fn push_usage(error: UsageError<'_>, out: &mut Vec<u8>) -> Result<(), AllocError>
    ensures { OnOk result (out.new.items
        ≡ out.old.items ++ usage_line (usage_value error.entry)) }
{
    out.extend_from_slice(b"upath: ")?;
    push_argument(error, out)?;
    out.extend_from_slice(usage_text(error.kind))?;
    out.extend_from_slice(b"\nTry 'upath --help'.\n")?;
    Ok(())
}
