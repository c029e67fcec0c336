//! The options and the commands: their names, and which command has which option.
ghost use Rattle.std.specs.Prelude.{◌≡◌};
ghost use Rattle.std.specs.Str.{bytes_eq};
ghost use Rattle.upath_commands.specs.Items.{value_awaited};
ghost use Rattle.upath_commands.specs.Options.{command_by_name, has_option, option_by_letter};
ghost use Rattle.upath_commands.specs.Options.{option_by_name, request_by_word};

use crate::command::Command;

// An option.
#[derive(Clone, Copy, PartialEq, Eq)]
pub(crate) enum Flag {
    // `-z` or `--null`.
    Null,
    // `-p` or `--pair`.
    Pair,
    // `-q` or `--quiet`.
    Quiet,
    // `--or`, which takes a value.
    Or,
    // `-b`.
    FromBack,
    // `--beneath`.
    Beneath,
    // `--in-root`.
    InRoot,
    // `--verbatim`.
    Verbatim,
    // `--from`, which takes a value.
    From,
    // `-v`.
    Inverted,
    // `--reason`.
    Reason,
    // `--strip`.
    Strip,
    // `--by-components`.
    ByComponents,
    // `-c`.
    Check,
    // `-u`.
    Unique,
    // `-r`.
    Reversed,
    // `--closed`.
    Closed,
    // `--tar-list`.
    TarList,
}

// Returns the option with this letter, or `None` if no option has it.
pub(crate) fn option_by_letter(letter: u8) -> Option<Flag>
    ensures { result ≡ option_by_letter letter }
{
    match letter {
        b'z' => Some(Flag::Null),
        b'p' => Some(Flag::Pair),
        b'q' => Some(Flag::Quiet),
        b'b' => Some(Flag::FromBack),
        b'v' => Some(Flag::Inverted),
        b'c' => Some(Flag::Check),
        b'u' => Some(Flag::Unique),
        b'r' => Some(Flag::Reversed),
        _ => None,
    }
}

// Returns true if and only if the bytes are this name.
pub(crate) fn is(bytes: &[u8], name: &[u8]) -> bool
    ensures { result ≡ bytes_eq bytes.now name.now }
{
    bytes == name
}

// Returns the option with this long name, or `None` if no option has it. A name that is cut short
// is another name.
pub(crate) fn option_by_name(name: &[u8]) -> Option<Flag>
    ensures { result ≡ option_by_name name.now }
{
    match () {
        _ if is(name, b"null") => Some(Flag::Null),
        _ if is(name, b"pair") => Some(Flag::Pair),
        _ if is(name, b"quiet") => Some(Flag::Quiet),
        _ if is(name, b"or") => Some(Flag::Or),
        _ if is(name, b"beneath") => Some(Flag::Beneath),
        _ if is(name, b"in-root") => Some(Flag::InRoot),
        _ if is(name, b"verbatim") => Some(Flag::Verbatim),
        _ if is(name, b"from") => Some(Flag::From),
        _ if is(name, b"reason") => Some(Flag::Reason),
        _ if is(name, b"closed") => Some(Flag::Closed),
        _ if is(name, b"tar-list") => Some(Flag::TarList),
        _ if is(name, b"strip") => Some(Flag::Strip),
        _ if is(name, b"by-components") => Some(Flag::ByComponents),
        _ => None,
    }
}

// Returns the command with this name, or `None` if no command has it.
pub(crate) fn command_by_name(name: &[u8]) -> Option<Command>
    ensures { result ≡ command_by_name name.now }
{
    match () {
        _ if is(name, b"canon") => Some(Command::Canon),
        _ if is(name, b"resolve") => Some(Command::Resolve),
        _ if is(name, b"parent") => Some(Command::Parent),
        _ if is(name, b"ancestors") => Some(Command::Ancestors),
        _ if is(name, b"name") => Some(Command::Name),
        _ if is(name, b"stem") => Some(Command::Stem),
        _ if is(name, b"ext") => Some(Command::Extension),
        _ if is(name, b"parts") => Some(Command::Parts),
        _ if is(name, b"join") => Some(Command::Join),
        _ if is(name, b"strip") => Some(Command::Strip),
        _ if is(name, b"relative") => Some(Command::Relative),
        _ if is(name, b"key") => Some(Command::Key),
        _ if is(name, b"unkey") => Some(Command::Unkey),
        _ if is(name, b"escapes") => Some(Command::Escapes),
        _ if is(name, b"archive") => Some(Command::Archive),
        _ if is(name, b"under") => Some(Command::Under),
        _ if is(name, b"sort") => Some(Command::Sort),
        _ if is(name, b"uniq") => Some(Command::Uniq),
        _ if is(name, b"equal") => Some(Command::Equal),
        _ => None,
    }
}

// Returns true if and only if the command has the option.
pub(crate) fn has_option(command: Command, option: Flag) -> bool
    ensures { result ≡ has_option command option }
{
    match option {
        Flag::FromBack => matches!(command, Command::Parts),
        Flag::Beneath | Flag::InRoot | Flag::Verbatim => matches!(command, Command::Join),
        Flag::From => matches!(command, Command::Relative),
        Flag::Inverted => matches!(command, Command::Escapes | Command::Under),
        Flag::Reason => matches!(command, Command::Escapes | Command::Archive),
        Flag::Closed | Flag::TarList => matches!(command, Command::Archive),
        Flag::Strip | Flag::ByComponents => matches!(command, Command::Under),
        Flag::Check | Flag::Unique | Flag::Reversed => matches!(command, Command::Sort),
        Flag::Pair | Flag::Or => !matches!(command, Command::Archive),
        Flag::Null | Flag::Quiet => true,
    }
}

// What is asked for in the place of a command.
#[derive(Clone, Copy, PartialEq, Eq)]
pub(crate) enum Request {
    // `--help` or `-h`.
    Help,
    // `--version`.
    Version,
}

// Returns the request that this argument is, or `None` if it is none.
pub(crate) fn request_by_word(word: &[u8]) -> Option<Request>
    ensures { result ≡ request_by_word word.now }
{
    match () {
        _ if is(word, b"--help") => Some(Request::Help),
        _ if is(word, b"-h") => Some(Request::Help),
        _ if is(word, b"--version") => Some(Request::Version),
        _ => None,
    }
}

// Returns the option whose value is the next argument, or `None` if this argument is no such
// option.
pub(crate) fn value_awaited(argument: &[u8]) -> Option<Flag>
    ensures { result ≡ value_awaited argument.now }
{
    match () {
        _ if is(argument, b"--from") => Some(Flag::From),
        _ if is(argument, b"--or") => Some(Flag::Or),
        _ => None,
    }
}
