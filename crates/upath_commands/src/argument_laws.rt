//! Laws of arguments: facts about their meaning, each available to a proof that calls it.
ghost use Rattle.upath_commands.specs.ArgumentLaws.{HelpAfterCommand, HelpAlone, HelpFirst};
ghost use Rattle.upath_commands.specs.ArgumentLaws.{HelpUnknown, LettersJoin, LettersJoinInKind};
ghost use Rattle.upath_commands.specs.ArgumentLaws.{OptionsFollowOperands, PathsAfterDashes};
ghost use Rattle.upath_commands.specs.ArgumentLaws.{ForeignOptionThird, PathsAfterRoot};
ghost use Rattle.upath_commands.specs.ArgumentLaws.{UnknownCommandSecond, UnknownOptionFirst};
ghost use Rattle.upath_commands.specs.ArgumentLaws.{ValueAfterEqualsSign};

/// After `-z` and `--`, each argument is a path, whatever its bytes are, and nothing is read.
///
/// `upath canon -z -- --help` writes the canonical form of the path `--help`.
pub fn paths_after_dashes()
    ensures { PathsAfterDashes }
{}

/// After `-z`, ROOT and `--`, each argument is a path, whatever its bytes are, and nothing is read.
///
/// `upath join -z --beneath a -- --help` joins the path `--help` to `a`.
pub fn paths_after_root()
    ensures { PathsAfterRoot }
{}

/// `--help` as the first argument asks for help on the command that the next argument names,
/// whatever follows. Before another word it is wrong usage, and alone it asks for help in general.
///
/// `upath --help canon -x` asks for help on `canon`, although `-x` is no option, and
/// `upath --help cannon` is wrong usage.
pub fn help_first()
    ensures command { HelpFirst }
    ensures unknown { HelpUnknown }
    ensures alone { HelpAlone }
{}

/// `--help` just after a command asks for help on it, whatever options precede the command, and
/// whatever follows.
///
/// `upath -z canon --help -x` asks for help on `canon`, although `-x` is no option.
pub fn help_after_command()
    ensures { HelpAfterCommand }
{}

/// A short option means the same before and after arguments without leading dashes.
///
/// `upath canon a -z` means the same as `upath -z canon a`. A request must be the first argument or
/// follow the command, so the law leaves out `-h`, `help` and an option between a command and a
/// request.
pub fn options_follow_operands()
    ensures { OptionsFollowOperands }
{}

/// Short options mean the same joined in one argument and in two arguments.
///
/// `upath canon -zp` means the same as `upath canon -z -p`. The law leaves out the request `-h`. A
/// message shows the whole character that is no option. So the letters of the first argument are
/// ASCII (`whole`), or the kind of wrong usage is the same (`kind`).
pub fn letters_join()
    ensures whole { LettersJoin }
    ensures kind { LettersJoinInKind }
{}

/// Of all wrong usage a short option that no command has is reported first, wherever it stands
/// before `--`, unless a word that is no command comes just before a request.
///
/// `upath cannon -x` reports `-x`, and `upath join --beneath --verbatim -x` too.
pub fn unknown_option_first()
    ensures { UnknownOptionFirst }
{}

/// If each option is one that some command has, a word that is no command is reported, before an
/// option that it can't have and before operands.
///
/// `upath cannon -v` reports `cannon`.
pub fn unknown_command_second()
    ensures { UnknownCommandSecond }
{}

/// After a command, a short option that only other commands have is reported before operands that
/// are missing, surplus or have a newline.
///
/// `upath strip -u` reports `-u`, and not that BASE is missing.
pub fn foreign_option_third()
    ensures { ForeignOptionThird }
{}

/// The value of `--from` means the same as an argument of its own and after a `=`.
///
/// `upath relative --from a` means the same as `upath relative --from=a`.
pub fn value_after_equals_sign()
    ensures { ValueAfterEqualsSign }
{}
