//! Laws of what is printed: facts that a proof can use if it calls them.
ghost use Rattle.upath_commands.specs.AnswerLaws.{EscapesTested, NeverEmpty, OutputReadsBack};
ghost use Rattle.upath_commands.specs.AnswerLaws.{QuietPrintsNothing, UnderStripsNeverEmpty};

use crate::command::Command;

/// `escapes` prints a path if and only if it escapes, as `path_within` defines it, or has a NUL.
///
/// `upath escapes a ../b` prints `../b`.
pub fn escapes_tested()
    ensures { EscapesTested }
{}

/// `resolve`, `parent`, `strip`, `relative` and `under --strip` print `.` and never the empty path,
/// which a shell can't use.
///
/// `upath relative --from=/a /a` prints `.`.
pub fn answers_are_never_empty()
    ensures resolve { NeverEmpty Command.Resolve }
    ensures parent { NeverEmpty Command.Parent }
    ensures strip { NeverEmpty Command.Strip }
    ensures relative { NeverEmpty Command.Relative }
    ensures under { UnderStripsNeverEmpty }
{}

/// What is written reads back as the answers, one record each, if no answer has the byte that ends
/// records. The law leaves out `-q` and `-p`.
///
/// `upath parts a/b` writes the records `a` and `b`.
pub fn output_reads_back()
    ensures { OutputReadsBack }
{}

/// With `-q` neither answers nor messages are printed.
///
/// `upath name -q a/..` prints nothing, and its status is 1.
pub fn quiet_prints_nothing()
    ensures { QuietPrintsNothing }
{}
