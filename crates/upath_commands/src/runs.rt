//! What is done for a list of arguments.
ghost use Rattle.std.specs.Prelude.{◌≡◌, ◌<◌, ◌↔◌, ◌⊎◌, [], false, true, None, Some, Ok, Err};
ghost use Rattle.std.specs.Prelude.{IfErr, IfOk, IfSome, IsErrAnd, IsErrOf, IsTrue, OnErr, OnOk};
ghost use Rattle.std.specs.declared.io.Error.{Error as IoError};
ghost use Rattle.byte_streams.specs.Calls.{Many, ReadsUntilNone, WritesAndFlushes, WritesSome};
ghost use Rattle.byte_streams.specs.Calls.{WritesThenNone, WritesUntilNone};
ghost use Rattle.byte_streams.specs.Watched.{has_failed, watched_inner};
ghost use Rattle.upath_commands.specs.Arguments.{meaning_of};
ghost use Rattle.upath_commands.specs.Invocations.{invocation_value, task_value, usage_value};
ghost use Rattle.upath_commands.specs.Outputs.{Ended, error_line, IsOfWrite};
ghost use Rattle.upath_commands.specs.Records.{paths_of};
ghost use Rattle.upath_commands.specs.Replies.{answers_failed, answers_flushed, answers_to};
ghost use Rattle.upath_commands.specs.Replies.{Gave, GaveThis, is_deaf, IsNew, messages_to};
ghost use Rattle.upath_commands.specs.Replies.{ReadCalls, Replied, RepliedTo, state_of};
ghost use Rattle.upath_commands.specs.Runs.{asked, Done, Failed, GaveFor, help_text, hides_errors};
ghost use Rattle.upath_commands.specs.Runs.{input_if, is_quiet, IsAnswer, IsStatus, IsStatusOf};
ghost use Rattle.upath_commands.specs.Runs.{OnBegun, OnBegunReplies, OnPrinted, OnReplies, Ran};
ghost use Rattle.upath_commands.specs.Runs.{reads, reads_input, Reported, yes_of};
ghost use Rattle.upath_commands.specs.Sorting.{chosen, is_gathered};
ghost use Rattle.upath_commands.specs.Usage.{usage_line};

use crate::archive::give_archive;
use crate::arguments::invocation_of;
use crate::command::{Command, Invocation, Task};
use crate::engine::{answer_input, answer_paths};
use crate::input::read_all;
use crate::messages::{report_error, report_usage};
use crate::output::RunError;
use crate::push::end_of;
use crate::records::records_in;
use crate::replies::{Replies, Tally};
use crate::selection::Selection;
use crate::sorting::{choose, is_gathered, is_uniq};
use crate::usage::UsageError;
use byte_streams::{Sink, Source, Watched};
use std::alloc::Global;
use unix_path::Path;

/// The help text of a command.
///
/// `HelpText { name: b"canon", text: b"Usage: upath canon\n" }` is that of `canon`.
#[derive(Clone, Copy)]
pub struct HelpText<'a> {
    /// The name of the command.
    pub name: &'a [u8],
    /// The help text.
    pub text: &'a [u8],
}

/// The texts that `--help` and `--version` print.
///
/// `Texts { general: b"", version: b"upath 1\n", commands: &[] }` has an empty help text.
#[derive(Clone, Copy)]
pub struct Texts<'a> {
    /// The help text of the program.
    pub general: &'a [u8],
    /// The version.
    pub version: &'a [u8],
    /// The help texts of the commands.
    pub commands: &'a [HelpText<'a>],
}

// Returns the help text of the command with this name, or the general one if there is none.
fn help_text<'a>(texts: Texts<'a>, name: &[u8]) -> &'a [u8]
    ensures { result.now ≡ help_text texts.entry name.now }
{
    for help in texts.commands {
        if help.name == name {
            return help.text;
        }
    }
    texts.general
}

// Answers these paths, of a command that needs all of them before it answers.
fn answer_gathered<W: Sink, E: Sink>(
    alloc: Global,
    task: &Task<'_>,
    mut paths: Vec<Path<'_>>,
    replies: &mut Replies<W, E>,
) -> Result<(), RunError>
    requires write { answers_failed replies.old ≡ false }
    requires gathered { is_gathered task.now.command ≡ true }
    ensures { let value = task_value task.now in Replied W.Sink E.Sink value result replies.old
        replies.new (chosen value.command value.options (paths_of paths.entry.items)) }
{
    choose(task, &mut paths)?;
    let all = &mut Selection::All;
    answer_paths(alloc, task, all, paths.as_slice(), replies)
}

// Answers these paths.
fn answer_operands<W: Sink, E: Sink>(
    alloc: Global,
    task: &Task<'_>,
    paths: &[Path<'_>],
    replies: &mut Replies<W, E>,
) -> Result<(), RunError>
    requires { answers_failed replies.old ≡ false }
    ensures { let value = task_value task.now in Replied W.Sink E.Sink value result replies.old
        replies.new (chosen value.command value.options (paths_of paths.now)) }
{
    if is_gathered(task.command) {
        let paths = Vec::from_slice(alloc, paths)?;
        return answer_gathered(alloc, task, paths, replies);
    }
    let mut selection = Selection::new(alloc, is_uniq(task.command));
    answer_paths(alloc, task, &mut selection, paths, replies)
}

// Answers the records of the input.
fn answer_records_read<R: Source, W: Sink, E: Sink>(
    alloc: Global,
    task: &Task<'_>,
    reader: &mut Watched<R>,
    replies: &mut Replies<W, E>,
) -> Result<(), RunError>
    requires write { answers_failed replies.old ≡ false }
    requires read { has_failed reader.old ≡ false }
    ensures { let value = task_value task.now in
        RepliedTo R.Source W.Sink E.Sink value result reader.old reader.new replies.old replies.new
        (asked value None) }
{
    if is_gathered(task.command) {
        let input = read_all(alloc, reader)?;
        let paths = records_in(alloc, input.as_slice(), end_of(task.options))?;
        return answer_gathered(alloc, task, paths, replies);
    }
    let mut selection = Selection::new(alloc, is_uniq(task.command));
    answer_input(alloc, task, &mut selection, reader, replies)
}

// Returns the answer of a command, when it has answered its paths.
fn yes_of(command: Command, tally: Tally) -> bool
    ensures { result ≡ yes_of command tally.all tally.any }
{
    match command {
        Command::Under => tally.any,
        _ => tally.all,
    }
}

// Answers these paths. Returns the answer of the command.
fn give_operands<W: Sink, E: Sink>(
    alloc: Global,
    task: &Task<'_>,
    paths: &[Path<'_>],
    replies: &mut Replies<W, E>,
) -> Result<bool, RunError>
    requires { IsNew replies.old }
    ensures gave { let value = task_value task.now in GaveFor W.Sink E.Sink value result replies.old
        replies.new (Some []) (λ _. chosen value.command value.options (paths_of paths.now)) }
    ensures no_read { IfErr result (λ error. (error ≡ RunError.Read) → ⊥) }
{
    answer_operands(alloc, task, paths, replies)?;
    Ok(yes_of(task.command, replies.tally))
}

// Answers the records of the input. Returns the answer of the command.
fn give_input<R: Source, W: Sink, E: Sink>(
    alloc: Global,
    task: &Task<'_>,
    reader: &mut Watched<R>,
    replies: &mut Replies<W, E>,
) -> Result<bool, RunError>
    requires read { has_failed reader.old ≡ false }
    requires new { IsNew replies.old }
    ensures gave { let value = task_value task.now in GaveFor W.Sink E.Sink value result replies.old
        replies.new (R.remaining (watched_inner reader.old))
        (asked value None) }
    ensures reads { ReadCalls R.Source result reader.old reader.new }
{
    answer_records_read(alloc, task, reader, replies)?;
    Ok(yes_of(task.command, replies.tally))
}

// Adds a text. Returns true.
fn give_text<W: Sink, E: Sink>(text: &[u8], replies: &mut Replies<W, E>) -> Result<bool, RunError>
    requires { answers_failed replies.old ≡ false }
    ensures gave { GaveThis W.Sink E.Sink result replies.old replies.new (Some [])
        (λ _. text.now) (λ _. []) (λ _. true) }
    ensures no_read { IfErr result (λ error. (error ≡ RunError.Read) → ⊥) }
{
    replies.answers.add(text)?;
    Ok(true)
}

// Gives the answers that an invocation asks for. Returns whether the answer is yes.
fn give<R: Source, W: Sink, E: Sink>(
    alloc: Global,
    invocation: &Invocation<'_>,
    texts: Texts<'_>,
    reader: &mut Watched<R>,
    replies: &mut Replies<W, E>,
) -> Result<bool, RunError>
    requires read { has_failed reader.old ≡ false }
    requires new { IsNew replies.old }
    ensures gave { let value = invocation_value invocation.now in
        Gave W.Sink E.Sink result replies.old replies.new
        (input_if (reads_input value) (R.remaining (watched_inner reader.old)))
        (OnPrinted texts.entry value) (OnBegun texts.entry value) (IsAnswer value) }
    ensures reads { ReadCalls R.Source result reader.old reader.new }
    ensures unread { reads_input (invocation_value invocation.now) ≡ false
        → reader.new ≡ reader.old }
{
    match invocation {
        Invocation::Help(name) => give_text(help_text(texts, name.bytes), replies),
        Invocation::Version => give_text(texts.version, replies),
        Invocation::Equal(_, path, other) => Ok(path == other),
        Invocation::Archive(options) => give_archive(alloc, *options, reader, replies),
        Invocation::Each(task, paths) => match paths {
            Some(paths) => give_operands(alloc, task, paths.as_slice(), replies),
            None => give_input(alloc, task, reader, replies),
        },
    }
}

// Gives the answers that an invocation asks for, and flushes. Returns whether the answer is yes.
fn run<R: Source, W: Sink, E: Sink>(
    alloc: Global,
    invocation: &Invocation<'_>,
    texts: Texts<'_>,
    reader: &mut Watched<R>,
    replies: &mut Replies<W, E>,
) -> Result<bool, RunError>
    requires read { has_failed reader.old ≡ false }
    requires new { IsNew replies.old }
    ensures ran { let value = invocation_value invocation.now in
        Ran W.Sink E.Sink result replies.old replies.new
        (input_if (reads_input value) (R.remaining (watched_inner reader.old)))
        (OnPrinted texts.entry value) (OnBegun texts.entry value) (IsAnswer value) }
    ensures reads { ReadCalls R.Source result reader.old reader.new }
    ensures unread { reads_input (invocation_value invocation.now) ≡ false
        → reader.new ≡ reader.old }
{
    let yes = give(alloc, invocation, texts, reader, replies)?;
    replies.answers.finish()?;
    Ok(yes)
}

// Returns true if nothing is to be printed.
fn is_quiet(invocation: &Invocation<'_>) -> bool
    ensures { result ≡ is_quiet (invocation_value invocation.now) }
{
    match invocation {
        Invocation::Equal(options, _, _) | Invocation::Archive(options) => options.quiet,
        Invocation::Each(task, _) => task.options.quiet,
        _ => false,
    }
}

// Does what an invocation asks for. Returns the exit status, and writes a message for an error.
fn run_invocation<R: Source, W: Sink, E: Sink>(
    alloc: Global,
    invocation: &Invocation<'_>,
    texts: Texts<'_>,
    reader: &mut Watched<R>,
    replies: &mut Replies<W, E>,
) -> Result<u8, RunError>
    requires read { has_failed reader.old ≡ false }
    requires new { IsNew replies.old }
    ensures reported { let value = invocation_value invocation.now in
        Reported W.Sink E.Sink result replies.old replies.new
        (input_if (reads_input value) (R.remaining (watched_inner reader.old)))
        (OnPrinted texts.entry value) (OnBegun texts.entry value) (error_line (is_quiet value)) }
    ensures status { let value = invocation_value invocation.now in IfOk result (λ status.
        IfSome (input_if (reads_input value) (R.remaining (watched_inner reader.old))) (λ input.
        IsStatusOf value input status)) }
    ensures range { IfOk result (λ status. status < 2) }
    ensures ended { Ended W.Sink result replies.old.answers replies.new.answers }
    ensures reads { ReadCalls R.Source result reader.old reader.new }
    ensures unread { reads_input (invocation_value invocation.now) ≡ false
        → reader.new ≡ reader.old }
{
    match run(alloc, invocation, texts, reader, replies) {
        Ok(true) => Ok(0),
        Ok(false) => Ok(1),
        Err(error) => {
            report_error(&mut replies.messages, is_quiet(invocation), error);
            Err(error)
        }
    }
}

// Writes the message for wrong usage. Returns the exit status.
fn refuse<W: Sink, E: Sink>(
    alloc: Global,
    usage: UsageError<'_>,
    replies: &mut Replies<W, E>,
) -> Result<u8, RunError>
    requires { IsNew replies.old }
    ensures reported { let line = usage_line (usage_value usage.entry) in
        Reported W.Sink E.Sink result replies.old replies.new (Some []) (λ _ P. P [] line)
        (λ _ P. P [] line) (error_line false) }
    ensures status { IfOk result (λ status. status ≡ 2) }
    ensures only_memory { IfErr result (λ error. error ≡ RunError.Memory) }
    ensures unwritten { replies.new.answers ≡ replies.old.answers }
{
    match report_usage(alloc, &mut replies.messages, usage) {
        Ok(()) => Ok(2),
        Err(_) => {
            report_error(&mut replies.messages, false, RunError::Memory);
            Err(RunError::Memory)
        }
    }
}

/// Does what the arguments ask for. Returns the exit status: 0 if the answer is yes, 1 if not, and
/// 2 for wrong usage.
///
/// For wrong usage nothing is read or written, and a message says what is wrong. After an error a
/// prefix of the output was written, and a message says what failed, unless the option `-q` is
/// given, nobody reads the output any more, or the error is `Arguments`, which the caller reports.
///
/// For `equal`, `a` and `a/.` the status is 0.
pub fn run_arguments<R: Source, W: Sink, E: Sink>(
    alloc: Global,
    arguments: &[Path<'_>],
    texts: Texts<'_>,
    reader: &mut Watched<R>,
    replies: &mut Replies<W, E>,
) -> Result<u8, RunError>
    requires reader { has_failed reader.old ≡ false }
    requires new { IsNew replies.old }

    // What is written and the status, for a known input.
    ensures ok { let meaning = meaning_of (paths_of arguments.now) in OnOk result
        (IfSome (input_if (reads meaning) (R.remaining (watched_inner reader.old))) (λ input.
        OnReplies texts.entry meaning input
        (Done (state_of W.Sink E.Sink replies.old) (state_of W.Sink E.Sink replies.new)))) }
    ensures status { let meaning = meaning_of (paths_of arguments.now) in IfOk result (λ status.
        IfSome (input_if (reads meaning) (R.remaining (watched_inner reader.old))) (λ input.
        IsStatus meaning input status)) }
    ensures range { IfOk result (λ status. status < 3) }

    // After an error: prefixes of the output and of the messages, and the message for the error.
    ensures err { let meaning = meaning_of (paths_of arguments.now) in IfErr result (λ error.
        IfSome (input_if (reads meaning) (R.remaining (watched_inner reader.old))) (λ input.
        OnBegunReplies texts.entry meaning input (λ output messages.
        Failed (state_of W.Sink E.Sink replies.old) (state_of W.Sink E.Sink replies.new)
        output messages (error_line (hides_errors meaning) error)))) }

    // The error is `Read` if and only if a read has failed, and `Write` or `Closed` if and only if
    // a write or a flush of answers has failed.
    ensures read { IsErrOf result RunError.Read ↔ IsTrue (has_failed reader.new) }
    ensures write { IsErrAnd result IsOfWrite ↔ IsTrue (answers_failed replies.new) }

    // The reads: each returned bytes, but for the last. There is none but for `archive` and for a
    // command without paths.
    ensures reads { ReadsUntilNone R.read_gives (watched_inner reader.old)
        (watched_inner reader.new) }
    ensures unread { reads (meaning_of (paths_of arguments.now)) ≡ false
        → reader.new ≡ reader.old }

    // The writes of answers: each wrote bytes, but for the last one if it failed, and there is at
    // most one flush, after all writes. For wrong usage there is neither.
    ensures flushed { IfOk result (λ status. status < 2 → IsTrue (answers_flushed replies.new)) }
    ensures flushes { IfOk result (λ status. status < 2
        → WritesAndFlushes W.write_gives W.flush_gives (answers_to replies.old) (Ok tt)
        (answers_to replies.new)) }
    ensures unwritten { IfOk result (λ status. status ≡ 2
        → answers_to replies.new ≡ answers_to replies.old) }
    ensures gave_up { OnErr result
        (WritesUntilNone W.write_gives (answers_to replies.old) (answers_to replies.new)
        ⊎ ((error : IoError) × WritesAndFlushes W.write_gives W.flush_gives
        (answers_to replies.old) (Err error) (answers_to replies.new))) }

    // The writes of messages: each wrote bytes, but for the last one if it failed. There is none
    // after that.
    ensures spoke { is_deaf replies.new ≡ false
        → Many (WritesSome E.write_gives) (messages_to replies.old) (messages_to replies.new) }
    ensures deaf { is_deaf replies.old ≡ false → is_deaf replies.new ≡ true
        → WritesThenNone E.write_gives (messages_to replies.old) (messages_to replies.new) }
    ensures silent { is_deaf replies.old ≡ true
        → messages_to replies.new ≡ messages_to replies.old }
{
    match invocation_of(alloc, arguments) {
        Err(_) => Err(RunError::Arguments),
        Ok(Ok(invocation)) => run_invocation(alloc, &invocation, texts, reader, replies),
        Ok(Err(usage)) => refuse(alloc, usage, replies),
    }
}
