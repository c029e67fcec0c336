//! The command `archive`, which decides whether the entries of an archive are accepted.
ghost use Rattle.std.specs.Prelude.{◌≡◌, ◌↔◌, ◌⊎◌, [], IfOk, false};
ghost use Rattle.std.specs.Prelude.{if◌then◌else◌, map, true};
ghost use Rattle.byte_streams.specs.Watched.{has_failed, watched_inner};
ghost use Rattle.path_archive.specs.EntryViews.{entry_value};
ghost use Rattle.upath_commands.specs.Archives.{IsSafe, IsSafeIn, IsText, OnArchive, OnInput};
ghost use Rattle.upath_commands.specs.Archives.{entries_messages, entries_output};
ghost use Rattle.upath_commands.specs.Archives.{level_of, none_refused};
ghost use Rattle.upath_commands.specs.Replies.{Gave, IsNew, ReadCalls};

use crate::command::Options;
use crate::input::read_all;
use crate::messages::send;
use crate::output::RunError;
use crate::refused::{cut_line, push_messages, push_records, refused_line};
use crate::replies::Replies;
use byte_streams::{Sink, Source, Watched};
use path_archive::{Entry, Level, Refusal, entries, refusals};
use std::alloc::{AllocError, Global};
use tar_listing::laws::listing_reads_back;
use tar_listing::records_of;

// What is written, the messages, and the answer.
#[derive(Drop)]
pub(crate) struct Decision {
    pub(crate) output: Vec<u8>,
    pub(crate) messages: Vec<u8>,
    pub(crate) is_safe: bool,
}

// Returns the level that the options ask for.
fn level_of(options: Options) -> Level
    ensures { result ≡ level_of options }
{
    if options.closed {
        Level::Closed
    } else {
        Level::Inside
    }
}

// Returns what is written for these refusals of entries, the messages and the answer.
fn decide_entries(
    alloc: Global,
    options: Options,
    entries: &[Entry<'_>],
    refusals: &[Refusal],
) -> Result<Decision, AllocError>
    ensures texts { let those = map entry_value entries.now in IfOk result (λ decision.
        IsText decision (entries_output options those refusals.now)
        (entries_messages options those refusals.now)) }
    ensures safe { IfOk result (λ decision.
        decision.is_safe ≡ none_refused (map entry_value entries.now) refusals.now) }
{
    let mut output = Vec::new(alloc);
    let mut messages = Vec::new(alloc);
    if !options.quiet {
        push_records(options, entries, refusals, &mut output)?;
        push_messages(entries, refusals, &mut messages)?;
    }
    Ok(Decision {
        output,
        messages,
        is_safe: !entries.is_empty() && refusals.is_empty(),
    })
}

// Returns the decision on an input that is refused as a whole, with this message.
fn refuse(alloc: Global, options: Options, line: Vec<u8>) -> Decision
    ensures texts { IsText result [] (if options.quiet then [] else line.items) }
    ensures safe { result.is_safe ≡ false }
{
    Decision {
        output: Vec::new(alloc),
        messages: if options.quiet { Vec::new(alloc) } else { line },
        is_safe: false,
    }
}

// Returns what is written for records, the messages and the answer.
fn decide_records(alloc: Global, options: Options, records: &[u8]) -> Result<Decision, AllocError>
    ensures texts { IfOk result (λ decision.
        OnInput false options records.now (IsText decision)) }
    ensures safe { IfOk result (λ decision.
        (decision.is_safe ≡ true) ↔ IsSafeIn false options records.now) }
{
    let Some(entries) = entries(alloc, records)? else {
        return Ok(refuse(alloc, options, cut_line(alloc, records)?));
    };
    let Some(refusals) = refusals(alloc, records, level_of(options))? else {
        return Ok(refuse(alloc, options, cut_line(alloc, records)?));
    };
    decide_entries(alloc, options, entries.as_slice(), refusals.as_slice())
}

// Returns what is written for an input, the messages and the answer.
fn decide(alloc: Global, options: Options, input: &[u8]) -> Result<Decision, AllocError>
    ensures texts { IfOk result (λ decision.
        OnInput options.tar_list options input.now (IsText decision)) }
    ensures safe { IfOk result (λ decision.
        (decision.is_safe ≡ true) ↔ IsSafe options input.now) }
{
    if !options.tar_list {
        return decide_records(alloc, options, input);
    }
    listing_reads_back();
    match records_of(alloc, input)? {
        Ok(records) => decide_records(alloc, options, records.as_slice()),
        Err(line) => Ok(refuse(alloc, options, refused_line(alloc, line)?)),
    }
}

// Decides whether the entries of the input are accepted. Returns the answer.
pub(crate) fn give_archive<R: Source, W: Sink, E: Sink>(
    alloc: Global,
    options: Options,
    reader: &mut Watched<R>,
    replies: &mut Replies<W, E>,
) -> Result<bool, RunError>
    requires read { has_failed reader.old ≡ false }
    requires new { IsNew replies.old }
    ensures gave { Gave W.Sink E.Sink result replies.old replies.new
        (R.remaining (watched_inner reader.old))
        (OnArchive options) (λ input P. P [] [] ⊎ OnArchive options input P)
        (λ input is. (is ≡ true) ↔ IsSafe options input) }
    ensures reads { ReadCalls R.Source result reader.old reader.new }
{
    let input = read_all(alloc, reader)?;
    let decision = decide(alloc, options, input.as_slice())?;
    send(&mut replies.messages, decision.messages.as_slice());
    replies.answers.add(decision.output.as_slice())?;
    Ok(decision.is_safe)
}
