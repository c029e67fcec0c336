//! Lists of arguments, and what they ask for.

use std::alloc::{AllocError, Global};
use unix_path::Path;
use upath_commands::{
    Command, Invocation, JoinRule, Options, Task, UsageError, argument_paths, invocation_of,
};

// Appends a word, and then the bytes of a path.
fn push(out: &mut Vec<u8>, word: &str, path: Path<'_>) -> Result<(), AllocError> {
    out.extend_from_slice(word.as_bytes())?;
    out.extend_from_slice(path.bytes)?;
    Ok(())
}

// Appends the word if `is_given` is true.
fn push_if(out: &mut Vec<u8>, is_given: bool, word: &str) -> Result<(), AllocError> {
    if is_given {
        out.extend_from_slice(word.as_bytes())?;
    }
    Ok(())
}

// Appends a slash, and a letter for each option that every command has and that is given.
fn push_letters(out: &mut Vec<u8>, options: Options) -> Result<(), AllocError> {
    out.push(b'/')?;
    push_if(out, options.null, "z")?;
    push_if(out, options.pair, "p")?;
    push_if(out, options.quiet, "q")
}

// Appends a word for each option of this command that is given.
fn push_options(out: &mut Vec<u8>, options: Options) -> Result<(), AllocError> {
    push_if(out, options.inverted, "+inverted")?;
    push_if(out, options.with_reason, "+reason")?;
    push_if(out, options.stripped, "+stripped")?;
    push_if(out, options.by_components, "+by-components")?;
    push_if(out, options.unique, "+unique")?;
    push_if(out, options.reversed, "+reversed")
}

fn join_name(rule: JoinRule) -> &'static str {
    match rule {
        JoinRule::Trusted => "join:",
        JoinRule::Beneath => "beneath:",
        JoinRule::InRoot => "in-root:",
        JoinRule::Verbatim => "verbatim:",
    }
}

// The command's name, with a colon before its own operand.
fn name_of(task: Task<'_>) -> &'static str {
    match task.command {
        Command::Canon => "canon",
        Command::Resolve => "resolve",
        Command::Parent => "parent",
        Command::Ancestors => "ancestors",
        Command::Name => "name",
        Command::Stem => "stem",
        Command::Extension => "ext",
        Command::Parts if task.options.from_back => "parts-from-back",
        Command::Parts => "parts",
        Command::Join => join_name(task.options.rule),
        Command::Strip => "strip:",
        Command::Relative => "relative:",
        Command::Key => "key",
        Command::Unkey => "unkey",
        Command::Escapes => "escapes",
        Command::Under => "under:",
        Command::Sort => "sort",
        Command::Check => "check",
        Command::Uniq => "uniq",
        Command::Archive | Command::Equal => "no task",
    }
}

// The command's name, with its options and its own operand.
fn push_task(out: &mut Vec<u8>, task: Task<'_>) -> Result<(), AllocError> {
    push(out, name_of(task), task.base)?;
    push_options(out, task.options)?;
    push_letters(out, task.options)?;
    match task.or {
        Some(text) => push(out, "o", text),
        None => Ok(()),
    }
}

fn push_invocation(out: &mut Vec<u8>, invocation: Invocation<'_>) -> Result<(), AllocError> {
    match invocation {
        Invocation::Help(name) => push(out, "help:", name)?,
        Invocation::Version => out.extend_from_slice(b"version")?,
        Invocation::Equal(options, a, b) => {
            push(out, "equal:", a)?;
            push(out, "=", b)?;
            push_letters(out, options)?;
        }
        Invocation::Archive(options) => {
            out.extend_from_slice(b"archive")?;
            push_if(out, options.closed, " closed")?;
            push_if(out, options.tar_list, " tar-list")?;
            push_letters(out, options)?;
        }
        Invocation::Each(task, None) => {
            push_task(out, task)?;
            push(out, " <", Path { bytes: b"" })?;
        }
        Invocation::Each(task, Some(paths)) => {
            push_task(out, task)?;
            for path in &paths {
                push(out, " ", *path)?;
            }
        }
    }
    Ok(())
}

fn push_error(alloc: Global, out: &mut Vec<u8>, error: UsageError<'_>) -> Result<(), AllocError> {
    let kind = format!(in alloc; "{:?}", error.kind)?;
    push(out, kind.as_str(), Path { bytes: b" " })?;
    push(out, "", error.argument)
}

// What the words of this line ask for.
fn meaning(alloc: Global, line: &str) -> Result<Vec<u8>, AllocError> {
    let mut arguments = Vec::new(alloc);
    for word in line.split(' ').filter(|word| !word.is_empty()) {
        let mut argument = Vec::new(alloc);
        argument.extend_from_slice(word.as_bytes())?;
        arguments.push(argument)?;
    }
    let mut out = Vec::new(alloc);
    let paths = argument_paths(alloc, arguments.as_slice())?;
    match invocation_of(alloc, paths.as_slice())? {
        Ok(invocation) => push_invocation(&mut out, invocation)?,
        Err(error) => push_error(alloc, &mut out, error)?,
    }
    Ok(out)
}

fn means(alloc: Global, line: &str, want: &str) -> bool {
    match meaning(alloc, line) {
        Ok(got) => got.as_slice() == want.as_bytes(),
        Err(_) => false,
    }
}

#[test]
fn commands(rt: HostRuntime) {
    for (line, want) in [
        ("canon", "canon/ <"),
        ("canon a b", "canon/ a b"),
        ("resolve a", "resolve/ a"),
        ("parent a", "parent/ a"),
        ("ancestors a", "ancestors/ a"),
        ("name a", "name/ a"),
        ("stem a", "stem/ a"),
        ("ext a", "ext/ a"),
        ("parts a", "parts/ a"),
        ("parts -b a", "parts-from-back/ a"),
        ("join r a", "join:r/ a"),
        ("join --beneath r", "beneath:r/ <"),
        ("join r --in-root a", "in-root:r/ a"),
        ("join --verbatim --verbatim r", "verbatim:r/ <"),
        ("strip b a", "strip:b/ a"),
        ("relative --from=d a", "relative:d/ a"),
        ("key a", "key/ a"),
        ("key -z", "key/z <"),
        ("unkey 6100", "unkey/ 6100"),
        ("unkey 6100 --null", "unkey/z 6100"),
        ("escapes -v a", "escapes+inverted/ a"),
        ("escapes --reason", "escapes+reason/ <"),
        ("under b a", "under:b/ a"),
        (
            "under -v b --strip --by-components",
            "under:b+inverted+stripped+by-components/ <",
        ),
        ("sort b a", "sort/ b a"),
        ("sort -zu", "sort+unique/z <"),
        ("-r sort -u", "sort+unique+reversed/ <"),
        ("sort -cu a", "check+unique/ a"),
        ("uniq a", "uniq/ a"),
        ("equal a b", "equal:a=b/"),
    ] {
        assert!(rt; means(rt.alloc(), line, want), "at {line}");
    }
}

#[test]
fn options(rt: HostRuntime) {
    for (line, want) in [
        ("-z canon a -p b", "canon/zp a b"),
        ("canon -zpq -z", "canon/zpq <"),
        ("canon --null --pair --quiet", "canon/zpq <"),
        ("canon --or=x --or y a", "canon/oy a"),
        ("canon --or --help", "canon/o--help <"),
        ("canon - -z a", "canon/z - a"),
        ("canon -z -- -p --help -", "canon/z -p --help -"),
        ("-- canon --", "canon/ --"),
        ("-- canon", "canon/ <"),
        ("canon --", "canon/"),
        ("join --", "MissingRoot join"),
        ("join -- r a", "join:r/ a"),
        ("join r -- a", "join:r/ a"),
        ("join r --", "join:r/"),
        ("join r a -- b", "BeforeDashes a"),
        ("relative --from d a", "relative:d/ a"),
        ("relative --from -- a", "relative:--/ a"),
        ("relative --from --help", "relative:--help/ <"),
        ("relative --from= a", "relative:/ a"),
        ("relative --from=a=b", "relative:a=b/ <"),
        ("relative --from a --from=b", "relative:b/ <"),
        ("equal -q a b", "equal:a=b/q"),
        ("equal a -- b", "equal:a=b/"),
        ("canon -z a\nb", "canon/z a\nb"),
        ("--help", "help:"),
        ("-h canon x", "help:canon"),
        ("help join", "help:join"),
        ("join -h", "help:join"),
        ("-x canon --help", "help:canon"),
        ("--version -x", "version"),
        ("uniq --version", "version"),
    ] {
        assert!(rt; means(rt.alloc(), line, want), "at {line}");
    }
}

#[test]
fn wrong_usage(rt: HostRuntime) {
    for (line, want) in [
        ("", "MissingCommand "),
        ("-z", "MissingCommand "),
        ("cannon a", "UnknownCommand cannon"),
        ("-z help", "UnknownCommand help"),
        ("canon -b", "UnknownLetter b"),
        ("canon -zxy", "UnknownLetter x"),
        ("canon -z\u{e9}y", "UnknownLetter \u{e9}"),
        ("canon -zh", "UnknownLetter h"),
        ("canon -z-", "UnknownLetter -"),
        ("canon --nul", "UnknownOption --nul"),
        ("canon --nul=1", "UnknownOption --nul=1"),
        ("canon --=1", "UnknownOption --=1"),
        ("canon --help=1", "UnknownOption --help=1"),
        ("canon --line-buffered", "UnknownOption --line-buffered"),
        ("canon --from=a", "UnknownOption --from=a"),
        ("canon --null=1", "UnexpectedValue --null=1"),
        ("relative a --from", "MissingValue --from"),
        ("canon --or", "MissingValue --or"),
        ("key -v a", "UnknownLetter v"),
        ("uniq -c", "UnknownLetter c"),
        ("unkey --from=a", "UnknownOption --from=a"),
        ("unkey a\nb", "NewlineInOperand a\nb"),
        ("unkey --or=a\nb c", "NewlineInOperand a\nb"),
        ("relative a", "MissingFrom relative"),
        ("join", "MissingRoot join"),
        ("join --verbatim --beneath", "ContradictoryOptions join"),
        ("strip", "MissingBase strip"),
        ("under -v", "MissingBase under"),
        ("equal", "MissingPair equal"),
        ("equal a", "MissingPair equal"),
        ("equal a b c d", "UnexpectedOperand c"),
        ("canon a b\nc", "NewlineInOperand b\nc"),
        ("strip b\nc", "NewlineInOperand b\nc"),
        ("canon a --help", "MisplacedRequest --help"),
        ("cannon --help", "UnknownCommand cannon"),
        ("join r -h", "MisplacedRequest -h"),
    ] {
        assert!(rt; means(rt.alloc(), line, want), "at {line}");
    }
}
