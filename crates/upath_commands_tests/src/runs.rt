//! Whole runs: arguments and an input, and what is printed for them.

use byte_streams::{StdIo, Watched};
use std::alloc::{AllocError, Global};
use std::io;
use std::io::{ErrorKind, Read};
use upath_commands::{HelpText, Replies, RunError, Texts, argument_paths, run_arguments};

const COMMANDS: [HelpText<'static>; 1] = [HelpText {
    name: b"canon",
    text: b"help of canon\n",
}];

// The words of a line as arguments. An underscore is the empty argument.
fn words(alloc: Global, line: &str) -> Result<Vec<Vec<u8>>, AllocError> {
    let mut arguments = Vec::new(alloc);
    for word in line.split(' ').filter(|word| !word.is_empty()) {
        let mut argument = Vec::new(alloc);
        if word != "_" {
            argument.extend_from_slice(word.as_bytes())?;
        }
        arguments.push(argument)?;
    }
    Ok(arguments)
}

// The status, the answers and the messages of a run, with a bar after the first and the second.
fn printed<R: Read>(alloc: Global, line: &str, reader: &mut R) -> Result<Vec<u8>, AllocError> {
    let arguments = words(alloc, line)?;
    let paths = argument_paths(alloc, arguments.as_slice())?;
    let texts = Texts {
        general: b"help\n",
        version: b"version\n",
        commands: &COMMANDS,
    };
    let mut answers = Vec::new(alloc);
    let mut messages = Vec::new(alloc);
    let mut reader = Watched::new(StdIo::new(reader));
    let answers_to = StdIo::new(&mut answers);
    let mut replies = Replies::new(alloc, answers_to, StdIo::new(&mut messages));
    let result = run_arguments(alloc, paths.as_slice(), texts, &mut reader, &mut replies);
    drop(replies);
    let mut out = Vec::new(alloc);
    out.push(match result {
        Ok(status) => b'0' + status % 10,
        Err(RunError::Read) => b'r',
        Err(_) => b'e',
    })?;
    out.push(b'|')?;
    out.extend_from_slice(answers.as_slice())?;
    out.push(b'|')?;
    out.extend_from_slice(messages.as_slice())?;
    Ok(out)
}

pub(crate) fn prints<R: Read>(alloc: Global, line: &str, reader: &mut R, want: &str) -> bool {
    match printed(alloc, line, reader) {
        Ok(got) => got.as_slice() == want.as_bytes(),
        Err(_) => false,
    }
}

// A reader of which each read fails.
#[derive(Drop)]
pub(crate) struct Broken;

impl Read for Broken {
    fn read(&mut self, _buf: &mut [u8]) -> io::Result<usize> {
        Err(io::Error::from(ErrorKind::Other))
    }
}

#[test]
fn empty_answers(rt: HostRuntime) {
    for (line, want) in [
        ("resolve a/.. _", "0|.\n.\n|"),
        ("strip a a//", "0|.\n|"),
        ("relative --from=/a /a", "0|.\n|"),
        ("under --strip a a a/b", "0|.\nb\n|"),
        ("parent a .. ./a a/b", "0|.\n.\n.\na\n|"),
        ("parent .", "1||upath: .: no parent\n"),
        ("parent ./", "1||upath: ./: no parent\n"),
        ("parent _", "1||upath: : no parent\n"),
        ("parent /", "1||upath: /: no parent\n"),
        ("ancestors a/b", "0|a/b\na\n.\n|"),
        ("ancestors ./a//b/", "0|./a//b/\n./a\n.\n|"),
        ("ancestors /a", "0|/a\n/\n|"),
        ("ancestors . _", "0|.\n\n|"),
        ("canon _", "0|\n|"),
    ] {
        assert!(rt; prints(rt.alloc(), line, &mut Broken, want), "at {line}");
    }
}

#[test]
fn statuses(rt: HostRuntime) {
    for (line, want) in [
        ("under a b", "1||"),
        ("under -q a b", "1||"),
        ("under -q a b a", "0||"),
        ("under -v a a", "1||"),
        ("under -v a a b", "0|b\n|"),
        ("escapes a", "0||"),
        ("escapes ../a b", "1|../a\n|"),
        ("escapes -v ../a b", "1|b\n|"),
        ("escapes --reason /a ../b c", "1|root\t/a\nescapes\t../b\n|"),
        ("name a/.. b", "1|b\n|upath: a/..: no file name\n"),
        ("name -q a/..", "1||"),
        ("name --or=- a/.. b", "1|-\nb\n|upath: a/..: no file name\n"),
        (
            "name -p --or x a/..",
            "1|a/..\tx\n|upath: a/..: no file name\n",
        ),
        ("name --or= a/..", "1|\n|upath: a/..: no file name\n"),
        ("escapes --or=x a", "0||"),
        ("under --or=x a b", "1||"),
        ("sort -c b a c", "1||upath: a: is out of order\n"),
        ("sort -c a a//. b", "0||"),
        ("sort -cu a a//. b", "1||upath: a//.: is out of order\n"),
        ("sort -cr b a a", "0||"),
        ("sort -cr a b", "1||upath: b: is out of order\n"),
        ("sort -cq b a", "1||"),
    ] {
        assert!(rt; prints(rt.alloc(), line, &mut Broken, want), "at {line}");
    }
}

#[test]
fn requests(rt: HostRuntime) {
    for (line, want) in [
        ("--help", "0|help\n|"),
        ("-h canon", "0|help of canon\n|"),
        ("help canon a", "0|help of canon\n|"),
        ("help -x", "0|help\n|"),
        ("--version -x", "0|version\n|"),
        ("canon --help a", "0|help of canon\n|"),
        ("-z canon -h", "0|help of canon\n|"),
        ("join --beneath r -- --help", "0|r/--help\n|"),
        ("join --beneath r -- -q", "0|r/-q\n|"),
        ("join --beneath r --", "0||"),
        ("canon --", "0||"),
        ("under r --", "1||"),
    ] {
        assert!(rt; prints(rt.alloc(), line, &mut Broken, want), "at {line}");
    }
}

#[test]
fn wrong_usage(rt: HostRuntime) {
    for (line, want) in [
        ("", "COMMAND is missing"),
        ("cannon", "cannon: unknown command"),
        ("cannon --help", "cannon: unknown command"),
        ("help cannon", "cannon: unknown command"),
        ("--help cannon -x", "cannon: unknown command"),
        ("-x cannon -h", "cannon: unknown command"),
        ("canon -x", "-x: unknown option"),
        ("canon -\u{e9}a", "-\u{e9}: unknown option"),
        ("canon --nul", "--nul: unknown option"),
        ("canon -b", "-b: unknown option"),
        ("join --by-components r", "--by-components: unknown option"),
        ("canon --null=1", "--null=1: takes no value"),
        ("canon --or", "--or: its value is missing"),
        ("join", "join: ROOT is missing"),
        ("under -v", "under: BASE is missing"),
        ("relative a", "relative: --from=DIR is missing"),
        ("equal a", "equal: A or B is missing"),
        ("equal a b c", "c: one operand too many"),
        ("archive a", "a: one operand too many"),
        ("archive -p", "-p: unknown option"),
        ("archive --or=a", "--or=a: unknown option"),
        ("canon a -- b", "a: comes before --"),
        ("canon a\n", "a\\x0a: has a newline, which needs -z"),
        (
            "canon a --help",
            "--help: must be the first argument or follow the command",
        ),
    ] {
        let all = format!(in rt.alloc(); "2||upath: {want}\nTry 'upath --help'.\n");
        let is_right = all.is_ok_and(|all| prints(rt.alloc(), line, &mut Broken, all.as_str()));
        assert!(rt; is_right, "at {line}");
    }
}

#[test]
fn messages(rt: HostRuntime) {
    for (line, want) in [
        ("name \u{1b}[1m/..", "1||upath: \\x1b[1m/..: no file name\n"),
        (
            "name \u{85}\u{a0}/..",
            "1||upath: \\xc2\\x85\u{a0}/..: no file name\n",
        ),
        (
            "name \\\u{7f}/..",
            "1||upath: \\x5c\\x7f/..: no file name\n",
        ),
        (
            "relative --from=/\u{7f} a",
            "1||upath: a: no relative path from /\\x7f, as only one of them has a leading slash\n",
        ),
        (
            "relative --from=../a b",
            "1||upath: b: no relative path from ../a, which has a .. that the path lacks\n",
        ),
    ] {
        assert!(rt; prints(rt.alloc(), line, &mut Broken, want), "at {line}");
    }
}

// A reader of a text in blocks of two bytes.
#[derive(Drop)]
struct Pairs<'a> {
    text: &'a [u8],
}

impl Read for Pairs<'_> {
    fn read(&mut self, buf: &mut [u8]) -> io::Result<usize> {
        let count = self.text.len().min(2).min(buf.len());
        buf[..count].copy_from_slice(&self.text[..count]);
        self.text = &self.text[count..];
        Ok(count)
    }
}

// A reader of a text, after which each read fails.
#[derive(Drop)]
struct Once<'a> {
    text: &'a [u8],
}

impl Read for Once<'_> {
    fn read(&mut self, buf: &mut [u8]) -> io::Result<usize> {
        let count = self.text.len().min(buf.len());
        if count == 0 {
            return Err(io::Error::from(ErrorKind::Other));
        }
        buf[..count].copy_from_slice(&self.text[..count]);
        self.text = &self.text[count..];
        Ok(count)
    }
}

#[test]
fn inputs(rt: HostRuntime) {
    for (line, input, want) in [
        ("canon", "", "0||"),
        ("canon", "a//b\n\nccccc\nd", "0|a/b\n\nccccc\nd\n|"),
        ("canon", "\n", "0|\n|"),
        ("uniq", "a//b\nc\na/b\n", "0|a//b\nc\n|"),
        ("sort", "b\na", "0|a\nb\n|"),
        ("escapes -z", "../a\n", "1|../a\n\0|"),
        ("escapes --reason", "a\0\n", "1|nul\ta\0\n|"),
        ("under a", "b\nc\n", "1||"),
        ("archive", "d\0a\0\0f\0a/b\0\0", "0||"),
        (
            "archive --reason",
            "l\0x\0/\0f\0x/a\0\0",
            "1|below\tx/a\n|upath: x/a: lies below the symbolic link x\n",
        ),
        (
            "archive -z --closed",
            "l\0x\0/\0",
            "1|x\0|upath: x: leads out, to /\n",
        ),
        ("archive -q", "f\0/a\0\0", "1||"),
        (
            "archive --tar-list",
            "-rw-r--r-- 0/0 5 2026-01-31 12:00 \"/a\"\n",
            "1|/a\n|upath: /a: has a root, has a .., or does not end in a name\n",
        ),
        (
            "archive --tar-list",
            "f\0a\0\0",
            "1||upath: line 1: not a line of tar's listing\n",
        ),
        ("archive --", "", "1||upath: no entries\n"),
        (
            "archive",
            "f\0a\0\0f\0b\0",
            "1||upath: record 2 is cut off\n",
        ),
    ] {
        let mut reader = Pairs {
            text: input.as_bytes(),
        };
        assert!(rt; prints(rt.alloc(), line, &mut reader, want), "at {line}");
    }
    for (line, input, want) in [
        ("escapes -q", "a\nb\n", "r||"),
        ("under a", "b\na\n", "r|a\n|upath: read error\n"),
        ("archive", "f\0/a\0\0", "r||upath: read error\n"),
    ] {
        let mut reader = Once {
            text: input.as_bytes(),
        };
        assert!(rt; prints(rt.alloc(), line, &mut reader, want), "at {line}");
    }
    assert!(rt; prints(rt.alloc(), "canon", &mut Broken, "r||upath: read error\n"));
    assert!(rt; prints(rt.alloc(), "canon -q", &mut Broken, "r||"));
}
