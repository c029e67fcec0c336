//! Keys in hexadecimal, and their paths.

use crate::runs::{Broken, prints};

#[test]
fn keys(rt: HostRuntime) {
    for (path, want) in [
        ("_", "0|\n|"),
        ("/", "0|0001\n|"),
        ("/a", "0|00016100\n|"),
        ("a//b/.", "0|61006200\n|"),
        ("./a.b/..", "0|0002612f62000003\n|"),
        ("-- -\u{1}~", "0|2e027e00\n|"),
        ("\u{fd}0o", "0|c3bd306f00\n|"),
    ] {
        let line = format!(in rt.alloc(); "key {path}");
        let is_right = line.is_ok_and(|line| prints(rt.alloc(), line.as_str(), &mut Broken, want));
        assert!(rt; is_right, "at {path}");
    }
}

#[test]
fn paths_of_keys(rt: HostRuntime) {
    for (text, want) in [
        ("_", "0|\n|"),
        ("0001", "0|/\n|"),
        ("00016100", "0|/a\n|"),
        ("61006200", "0|a/b\n|"),
        ("0002612F62000003", "0|./a.b/..\n|"),
        ("0002612f62000003", "0|./a.b/..\n|"),
        ("2E027e00", "0|-\u{1}~\n|"),
        ("6", "1||upath: 6: not a key\n"),
        ("61", "1||upath: 61: not a key\n"),
        ("61000", "1||upath: 61000: not a key\n"),
        ("0x6100", "1||upath: 0x6100: not a key\n"),
        ("6g00", "1||upath: 6g00: not a key\n"),
        ("00", "1||upath: 00: not a key\n"),
        ("0000", "1||upath: 0000: not a key\n"),
        ("0004", "1||upath: 0004: not a key\n"),
        ("61000001", "1||upath: 61000001: not a key\n"),
        ("2f00", "1||upath: 2f00: not a key\n"),
        ("2f2f00", "1||upath: 2f2f00: not a key\n"),
        ("/a", "1||upath: /a: not a key\n"),
        (
            "610b00",
            "1||upath: 610b00: has a newline, which needs -z\n",
        ),
        ("-z 610b00", "0|a\n\0|"),
        ("-z 61016200", "1||upath: 61016200: has a NUL byte\n"),
    ] {
        let line = format!(in rt.alloc(); "unkey {text}");
        let is_right = line.is_ok_and(|line| prints(rt.alloc(), line.as_str(), &mut Broken, want));
        assert!(rt; is_right, "at {text}");
    }
}
