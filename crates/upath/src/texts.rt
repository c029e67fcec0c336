//! The help texts. Made by tools/upath_texts from tools/upath.txt.

use upath_commands::HelpText;

/// What `--help` prints.
pub const GENERAL: &[u8] = b"\
Usage: upath COMMAND [OPTION]... [--] [PATH]...\n\
\n\
Applies COMMAND to each PATH and prints the result. Without a PATH, reads paths\n\
from standard input, one per line. Purely lexical: no file is accessed, and no\n\
symbolic link is followed.\n\
\n\
Commands:\n\
\x20 canon                the shortest path with the same components\n\
\x20 resolve              the path with each `..` resolved and without `.`\n\
\x20 parent               the path without its last component\n\
\x20 ancestors            the path, its parent, the parent of that, and so on\n\
\x20 name                 the file name: the last component, if it is a name\n\
\x20 stem                 the file name without its extension\n\
\x20 ext                  the part of the file name after its last dot\n\
\x20 parts                the components, each as a record\n\
\x20 join ROOT            ROOT joined with the path; if untrusted, use --beneath\n\
\x20 strip BASE           what follows BASE, for a path that starts with it\n\
\x20 relative --from=DIR  the relative path from DIR\n\
\x20 key                  the key in hexadecimal: keys sort as their paths do\n\
\x20 unkey                the path, in canonical form, of a key in hexadecimal\n\
\x20 escapes              the paths that leave the directory they are joined to\n\
\x20 archive              the entries by which an archive could write outside\n\
\x20 under BASE           the paths at BASE or below it, unchanged\n\
\x20 sort                 the paths in path order, component by component\n\
\x20 uniq                 each path once: the first of equal paths, unchanged\n\
\x20 equal A B            nothing: the exit status says whether A and B are equal\n\
\n\
Options:\n\
\x20 -z, --null     end the records of input and output with NUL, not newline. A\n\
\x20                path with a newline needs it\n\
\x20 -p, --pair     print the path, a tab (with -z a NUL) and then the result\n\
\x20 -q, --quiet    print nothing, except for wrong usage\n\
\x20     --or=TEXT  print TEXT for a path without a result\n\
\x20 -h, --help     print this help, or just after COMMAND the help on it\n\
\x20     --version  print the version\n\
\n\
`--` ends the options. After COMMAND and its ROOT or BASE, it also means that\n\
only the arguments after it are paths: if there are none, nothing is read (but\n\
by archive). Write it before each variable, whose value may begin with a dash.\n\
\n\
Exit status:\n\
\x20 0  every path has a result. escapes: no path escapes. under: a path is\n\
\x20    printed. archive: every entry is accepted. equal: they are equal. sort -c:\n\
\x20    the paths are in order\n\
\x20 1  a path has no result or is refused. escapes, under, sort -c, archive,\n\
\x20    equal: otherwise\n\
\x20 2  wrong usage; nothing was read or written\n\
\x20 3  a read, a write or an allocation failed\n\
\n\
Examples:\n\
\x20 whether GNU tar may extract what it listed (see `upath archive --help`):\n\
\x20   upath archive --tar-list < list\n\
\x20 paths in order, each once (./a and a are two):\n\
\x20   find . -print0 | upath sort -zu\n\
\x20 the canonical form of each argument:\n\
\x20   upath canon -z -- \"$@\"\n\
\x20 a path for a request from outside, or a message:\n\
\x20   upath join --beneath /srv -- \"$request\"\n\
\x20 whether a path is at /srv or below it:\n\
\x20   if upath under -qz /srv -- \"$path\"; then echo yes; fi\n\
\x20 a link in bin to lib/tool:\n\
\x20   ln -s -- \"$(upath relative --from=bin lib/tool)\" bin/tool\n\
\n\
`upath COMMAND --help` shows the options of a command, and an example.\n";

/// What `--version` prints.
pub const VERSION: &[u8] = b"\
upath 1.1.0\n\
Proved with rattle-kit-13b logic dac8208d650f15bf and rattle-kit-13f logic\n\
dac8208d650f15bf.\n\
\n\
Proved, for readers and writers whose bytes are known: what is written and the\n\
exit status are those of the definitions in crates/upath_commands/specs. Of\n\
standard streams no contract can state the bytes, but which calls of theirs\n\
failed.\n";

const CANON: &[u8] = b"\
Usage: upath canon [OPTION]... [--] [PATH]...\n\
\n\
Prints the shortest path with the same components.\n\
\n\
Example:\n\
\x20 $ upath canon .//a/./b/\n\
\x20 ./a/b\n\
\n\
`upath --help` shows the options of every command.\n";

const RESOLVE: &[u8] = b"\
Usage: upath resolve [OPTION]... [--] [PATH]...\n\
\n\
Prints the path with each `..` resolved and without `.`.\n\
\n\
Example:\n\
\x20 $ upath resolve /srv/../etc a/../../b a/..\n\
\x20 /etc\n\
\x20 ../b\n\
\x20 .\n\
\n\
`upath --help` shows the options of every command.\n";

const PARENT: &[u8] = b"\
Usage: upath parent [OPTION]... [--] [PATH]...\n\
\n\
Prints the path without its last component.\n\
\n\
Example:\n\
\x20 $ upath parent /usr/lib/libc.so a\n\
\x20 /usr/lib\n\
\x20 .\n\
\n\
`upath --help` shows the options of every command.\n";

const ANCESTORS: &[u8] = b"\
Usage: upath ancestors [OPTION]... [--] [PATH]...\n\
\n\
Prints the path, its parent, the parent of that, and so on.\n\
\n\
Example:\n\
\x20 $ upath ancestors /usr/lib\n\
\x20 /usr/lib\n\
\x20 /usr\n\
\x20 /\n\
\n\
`upath --help` shows the options of every command.\n";

const NAME: &[u8] = b"\
Usage: upath name [OPTION]... [--] [PATH]...\n\
\n\
Prints the file name: the last component, if it is a name.\n\
\n\
Example:\n\
\x20 $ upath name /usr/lib/libc.so\n\
\x20 libc.so\n\
\n\
`upath --help` shows the options of every command.\n";

const STEM: &[u8] = b"\
Usage: upath stem [OPTION]... [--] [PATH]...\n\
\n\
Prints the file name without its extension.\n\
\n\
Example:\n\
\x20 $ upath stem /srv/x.tar.gz\n\
\x20 x.tar\n\
\n\
`upath --help` shows the options of every command.\n";

const EXT: &[u8] = b"\
Usage: upath ext [OPTION]... [--] [PATH]...\n\
\n\
Prints the part of the file name after its last dot.\n\
\n\
Example:\n\
\x20 $ upath ext /srv/x.tar.gz\n\
\x20 gz\n\
\n\
`upath --help` shows the options of every command.\n";

const PARTS: &[u8] = b"\
Usage: upath parts [-b] [OPTION]... [--] [PATH]...\n\
\n\
Prints the components, each as a record.\n\
\n\
\x20 -b  from the last component to the first\n\
\n\
Example:\n\
\x20 $ upath parts -b /usr/lib\n\
\x20 lib\n\
\x20 usr\n\
\x20 /\n\
\n\
`upath --help` shows the options of every command.\n";

const JOIN: &[u8] = b"\
Usage: upath join [--beneath | --in-root | --verbatim] [OPTION]... ROOT [--]\n\
\x20   [PATH]...\n\
\n\
Prints ROOT joined with the path; if untrusted, use --beneath.\n\
\n\
\x20     --beneath   refuse a path that leaves ROOT, as an entry of an archive may\n\
\x20     --in-root   treat ROOT as the root directory, for example of a URL's path\n\
\x20     --verbatim  refuse a leading slash and any `..`: ROOT may contain links\n\
\n\
Example:\n\
\x20 $ upath join --beneath /srv a/../b\n\
\x20 /srv/b\n\
\n\
`upath --help` shows the options of every command.\n";

const STRIP: &[u8] = b"\
Usage: upath strip [OPTION]... BASE [--] [PATH]...\n\
\n\
Prints what follows BASE, for a path that starts with it.\n\
\n\
Example:\n\
\x20 $ upath strip /usr /usr/lib/libc.so\n\
\x20 lib/libc.so\n\
\n\
`upath --help` shows the options of every command.\n";

const RELATIVE: &[u8] = b"\
Usage: upath relative --from=DIR [OPTION]... [--] [PATH]...\n\
\n\
Prints the relative path from DIR.\n\
\n\
\x20     --from=DIR  the directory where the relative path starts\n\
\n\
Example:\n\
\x20 $ upath relative --from=/usr/bin /usr/lib/libc.so\n\
\x20 ../lib/libc.so\n\
\n\
`upath --help` shows the options of every command.\n";

const KEY: &[u8] = b"\
Usage: upath key [OPTION]... [--] [PATH]...\n\
\n\
Prints the key in hexadecimal: keys sort as their paths do.\n\
\n\
Example:\n\
\x20 $ upath key /a.b a//b\n\
\x20 0001612f6200\n\
\x20 61006200\n\
\n\
`upath --help` shows the options of every command.\n";

const UNKEY: &[u8] = b"\
Usage: upath unkey [OPTION]... [--] [PATH]...\n\
\n\
Prints the path, in canonical form, of a key in hexadecimal.\n\
\n\
Example:\n\
\x20 $ upath unkey 0001612f6200 61006200\n\
\x20 /a.b\n\
\x20 a/b\n\
\n\
`upath --help` shows the options of every command.\n";

const ESCAPES: &[u8] = b"\
Usage: upath escapes [-v] [--reason] [OPTION]... [--] [PATH]...\n\
\n\
Prints the paths that leave the directory they are joined to.\n\
\n\
\x20 -v            print the other paths: those that stay\n\
\x20     --reason  print `root`, `escapes` or `nul` and a tab before each path\n\
\n\
Example:\n\
\x20 $ printf 'a/../b\\n../etc\\n' | upath escapes\n\
\x20 ../etc\n\
\n\
`upath --help` shows the options of every command.\n";

const ARCHIVE: &[u8] = b"\
Usage: upath archive [--tar-list] [--closed] [--reason] [OPTION]...\n\
\n\
Prints the entries by which an archive could write outside.\n\
\n\
\x20     --tar-list  read what GNU tar prints with LC_ALL=C and -tvP --numeric-\n\
\x20                 owner --quoting-style=c\n\
\x20     --closed    print symbolic links that lead out, too\n\
\x20     --reason    print a reason and a tab before each path: `name`, `kind`,\n\
\x20                 `below`, `twice`, `target` or `out`\n\
\n\
Without --tar-list, reads three fields for each entry, with a NUL after each\n\
field: the kind (d for a directory, f for a file, l for a symbolic link, h for a\n\
hard link; others are refused), the path, and the target of a link or nothing.\n\
\n\
Exit status 0: GNU tar may extract these entries into a new, empty directory;\n\
nothing outside is created, changed or removed. With --closed so may programs\n\
that follow a symbolic link which they have just made, such as unzip and 7z, and\n\
afterwards no path leads out of the directory. 1: an entry was refused, there is\n\
none, or the input is malformed: do not extract.\n\
\n\
List with the program that extracts, to a file and not to a pipe. If it gets\n\
options that change names, such as --strip-components, list with these and, for\n\
GNU tar, with --show-transformed-names.\n\
\n\
Example:\n\
\x20 $ printf 'l\\0x\\0/etc\\0f\\0x/new\\0\\0' | upath archive\n\
\x20 upath: x/new: lies below the symbolic link x\n\
\x20 x/new\n\
\n\
`upath --help` shows the options of every command, but archive has no -p and no\n\
--or.\n";

const UNDER: &[u8] = b"\
Usage: upath under [-v] [--strip] [--by-components] [OPTION]... BASE [--]\n\
\x20   [PATH]...\n\
\n\
Prints the paths at BASE or below it, unchanged.\n\
\n\
\x20 -v                   print the other paths: those that are not\n\
\x20     --strip          print what follows BASE\n\
\x20     --by-components  compare components, and resolve no `..`\n\
\n\
Example:\n\
\x20 $ printf '/srv/a\\n/srv/../etc\\n' | upath under /srv\n\
\x20 /srv/a\n\
\n\
`upath --help` shows the options of every command.\n";

const SORT: &[u8] = b"\
Usage: upath sort [-c] [-u] [-r] [OPTION]... [--] [PATH]...\n\
\n\
Prints the paths in path order, component by component.\n\
\n\
\x20 -c  print no path; the exit status says whether the paths are in order\n\
\x20 -u  print each path once: the first of equal paths\n\
\x20 -r  print from the last to the first\n\
\n\
Example:\n\
\x20 $ printf 'a.b\\na/c\\na//b\\n' | upath sort\n\
\x20 a//b\n\
\x20 a/c\n\
\x20 a.b\n\
\n\
`upath --help` shows the options of every command.\n";

const UNIQ: &[u8] = b"\
Usage: upath uniq [OPTION]... [--] [PATH]...\n\
\n\
Prints each path once: the first of equal paths, unchanged.\n\
\n\
Example:\n\
\x20 $ printf 'a//b\\nc\\na/b/.\\n' | upath uniq\n\
\x20 a//b\n\
\x20 c\n\
\n\
`upath --help` shows the options of every command.\n";

const EQUAL: &[u8] = b"\
Usage: upath equal [OPTION]... [--] A B\n\
\n\
Prints nothing: the exit status says whether A and B are equal.\n\
\n\
Example:\n\
\x20 $ upath equal a//b/. a/b && echo equal\n\
\x20 equal\n\
\n\
`upath --help` shows the options of every command.\n";

/// The help texts of the commands.
pub static COMMANDS: [HelpText<'static>; 19] = [
    HelpText {
        name: b"canon",
        text: CANON,
    },
    HelpText {
        name: b"resolve",
        text: RESOLVE,
    },
    HelpText {
        name: b"parent",
        text: PARENT,
    },
    HelpText {
        name: b"ancestors",
        text: ANCESTORS,
    },
    HelpText {
        name: b"name",
        text: NAME,
    },
    HelpText {
        name: b"stem",
        text: STEM,
    },
    HelpText {
        name: b"ext",
        text: EXT,
    },
    HelpText {
        name: b"parts",
        text: PARTS,
    },
    HelpText {
        name: b"join",
        text: JOIN,
    },
    HelpText {
        name: b"strip",
        text: STRIP,
    },
    HelpText {
        name: b"relative",
        text: RELATIVE,
    },
    HelpText {
        name: b"key",
        text: KEY,
    },
    HelpText {
        name: b"unkey",
        text: UNKEY,
    },
    HelpText {
        name: b"escapes",
        text: ESCAPES,
    },
    HelpText {
        name: b"archive",
        text: ARCHIVE,
    },
    HelpText {
        name: b"under",
        text: UNDER,
    },
    HelpText {
        name: b"sort",
        text: SORT,
    },
    HelpText {
        name: b"uniq",
        text: UNIQ,
    },
    HelpText {
        name: b"equal",
        text: EQUAL,
    },
];
