//! The paths of a synthetic file tree. A file is identified by its number.
ghost use Rattle.std.specs.Prelude.{◌<◌};

use crate::random::mix;
use std::alloc::AllocError;

// Sorted, so that the names in one directory are in the order of the files' numbers.
#[rattlefmt::skip]
static WORDS: [&str; 64] = [
    "accept", "adapter", "async", "backend", "base", "buffer", "build", "cache", "channel",
    "client", "codec", "common", "config", "core", "decoder", "device", "driver", "encoder",
    "engine", "event", "filter", "format", "graph", "handler", "header", "hook", "image", "index",
    "input", "journal", "kernel", "layout", "library", "locale", "memory", "message", "network",
    "object", "output", "packet", "parser", "plugin", "pool", "query", "queue", "record", "render",
    "router", "schema", "script", "server", "session", "signal", "socket", "storage", "stream",
    "task", "thread", "token", "trace", "update", "vector", "version", "worker",
];

static ENDINGS: [&str; 16] = [
    ".rs", ".c", ".h", ".cpp", ".py", ".md", ".json", ".tar.gz", ".test.ts", "", ".html", ".yaml",
    ".o", ".txt", ".so.1", ".js",
];

// A tree of 2^20 files below one directory, with names that depend on the seed. The files below a
// directory have consecutive numbers, so that a walk over the tree, with the names of each
// directory in order, visits the files in the order of their numbers.
#[derive(Clone, Copy)]
pub(crate) struct Tree<'a> {
    prefix: &'a str,
    seed: u64,
}

// Returns the bytes between two names or after the last one: `/`, or more if the lowest three bits
// of `noise` are 5 or greater.
#[inline]
pub(crate) fn separator(noise: u64) -> &'static str {
    match noise & 7 {
        5 => "//",
        6 => "/./",
        7 => "/.//",
        _ => "/",
    }
}

// Returns noise that changes the spelling of a path: at its end or before its first or second name,
// and possibly at one more separator.
#[inline]
pub(crate) fn noise_of(random: u64) -> u64 {
    let first = match random >> 8 & 3 {
        0 => 5 + random % 3,
        1 => (5 + random % 3) << 3,
        _ => (5 + random % 3) << 21,
    };
    let second = (5 + (random >> 16) % 3) << (3 * (random >> 24 & 7));
    first | second
}

#[inline]
fn push_text(out: &mut Vec<u8>, text: &str) -> Result<(), AllocError> {
    out.extend_from_slice(text.as_bytes())
}

// Appends a dot and the lowest 24 bits of the tag as six letters.
pub(crate) fn push_tag(out: &mut Vec<u8>, tag: u64) -> Result<(), AllocError> {
    out.push(b'.')?;
    let mut left = tag;
    for _ in 0..6 {
        out.push(b'a' + (left & 15) as u8)?;
        left >>= 4;
    }
    Ok(())
}

impl<'a> Tree<'a> {
    pub(crate) fn new(prefix: &'a str, seed: u64) -> Tree<'a> {
        Tree {
            prefix,
            seed: mix(seed),
        }
    }

    // Appends a name of one or two words. `place` identifies the file or directory. The first word
    // is one of the `span` words from index `first` on; after the last of the 64 words comes the
    // first.
    fn push_name(
        self,
        out: &mut Vec<u8>,
        place: u64,
        first: u64,
        span: u64,
    ) -> Result<(), AllocError>
        requires { 0 < span }
    {
        let random = mix(self.seed ^ place);
        push_text(
            out,
            WORDS[(first.wrapping_add(random % span) & 63) as usize],
        )?;
        if random >> 32 & 1 == 0 {
            let separator = if random >> 33 & 1 == 0 { "-" } else { "_" };
            push_text(out, separator)?;
            push_text(out, WORDS[(random >> 34 & 63) as usize])?;
        }
        Ok(())
    }

    // Appends the names of the first three directories between the tree's directory and the file,
    // each with a separator before it.
    fn push_folders(self, out: &mut Vec<u8>, number: u64, noise: u64) -> Result<(), AllocError> {
        push_text(out, separator(noise))?;
        self.push_name(out, 1 << 32 | number >> 17, (number >> 17 & 7) << 3, 8)?;
        push_text(out, separator(noise >> 3))?;
        self.push_name(out, 2 << 32 | number >> 15, (number >> 15 & 3) << 4, 16)?;
        push_text(out, separator(noise >> 6))?;
        self.push_name(out, 3 << 32 | number >> 13, (number >> 13 & 3) << 4, 16)
    }

    // Appends the names of the next three directories between the tree's directory and the file,
    // each with a separator before it.
    fn push_inner(self, out: &mut Vec<u8>, number: u64, noise: u64) -> Result<(), AllocError> {
        push_text(out, separator(noise >> 9))?;
        self.push_name(out, 4 << 32 | number >> 10, (number >> 10 & 7) << 3, 8)?;
        push_text(out, separator(noise >> 12))?;
        self.push_name(out, 5 << 32 | number >> 7, (number >> 7 & 7) << 3, 8)?;
        push_text(out, separator(noise >> 15))?;
        self.push_name(out, 6 << 32 | number >> 4, (number >> 4 & 7) << 3, 8)
    }

    // Returns true if the file is in a directory of 8,192 files. This is so for about one file in
    // eight. The other files are in directories of 16 files.
    pub(crate) fn is_in_large(self, number: u64) -> bool {
        mix(self.seed ^ number >> 13) & 7 == 0
    }

    // Appends the number, which is less than 8,192, as four decimal digits.
    fn push_digits(out: &mut Vec<u8>, number: u64) -> Result<(), AllocError> {
        let digit = |value: u64| b'0' + (value % 10) as u8;
        out.push(digit(number / 1000))?;
        out.push(digit(number / 100))?;
        out.push(digit(number / 10))?;
        out.push(digit(number))?;
        Ok(())
    }

    // Appends a file's name with its ending. One name in a hundred has a byte that is not valid
    // UTF-8.
    fn push_file(
        self,
        out: &mut Vec<u8>,
        number: u64,
        is_in_large: bool,
    ) -> Result<(), AllocError> {
        let random = mix(self.seed ^ (7 << 32 | number));
        if is_in_large {
            self.push_name(out, 8 << 32 | number, number >> 7 & 63, 1)?;
            Tree::push_digits(out, number & 8191)?;
        } else {
            self.push_name(out, 8 << 32 | number, (number & 15) << 2, 4)?;
        }
        if random % 100 == 0 {
            out.push(0xE9)?;
        }
        push_text(out, ENDINGS[(random >> 32 & 15) as usize])
    }

    // Appends the path of a file after the tree's directory, beginning with a separator. If the
    // noise is 0, the path is in canonical form. Each separator uses three bits of the noise,
    // beginning with the lowest three. The filler after the file's name uses bits 21 to 23, counted
    // from 0.
    pub(crate) fn push_below(
        self,
        out: &mut Vec<u8>,
        number: u64,
        noise: u64,
    ) -> Result<(), AllocError> {
        let is_in_large = self.is_in_large(number);
        self.push_folders(out, number, noise)?;
        if !is_in_large {
            self.push_inner(out, number, noise)?;
        }
        push_text(out, separator(noise >> 18))?;
        self.push_file(out, number, is_in_large)?;
        if noise >> 21 & 7 != 0 {
            push_text(out, separator(noise >> 21))?;
        }
        Ok(())
    }

    // Appends a name that depends on the number without its lowest 12 bits.
    pub(crate) fn push_first(self, out: &mut Vec<u8>, number: u64) -> Result<(), AllocError> {
        self.push_name(out, 9 << 32 | number >> 12, 0, 64)
    }

    // Appends one to five names that depend on the number, each with a separator before it, and
    // then a tag and an ending.
    #[inline(always)]
    pub(crate) fn push_short(
        self,
        out: &mut Vec<u8>,
        number: u64,
        noise: u64,
        tag: u64,
    ) -> Result<(), AllocError> {
        let mut noise = noise;
        for level in 0..1 + number % 5 {
            push_text(out, separator(noise))?;
            self.push_name(out, (10 + level) << 32 | number >> 5, 0, 64)?;
            noise >>= 3;
        }
        push_tag(out, tag)?;
        push_text(out, ENDINGS[(number >> 8 & 15) as usize])
    }

    // Appends the path of a file, including the tree's directory.
    pub(crate) fn push(self, out: &mut Vec<u8>, number: u64, noise: u64) -> Result<(), AllocError> {
        push_text(out, self.prefix)?;
        self.push_below(out, number, noise)
    }
}

// Returns the number of a file. If `place` runs through the numbers below 2^19, the results are all
// even numbers below 2^20, each once, in an order that looks random.
#[inline]
pub(crate) fn shuffled(place: u64, seed: u64) -> u64 {
    (place.wrapping_mul(0x9E37_79B9).wrapping_add(seed) & 0x7_FFFF) << 1
}
