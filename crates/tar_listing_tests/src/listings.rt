//! Listings, and what they read back as.
use std::test::Fail;
use tar_listing::laws::listing_reads_back;
use tar_listing::records_of;

// A listing and its records.
type Row = (&'static str, &'static str);

// Listings that GNU tar 1.34 printed.
static LISTINGS: [Row; 18] = [
    ("", ""),
    ("-rw-r--r-- 0/0 5 2026-01-31 12:00 \"a\"\n", "f\0a\0\0"),
    (
        "drwsrwsrwt 0/0               0 1970-01-01 00:00 \"d/\"\n",
        "d\0d/\0\0",
    ),
    (
        "-rwSr--r-T 2147483648/4294967295 5 1970-01-01 00:00 \"f\"\n",
        "f\0f\0\0",
    ),
    (
        "Crw-r--r-- 0/0                   3 1970-01-01 00:00      \"C\"\n",
        "f\0C\0\0",
    ),
    (
        "-rw-r--r-- 0/0                   5 1969-12-31 23:59 \"f\\\"\\\\\\n\\t\\001\\177\\033?\"\n",
        "f\0f\"\\\n\t\x01\x7f\x1b?\0\0",
    ),
    (
        "-rw-r--r-- 0/0 0 1970-01-01 00:00 \"\\a\\b\\v\\f\\r '\"\n",
        "f\0\x07\x08\x0b\x0c\r '\0\0",
    ),
    (
        "-rw-r--r-- 0/0                   0 36812-02-20 00:36 \"big\"\n",
        "f\0big\0\0",
    ),
    (
        "-rw-r--r-- 0/0                   0 4611686018427387904 \"huge\"\n",
        "f\0huge\0\0",
    ),
    (
        "-rw-r--r-- 0/0                   0 -35676378-04-08 05:02 \"neg\"\n",
        "f\0neg\0\0",
    ),
    (
        "-rw-r--r-- 0/0                   0 -4611686018427387904  \"low\"\n",
        "f\0low\0\0",
    ),
    (
        "-rw-r--r-- 0/0                   0        9999999999999999 \"wide\"\n",
        "f\0wide\0\0",
    ),
    (
        "crw-r--r-- 0/0                 8,0 1970-01-01 00:00      \"c\"\n",
        "o\0c\0\0",
    ),
    (
        "brw-r--r-- 0/0 8,300 1970-01-01 00:00 \"b\"\nprw-r--r-- 0/0   0 1970-01-01 00:00 \"p\"\n",
        "o\0b\0\0o\0p\0\0",
    ),
    (
        "lrw-r--r-- 0/0                   0 1970-01-01 00:00      \"s\" -> \"../x -> \\\"y\\\"\"\n",
        "l\0s\0../x -> \"y\"\0",
    ),
    (
        "lrw-r--r-- 0/0 0 1970-01-01 00:00 \"e\" -> \"\"\n",
        "l\0e\0\0",
    ),
    (
        "hrw-r--r-- 0/0 0 1970-01-01 00:00 \"h\" link to \"../../etc/passwd\"\n",
        "h\0h\0../../etc/passwd\0",
    ),
    (
        "-rw-r--r-- 0/0 0 1970-01-01 00:00 \"a\\\" -> \\\"b\"\n",
        "f\0a\" -> \"b\0\0",
    ),
];

// Lines of other forms.
static REFUSED: [&str; 38] = [
    "\n",
    "Vrw-r--r-- 0/0 0 1970-01-01 00:00 \"v\"--Volume Header--\n",
    "Mrw-r--r-- 0/0 0 1970-01-01 00:00 \"m\"--Continued at byte 512--\n",
    "?rw-r--r-- 0/0 0 1970-01-01 00:00 \"u\" unknown file type 'Z'\n",
    "block 0: -rw-r--r-- 0/0 5 2026-01-31 12:00 \"a\"\n",
    "-rw-r--r-- root/root 5 2026-01-31 12:00 \"a\"\n",
    "-rw-r--r-- 0/root 5 2026-01-31 12:00 \"a\"\n",
    "-rw-r--r-- 0/ 5 2026-01-31 12:00 \"a\"\n",
    "-rw-r--r-- 0 5 2026-01-31 12:00 \"a\"\n",
    "-rw-r--r-- -1/0 5 2026-01-31 12:00 \"a\"\n",
    "-rw-r--r--  5 2026-01-31 12:00 \"a\"\n",
    "-rw-r--r-- 0/0 2026-01-31 12:00 \"a\"\n",
    "-rw-r--r-- 0/0 5, 2026-01-31 12:00 \"a\"\n",
    "-rw-r--r-- 0/0 5 \"a\"\n",
    "-rw-r--r-- 0/0 5 2026-01-31 \"a\"\n",
    "-rw-r--r-- 0/0 5 2026-1-31 12:00 \"a\"\n",
    "-rw-r--r-- 0/0 5 2026-01-31 12:0 \"a\"\n",
    "-rw-r--r-- 0/0 5 2026-01-31 12:00:00 \"a\"\n",
    "-rw-r--r-- 0/0 5 2026-01-31 12:00 1 \"a\"\n",
    "-rw-r--r-- 0/0 5 2026-01-31 12:00\"a\"\n",
    "-rw-r--r-+ 0/0 5 2026-01-31 12:00 \"a\"\n",
    "-rw-r--r--. 0/0 5 2026-01-31 12:00 \"a\"\n",
    "-rw-r--r- 0/0 5 2026-01-31 12:00 \"a\"\n",
    "-rw-r--r-- 0/0 5 2026-01-31 12:00 a\n",
    "-rw-r--r-- 0/0 5 2026-01-31 12:00 \"\"\n",
    "drwxr-xr-x 0/0 0 2026-01-31 12:00 \"\"/\n",
    "drwxr-xr-x 0/0 0 2026-01-31 12:00 \"a\"/\n",
    "-rw-r--r-- 0/0 5 2026-01-31 12:00 \"a\"",
    "-rw-r--r-- 0/0 5 2026-01-31 12:00 \"a\n",
    "-rw-r--r-- 0/0 5 2026-01-31 12:00 \"a\" -> \"b\"\n",
    "lrwxrwxrwx 0/0 0 2026-01-31 12:00 \"a\"\n",
    "lrwxrwxrwx 0/0 0 2026-01-31 12:00 \"a\" link to \"b\"\n",
    "hrw-r--r-- 0/0 0 2026-01-31 12:00 \"a\" -> \"b\"\n",
    "-rw-r--r-- 0/0 5 2026-01-31 12:00 \"\\q\"\n",
    "-rw-r--r-- 0/0 5 2026-01-31 12:00 \"\\101\"\n",
    "-rw-r--r-- 0/0 5 2026-01-31 12:00 \"\\000\"\n",
    "-rw-r--r-- 0/0 5 2026-01-31 12:00 \"\\400\"\n",
    "-rw-r--r-- 0/0 5 2026-01-31 12:00 \"é\"\n",
];

#[test]
fn listings_read_back(rt: HostRuntime) -> Result<(), Fail> {
    listing_reads_back();
    for (listing, records) in &LISTINGS {
        let found = records_of(rt.alloc(), listing.as_bytes())?
            .ok()
            .ok_or("refused")?;
        assert_eq!(rt; found.as_slice(), records.as_bytes(), "{listing}");
    }
    Ok(())
}

#[test]
fn other_lines_are_refused(rt: HostRuntime) -> Result<(), Fail> {
    for line in &REFUSED {
        let found = records_of(rt.alloc(), line.as_bytes())?
            .err()
            .ok_or("read")?;
        assert_eq!(rt; found, 1, "{line}");
    }
    Ok(())
}

#[test]
fn refused_lines_have_their_number(rt: HostRuntime) -> Result<(), Fail> {
    let line = "-rw-r--r-- 0/0 5 2026-01-31 12:00 \"a\"\n";
    for refused in &REFUSED {
        let listing = format!(in rt.alloc(); "{line}{line}{refused}{line}")?;
        let found = records_of(rt.alloc(), listing.as_bytes())?
            .err()
            .ok_or("read")?;
        assert_eq!(rt; found, 3, "{refused}");
    }
    Ok(())
}
