//! Lists of entries, and which of them are refused.
use path_archive::{
    Level, Reason, Refusal, Slot, Verdict, check, leads_out, refusals, slots_needed,
};
use std::alloc::{AllocError, Global};
use std::test::Fail;

// The records of a list, and its first refusal: the entry, its cause, and why.
type Row = (&'static str, Option<(usize, usize, Reason)>);

// Lists at the level `Inside`: accepted ones, and those through which extractors have written
// outside.
static LISTS: [Row; 19] = [
    ("", None),
    ("d\0./\0\0d\0a/\0\0f\0a/b\0\0", None),
    ("f\0a/b\0\0d\0a\0\0", None),
    ("f\0a\0\0f\0a\0\0", None),
    ("l\0x\0/etc\0f\0y\0\0", None),
    ("f\0a\0\0h\0b\0a\0", None),
    ("l\0x\0/etc\0f\0x/new\0\0", Some((1, 0, Reason::BelowLeaf))),
    ("f\0x/new\0\0l\0x\0/etc\0", Some((0, 1, Reason::BelowLeaf))),
    (
        "l\0c/a\0..\0l\0c/a/b\0../a\0f\0b/a\0\0",
        Some((1, 0, Reason::BelowLeaf)),
    ),
    (
        "l\0x\0/etc/passwd\0f\0x\0\0",
        Some((1, 0, Reason::LinkUsedTwice)),
    ),
    ("l\0x\0/etc\0d\0x\0\0", Some((1, 0, Reason::LinkUsedTwice))),
    ("h\0x\0../b\0", Some((0, 0, Reason::Name))),
    (
        "l\0x\0/etc\0h\0y\0x\0f\0y\0\0",
        Some((1, 0, Reason::TargetIsLink)),
    ),
    ("h\0a\0b\0h\0b\0c\0", Some((0, 1, Reason::TargetIsLink))),
    ("f\0/a\0\0", Some((0, 0, Reason::Name))),
    ("f\0a/\0\0", Some((0, 0, Reason::Name))),
    ("l\0a/.\0b\0", Some((0, 0, Reason::Name))),
    ("f\0a\0\0f\0a/b\0\0", Some((1, 0, Reason::BelowLeaf))),
    ("c\0a\0\0", Some((0, 0, Reason::Kind))),
];

// Lists at the level `Closed`.
static CLOSED_LISTS: [Row; 12] = [
    ("l\0a/b\0../c\0", None),
    ("l\0a/b\0../../c\0", Some((0, 0, Reason::LeadsOut))),
    ("l\0a/b/c\0../..\0", None),
    ("l\0a/b\0./../c/./d/\0", None),
    ("l\0./a\0..\0", Some((0, 0, Reason::LeadsOut))),
    ("l\0a/b\0c/../d\0", Some((0, 0, Reason::LeadsOut))),
    ("l\0x\0\0", None),
    ("l\0x\0/etc\0f\0y\0\0", Some((0, 0, Reason::LeadsOut))),
    ("l\0x\0/etc\0f\0x/new\0\0", Some((0, 0, Reason::LeadsOut))),
    ("f\0x/new\0\0l\0x\0y\0", Some((0, 1, Reason::BelowLeaf))),
    ("f\0/etc\0../x\0", Some((0, 0, Reason::Name))),
    ("f\0a\0\0h\0b\0a\0", None),
];

// The path and the target of a symbolic link, and whether it leads out.
static LINKS: [(&'static str, &'static str, bool); 9] = [
    ("a", "b", false),
    ("a", "", false),
    ("a", "..", true),
    ("a/b", "..", false),
    ("./a/b/", "../c", false),
    ("a/b", "../../c", true),
    ("a/b", "/c", true),
    ("a/b", "c/..", true),
    ("a/b", "c\0", true),
];

// Records whose last one is cut off.
static CUT_OFF: [&'static str; 4] = ["f", "f\0a", "f\0a\0", "f\0a\0\0d\0b\0x"];

// Returns true if the list has the row's first refusal, or none.
fn is_row(alloc: Global, row: &Row, level: Level) -> Result<bool, AllocError> {
    let wanted = wanted_refusal(row);
    let Some(list) = refusals(alloc, row.0.as_bytes(), level)? else {
        return Ok(false);
    };
    Ok(list.first().copied() == wanted)
}

// Returns the row's refusal.
fn wanted_refusal(row: &Row) -> Option<Refusal> {
    let (entry, cause, reason) = row.1?;
    Some(Refusal {
        entry,
        cause,
        reason,
    })
}

// Returns true if `check` finds the row's refusal, or none.
fn is_checked(row: &Row, level: Level) -> bool {
    let mut slots = [Slot::EMPTY; 8];
    let wanted = match wanted_refusal(row) {
        Some(refusal) => Verdict::Refused(refusal),
        None => Verdict::Accepted,
    };
    check(row.0.as_bytes(), &mut slots, level) == wanted
}

#[test]
fn lists_refused(rt: HostRuntime) -> Result<(), Fail> {
    for row in LISTS.iter() {
        assert!(rt; is_row(rt.alloc(), row, Level::Inside)?, "{:?}", row.0);
        assert!(rt; is_checked(row, Level::Inside), "{:?}", row.0);
    }
    Ok(())
}

#[test]
fn closed_lists_refused(rt: HostRuntime) -> Result<(), Fail> {
    for row in CLOSED_LISTS.iter() {
        assert!(rt; is_row(rt.alloc(), row, Level::Closed)?, "{:?}", row.0);
        assert!(rt; is_checked(row, Level::Closed), "{:?}", row.0);
    }
    Ok(())
}

#[test]
fn links_leading_out(rt: HostRuntime) {
    for (path, target, wanted) in LINKS.iter() {
        assert!(rt;
            leads_out(path.as_bytes(), target.as_bytes()) == *wanted,
            "{path} {target:?}"
        );
    }
}

#[test]
fn cut_off_records(rt: HostRuntime) -> Result<(), Fail> {
    for records in CUT_OFF.iter() {
        let list = refusals(rt.alloc(), records.as_bytes(), Level::Inside)?;
        assert!(rt; list.is_none(), "{records:?}");
        assert!(rt; slots_needed(records.as_bytes()).is_none(), "{records:?}");
        let mut slots = [Slot::EMPTY; 8];
        let verdict = check(records.as_bytes(), &mut slots, Level::Inside);
        assert!(rt; verdict == Verdict::CutOff, "{records:?}");
    }
    Ok(())
}

#[test]
fn slots_counted(rt: HostRuntime) {
    let records = b"f\0a\0\0h\0b\0a\0";
    assert!(rt; slots_needed(records) == Some(3));
    assert!(rt; slots_needed(b"") == Some(0));
    let mut slots = [Slot::EMPTY; 2];
    assert!(rt; check(records, &mut slots, Level::Inside) == Verdict::NoRoom);
    let mut slots = [Slot::EMPTY; 3];
    assert!(rt; check(records, &mut slots, Level::Inside) == Verdict::Accepted);
}
