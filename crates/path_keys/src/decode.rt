//! Reading a key back: the length of its path, and the path itself, written to a buffer of that
//! length.
ghost use Rattle.std.specs.Prelude.{◌≡◌, ◌↔◌, ◌≤◌, ◌+◌, ◌-◌, ℕ, List, [], ◌∷◌, ◌++◌, length, map};
ghost use Rattle.std.specs.Prelude.{take, is_some, IsTrue, Some};
ghost use Rattle.unix_path.specs.Parts.{slash, parent_dir, values};
ghost use Rattle.path_runs.specs.Overlay.{overlay};
ghost use Rattle.path_runs.specs.Spelling.{spelling_of};
ghost use Rattle.path_keys.specs.Keys.{key_of, IsKey};
ghost use Rattle.path_keys.specs.NameBytes.{decoded};
ghost use Rattle.path_keys.specs.Runs.{lead_text, run_text};

use crate::recode::names_to_path;
use crate::runs::{Lead, Run, next_run, past_lead, run_in};
use unix_bytes::internal::write_at;

// Returns the length of the path of a key; `None` if no path has the key.
pub(crate) fn path_len(key: &[u8]) -> Option<usize>
    ensures is_key { IsTrue (is_some result) ↔ IsKey key.now }
    ensures length { (s : List ℕ) → key_of (values s) ≡ key.now
        → result ≡ Some (length (spelling_of (values s))) }
{
    let started = past_lead(key);
    let mut rest = started.rest;
    let mut len = started.lead.len_in_path();
    while !rest.is_empty() {
        let Some(run) = run_in(rest) else {
            return None;
        };
        len += run.text_len();
        rest = &rest[run.len()..];
    }
    // Unless the path is `/` or empty, `len` counts a slash after it.
    if len > 1 {
        return Some(len - 1);
    }
    Some(len)
}

// Writes the path of a key to `out`, which must be as long as the path.
pub(crate) fn write_text(key: &[u8], out: &mut [u8])
    requires { (s : List ℕ) × (key_of (values s) ≡ key.now)
        × (length out.old ≡ length (spelling_of (values s))) }
    ensures { (s : List ℕ) → key_of (values s) ≡ key.now → out.new ≡ spelling_of (values s) }
{
    let started = past_lead(key);
    write_lead(out, started.lead);
    let mut rest = started.rest;
    let mut at = started.lead.len_in_path();
    while let Some(run) = next_run(rest, out.len() + 1 - at) {
        write_run(out, at, run);
        at += run.text_len();
        rest = &rest[run.len()..];
    }
}

// Overwrites the first bytes of `out` with the bytes that the lead has in a path before other
// components: `/`, `./` or none, and only as many as fit.
#[inline(always)]
fn write_lead(out: &mut [u8], lead: Lead)
    ensures { out.new ≡ overlay 0 (take (length out.old) (lead_text lead)) out.old }
{
    let len = out.len();
    match lead {
        Lead::Root if len > 0 => write_at(out, 0, b"/"),
        Lead::Dot if len > 1 => write_at(out, 0, b"./"),
        Lead::Dot if len > 0 => write_at(out, 0, b"."),
        _ => {}
    }
}

// Overwrites the bytes of `out` from `at` on with the bytes that the run has in a path: `..` or
// names, and then a slash if it fits.
#[inline(always)]
fn write_run(out: &mut [u8], at: usize, run: Run<'_>)
    requires { at + length (run_text run) ≤ length out.old + 1 }
    ensures { out.new ≡ overlay at (take (length out.old - at) (run_text run.entry)) out.old }
{
    match run {
        Run::ParentDir => write_parent_dir(out, at),
        Run::Names(names) => write_names(out, at, names),
    }
}

// Overwrites the bytes of `out` from `at` on with `..` and, if it fits, a slash.
#[inline(always)]
fn write_parent_dir(out: &mut [u8], at: usize)
    requires { at + 2 ≤ length out.old }
    ensures { out.new
        ≡ overlay at (take (length out.old - at) (parent_dir ++ slash ∷ [])) out.old }
{
    out[at..at + 2].copy_from_slice(b"..");
    let end = at + 2;
    if end < out.len() {
        out[end] = b'/';
    }
}

// Overwrites the bytes of `out` from `at` on with the bytes that `names`, which are names of a key,
// have in a path, and then with a slash if it fits.
#[inline(always)]
fn write_names(out: &mut [u8], at: usize, names: &[u8])
    requires { at + length names.now ≤ length out.old }
    ensures { out.new
        ≡ overlay at (take (length out.old - at) (map decoded names.now ++ slash ∷ [])) out.old }
{
    names_to_path(out, at, names);
    let end = at + names.len();
    if end < out.len() {
        out[end] = b'/';
    }
}
