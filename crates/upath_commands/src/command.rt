//! What `upath` is asked to do.

use unix_path::Path;

/// A command.
///
/// `upath ext` asks for `Command::Extension`.
#[derive(Clone, Copy, PartialEq, Eq)]
pub enum Command {
    /// `canon` prints the canonical form.
    Canon,
    /// `resolve` prints the path with each `..` resolved lexically.
    Resolve,
    /// `parent` prints the parent.
    Parent,
    /// `ancestors` prints the path and each of its parents.
    Ancestors,
    /// `name` prints the file name.
    Name,
    /// `stem` prints the file stem.
    Stem,
    /// `ext` prints the extension.
    Extension,
    /// `parts` prints each component.
    Parts,
    /// `join` prints ROOT, joined with the path.
    Join,
    /// `strip` prints what follows BASE.
    Strip,
    /// `relative` prints the relative path from DIR.
    Relative,
    /// `key` prints the key in hexadecimal.
    Key,
    /// `unkey` prints the path whose key in hexadecimal this is.
    Unkey,
    /// `escapes` prints the paths that don't stay where they are joined to.
    Escapes,
    /// `archive` prints the entries that are refused.
    Archive,
    /// `under` prints the paths at BASE or below it.
    Under,
    /// `sort` prints all paths, in the order of paths.
    Sort,
    /// `sort -c` says whether the paths are in the order of paths.
    Check,
    /// `uniq` prints the first of equal paths.
    Uniq,
    /// `equal` compares two paths.
    Equal,
}

/// How a path is joined to a root.
///
/// `JoinRule::Beneath` refuses a path that escapes, and `JoinRule::InRoot` keeps it at the root.
#[derive(Clone, Copy, Debug, PartialEq, Eq)]
pub enum JoinRule {
    /// The path is trusted: one with a root replaces the root that it is joined to.
    Trusted,
    /// A path that escapes is refused.
    Beneath,
    /// A path that escapes is kept at the root.
    InRoot,
    /// A path with a `..` or a root is refused.
    Verbatim,
}

/// The options of all commands.
///
/// `upath canon -zq` sets `null` and `quiet`.
#[derive(Clone, Copy)]
pub struct Options {
    /// `-z`: records end with a NUL, not with a newline.
    pub null: bool,
    /// `-p`: each answer comes after its path.
    pub pair: bool,
    /// `-q`: nothing is printed.
    pub quiet: bool,
    /// `-b`: the last component comes first.
    pub from_back: bool,
    /// How `join` treats a path that leaves ROOT.
    pub rule: JoinRule,
    /// `-v`: the paths are printed that the command would leave out.
    pub inverted: bool,
    /// `--reason`: the reason is printed before each path.
    pub with_reason: bool,
    /// `--tar-list`: the input is a listing of GNU tar's, and not records.
    pub tar_list: bool,
    /// `--closed`: a symbolic link that leads out is refused, as at the level `Closed`.
    pub closed: bool,
    /// `--strip`: only what follows BASE is printed.
    pub stripped: bool,
    /// `--by-components`: the paths are compared without resolving them, as by `Path::starts_with`.
    pub by_components: bool,
    /// `-u`: only the first of equal paths is printed.
    pub unique: bool,
    /// `-r`: the paths are printed from the last one to the first.
    pub reversed: bool,
}

/// A command for each of some paths.
///
/// `upath strip a` asks for `Command::Strip` and the base `a`.
#[derive(Clone, Copy)]
pub struct Task<'a> {
    /// The command.
    pub command: Command,
    /// Its options.
    pub options: Options,
    /// `--or`: this text is printed for a path without an answer.
    pub or: Option<Path<'a>>,
    /// ROOT, BASE or DIR, or the empty path if the command takes none of them.
    pub base: Path<'a>,
}

/// What a list of arguments asks for.
///
/// `upath equal a b` asks for `Invocation::Equal` of the paths `a` and `b`.
#[derive(Drop)]
pub enum Invocation<'a> {
    /// Print the help text of the command with this name, or the general one if there is none.
    Help(Path<'a>),
    /// Print the version.
    Version,
    /// Compare two paths. Nothing is printed, and the status answers.
    Equal(Options, Path<'a>, Path<'a>),
    /// Print the entries that are refused of the archive whose entries are on standard input.
    Archive(Options),
    /// Run a command for each of these paths, or for the paths on standard input.
    Each(Task<'a>, Option<Vec<Path<'a>>>),
}
