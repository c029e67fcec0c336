//! Laws of edits.
ghost use Rattle.path_runs.specs.EditLaws.{EqualPathsSameAnswers, EqualPathsStayEqual};
ghost use Rattle.path_runs.specs.EditLaws.{PopAnswersTrue, PopUndoesPush};
ghost use Rattle.path_runs.specs.EditLaws.{NewNameKeepsParent, NewNameIsLast};
ghost use Rattle.path_runs.specs.EditLaws.{NewExtensionKeepsStem, NewExtensionIsSet};
ghost use Rattle.path_runs.specs.EditLaws.{NewExtensionKeepsParent};

/// Equal paths stay equal under the same edits, and the edits return the same answers.
///
/// Two pushes are the same edit if their paths are equal. Names and extensions have to be the same
/// bytes, and may contain slashes and dots.
///
/// `a/./..foo` and `a/..foo` are equal. With the empty extension they become `a/./.` and `a/.`,
/// which are equal again.
pub fn edits_congruent()
    ensures answers { EqualPathsSameAnswers }
    ensures values { EqualPathsStayEqual }
{}

/// A pop undoes a push of one name, and a new file name keeps the parent.
///
/// The pop returns true and leaves the components from before the push. If the path has a file
/// name, setting another keeps the parent's bytes, and the new name is the last component.
///
/// `/a` is `/a` again after a push of `b` and a pop, and `/a/x` with the name `b` is `/a/b`.
pub fn push_then_pop()
    ensures answers { PopAnswersTrue }
    ensures values { PopUndoesPush }
    ensures parent { NewNameKeepsParent }
    ensures last { NewNameIsLast }
{}

/// Setting a simple extension sets the extension, and keeps the stem and the parent.
///
/// An extension is simple if it has at least one byte, and neither a dot nor a slash. The law
/// covers paths that have a file name. For other paths the edit returns false.
///
/// `/a/b.c` with the extension `d` is `/a/b.d`.
#[tactic(auto, using(crate::proofs::lemmas::edits::ExtensionLemmas::extension_set_cases))]
pub fn extension_set()
    ensures stem { NewExtensionKeepsStem }
    ensures extension { NewExtensionIsSet }
    ensures parent { NewExtensionKeepsParent }
{}
