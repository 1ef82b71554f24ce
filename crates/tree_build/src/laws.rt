ghost use Rattle.stamp_machine.specs.Limits.{AreLimits};
ghost use Rattle.tree_build.specs.Laws.{FinishedHasText, FinishedIsProof, IsProvedAnswer, TreesAreWhole};

use stamp_machine::{Limits, entries_fit_stores};
use task_steps::{Search, answers_are_true, histories_are_read, records_hold};

/// A law of proof trees, with nothing to run: the nodes that a history and its records make are one
/// tree in preorder, whatever they are.
pub fn trees_are_whole()
    ensures { TreesAreWhole }
{}

/// A law of certificates, with nothing to run: that of a finished search is one tree, and the
/// checker accepts it.
pub fn finished_is_proof()
    ensures { FinishedIsProof }
{}

/// A law of certificates, with nothing to run: that of a finished search of fewer than 2^31 entries,
/// with at most 2^21 steps in each leaf, keeps to the ranges of its text, so that it is read as it is.
pub fn finished_has_text()
    ensures { FinishedHasText }
{}

/// A law of the search, with nothing to run: where the machine's history is one of a finished
/// search, its certificate is one tree, and the checker accepts it. Its text is read as it is.
pub fn finished_searches_are_accepted(search: &Search, limits: &Limits)
    requires { AreLimits limits.now }
    ensures { IsProvedAnswer search.now.model search.now.settings limits.now }
{
    entries_fit_stores(search, limits);
    histories_are_read(search, limits);
    answers_are_true(search, limits);
    records_hold(search, limits);
}
