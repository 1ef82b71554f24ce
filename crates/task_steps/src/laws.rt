ghost use Rattle.stamp_machine.specs.Limits.{AreLimits};
ghost use Rattle.stamp_machine.specs.Machine.{history};
ghost use Rattle.task_steps.specs.Answers.{answer_of};
ghost use Rattle.task_steps.specs.LimitCauses.{HasLimitCause};
ghost use Rattle.task_steps.specs.Picks.{BestIsTaken};
ghost use Rattle.task_steps.specs.Records.{RecordsHold};
ghost use Rattle.task_steps.specs.Rules.{rules};
ghost use Rattle.task_steps.specs.Truth.{IsHistory, IsTrueAnswer};

use crate::Search;
use stamp_machine::Limits;

/// A law of the search, with nothing to run: at every history, a task that is taken looks for cuts
/// where none has, or it takes the open node of the least bound, and of equal bounds the one of the
/// least name, or dives from that node where a dive is due.
pub fn best_nodes_are_taken()
    ensures { BestIsTaken }
{}

/// A law of the search, with nothing to run: each entry of the machine's history may follow those
/// before it.
pub fn histories_are_read(search: &Search, limits: &Limits)
    requires { AreLimits limits.now }
    ensures { IsHistory search.now.model
        (history (rules search.now.model search.now.settings) limits.now).entries }
{}

/// A law of the search, with nothing to run: the answer of the machine's history is true of the
/// model, whatever the number of slots and the limits. Optimal has a best point, and at Infeasible
/// no point is feasible.
pub fn answers_are_true(search: &Search, limits: &Limits)
    requires { AreLimits limits.now }
    ensures { IsTrueAnswer search.now.model (answer_of search.now.model
        (history (rules search.now.model search.now.settings) limits.now).entries) }
{}

/// A law of the search, with nothing to run: a limit ends a search only where it is met. At
/// StoreLimit a slot had more to publish than its store takes, and at WorkLimit the clock of every
/// slot ended at the limit on work or past it.
pub fn limits_are_met(search: &Search, limits: &Limits)
    requires { AreLimits limits.now }
    ensures { HasLimitCause search.now.model search.now.settings limits.now }
{}

/// A law of the search, with nothing to run: what each record of the machine's history says is so.
/// Its node was held, and its slot has closed it. On the node's box, which the splits on its path
/// make of the root box and which never changed since, its leaf holds at the last cutoff. The leaf
/// has at most 2^21 steps. Each node that is closed has a record. The last cutoff is the value of the
/// best point, or with no point one more than any value.
pub fn records_hold(search: &Search, limits: &Limits)
    requires { AreLimits limits.now }
    ensures { RecordsHold search.now.model search.now.settings limits.now }
{}
