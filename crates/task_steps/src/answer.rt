ghost use Rattle.std.specs.Prelude.{◌≡◌, IfOk};
ghost use Rattle.node_pool.specs.Views.{view_of};
ghost use Rattle.task_steps.specs.Answers.{answer_of as answer_of_history, best_after, best_found, is_better as is_better_of, splits_alone, view_status, with_found as with_found_of};
ghost use Rattle.task_steps.specs.Truth.{IsHistory};

use ip_core::{Model, OutOfMemory, Point};
use node_pool::{Pool, SearchSettings};
use stamp_machine::History;
use std::alloc::Global;
use work_stamp::{Entry, KeyedEntry};

/// How a search ended.
#[derive(Clone, Copy, Debug, PartialEq, Eq)]
pub enum Status {
    /// No node is left, and a point was found: it is a best one.
    Optimal,
    /// No node is left, and no point was found: none is feasible.
    Infeasible,
    /// A slot's entries didn't fit into its store.
    StoreLimit,
    /// The slots came to the limit of work.
    WorkLimit,
}

/// A feasible point with its value.
#[derive(Debug, Drop)]
pub struct Best {
    pub value: i64,
    pub point: Point,
}

/// The answer of a search: how it ended, and the first found point of least value, if there is one.
#[derive(Debug, Drop)]
pub struct Answer {
    pub status: Status,
    pub best: Option<Best>,
}

/// The answer that a history of the model's search gives.
pub fn answer_of(alloc: Global, model: &Model, history: &History) -> Result<Answer, OutOfMemory>
    requires { IsHistory model.now history.now.entries }
    ensures { IfOk result (λ answer. answer ≡ answer_of_history model.now history.now.entries) }
{
    let entries = history.entries.as_slice();
    let pool = pool_of(alloc, model, entries)?;
    let best = best_of(alloc, entries)?;
    let status = status_of(&pool, &best);
    Ok(Answer { status, best })
}

/// The view of a history. Which nodes are left in it doesn't depend on the settings.
#[tactic(auto, using(crate::proofs::Histories::absorb_joins))]
fn pool_of(alloc: Global, model: &Model, entries: &[KeyedEntry]) -> Result<Pool, OutOfMemory>
    requires { IsHistory model.now entries.now }
    ensures { IfOk result (λ pool. pool ≡ view_of model.now splits_alone entries.now) }
{
    let settings = SearchSettings {
        cuts: false,
        heuristics: false,
    };
    let mut pool = Pool::new(alloc, model, settings)?;
    for item in entries {
        pool.absorb(alloc, model, &item.entry)?;
    }
    Ok(pool)
}

/// The first found point of least value.
#[tactic(auto, using(crate::proofs::Histories::best_step))]
fn best_of(alloc: Global, entries: &[KeyedEntry]) -> Result<Option<Best>, OutOfMemory>
    ensures { IfOk result (λ best. best ≡ best_found entries.now) }
{
    let mut best = None;
    for item in entries {
        best = with_entry(alloc, best, &item.entry)?;
    }
    Ok(best)
}

/// The best point after one more entry.
fn with_entry(alloc: Global, best: Option<Best>, entry: &Entry) -> Result<Option<Best>, OutOfMemory>
    ensures { IfOk result (λ after. after ≡ best_after best entry.now) }
{
    match entry {
        Entry::Found { value, point } => with_found(alloc, best, *value, point),
        _ => Ok(best),
    }
}

/// The best point after one more is found: it gives way to one of less value.
fn with_found(
    alloc: Global,
    best: Option<Best>,
    value: i64,
    point: &Point,
) -> Result<Option<Best>, OutOfMemory>
    ensures { IfOk result (λ after. after ≡ with_found_of best value point.now) }
{
    if !is_better(&best, value) {
        return Ok(best);
    }
    Ok(Some(Best {
        value,
        point: point.copy(alloc)?,
    }))
}

/// Whether a value is below that of the best point, or there is none.
fn is_better(best: &Option<Best>, value: i64) -> bool
    ensures { result ≡ is_better_of best.now value }
{
    match best {
        None => true,
        Some(best) => value < best.value,
    }
}

fn status_of(pool: &Pool, best: &Option<Best>) -> Status
    ensures { result ≡ view_status pool.now best.now }
{
    if pool.is_finished() {
        return match best {
            Some(_) => Status::Optimal,
            None => Status::Infeasible,
        };
    }
    if pool.has_halt() {
        Status::StoreLimit
    } else {
        Status::WorkLimit
    }
}
