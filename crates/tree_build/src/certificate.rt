ghost use Rattle.std.specs.Prelude.{◌≡◌, IfOk};
ghost use Rattle.task_steps.specs.Sound.{best_point};
ghost use Rattle.task_steps.specs.Truth.{IsHistory};
ghost use Rattle.tree_build.specs.Certificates.{certificate_of as certificate_of_history, derivations_of, proof_of, shown_value as shown_value_of};

use crate::copies::copy_derivation;
use crate::tree::tree_of;
use ip_core::{Derivation, List, Model, OutOfMemory, Point, greatest_value};
use stamp_machine::History;
use std::alloc::Global;
use task_steps::{Answer, Best, Status};
use tree_cert::Certificate;
use work_stamp::{Entry, KeyedEntry};

/// The certificate of a history of the model's search with its answer: the model's size, the best
/// point with its value, or one more than the greatest value on the root box where there is no
/// point, the cuts, and the tree. None exactly where the status is StoreLimit or WorkLimit, since
/// such a search isn't finished.
pub fn build(
    alloc: Global,
    model: &Model,
    history: &History,
    answer: &Answer,
) -> Result<Option<Certificate>, OutOfMemory>
    requires { IsHistory model.now history.now.entries }
    ensures { IfOk result (λ made. made ≡ proof_of model.now history.now answer.now) }
{
    match answer.status {
        Status::Optimal | Status::Infeasible => {
            Ok(Some(certificate_of(alloc, model, history, &answer.best)?))
        }
        Status::StoreLimit | Status::WorkLimit => Ok(None),
    }
}

/// The certificate of a history with its best point.
fn certificate_of(
    alloc: Global,
    model: &Model,
    history: &History,
    best: &Option<Best>,
) -> Result<Certificate, OutOfMemory>
    requires { IsHistory model.now history.now.entries }
    ensures { IfOk result (λ made. made ≡
        certificate_of_history model.now history.now best.now) }
{
    let parts = model.parts();
    Ok(Certificate {
        cols: parts.cols.len() as u32,
        rows: parts.rows.len() as u32,
        value: shown_value(model, best),
        point: point_of(alloc, best)?,
        cuts: cuts_of(alloc, history.entries.as_slice())?,
        nodes: tree_of(alloc, history)?,
    })
}

/// The value of the best point, and with no point one more than the greatest value on the root box.
#[tactic(auto, using(ip_core::proofs::Reaching::root_within_reach))]
fn shown_value(model: &Model, best: &Option<Best>) -> i64
    ensures { result ≡ shown_value_of model.now best.now }
{
    match best {
        None => greatest_value(model, model.root()) + 1,
        Some(best) => best.value,
    }
}

/// The best point, if there is one.
fn point_of(alloc: Global, best: &Option<Best>) -> Result<Option<Point>, OutOfMemory>
    ensures { IfOk result (λ point. point ≡ best_point best.now) }
{
    match best {
        None => Ok(None),
        Some(best) => Ok(Some(best.point.copy(alloc)?)),
    }
}

/// How each cut of a history follows, in order.
fn cuts_of(alloc: Global, entries: &[KeyedEntry]) -> Result<List<Derivation>, OutOfMemory>
    ensures { IfOk result (λ cuts. cuts ≡ derivations_of entries.now) }
{
    let mut cuts = List::new(alloc);
    for item in entries {
        if let Entry::Cut { derivation } = &item.entry {
            cuts.push(copy_derivation(alloc, derivation)?)?;
        }
    }
    Ok(cuts)
}
