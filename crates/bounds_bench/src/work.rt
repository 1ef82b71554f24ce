use crate::model::bench_model;
use crate::words::{Call, Job};
use dual_ascent::ascend;
use ip_core::{List, Model, OutOfMemory};
use row_propagate::propagate;
use sample_model::generate;
use std::alloc::Global;
use width_admit::admit;
use work_stamp::NoPulse;

/// The counted work of a job, or None where its model isn't one.
pub fn work_of(alloc: Global, job: &Job) -> Result<Option<u64>, OutOfMemory> {
    let mps = generate(alloc, job.number)?;
    let Ok(sample) = admit(alloc, &mps, None) else {
        return Ok(None);
    };
    match bench_model(alloc, &sample, job)? {
        Some(model) => Ok(Some(work_on(alloc, &model, job.call)?)),
        None => Ok(None),
    }
}

/// The counted work of a call on the root box.
#[tactic(auto, using(dual_ascent::proofs::AscentWork::ascent_work_allowed, ip_core::proofs::Reaching::root_within_reach, ip_core::proofs::NarrowerBoxes::within_itself))]
fn work_on(alloc: Global, model: &Model, call: Call) -> Result<u64, OutOfMemory> {
    let parts = model.parts();
    let mut bounds = parts.root.copy(alloc)?;
    match call {
        Call::Propagate => {
            let mut steps = List::new(alloc);
            Ok(propagate(alloc, model, &[], &mut bounds, &mut steps)?.work)
        }
        Call::Ascend => Ok(ascend(alloc, model, &[], &bounds, &mut NoPulse::new())?.work),
        Call::Neither => Ok(0),
    }
}
