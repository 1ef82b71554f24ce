ghost use Rattle.std.specs.Prelude.{IfOk};
ghost use Rattle.safe_bound.specs.Premises.{AreCuts};
ghost use Rattle.leaf_truth.specs.Rooms.{HasRoom};

use ip_core::{Model, OutOfMemory, Row};
use std::alloc::Global;

/// Room for the bounds of leaves, to be used again from leaf to leaf: a multiplier for each row and cut, and a
/// reduced cost for each column. What a leaf leaves in it has no meaning.
#[derive(Debug, Drop)]
pub struct Scratch {
    pub(crate) mults: Vec<u64>,
    pub(crate) reduced_costs: Vec<i128>,
}

impl Scratch {
    ghost use Rattle.std.specs.Prelude.{IfOk};
    ghost use Rattle.safe_bound.specs.Premises.{AreCuts};
    ghost use Rattle.leaf_truth.specs.Rooms.{HasRoom};

    /// Room for a model with these cuts.
    pub fn of(alloc: Global, model: &Model, cuts: &[Row]) -> Result<Scratch, OutOfMemory>
        requires { AreCuts model.now cuts.now }
        ensures { IfOk result (λ scratch. HasRoom model.now cuts.now scratch) }
    {
        let parts = model.parts();
        Ok(Scratch {
            mults: vec![in alloc; 0; parts.rows.len() + cuts.len()]?,
            reduced_costs: vec![in alloc; 0; parts.cols.len()]?,
        })
    }
}
