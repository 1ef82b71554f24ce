ghost use Rattle.std.specs.Prelude.{◌≤◌, ◌^◌, length, MatchResult};
ghost use Rattle.width_admit.specs.Gathered.{AreColumns};
ghost use Rattle.width_admit.specs.Admission.{Admits, IsCause};

use crate::AdmitError;
use crate::build::parts_of;
use crate::columns::root_of;
use crate::gather::gather;
use crate::refuse::{column_refusal, count_refusal, width_refusal};
use ip_core::Model;
use mps_model::MpsModel;
use std::alloc::Global;

/// The model in whole numbers that a file's model becomes, or the first reason that refuses it: the least kind, then the
/// first column or row. Columns without a high get `default_upper`, where it is given.
///
/// Each row is multiplied by the least power of ten that makes its coefficients and sides whole, and becomes one row of
/// at least for each side, the lower side first. The objective is treated in the same way, with its constant.
pub fn admit(alloc: Global, mps: &MpsModel, default_upper: Option<u32>) -> Result<Model, AdmitError>
    requires columns { AreColumns (length mps.now.rows) mps.now.cols }
    requires rows { length mps.now.rows ≤ 2 ^ 30 }
    requires cols { length mps.now.cols ≤ 2 ^ 30 }
    ensures { MatchResult result
        (λ m. Admits mps.now default_upper m) (λ e. IsCause mps.now default_upper e) }
{
    if let Some(refusal) = column_refusal(mps, default_upper) {
        return Err(AdmitError::from(refusal));
    }
    let lists = gather(alloc, mps.cols.as_slice(), mps.rows.len())?;
    if let Some(refusal) = count_refusal(mps, lists.as_slice()) {
        return Err(AdmitError::from(refusal));
    }
    let root = root_of(alloc, default_upper, mps.cols.as_slice())?;
    if let Some(refusal) = width_refusal(mps, default_upper, lists.as_slice(), &root) {
        return Err(AdmitError::from(refusal));
    }
    let parts = parts_of(alloc, mps, default_upper, lists.as_slice(), root)?;
    match Model::of(parts) {
        Some(model) => Ok(model),
        None => unreachable!(),
    }
}
