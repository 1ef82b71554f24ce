ghost use Rattle.std.specs.Prelude.{◌≡◌, IfOk};

use ip_core::{Closing, Derivation, Leaf, List, OutOfMemory};
use std::alloc::Global;

/// Another leaf that says the same.
pub fn copy_leaf(alloc: Global, leaf: &Leaf) -> Result<Leaf, OutOfMemory>
    ensures { IfOk result (λ copy. copy ≡ leaf.now) }
{
    Ok(Leaf {
        steps: List::of(Vec::from_slice(alloc, leaf.steps.as_slice())?),
        closing: copy_closing(alloc, &leaf.closing)?,
    })
}

fn copy_closing(alloc: Global, closing: &Closing) -> Result<Closing, OutOfMemory>
    ensures { IfOk result (λ copy. copy ≡ closing.now) }
{
    match closing {
        Closing::Conflict(row) => Ok(Closing::Conflict(*row)),
        Closing::Empty(col) => Ok(Closing::Empty(*col)),
        Closing::Bound(pairs) => {
            let pairs = Vec::from_slice(alloc, pairs.as_slice())?;
            Ok(Closing::Bound(List::of(pairs)))
        }
    }
}

/// Another derivation that says the same.
pub fn copy_derivation(alloc: Global, derivation: &Derivation) -> Result<Derivation, OutOfMemory>
    ensures { IfOk result (λ copy. copy ≡ derivation.now) }
{
    match derivation {
        Derivation::Gomory { parts, divisor } => {
            let parts = Vec::from_slice(alloc, parts.as_slice())?;
            Ok(Derivation::Gomory {
                parts: List::of(parts),
                divisor: *divisor,
            })
        }
        Derivation::Cover { row, cols } => {
            let cols = Vec::from_slice(alloc, cols.as_slice())?;
            Ok(Derivation::Cover {
                row: *row,
                cols: List::of(cols),
            })
        }
    }
}
