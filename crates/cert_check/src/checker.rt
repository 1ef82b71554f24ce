ghost use Rattle.std.specs.Prelude.{◌≡◌, ◌≤◌, ◌^◌, [], length, IfOk, MatchOption};
ghost use Rattle.tree_cert.specs.Trees.{IsTree};
ghost use Rattle.cert_check.specs.declared.verdict.Verdict.TheVariants.{Accepted};
ghost use Rattle.cert_check.specs.Verdicts.{IsTrueCertificate, cut_rows as cut_rows_of, fault_of, tree_fault, verdict_of};

use crate::cuts::cut_rows;
use crate::lines::{point_reason, size_reason, value_reason};
use crate::nodes::nodes_verdict;
use crate::{Verdict, Why};
use ip_core::{Model, OutOfMemory};
use std::alloc::Global;
use tree_cert::Certificate;

/// The lines of a certificate before its nodes. The first cut, if there is one, stands on the line after their number.
const SIZE_LINE: u32 = 2;

const VALUE_LINE: u32 = 3;

const POINT_LINE: u32 = 4;

const FIRST_CUT_LINE: u32 = 6;

/// Judges a certificate of a model: the first line with a reason rejects it, by the least of its reasons, and else it
/// is accepted. An accepted certificate says the truth: its point is best, or without one no point is feasible. The
/// only error is want of memory.
pub fn check(
    alloc: Global,
    model: &Model,
    certificate: &Certificate,
) -> Result<Verdict, OutOfMemory>
    requires tree { IsTree certificate.now.nodes }
    requires few_cuts { length certificate.now.cuts ≤ 2 ^ 30 }
    requires few_nodes { length certificate.now.nodes ≤ 2 ^ 30 }
    ensures verdict { IfOk result (λ verdict. verdict ≡
        verdict_of (fault_of model.now certificate.now)) }
    ensures truth { IfOk result (λ verdict. verdict ≡ Accepted →
        IsTrueCertificate model.now certificate.now) }
{
    let _limits = model.parts();
    if let Some(verdict) = rejection_before_cuts(model, certificate) {
        return Ok(verdict);
    }
    tree_verdict(alloc, model, certificate)
}

/// The verdict by the first line before the cuts that has a reason, if there is one.
fn rejection_before_cuts(model: &Model, certificate: &Certificate) -> Option<Verdict>
    ensures { MatchOption result
        (fault_of model.now certificate.now ≡ tree_fault model.now certificate.now
        (cut_rows_of model.now 6 [] certificate.now.cuts))
        (λ verdict. verdict ≡ verdict_of (fault_of model.now certificate.now)) }
{
    if let Some(why) = size_reason(model, certificate) {
        return Some(Verdict::Rejected {
            line: SIZE_LINE,
            why,
        });
    }
    if let Some(why) = value_reason(model, certificate) {
        return Some(Verdict::Rejected {
            line: VALUE_LINE,
            why,
        });
    }
    if let Some(why) = point_reason(model, certificate) {
        return Some(Verdict::Rejected {
            line: POINT_LINE,
            why,
        });
    }
    None
}

/// The verdict on the cuts and then on the nodes, where no earlier line has a reason.
fn tree_verdict(
    alloc: Global,
    model: &Model,
    certificate: &Certificate,
) -> Result<Verdict, OutOfMemory>
    requires few_cuts { length certificate.now.cuts ≤ 2 ^ 30 }
    requires few_nodes { length certificate.now.nodes ≤ 2 ^ 30 }
    ensures { IfOk result (λ verdict. verdict ≡ verdict_of (tree_fault model.now certificate.now
        (cut_rows_of model.now 6 [] certificate.now.cuts))) }
{
    let cuts = certificate.cuts.as_slice();
    let rows = match cut_rows(alloc, model, FIRST_CUT_LINE, cuts)? {
        Ok(rows) => rows,
        Err(line) => {
            return Ok(Verdict::Rejected {
                line,
                why: Why::CutDerivation,
            });
        }
    };
    let first_line = FIRST_CUT_LINE + cuts.len() as u32 + 1;
    nodes_verdict(
        alloc,
        model,
        rows.as_slice(),
        certificate.value,
        first_line,
        certificate.nodes.as_slice(),
    )
}
