ghost use Rattle.cut_derive.specs.Laws.{DerivedAreCutRows, DerivedAreValid, DerivedOverMore, DerivedRowIsCut, DerivedRowIsMet};

/// A law with nothing to run: a feasible point that meets the cuts meets each row that is derived over them.
pub fn derived_row_is_met()
    ensures { DerivedRowIsMet }
{}

/// A law with nothing to run: a derived row is one like those of the model, with at most 256 terms.
pub fn derived_row_is_cut()
    ensures { DerivedRowIsCut }
{}

/// A law with nothing to run: what is derived over cuts is derived with more cuts behind them.
pub fn derived_over_more()
    ensures { DerivedOverMore }
{}

/// A law with nothing to run: cuts that were derived one after the other are rows like those of the model, with at most
/// 256 terms each.
pub fn derived_are_cut_rows()
    ensures { DerivedAreCutRows }
{}

/// A law with nothing to run: each feasible point meets cuts that were derived one after the other.
pub fn derived_are_valid()
    ensures { DerivedAreValid }
{}
