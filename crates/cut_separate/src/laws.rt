ghost use Rattle.cut_separate.specs.Laws.{NewCutsAreDerived, SeparatedAreNew};

/// A law with nothing to run: each separated cut has the row that its derivation gives, there are at most 16 of them,
/// and they don't lead past 512 cuts together.
pub fn separated_are_new()
    ensures { SeparatedAreNew }
{}

/// A law with nothing to run: with the rows of new cuts behind them, cuts that were derived one after the other still
/// are.
pub fn new_cuts_are_derived()
    ensures { NewCutsAreDerived }
{}
