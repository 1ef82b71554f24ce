ghost use Rattle.sample_model.specs.Laws.{SamplesAreAdmitted};

/// A law with nothing to run: each sample model is admitted to the search without an upper bound from outside. Its
/// coefficients, costs and bounds are whole and small, and it has at most 40,000 terms.
pub fn samples_are_admitted()
    ensures { SamplesAreAdmitted }
{}
