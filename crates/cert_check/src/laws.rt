ghost use Rattle.cert_check.specs.Verdicts.{AcceptedIsFaultless, AcceptedIsTrue};

/// A law with nothing to run: a certificate is accepted exactly where its numbers of columns and rows are those of the
/// model, its point is feasible, its value is that of the point or one more than the greatest on the root box, each cut
/// is derived over the rows before it, and no node has a fault over the rows of the cuts.
pub fn accepted_is_faultless()
    ensures { AcceptedIsFaultless }
{}

/// A law with nothing to run: the point of an accepted certificate is best and has the certificate's value, and a model
/// with an accepted certificate without a point has no feasible point.
pub fn accepted_is_true()
    ensures { AcceptedIsTrue }
{}
