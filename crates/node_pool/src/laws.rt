ghost use Rattle.node_pool.specs.Laws.{BestIsLeast, BoxesAreParts, CutsAreDerived, EntriesAreCounted};

/// A law of the pool, with nothing to run: at every history the best open node has the least bound,
/// and of those the least name.
pub fn best_is_least()
    ensures { BestIsLeast }
{}

/// A law of the pool, with nothing to run: the root has the root box, a split gives its children
/// the two parts of its node's box, and the box of a node never changes after that, since the names
/// of nodes are known and a split's are new.
pub fn boxes_are_parts()
    ensures { BoxesAreParts }
{}

/// A law of the pool, with nothing to run: a view counts each entry of its history.
pub fn entries_are_counted()
    ensures { EntriesAreCounted }
{}

/// A law of the pool, with nothing to run: at every history each cut of the view was derived from
/// the model's rows and the cuts before it, so that every feasible point meets it. Cuts stay, and
/// there are at most 512.
pub fn cuts_are_derived()
    ensures { CutsAreDerived }
{}
