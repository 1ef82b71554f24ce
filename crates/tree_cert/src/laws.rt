ghost use Rattle.tree_cert.specs.Trees.{TreesAreCounted};

/// A law with nothing to run: the count of trees that are due finds nodes to be one tree exactly where they are those
/// of a tree in preorder.
pub fn trees_are_counted()
    ensures { TreesAreCounted }
{}
