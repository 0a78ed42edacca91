ghost use Rattle.ev_tree.specs.Floats.{MakesWhole};
ghost use Rattle.ev_trees.specs.Trees.{LinesOfTrees, StaysWithinLimits};
ghost use Rattle.ev_trees.specs.Scripts.{LinesMove, TreesAreScript};

/// A law: the lines of the text of trees are the texts of the trees. It does nothing.
pub fn lines_of_trees()
    ensures { LinesOfTrees }
{}

/// A law: with -1 for each float a tree has no float, is as deep as it was, and the same where it had none. It does
/// nothing.
pub fn makes_whole()
    ensures { MakesWhole }
{}

/// A law: no fault of the limits is in the text of trees whose lines are neither too long nor too many, and which
/// has no more bytes than an input may have. It does nothing.
pub fn within_limits()
    ensures { StaysWithinLimits }
{}

/// A law: trees that are read back, within the limits, a header and lines of its workers, are when they are written a
/// script without fault, of that header and these lines. It does nothing.
pub fn trees_are_script()
    ensures { TreesAreScript }
{}

/// A law: by each profile a tree is the same line at any place, but for its number. It does nothing.
pub fn lines_move()
    ensures { LinesMove }
{}
