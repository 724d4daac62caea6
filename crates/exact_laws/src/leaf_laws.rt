//! Laws of leaves: their terms are refused only where they are too high.
ghost use Rattle.exact_laws.specs.leaf_laws.Laws.{LeafAnswers, PartIsExact};

/// The term of a leaf is made, unless it is too high, where the leaf's terms are low and no call is the decreasing
/// argument of another one.
pub fn leaf_answers()
    ensures { LeafAnswers }
{}

/// The term of the tree of a part is made, unless it is too high, where that holds of its right sides.
pub fn part_is_exact()
    ensures { PartIsExact }
{}
