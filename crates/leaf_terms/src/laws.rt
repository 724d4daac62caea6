ghost use Rattle.leaf_terms.specs.Laws.{LeafIsDeep, LeafIsTerm};
ghost use Rattle.leaf_terms.specs.RecursionMade.{RecursionIsFound};

/// Where recursion is found without Deep, it is that of the plan.
pub fn recursion_is_found()
    ensures { RecursionIsFound }
{}

/// The term that the code makes of a leaf is the leaf's term.
pub fn leaf_is_term()
    ensures { LeafIsTerm }
{}

/// No other refusal of a leaf is meant than Deep.
pub fn leaf_is_deep()
    ensures { LeafIsDeep }
{}
