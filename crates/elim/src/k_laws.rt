//! Without axiom K no line of a clause shows a symbol of it.
ghost use Rattle.elim.specs.k_laws.Laws.{InferLacks, LinesLackAxiomK, NormalLacks, OwnWalkLacks, SplitLacks, UnifyLacks, WellFormedLacks, WhnfLacks};

/// A well-formed signature in which K is off holds no symbol of it.
pub fn well_formed_lacks()
    ensures { WellFormedLacks }
{}

/// The head form of a term without K has none.
pub fn whnf_lacks()
    ensures { WhnfLacks }
{}

/// Nor has its normal form.
pub fn normal_lacks()
    ensures { NormalLacks }
{}

/// Nor has the type that the checker finds of it.
pub fn infer_lacks()
    ensures { InferLacks }
{}

/// A problem without K has solutions without it.
pub fn unify_lacks()
    ensures { UnifyLacks }
{}

/// The walk of a clause from terms without K ends at such terms.
pub fn own_walk_lacks()
    ensures { OwnWalkLacks }
{}

/// The tree of clauses over terms without K has none at its leaves.
pub fn split_lacks()
    ensures { SplitLacks }
{}

/// No term in the line of a clause of an accepted function holds a symbol of K.
pub fn lines_lack_axiom_k()
    ensures { LinesLackAxiomK }
{}
