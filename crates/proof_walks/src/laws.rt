ghost use Rattle.proof_walks.specs.Laws.{KeptReduces, OpenIsReady, WalkAnswers, WalkIsMade};

/// The walk of a clause that the code makes is the walk as it is defined, unless the code answers Deep.
pub fn walk_answers()
    ensures { WalkAnswers }
{}

/// Where recursion is found without Deep and the first place is scoped, the answer is the walk's own.
pub fn walk_is_made()
    ensures { WalkIsMade }
{}

/// A signature that drafts may enter is one over which walks go.
pub fn open_is_ready()
    ensures { OpenIsReady }
{}

/// The terms at a leaf can be reduced.
pub fn kept_reduces()
    ensures { KeptReduces }
{}
