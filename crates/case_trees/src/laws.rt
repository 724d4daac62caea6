//! The laws of walks and trees.
ghost use Rattle.case_trees.specs.Laws.{WalkSpends, TreeSpends, WalkGoesOn, TreeGoesOn, WalkWithMoreUnits, TreeWithMoreUnits, OutcomeIsUnique, WalkIsUnique, TreeIsUnique, WalkBinds, WalkKeepsDots, WalkKeepsAllDots, WalkStands, WalkEnds, WalkScoped, WalkStopScoped, WalkCaused, TreeScoped, TreeStopScoped, TreeCaused, OriginsTell, SolvedIsBuilt, TreeStands, SplitsAsked, WalkLeads, LeavesLead, LeavesMatch, FirstMatch};

/// No walk gives units back.
pub fn walk_spends()
    ensures { WalkSpends }
{}

/// No tree gives units back.
pub fn tree_spends()
    ensures { TreeSpends }
{}

/// A walk goes on as it began: its measure is never used up.
pub fn walk_goes_on()
    ensures { WalkGoesOn }
{}

/// A tree goes on as it began in each of its branches.
pub fn tree_goes_on()
    ensures { TreeGoesOn }
{}

/// With more units a walk comes to the same, unless it ran out of units.
pub fn walk_with_more_units()
    ensures { WalkWithMoreUnits }
{}

/// With more units a tree comes to the same, unless it ran out of units.
pub fn tree_with_more_units()
    ensures { TreeWithMoreUnits }
{}

/// A problem has one outcome, whatever units there are.
pub fn outcome_is_unique()
    ensures { OutcomeIsUnique }
{}

/// There is one walk of a clause, whatever units there are.
pub fn walk_is_unique()
    ensures { WalkIsUnique }
{}

/// There is one tree of a list of clauses, whatever units there are.
pub fn tree_is_unique()
    ensures { TreeIsUnique }
{}

/// The bindings of a walk are the terms at the clause's variables.
pub fn walk_binds()
    ensures { WalkBinds }
{}

/// The dots of a walk are those of its terms that mention no variable without a term, with the terms that are written there.
pub fn walk_keeps_dots()
    ensures { WalkKeepsDots }
{}

/// Where a clause matches, its walk has all of its dots.
pub fn walk_keeps_all_dots()
    ensures { WalkKeepsAllDots }
{}

/// A leaf is matched by its clause and apart from every earlier one.
pub fn leaves_match()
    ensures { LeavesMatch }
{}

/// Whatever is put for the variables of a leaf, its clause matches, and no earlier one.
pub fn first_match()
    ensures { FirstMatch }
{}

/// The substitution of a walk leads from the start to where the walk ends.
pub fn walk_leads()
    ensures { WalkLeads }
{}

/// The substitution of a leaf leads from the start to the leaf.
pub fn leaves_lead()
    ensures { LeavesLead }
{}

/// A walk ends at a point to which solved problems lead.
pub fn walk_stands()
    ensures { WalkStands }
{}

/// The clause of a walk matches its terms, or a variable has no constructor.
pub fn walk_ends()
    ensures { WalkEnds }
{}

/// A split has one branch for each constructor, in order: an absurd one is the end of a run, a solved one is over the solution of one.
pub fn tree_stands()
    ensures { TreeStands }
{}

/// Each split is asked for by the first clause that is left.
pub fn splits_asked()
    ensures { SplitsAsked }
{}

/// The answer of a walk over scoped terms is scoped.
pub fn walk_scoped()
    ensures { WalkScoped }
{}

/// The end of a walk over scoped terms is scoped.
pub fn walk_stop_scoped()
    ensures { WalkStopScoped }
{}

/// The end of a walk has its cause at the clause.
pub fn walk_caused()
    ensures { WalkCaused }
{}

/// A tree of scoped terms is scoped.
pub fn tree_scoped()
    ensures { TreeScoped }
{}

/// The end of a tree of scoped terms is scoped.
pub fn tree_stop_scoped()
    ensures { TreeStopScoped }
{}

/// The end of a tree has its cause at a clause of the list; terms that are uncovered are apart from all clauses.
pub fn tree_caused()
    ensures { TreeCaused }
{}

/// Each variable of the context after a solved problem stands for itself at its origin.
pub fn origins_tell()
    ensures { OriginsTell }
{}

/// A solved problem of a constructor puts that constructor for the variable.
pub fn solved_is_built()
    ensures { SolvedIsBuilt }
{}
