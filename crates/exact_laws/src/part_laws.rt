//! The trees of the parts of a plan are made, unless they are too high.
ghost use Rattle.exact_laws.specs.part_laws.Laws.{PartAnswers, PartNamesAnswer};

/// The term of a part's tree is made, unless it is too high, where those of its leaves are.
pub fn part_answers()
    ensures { PartAnswers }
{}

/// The names of a part's tree are made where its term is not too high.
pub fn part_names_answer()
    ensures { PartNamesAnswer }
{}
