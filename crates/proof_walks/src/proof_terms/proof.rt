use core_terms::{Items, Step, Tele, Term};

/// Where a walk is: a context, the equation there, the terms of the clause, and a term for each variable of the tree's node.
#[derive(Debug, Drop)]
pub struct Place {
    pub ctx: Tele,
    pub ty: Term,
    pub left: Term,
    pub right: Term,
    pub terms: Tele,
    pub values: Tele,
}

/// The result of the walk of a clause's terms through a tree.
///
/// It `Ends` at a leaf, which belongs to a clause of the tree. Where it `Splits` a variable of a reduced type, there are the runs of all
/// constructors, and a proof after each run that is solved.
#[derive(Debug, Drop)]
pub enum Proof {
    Ends {
        clause: u32,
        place: Place,
    },
    Splits {
        place: Place,
        x: u32,
        ty: Term,
        runs: Items<Items<Step>>,
        proofs: Items<Proof>,
    },
}
