use crate::{Items, Tele, Term};

/// A rule of unification.
///
/// `Inject` and `Conflict` hold the family and the constructors; `SolveRight`, `SolveLeft` and `Cycle` the variable.
#[derive(Clone, Copy, Debug, PartialEq, Eq)]
pub enum Rule {
    SolveRight(u32),
    SolveLeft(u32),
    Inject(u32, u32),
    Conflict(u32, u32, u32),
    Cycle(u32),
    Delete,
}

/// One step of unification: the rule, the number of the group of equations that it works on, and the type and the sides
/// of its equation, reduced as far as the rule used them.
#[derive(Debug, Drop)]
pub struct Step {
    pub group: u32,
    pub rule: Rule,
    pub ty: Term,
    pub left: Term,
    pub right: Term,
}

/// Where a variable of a branch's context comes from: a variable of the context that was split, or an argument of the
/// constructor.
#[derive(Clone, Copy, Debug, PartialEq, Eq)]
pub enum Origin {
    Old(u32),
    Arg(u32),
}

/// The branch of one constructor at a split.
///
/// Either the equations of its indices are absurd: the last step shows this, in the context and at the sides that are
/// given. Or they are solved, and the tree goes on. `origin` has one item for each variable of the new context.
#[cycle(trees)]
#[derive(Debug, Drop)]
pub enum Branch {
    Absurd {
        steps: Items<Step>,
        ctx: Tele,
        left: Term,
        right: Term,
    },
    Solved {
        steps: Items<Step>,
        origin: Items<Origin>,
        tree: Box<Tree>,
    },
}

/// A case tree of a function (Goguen, McBride and McKinna; Cockx and Abel).
///
/// A `Leaf` has the number of its clause, its context, the goal there, one term over the context for each variable of
/// the starting context in `subst`, the terms of the columns, and the terms of the clause's variables in `binds`. A
/// `Split` has one branch for each constructor of the family of variable `var`, whose reduced type is `ty`.
#[cycle(trees)]
#[derive(Debug, Drop)]
pub enum Tree {
    Leaf {
        clause: u32,
        ctx: Tele,
        goal: Term,
        subst: Tele,
        terms: Tele,
        binds: Tele,
    },
    Split {
        ctx: Tele,
        var: u32,
        family: u32,
        ty: Term,
        branches: Items<Branch>,
    },
}

/// The end of a clause's own walk through its patterns: the fields of a leaf, and each written dot with the term that is forced
/// there.
#[derive(Debug, Drop)]
pub struct Walk {
    pub ctx: Tele,
    pub goal: Term,
    pub subst: Tele,
    pub terms: Tele,
    pub binds: Tele,
    pub dots: Items<(Term, Term)>,
}
