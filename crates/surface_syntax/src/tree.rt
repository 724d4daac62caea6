use core_terms::{Items, Name};

/// A name of a source file, by its bytes and the offset at which it is.
#[derive(Debug, Drop)]
pub struct Word {
    pub text: Name,
    pub start: u32,
}

/// The group `(x y : A)` of variables of one type. `None` stands for `_`.
#[cycle(surf)]
#[derive(Debug, Drop)]
pub struct Binder {
    pub names: Items<Option<Word>>,
    pub ty: Surf,
}

/// A term as it is written. Parentheses leave no node, and an application has one argument at least.
#[cycle(surf)]
#[derive(Debug, Drop)]
pub enum Surf {
    Lam(Items<Binder>, Box<Surf>),
    Pi(Items<Binder>, Box<Surf>),
    Arrow(Box<Surf>, Box<Surf>),
    App(Box<Surf>, Items<Surf>),
    /// The name, its annotation, its value, and the term in which it holds.
    Let(Word, Box<Surf>, Box<Surf>, Box<Surf>),
    Sort(u8),
    /// A plain or a dotted name.
    Named(Word),
}

/// A pattern as it is written. `Con` is the form in parentheses, with or without arguments.
#[derive(Debug, Drop)]
pub enum SurfPat {
    Named(Word),
    Wild,
    Dot(Surf),
    Absurd,
    Con(Word, Items<SurfPat>),
}

/// The right side of a clause, after its patterns: a term, a `with`, or nothing.
#[cycle(clause)]
#[derive(Debug, Drop)]
pub enum SurfRight {
    Side(Surf),
    With(Surf, Items<SurfClause>),
    Absurd,
}

/// A clause of a function, or of a `with`.
#[cycle(clause)]
#[derive(Debug, Drop)]
pub struct SurfClause {
    pub head: Word,
    pub pats: Items<SurfPat>,
    pub right: SurfRight,
}

/// A parameter of a family.
#[derive(Debug, Drop)]
pub struct SurfParam {
    pub name: Word,
    pub ty: Surf,
}

/// A constructor of a family.
#[derive(Debug, Drop)]
pub struct SurfCon {
    pub name: Word,
    pub ty: Surf,
}

/// A family among those that refer to each other.
#[derive(Debug, Drop)]
pub struct SurfMember {
    pub name: Word,
    pub ty: Surf,
    pub cons: Items<SurfCon>,
}

/// A declaration.
#[derive(Debug, Drop)]
pub enum Decl {
    Def {
        name: Word,
        ty: Surf,
        body: Surf,
    },
    /// The decision of equality for a family, into the family of decisions.
    Decide {
        name: Word,
        family: Word,
        decision: Word,
    },
    Data {
        name: Word,
        params: Items<SurfParam>,
        ty: Surf,
        cons: Items<SurfCon>,
    },
    /// Families that refer to each other, with the packed family, the tag family and the tag of each member.
    Mutual {
        params: Items<SurfParam>,
        members: Items<SurfMember>,
        family: Word,
        tag: Word,
        tags: Items<Word>,
    },
    Fun {
        name: Word,
        ty: Surf,
        clauses: Items<SurfClause>,
    },
}
