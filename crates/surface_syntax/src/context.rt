use crate::{Binder, Surf, SurfClause, SurfMember, SurfParam, SurfPat, Word};
use core_terms::Items;

/// Whether binders are those of a function or of a product.
#[derive(Clone, Copy)]
pub(crate) enum Quantifier {
    Function,
    Product,
}

/// An application so far.
#[derive(Drop)]
pub(crate) struct Spine {
    pub head: Surf,
    pub args: Items<Surf>,
}

/// Families so far, with their parameters.
#[derive(Drop)]
pub(crate) struct Families {
    pub params: Items<SurfParam>,
    pub members: Items<SurfMember>,
}

/// The binders so far of a function or a product, and the number of productions around that.
#[derive(Drop)]
pub(crate) struct Telescope {
    pub depth: u32,
    pub quantifier: Quantifier,
    pub binders: Items<Binder>,
}

/// The head and the patterns so far of a clause or of a constructor pattern, and the number of productions around that.
#[derive(Drop)]
pub(crate) struct Headed {
    pub depth: u32,
    pub head: Word,
    pub pats: Items<SurfPat>,
}

/// Where clauses are, with the clauses so far: in a function, or in a `with` of a clause.
#[derive(Drop)]
pub(crate) enum ClausesIn {
    Fun(Word, Surf, Items<SurfClause>),
    Inspect(Headed, Surf, Items<SurfClause>, Box<ClausesIn>),
}

/// Where patterns are, with the patterns so far: in a clause, or in a constructor pattern.
#[derive(Drop)]
pub(crate) enum PatsIn {
    Behind(Headed, Box<ClausesIn>),
    Inside(Headed, Box<PatsIn>),
}

/// The part of a declaration that a term is.
#[derive(Drop)]
pub(crate) enum Part {
    DefType(Word),
    DefBody(Word, Surf),
    ParamType(Word, Items<SurfParam>, Word),
    MemberType(Families, Word),
    ConType(Families, SurfMember, Word),
    FunType(Word),
}

/// Where a term is: in a declaration, or in a term, a pattern or a clause, with the number of productions around
/// that.
#[derive(Drop)]
pub(crate) enum TermIn {
    Whole(Part),
    Parens(u32, Option<Spine>, Box<TermIn>),
    Codomain(Surf, Box<TermIn>),
    Domain(Telescope, Items<Option<Word>>, Box<TermIn>),
    Body(Telescope, Box<TermIn>),
    LetType(u32, Word, Box<TermIn>),
    LetValue(u32, Word, Surf, Box<TermIn>),
    LetBody(Word, Surf, Surf, Box<TermIn>),
    Dot(u32, bool, Box<PatsIn>),
    Side(Headed, Box<ClausesIn>),
    Scrutinee(Headed, Box<ClausesIn>),
}
