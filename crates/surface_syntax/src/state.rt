ghost use Rattle.std.specs.Prelude.{◌≡◌, None};

use crate::context::{ClausesIn, Families, Part, PatsIn, Spine, Telescope, TermIn};
use crate::{Decl, SurfClause, SurfMember, SurfParam, Word};
use core_terms::Items;

/// The states in a definition, or in the head of a function.
#[derive(Drop)]
pub(crate) enum DefState {
    DefName,
    DefNext(Word),
    DecideData(Word),
    DecideFamily(Word),
    DecideDecision(Word, Word),
    FunName,
    FunColon(Word),
}

/// The states in a family.
#[derive(Drop)]
pub(crate) enum DataState {
    DataName,
    Params(Word, Items<SurfParam>),
    ParamName(Word, Items<SurfParam>),
    ParamColon(Word, Items<SurfParam>, Word),
    FirstCon(Families, SurfMember),
    ConName(Families, SurfMember),
    ConColon(Families, SurfMember, Word),
    FamilyEnd(Items<SurfParam>, SurfMember),
}

/// The states in families that refer to each other, after the first.
#[derive(Drop)]
pub(crate) enum MutualState {
    MembersEnd(Families),
    MemberName(Families),
    MemberColon(Families, Word),
    PackedName(Families),
    TagFamily(Families, Word),
    TagsOpen(Families, Word, Word),
    TagName(Families, Word, Word, Items<Word>),
    TagNext(Families, Word, Word, Items<Word>),
}

/// The states in a term.
#[derive(Drop)]
pub(crate) enum TermState {
    Term(u32, TermIn),
    Level(u32, Option<Spine>, Box<TermIn>),
    Opened(u32, Box<TermIn>),
    /// Names after `(`, and how many lexemes were left where the first of them was.
    Names(u32, u32, Word, Items<Word>, Box<TermIn>),
    BinderOpen(Telescope, Box<TermIn>),
    BinderNames(Telescope, Items<Option<Word>>, Box<TermIn>),
    BinderNext(Telescope, Box<TermIn>),
    LetName(u32, Box<TermIn>),
    LetColon(u32, Word, Box<TermIn>),
    Atoms(u32, Spine, Box<TermIn>),
}

/// The states among clauses. A `bool` says whether `( )` was in the patterns of the clause.
#[derive(Drop)]
pub(crate) enum ClauseState {
    Pats(u32, bool, Box<PatsIn>),
    PatOpen(u32, bool, Box<PatsIn>),
    DotAtom(u32, bool, Box<PatsIn>),
    DotLevel(u32, bool, Box<PatsIn>),
    FirstClause(u32, Box<ClausesIn>),
    ClauseName(u32, Box<ClausesIn>),
    ClauseEnd(u32, SurfClause, Box<ClausesIn>),
}

/// The states of the parser, by the construct that they are in.
#[derive(Drop)]
pub(crate) enum State {
    Start,
    InDef(DefState),
    InData(DataState),
    InMutual(MutualState),
    InTerm(TermState),
    InClause(ClauseState),
}

/// The step of a lexeme: perhaps a whole declaration, and the state then, or the end of the file.
#[derive(Drop)]
pub(crate) enum Step {
    Goes(Option<Decl>, State),
    Ends(Option<Decl>),
}

impl State {
    ghost use Rattle.surface_syntax.specs.Machine as machine;
    ghost use Rattle.surface_syntax.specs.StateMeanings.{state_of, term_in_of, part_of};

    /// A term that is due in a term, a pattern or a clause.
    pub(crate) fn term(depth: u32, context: TermIn) -> State
        ensures { state_of result ≡ machine.term depth (term_in_of context) }
    {
        State::InTerm(TermState::Term(depth, context))
    }

    /// A term that is due in a declaration.
    pub(crate) fn part(part: Part) -> State
        ensures { state_of result ≡ machine.part (part_of part) }
    {
        State::term(0, TermIn::Whole(part))
    }
}

impl Step {
    /// On to what is awaited, with no declaration that ends here.
    pub(crate) fn to(state: State) -> Step
        ensures { result ≡ Step.Goes None state }
    {
        Step::Goes(None, state)
    }
}
