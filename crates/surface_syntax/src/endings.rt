ghost use Rattle.surface_syntax.specs.Machine as machine;
ghost use Rattle.surface_syntax.specs.Steps.{Follows};
ghost use Rattle.surface_syntax.specs.Endings.{Leads, ending_of};
ghost use Rattle.surface_syntax.specs.TreeMeanings.{surf_of};
ghost use Rattle.surface_syntax.specs.StateMeanings.{term_in_of};

use crate::building::{arrow, local, quantified};
use crate::closing::{
    domain_end, dot_end, let_type_end, let_value_end, parens_end, part_end, scrutinee_end, side_end,
};
use crate::context::{ClausesIn, Headed, Part, PatsIn, Spine, Telescope, TermIn};
use crate::halt::Halt;
use crate::state::Step;
use crate::{Lexeme, Surf, Word};
use core_terms::Items;
use std::alloc::Global;

/// The place of a term that is not the last part of another.
#[derive(Drop)]
pub(crate) enum Ending {
    Whole(Part),
    Parens(u32, Option<Spine>, Box<TermIn>),
    Domain(Telescope, Items<Option<Word>>, Box<TermIn>),
    LetType(u32, Word, Box<TermIn>),
    LetValue(u32, Word, Surf, Box<TermIn>),
    Dot(u32, bool, Box<PatsIn>),
    Side(Headed, Box<ClausesIn>),
    Scrutinee(Headed, Box<ClausesIn>),
}

/// The end of a term: it is the last part of the term around it, or has an ending of its own.
#[derive(Drop)]
pub(crate) enum Outward {
    Further(Surf, TermIn),
    Here(Surf, Ending),
}

/// The term around this one, where this one is its last part.
fn step_out(alloc: Global, t: Surf, context: TermIn) -> Result<Outward, Halt>
    ensures { Leads result (surf_of t) (term_in_of context) }
{
    Ok(match context {
        TermIn::Codomain(domain, outer) => {
            Outward::Further(arrow(alloc, domain, t)?, Box::into_inner(outer))
        }
        TermIn::Body(telescope, outer) => {
            let Telescope {
                quantifier,
                binders,
                ..
            } = telescope;
            let whole = quantified(alloc, quantifier, binders, t)?;
            Outward::Further(whole, Box::into_inner(outer))
        }
        TermIn::LetBody(name, ty, value, outer) => {
            Outward::Further(local(alloc, name, ty, value, t)?, Box::into_inner(outer))
        }
        TermIn::Whole(part) => Outward::Here(t, Ending::Whole(part)),
        TermIn::Parens(depth, spine, outer) => {
            Outward::Here(t, Ending::Parens(depth, spine, outer))
        }
        TermIn::Domain(telescope, names, outer) => {
            Outward::Here(t, Ending::Domain(telescope, names, outer))
        }
        TermIn::LetType(depth, name, outer) => {
            Outward::Here(t, Ending::LetType(depth, name, outer))
        }
        TermIn::LetValue(depth, name, ty, outer) => {
            Outward::Here(t, Ending::LetValue(depth, name, ty, outer))
        }
        TermIn::Dot(depth, void, outer) => Outward::Here(t, Ending::Dot(depth, void, outer)),
        TermIn::Side(headed, outer) => Outward::Here(t, Ending::Side(headed, outer)),
        TermIn::Scrutinee(headed, outer) => Outward::Here(t, Ending::Scrutinee(headed, outer)),
    })
}

/// After a term that is not the last part of another.
fn ended(alloc: Global, t: Surf, ending: Ending, lexeme: Lexeme) -> Result<Step, Halt>
    ensures { Follows result (machine.term_end (surf_of t) (ending_of ending) lexeme) }
{
    match ending {
        Ending::Whole(part) => part_end(alloc, t, part, lexeme),
        Ending::Parens(depth, spine, outer) => parens_end(alloc, t, depth, spine, outer, lexeme),
        Ending::Domain(telescope, names, outer) => domain_end(t, telescope, names, outer, lexeme),
        Ending::LetType(depth, name, outer) => let_type_end(t, depth, name, outer, lexeme),
        Ending::LetValue(depth, name, ty, outer) => {
            let_value_end(t, depth, name, ty, outer, lexeme)
        }
        Ending::Dot(depth, void, outer) => dot_end(t, depth, void, outer, lexeme),
        Ending::Side(headed, outer) => side_end(t, headed, outer, lexeme),
        Ending::Scrutinee(headed, outer) => scrutinee_end(alloc, t, headed, outer, lexeme),
    }
}

/// After a whole term, which may be the last part of others.
pub(crate) fn term_end(
    alloc: Global,
    t: Surf,
    context: TermIn,
    lexeme: Lexeme,
) -> Result<Step, Halt>
    ensures { Follows result (machine.term_end (surf_of t) (term_in_of context) lexeme) }
{
    let mut t = t;
    let mut context = context;
    'outward: loop {
        match step_out(alloc, t, context)? {
            Outward::Further(around, outer) => {
                t = around;
                context = outer;
            }
            Outward::Here(whole, ending) => return ended(alloc, whole, ending, lexeme),
        }
    }
}
