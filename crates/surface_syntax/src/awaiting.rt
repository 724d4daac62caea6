ghost use Rattle.std.specs.Prelude.{ℕ, option_map};
ghost use Rattle.surface_syntax.specs.Machine as machine;
ghost use Rattle.surface_syntax.specs.Steps.{Follows};
ghost use Rattle.surface_syntax.specs.StateMeanings.{spine_of, telescope_of, term_in_of, pats_in_of};

use crate::context::{PatsIn, Spine, Telescope, TermIn};
use crate::halt::Halt;
use crate::onward::{behind_atom, behind_pat};
use crate::state::{State, Step, TermState};
use crate::{Lexeme, Surf, SurfPat};
use core_terms::Items;
use std::alloc::Global;

/// After `Type` in a term.
pub(crate) fn level(
    alloc: Global,
    depth: u32,
    spine: Option<Spine>,
    context: Box<TermIn>,
    lexeme: Lexeme,
) -> Result<Step, Halt>
    ensures { (i : ℕ) → Follows result (machine.term_step machine.limit i (machine.Level depth (option_map spine_of spine) (term_in_of context.value)) lexeme) }
{
    match lexeme {
        Lexeme::Level(i) => behind_atom(alloc, depth, spine, Surf::Sort(i), context),
        _ => Err(Halt::Stuck),
    }
}

/// After `Type` in a pattern.
pub(crate) fn dot_level(
    depth: u32,
    void: bool,
    context: Box<PatsIn>,
    lexeme: Lexeme,
) -> Result<Step, Halt>
    ensures { (i : ℕ) → Follows result (machine.clause_step machine.limit i (machine.DotLevel depth void (pats_in_of context.value)) lexeme) }
{
    match lexeme {
        Lexeme::Level(i) => behind_pat(depth, void, SurfPat::Dot(Surf::Sort(i)), context),
        _ => Err(Halt::Stuck),
    }
}

/// After `\`.
pub(crate) fn binder_open(
    alloc: Global,
    telescope: Telescope,
    context: Box<TermIn>,
    lexeme: Lexeme,
) -> Result<Step, Halt>
    ensures { (i : ℕ) → Follows result (machine.term_step machine.limit i (machine.BinderOpen (telescope_of telescope) (term_in_of context.value)) lexeme) }
{
    match lexeme {
        Lexeme::Open => {
            let names = Items::new(alloc);
            Ok(Step::to(State::InTerm(TermState::BinderNames(telescope, names, context))))
        }
        _ => Err(Halt::Stuck),
    }
}
