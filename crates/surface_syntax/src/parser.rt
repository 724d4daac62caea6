ghost use Rattle.std.specs.Prelude.{◌≡◌, ◌<◌, ◌^◌, map, length, option_map};
ghost use Rattle.surface_syntax.specs.Machine as machine;
ghost use Rattle.surface_syntax.specs.Steps.{Follows, Makes, outcome_of};
ghost use Rattle.surface_syntax.specs.Parses as spec;
ghost use Rattle.surface_syntax.specs.Taking as taking;
ghost use Rattle.surface_syntax.specs.Splitting.{AreTokens, AreInOrder};
ghost use Rattle.surface_syntax.specs.TreeMeanings.{decl_of};
ghost use Rattle.surface_syntax.specs.StateMeanings.{state_of};

use crate::clauses::clause_step;
use crate::declarations::{data_step, def_step, mutual_step, start};
use crate::halt::Halt;
use crate::lexemes::lexeme_of;
use crate::state::{State, Step};
use crate::terms::term_step;
use crate::{Decl, Lexeme, SyntaxStop, Token};
use core_terms::Items;
use std::alloc::Global;

/// The declarations so far, and what is awaited.
#[derive(Drop)]
pub(crate) struct Reading {
    pub decls: Items<Decl>,
    pub state: Box<State>,
}

/// The step of a lexeme, where `left` lexemes are left, that one among them.
fn step(alloc: Global, left: u32, state: State, lexeme: Lexeme) -> Result<Step, Halt>
    ensures { Follows result (machine.step machine.limit left (state_of state) lexeme) }
{
    match state {
        State::Start => start(None, lexeme),
        State::InDef(state) => def_step(state, lexeme),
        State::InData(state) => data_step(alloc, state, lexeme),
        State::InMutual(state) => mutual_step(alloc, state, lexeme),
        State::InTerm(state) => term_step(alloc, left, state, lexeme),
        State::InClause(state) => clause_step(alloc, left, state, lexeme),
    }
}

fn with_whole(mut decls: Items<Decl>, whole: Option<Decl>) -> Result<Items<Decl>, Halt>
    ensures { Makes (map decl_of) result (taking.with_whole (map decl_of decls) (option_map decl_of whole)) }
{
    if let Some(decl) = whole {
        decls.push(decl)?;
    }
    Ok(decls)
}

fn boxed(alloc: Global, state: State) -> Result<Box<State>, Halt>
    ensures { Makes (λ s. state_of s.value) result (state_of state) }
{
    Ok(Box::new(alloc, state)?)
}

fn gone_on(
    alloc: Global,
    decls: Items<Decl>,
    whole: Option<Decl>,
    state: State,
) -> Result<Reading, Halt>
    ensures { Makes taking.reading_of result (record { decls = taking.with_whole (map decl_of decls) (option_map decl_of whole); state = state_of state }) }
{
    let decls = with_whole(decls, whole);
    let state = boxed(alloc, state)?;
    Ok(Reading {
        decls: decls?,
        state,
    })
}

/// The reading after a step that does not end the file.
fn taken(alloc: Global, decls: Items<Decl>, step: Step) -> Result<Reading, Halt>
    ensures { taking.Halts taking.reading_of result (taking.taken (map decl_of decls) (outcome_of step)) }
{
    match step {
        Step::Goes(whole, state) => gone_on(alloc, decls, whole, state),
        Step::Ends(whole) => {
            drop(whole);
            Err(Halt::Stuck)
        }
    }
}

fn take(alloc: Global, left: u32, reading: Reading, lexeme: Lexeme) -> Result<Reading, Halt>
    ensures { taking.Halts taking.reading_of result (taking.taken (map decl_of reading.decls) (machine.step machine.limit left (state_of reading.state.value) lexeme)) }
{
    let Reading { decls, state } = reading;
    let next = step(alloc, left, Box::into_inner(state), lexeme)?;
    taken(alloc, decls, next)
}

/// The declarations of the file, after the step that ends it.
fn finished(decls: Items<Decl>, step: Step) -> Result<Items<Decl>, Halt>
    ensures { taking.Halts (map decl_of) result (taking.finished (map decl_of decls) (outcome_of step)) }
{
    match step {
        Step::Goes(whole, state) => {
            drop(whole);
            drop(state);
            Err(Halt::Stuck)
        }
        Step::Ends(whole) => with_whole(decls, whole),
    }
}

fn finish(alloc: Global, reading: Reading) -> Result<Items<Decl>, Halt>
    ensures { taking.Halts (map decl_of) result (taking.finished (map decl_of reading.decls) (machine.step machine.limit 0 (state_of reading.state.value) Lexeme.End)) }
{
    let Reading { decls, state } = reading;
    let last = step(alloc, 0, Box::into_inner(state), Lexeme::End)?;
    finished(decls, last)
}

/// The offset of the token with which `left` tokens are left, or the length of the file.
fn offset_of(bytes: &[u8], tokens: &[Token], left: u32) -> u32
    requires { length bytes.now < 2 ^ 32 }
    ensures { result ≡ spec.offset_of bytes.now tokens.now left }
{
    let front = tokens.len().saturating_sub(left as usize);
    match &tokens[front..] {
        [token, ..] => token.start,
        [] => bytes.len() as u32,
    }
}

fn stop_at(bytes: &[u8], tokens: &[Token], left: u32, halt: Halt) -> SyntaxStop
    requires { length bytes.now < 2 ^ 32 }
    ensures { result ≡ taking.stop_at (spec.offset_of bytes.now tokens.now) left halt }
{
    match halt {
        Halt::Stuck => SyntaxStop::Syntax(offset_of(bytes, tokens, left)),
        Halt::Over(at) => SyntaxStop::Nested(offset_of(bytes, tokens, at)),
        Halt::Memory => SyntaxStop::Memory,
    }
}

fn read(alloc: Global, bytes: &[u8], tokens: &[Token]) -> Result<Items<Decl>, SyntaxStop>
    requires small { length bytes.now < 2 ^ 32 }
    requires few { length tokens.now < 2 ^ 32 }
    requires ordered { AreInOrder 0 tokens.now (length bytes.now) }
    ensures { spec.GivesAnswer (map decl_of) result (spec.parsed bytes.now tokens.now) }
{
    let mut reading = Reading {
        decls: Items::new(alloc),
        state: Box::new(alloc, State::Start)?,
    };
    let mut left = tokens.len() as u32;
    'lexemes: for token in tokens {
        let lexeme = lexeme_of(alloc, bytes, token)?;
        reading = match take(alloc, left, reading, lexeme) {
            Ok(next) => next,
            Err(halt) => return Err(stop_at(bytes, tokens, left, halt)),
        };
        left -= 1;
    }
    match finish(alloc, reading) {
        Ok(decls) => Ok(decls),
        Err(halt) => Err(stop_at(bytes, tokens, 0, halt)),
    }
}

/// The declarations of a source file. The length of the file and the number of its tokens are below 2^32, or the answer is
/// Memory.
pub fn parse(alloc: Global, bytes: &[u8], tokens: &Items<Token>) -> Result<Items<Decl>, SyntaxStop>
    requires { AreTokens bytes.now tokens.now }
    ensures runs { spec.GivesAnswer (map decl_of) result (spec.parsed bytes.now tokens.now) }
    ensures says { spec.ParseSays bytes.now tokens.now result }
    ensures only { spec.ParseGives bytes.now tokens.now result }
{
    let tokens = tokens.as_slice();
    if bytes.len() > u32::MAX as usize || tokens.len() > u32::MAX as usize {
        return Err(SyntaxStop::Memory);
    }
    read(alloc, bytes, tokens)
}
