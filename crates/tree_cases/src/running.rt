ghost use Rattle.std.specs.Prelude.{◌≡◌, ◌≤◌, length};
ghost use Rattle.core_terms.specs.Meanings.{tele_of, tree_of};
ghost use Rattle.core_terms.specs.PatternMeanings.{clause_of, clauses_of};
ghost use Rattle.elab_session.specs.Sessions as session;
ghost use Rattle.unification.specs.ScopedStates.{IsReady};
ghost use Rattle.problems.specs.Conditions.{most_levels};
ghost use Rattle.resolve.specs.Functions.{IsFun};
ghost use Rattle.surface_syntax.specs.TreeMeanings.{decl_of};
ghost use Rattle.case_trees.specs.Laws.{IsGiven};
ghost use Rattle.case_trees.specs.Scoped.{AreClausesFor};

use crate::asked::{Asked, Shown, asked_by};
use crate::case::Case;
use crate::conditions::{are_clauses_for, are_given, is_clause_for, is_short};
use crate::texts::{add_number, add_stop, add_walk};
use crate::tree_texts::{add_tree, leaves};
use clause_splitting::split;
use clause_walks::own_walk;
use core_sig::Signature;
use core_terms::{Clause, Items, Stop, Tele, Term, Units, copy_whole};
use elab_session::declare;
use resolve::{FunCore, resolve_fun};
use std::alloc::{AllocError, AllocFailed, Global};
use std::io;
use surface_syntax::{Decl, parse, tokens};
use tele_eq::variables;

/// Why a case has no lines.
#[derive(Clone, Copy)]
enum Fault {
    Memory,
    /// A word of the case asks for nothing.
    Word,
    /// The text is not one of declarations.
    Unread,
    /// A declaration of a family or a definition is refused.
    Refused,
    /// A function does not resolve.
    Unresolved,
    /// A function is not what walks and trees ask for.
    Unfit,
}

impl Fault {
    /// What it says.
    fn text(&self) -> &str {
        match self {
            Fault::Memory => "no memory",
            Fault::Word => "a word of the case asks for nothing",
            Fault::Unread => "the text can't be read",
            Fault::Refused => "a declaration is refused",
            Fault::Unresolved => "a function does not resolve",
            Fault::Unfit => "a function is none that has walks and a tree",
        }
    }
}

impl From<Stop> for Fault {
    fn from(_stop: Stop) -> Fault {
        Fault::Memory
    }
}

impl From<AllocError> for Fault {
    fn from(_error: AllocError) -> Fault {
        Fault::Memory
    }
}

impl<T: Drop> From<AllocFailed<T>> for Fault {
    fn from(_failed: AllocFailed<T>) -> Fault {
        Fault::Memory
    }
}

/// A function with the context that its first products make, its goal there, and the terms of its columns.
#[derive(Drop)]
struct Function {
    ctx: Tele,
    goal: Term,
    terms: Tele,
    clauses: Items<Clause>,
}

/// Moves copies of the first products' domains to the types, and answers a copy of what comes after them.
fn opened(alloc: Global, t: &Term, count: u32, types: &mut Tele) -> Result<Term, Stop> {
    match t {
        Term::Pi(a, b) if count > 0 => {
            types.push(copy_whole(alloc, a)?)?;
            opened(alloc, b, count - 1, types)
        }
        _ => copy_whole(alloc, t),
    }
}

/// The function that a declaration says.
fn function_of(alloc: Global, f: FunCore) -> Result<Function, Stop> {
    let mut ctx = Items::new(alloc);
    let goal = opened(alloc, &f.ty, f.arity, &mut ctx)?;
    Ok(Function {
        ctx,
        goal,
        terms: variables(alloc, f.arity)?,
        clauses: f.clauses,
    })
}

/// Adds the line of a clause's own walk.
fn add_walk_line(
    alloc: Global,
    sig: &Signature,
    out: &mut Vec<u8>,
    f: &Function,
    clause: &Clause,
    number: u32,
    units: u64,
) -> Result<(), Fault>
    requires given { IsGiven sig.now (tele_of f.now.ctx) (tree_of f.now.goal) (tele_of f.now.terms) }
    requires few { length f.now.ctx ≤ most_levels }
{
    if !is_clause_for(sig, &f.terms, clause) {
        return Err(Fault::Unfit);
    }
    let mut units = Units::new(units);
    out.extend_from_slice(b"clause ")?;
    add_number(alloc, out, u64::from(number).saturating_add(1))?;
    out.extend_from_slice(b" ")?;
    match own_walk(
        alloc, sig, &f.ctx, &f.goal, &f.terms, clause, number, &mut units,
    ) {
        Ok(walk) => add_walk(alloc, sig, out, &walk)?,
        Err(e) => add_stop(alloc, sig, out, &e)?,
    }
    out.push(b'\n')?;
    Ok(())
}

/// Adds a line for the own walk of each clause.
fn add_walk_lines(
    alloc: Global,
    sig: &Signature,
    out: &mut Vec<u8>,
    f: &Function,
    units: u64,
) -> Result<(), Fault>
    requires given { IsGiven sig.now (tele_of f.now.ctx) (tree_of f.now.goal) (tele_of f.now.terms) }
    requires few { length f.now.ctx ≤ most_levels }
{
    let mut number = 0u32;
    for clause in f.clauses.as_slice() {
        add_walk_line(alloc, sig, out, f, clause, number, units)?;
        number = number.saturating_add(1);
    }
    Ok(())
}

/// Adds the line of the tree of all clauses.
fn add_tree_line(
    alloc: Global,
    sig: &Signature,
    out: &mut Vec<u8>,
    f: &Function,
    shown: Shown,
    units: u64,
) -> Result<(), Fault>
    requires given { IsGiven sig.now (tele_of f.now.ctx) (tree_of f.now.goal) (tele_of f.now.terms) }
    requires few { length f.now.ctx ≤ most_levels }
{
    if !are_clauses_for(sig, &f.terms, f.clauses.as_slice()) {
        return Err(Fault::Unfit);
    }
    let mut units = Units::new(units);
    out.extend_from_slice(b"tree ")?;
    match split(
        alloc, sig, &f.ctx, &f.goal, &f.terms, &f.clauses, &mut units,
    ) {
        Ok(tree) if shown == Shown::Leaves => add_number(alloc, out, leaves(&tree))?,
        Ok(tree) => add_tree(alloc, sig, out, &tree)?,
        Err(e) => add_stop(alloc, sig, out, &e)?,
    }
    out.push(b'\n')?;
    Ok(())
}

/// Adds the lines of a function.
fn add_function(
    alloc: Global,
    sig: &Signature,
    out: &mut Vec<u8>,
    d: &Decl,
    asked: Asked,
) -> Result<(), Fault>
    requires ready { IsReady sig.now }
    requires fun { IsFun (decl_of d.now) }
{
    let Ok(f) = resolve_fun(alloc, sig, d) else {
        return Err(Fault::Unresolved);
    };
    let f = function_of(alloc, f)?;
    if !is_short(&f.ctx) || !are_given(sig, &f.ctx, &f.goal, &f.terms) {
        return Err(Fault::Unfit);
    }
    if asked.shown == Shown::All {
        add_walk_lines(alloc, sig, out, &f, asked.units)?;
    }
    add_tree_line(alloc, sig, out, &f, asked.shown, asked.units)
}

/// Declares families and definitions, and adds the lines of a function.
fn take_declaration(
    alloc: Global,
    sig: &mut Signature,
    out: &mut Vec<u8>,
    d: &Decl,
    asked: Asked,
) -> Result<(), Fault>
    requires { session.IsReady sig.old }
    ensures { session.IsReady sig.new }
{
    match d {
        Decl::Fun { .. } => add_function(alloc, sig, out, d, asked),
        Decl::Def { .. } | Decl::Data { .. } => match declare(alloc, sig, 100_000_000, d) {
            Ok(_) => Ok(()),
            Err(_) => Err(Fault::Refused),
        },
        Decl::Decide { .. } | Decl::Mutual { .. } => Err(Fault::Refused),
    }
}

/// The declarations of a text.
fn declarations(alloc: Global, text: &[u8]) -> Result<Items<Decl>, Fault> {
    let Ok(tokens) = tokens(alloc, text) else {
        return Err(Fault::Unread);
    };
    match parse(alloc, text, &tokens) {
        Ok(declarations) => Ok(declarations),
        Err(_) => Err(Fault::Unread),
    }
}

/// The lines of a case: for each function the walks of its clauses and its tree.
fn lines_of(alloc: Global, case: &Case) -> Result<Vec<u8>, Fault> {
    let Some(asked) = asked_by(case.words.as_slice()) else {
        return Err(Fault::Word);
    };
    let declarations = declarations(alloc, case.input.as_slice())?;
    let mut sig = Signature::prelude(alloc, asked.k)?;
    let mut out = Vec::new(alloc);
    for d in declarations.as_slice() {
        take_declaration(alloc, &mut sig, &mut out, d, asked)?;
    }
    Ok(out)
}

/// Prints what was made in place of the lines that were wanted.
fn print_lines(rt: &HostRuntime, lines: &[u8]) -> io::Result<()> {
    match str::from_utf8(lines) {
        Ok(text) => print!(rt; "{text}")?,
        Err(_) => println!(rt; "bytes that are no text")?,
    }
    Ok(())
}

/// Makes the walks and trees of a case, prints a line, and answers whether they are those that are wanted.
pub fn run_case(rt: &HostRuntime, case: &Case) -> io::Result<bool> {
    let name = case.name.as_str();
    match lines_of(rt.alloc(), case) {
        Err(fault) => {
            let fault = fault.text();
            println!(rt; "FAILED {name}: {fault}")?;
            Ok(false)
        }
        Ok(lines) if case.status == 0 && lines.as_slice() == case.output.as_slice() => {
            println!(rt; "ok {name}")?;
            Ok(true)
        }
        Ok(lines) => {
            println!(rt; "FAILED {name}: it is")?;
            print_lines(rt, lines.as_slice())?;
            Ok(false)
        }
    }
}
