use core_sig::Signature;
use core_terms::{Clause, Items, Name, Tele, Term, Walk};
use tree_translation::structural_rec::Use;

/// The signature with the function as a provisional constant at its end, the function's name, and the constant's number.
#[derive(Clone, Copy)]
pub struct Session<'a> {
    pub sig: &'a Signature,
    pub name: &'a Name,
    pub own: u32,
}

/// The function or a helper before its clauses are walked: its level, its telescope, the terms of its columns and its goal.
#[derive(Drop)]
pub struct Opened {
    pub level: u8,
    pub tele: Tele,
    pub terms: Tele,
    pub goal: Term,
}

/// The function or a helper with its clauses, and for each of them its own walk and its right side.
#[derive(Drop)]
pub struct Walked<'a> {
    pub part: Opened,
    pub clauses: &'a Items<Clause>,
    pub walks: Items<Walk>,
    pub sides: Items<Term>,
}

/// The results of the walks of some clauses: for each clause its walk and its right side; the helpers of all `with`
/// among them, those inside after the one around them; and their uses of the function, in the order in which they are
/// written.
#[derive(Drop)]
pub struct Given<'a> {
    pub walks: Items<Walk>,
    pub sides: Items<Term>,
    pub helpers: Items<Walked<'a>>,
    pub uses: Items<Use>,
}
