use crate::function_lines::ClauseLine;
use core_terms::{Items, Name};

/// A declaration that was accepted, by its name, with the numbers of its entries: from `from` on, and below `to`. A function has
/// a line for each of its clauses, in the order of the clauses; other declarations have none. Families that refer to each other have the
/// names of a member and of one of its constructors for each equation of their inductions; other declarations have none.
#[derive(Debug, Drop)]
pub struct Accepted {
    pub name: Name,
    pub from: u32,
    pub to: u32,
    pub lines: Items<ClauseLine>,
    pub mutual: Items<(Name, Name)>,
}
