use core_terms::{Items, Tele};

/// The report of a clause.
///
/// `Definitional`: the sides of its equation convert. `Proved`: the entry with this number proves the equation.
/// `Shadowed`: the earlier clause takes these arguments, which are over the context, and the equation converts at the
/// leaves. These are all leaves of the clause in its tree, each with its context and its terms. `Absurd`: the clause
/// has no right side.
#[derive(Debug, Drop)]
pub enum Line {
    Definitional,
    Proved(u32),
    Shadowed {
        earlier: u32,
        ctx: Tele,
        vector: Tele,
        leaves: Items<(Tele, Tele)>,
    },
    Absurd,
}
