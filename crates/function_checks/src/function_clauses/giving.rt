ghost use Rattle.std.specs.Prelude.{◌≡◌, ◌+◌, ◌++◌, [], ◌∷◌, map, Ok};
ghost use Rattle.core_terms.specs.Answers.{Gives};
ghost use Rattle.core_terms.specs.Meanings.{tree_of};
ghost use Rattle.core_terms.specs.PatternMeanings.{clauses_of};
ghost use Rattle.core_terms.specs.TreeMeanings.{walk_of};
ghost use Rattle.clause_reports.specs.elaboration.Walking as spec;
ghost use Rattle.function_checks.specs.function_clauses.CodeClauses as code;
ghost use Rattle.function_checks.specs.function_clauses.ScrutineeMeanings.{scrutinee_of};
ghost use Rattle.function_checks.specs.function_walks.WalkingMeanings.{given_of, opened_of, walked_of};
ghost use Rattle.tree_translation.specs.structural_rec.Meanings.{use_of};

use crate::function_clauses::parts::Scrutinee;
use crate::function_walks::{Given, Opened, Walked};
use core_terms::{Clause, Items, Stop, Term, Walk, copy_tele, copy_whole};
use std::alloc::Global;
use tree_translation::structural_rec::Use;

/// One item alone.
fn alone<T: Drop>(alloc: Global, x: T) -> Result<Items<T>, Stop>
    ensures { Gives (λ v. v) result (Ok (x ∷ [])) }
{
    let mut items = Items::new(alloc);
    items.push(x)?;
    Ok(items)
}

/// One item before others.
fn before<T: Drop>(x: T, others: Items<T>) -> Result<Items<T>, Stop>
    ensures { Gives (λ v. v) result (Ok (x ∷ others)) }
{
    let mut items = others.into_vec();
    items.insert(0, x)?;
    Ok(Items::from_vec(items))
}

/// Some items and others after them.
fn both<T: Drop>(first: Items<T>, others: Items<T>) -> Result<Items<T>, Stop>
    ensures { Gives (λ v. v) result (Ok (first ++ others)) }
{
    let mut items = first.into_vec();
    let mut more = others.into_vec();
    items.append(&mut more)?;
    Ok(Items::from_vec(items))
}

/// The use that a clause makes of the function.
fn used(alloc: Global, k: u32, number: u32, w: &Walk, body: &Term) -> Result<Use, Stop>
    ensures { Gives use_of result (Ok (spec.use_of k number (walk_of w.now) (tree_of body.now))) }
{
    Ok(Use {
        function: k,
        clause: number,
        terms: copy_tele(alloc, w.terms.as_slice())?,
        body: copy_whole(alloc, body)?,
    })
}

/// Nothing.
pub(crate) fn nothing<'a>(alloc: Global) -> Given<'a>
    ensures { given_of result ≡ spec.nothing }
{
    Given {
        walks: Items::new(alloc),
        sides: Items::new(alloc),
        helpers: Items::new(alloc),
        uses: Items::new(alloc),
    }
}

/// Two kinds of items, each with others of its kind after them.
fn both_of<A: Drop, B: Drop>(
    first: Items<A>,
    others: Items<A>,
    second: Items<B>,
    more: Items<B>,
) -> Result<(Items<A>, Items<B>), Stop>
    ensures { Gives (λ v. v) result (Ok (first ++ others, second ++ more)) }
{
    Ok((both(first, others)?, both(second, more)?))
}

/// The results of some clauses, and those of others after them.
pub(crate) fn joined<'a>(first: Given<'a>, others: Given<'a>) -> Result<Given<'a>, Stop>
    ensures { Gives given_of result (Ok (spec.joined (given_of first.entry) (given_of others.entry))) }
{
    let (walks, sides) = both_of(first.walks, others.walks, first.sides, others.sides)?;
    let (helpers, uses) = both_of(first.helpers, others.helpers, first.uses, others.uses)?;
    Ok(Given {
        walks,
        sides,
        helpers,
        uses,
    })
}

/// The results of a clause without a helper: its walk, its side and its uses of the function.
fn own_given<'a>(alloc: Global, w: Walk, side: Term, uses: Items<Use>) -> Result<Given<'a>, Stop>
    ensures { Gives given_of result (Ok (record { walks = walk_of w ∷ []; sides = tree_of side ∷ []; helpers = []; uses = map use_of uses })) }
{
    Ok(Given {
        walks: alone(alloc, w)?,
        sides: alone(alloc, side)?,
        helpers: Items::new(alloc),
        uses,
    })
}

/// The results of a clause that has a right side.
pub(crate) fn side_given<'a>(
    alloc: Global,
    k: u32,
    number: u32,
    w: Walk,
    side: &Term,
    body: &Term,
) -> Result<Given<'a>, Stop>
    ensures { Gives given_of result (Ok (spec.side_given k number (walk_of w) (tree_of side.now) (tree_of body.now))) }
{
    let uses = alone(alloc, used(alloc, k, number, &w, body)?)?;
    own_given(alloc, w, copy_whole(alloc, side)?, uses)
}

/// The results of a clause that has neither a right side nor a scrutinee.
pub(crate) fn absurd_given<'a>(alloc: Global, w: Walk) -> Result<Given<'a>, Stop>
    ensures { Gives given_of result (Ok (spec.absurd_given (walk_of w))) }
{
    own_given(alloc, w, Term::Sort(0), Items::new(alloc))
}

/// The helper of a clause before the helpers inside, where the clauses inside have these walks and sides.
fn inside<'a>(
    part: Opened,
    inner: &'a Items<Clause>,
    walks: Items<Walk>,
    sides: Items<Term>,
    helpers: Items<Walked<'a>>,
) -> Result<Items<Walked<'a>>, Stop>
    ensures { Gives (map walked_of) result (Ok (record { part = opened_of part; clauses = clauses_of inner.now; walks = map walk_of walks; sides = map tree_of sides } ∷ map walked_of helpers.entry)) }
{
    let helper = Walked {
        part,
        clauses: inner,
        walks,
        sides,
    };
    before(helper, helpers)
}

/// The results of the clauses inside, once their helper is made, which has their walks and sides.
fn around<'a>(
    alloc: Global,
    part: Opened,
    inner: &'a Items<Clause>,
    given: Given<'a>,
) -> Result<Given<'a>, Stop>
    ensures { Gives given_of result (Ok (record { walks = []; sides = []; helpers = record { part = opened_of part; clauses = clauses_of inner.now; walks = (given_of given.entry).walks; sides = (given_of given.entry).sides } ∷ (given_of given.entry).helpers; uses = (given_of given.entry).uses })) }
{
    let Given {
        walks,
        sides,
        helpers,
        uses,
    } = given;
    let helpers = inside(part, inner, walks, sides, helpers)?;
    Ok(Given {
        walks: Items::new(alloc),
        sides: Items::new(alloc),
        helpers,
        uses,
    })
}

/// The results, with a use before the others.
fn with_use<'a>(one: Use, given: Given<'a>) -> Result<Given<'a>, Stop>
    ensures { Gives given_of result (Ok (record (given_of given.entry) { uses = use_of one ∷ (given_of given.entry).uses })) }
{
    let Given {
        walks,
        sides,
        helpers,
        uses,
    } = given;
    let uses = before(one, uses)?;
    Ok(Given {
        walks,
        sides,
        helpers,
        uses,
    })
}

/// The results, with the walk of one clause alone and its side.
fn with_walk<'a>(alloc: Global, w: Walk, side: Term, given: Given<'a>) -> Result<Given<'a>, Stop>
    ensures { Gives given_of result (Ok (record (given_of given.entry) { walks = walk_of w ∷ []; sides = tree_of side ∷ [] })) }
{
    let Given { helpers, uses, .. } = given;
    let walks = alone(alloc, w)?;
    let sides = alone(alloc, side)?;
    Ok(Given {
        walks,
        sides,
        helpers,
        uses,
    })
}

/// The results of a clause that has a scrutinee, with those of the clauses inside: its helper comes before the helpers
/// inside.
pub(crate) fn with_given<'a>(
    alloc: Global,
    k: u32,
    number: u32,
    w: Walk,
    x: Scrutinee,
    inner: &'a Items<Clause>,
    given: Given<'a>,
) -> Result<Given<'a>, Stop>
    ensures { Gives given_of result (Ok (code.with_scrutinee k number (walk_of w) (scrutinee_of x) (clauses_of inner.now) (given_of given.entry))) }
{
    let Scrutinee { term, side, part } = x;
    let given = around(alloc, part, inner, given)?;
    let given = with_use(used(alloc, k, number, &w, &term)?, given)?;
    with_walk(alloc, w, side, given)
}
