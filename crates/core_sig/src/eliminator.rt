ghost use Rattle.std.specs.Prelude.{◌≡◌, ◌≤◌, ◌+◌, length, map};
ghost use Rattle.core_terms.specs.Answers.{Gives, bounded};
ghost use Rattle.core_terms.specs.Meanings.{tree_of, tele_of};
ghost use Rattle.theory.specs.Terms as tree;
ghost use Rattle.theory.specs.Eliminators as spec;
ghost use Rattle.theory.specs.Scopes.{IsClosedFamily};
ghost use Rattle.core_terms.specs.Bounds.{most_height};
ghost use Rattle.core_sig.specs.ByLevels as levels;
ghost use Rattle.core_sig.specs.Kinds.{HasKinds};
ghost use Rattle.core_sig.specs.Meanings.{family_of};
ghost use Rattle.core_sig.specs.Shapes.{HaveFewArguments, IsFew, constructor_shape, shape_of};

use crate::by_levels::{arguments_over, goal_type, motive_type};
use crate::hypotheses::{Motive, conclusion, hypotheses_over};
use crate::shapes::{is_few, recursive_count};
use crate::{Constructor, Family};
use core_terms::{Binder, Stop, Term, checked, copy_tele, products};
use std::alloc::Global;

/// The type of the eliminator of the family with number `fam` into `Type m`.
pub fn elim_type(alloc: Global, fam: u32, f: &Family, m: u8) -> Result<Term, Stop>
    requires kinds { HasKinds fam f.now }
    requires scoped { IsClosedFamily (family_of f.now) }
    ensures { Gives tree_of result (bounded (spec.eliminator_type fam (family_of f.now) m)) }
{
    if !is_few(f) {
        return Err(Stop::Deep);
    }
    let whole = eliminator(alloc, fam, f, m)?;
    checked(whole)
}

/// The type of the eliminator. Its height is not tested.
fn eliminator(alloc: Global, fam: u32, f: &Family, m: u8) -> Result<Term, Stop>
    requires { IsFew (shape_of f.now) }
    ensures { Gives tree_of result (Ok (levels.eliminator_type fam (shape_of f.now) m)) }
{
    let params = f.params.as_slice().len() as u32;
    let cons = f.cons.as_slice();
    let end = goal_type(alloc, fam, f, params, params + 1 + cons.len() as u32)?;
    let motive = Motive {
        level: params,
        params,
        indices: f.indices.as_slice().len() as u32,
    };
    let methods = methods_over(alloc, fam, motive, 0, params + 1, cons, end)?;
    let ty = motive_type(alloc, fam, f, m, params)?;
    let end = Term::new_pi(alloc, ty, methods)?;
    products(
        alloc,
        copy_tele(alloc, f.params.as_slice())?.into_vec(),
        end,
    )
}

/// The product of `end` over the methods for the constructors from `number` on, at a depth.
fn methods_over(
    alloc: Global,
    fam: u32,
    motive: Motive,
    number: u32,
    depth: u32,
    cons: &[Constructor],
    end: Term,
) -> Result<Term, Stop>
    requires params { motive.params ≤ most_height }
    requires few { HaveFewArguments (map constructor_shape cons.now) }
    requires number { number + length cons.now ≤ most_height }
    requires depth { depth + length cons.now ≤ 10000 }
    ensures { Gives tree_of result (Ok (levels.methods_over fam motive.params motive.indices motive.level number depth (map constructor_shape cons.now) (tree_of end))) }
{
    match cons {
        [] => Ok(end),
        [con, rest @ ..] => {
            let method = method_type(alloc, fam, motive, number, depth, con)?;
            let rest = methods_over(alloc, fam, motive, number + 1, depth + 1, rest, end)?;
            Term::new_pi(alloc, method, rest)
        }
    }
}

/// The type of the method for constructor `number`, at a depth.
fn method_type(
    alloc: Global,
    fam: u32,
    motive: Motive,
    number: u32,
    depth: u32,
    con: &Constructor,
) -> Result<Term, Stop>
    requires params { motive.params ≤ most_height }
    requires few { length con.now.args ≤ most_height }
    requires depth { depth ≤ 10000 }
    ensures { Gives tree_of result (Ok (levels.method_type fam motive.params motive.indices motive.level number depth (constructor_shape con.now))) }
{
    let args = con.args.as_slice();
    let count = args.len() as u32;
    let inside = depth + count;
    let end = conclusion(
        alloc,
        fam,
        motive,
        number,
        depth,
        inside + recursive_count(args),
        con,
    )?;
    let end = hypotheses_over(alloc, Binder::Product, motive, depth, 0, inside, args, end)?;
    let runs = [(0, motive.params), (depth, count)];
    arguments_over(
        alloc,
        Binder::Product,
        &runs,
        motive.params,
        depth,
        args,
        end,
    )
}
