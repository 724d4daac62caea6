ghost use Rattle.std.specs.Prelude.{◌≡◌, ◌≤◌, ◌<◌, ◌+◌, ℕ, option_map, IfOk, IfSome, IsTrue, slice_get, Some, Ok, ◌∷◌, [], take, length, drop};
ghost use Rattle.core_terms.specs.Answers.{Gives, Runs};
ghost use Rattle.unification.specs.Constructors as spec;
ghost use Rattle.problems.specs.Meanings.{equation_of, state_of, turn_of};
ghost use Rattle.problems.specs.Conditions.{HasRoom, IsGiven, IsKept, LeadsToRoomWhere, most_levels};
ghost use Rattle.unification.specs.Built.{built_of};
ghost use Rattle.unification.specs.Built as spec_built;
ghost use Rattle.problems.specs.CodeBuilt.{AreOfOneFamily, IsBuiltAs, IsInjected};
ghost use Rattle.unifier.specs.CodeFits.{fits_of};
ghost use Rattle.theory.specs.Spines.{spine_of};
ghost use Rattle.core_terms.specs.Meanings.{tree_of, tele_of};
ghost use Rattle.unification.specs.ScopedStates.{IsReady};
ghost use Rattle.core_sig.specs.Meanings.{constructor_of, family_of};
ghost use Rattle.unification.specs.Heights.{injection_made};

use crate::injecting::inject;
use crate::trials::{fails, single, type_in};
use core_sig::Signature;
use core_terms::{Rule, Stop, Tele, Term};
use kernel_check::Kernel;
use problems::{Built, Equation, State, Turn, built_of, has_no_indices, is_fitting, split_spine};
use std::alloc::Global;

/// Which constructors a trial is for: of a family that no confusion can be made of, or of one family.
#[derive(Clone, Copy)]
pub(crate) enum Fits {
    Level,
    Family(u32),
}

fn meets(wanted: Fits, b: Built) -> bool
    ensures { (p : spec_built.Built) → IsBuiltAs b.entry p → result ≡ fits_of wanted p }
{
    match wanted {
        Fits::Level => is_fitting(b.record),
        Fits::Family(n) => b.family == n,
    }
}

/// The head forms of both sides, where they are such constructors of one family.
pub(crate) fn heads(
    sig: &Signature,
    wanted: Fits,
    left: &Term,
    right: &Term,
    kernel: &mut Kernel<'_>,
) -> Result<Option<(Term, Term)>, Stop>
    requires kernel { kernel.old.signature ≡ sig.now }
    requires ready { IsReady sig.now }
    requires left { IsGiven sig.now most_levels (tree_of left.now) }
    requires right { IsGiven sig.now most_levels (tree_of right.now) }
    ensures answer { Runs (option_map (λ sides. (tree_of sides.0, tree_of sides.1))) result kernel.new.left (spec.heads sig.now (fits_of wanted) (tree_of left.now) (tree_of right.now) kernel.old.left) }
    ensures sum { kernel.new.left + kernel.new.spent ≡ kernel.old.left + kernel.old.spent }
    ensures spends { kernel.new.left ≤ kernel.old.left }
    ensures kernel { kernel.new.signature ≡ sig.now }
    ensures given { (n : ℕ) → IsGiven sig.now n (tree_of left.now) → IsGiven sig.now n (tree_of right.now) → IfOk result (λ found. IfSome found (λ sides. IsGiven sig.now n (tree_of sides.0) × IsGiven sig.now n (tree_of sides.1))) }
    ensures family { IfOk result (λ found. IfSome found (λ sides. AreOfOneFamily sig.now (tree_of sides.0) (tree_of sides.1))) }
    ensures wanted { IfOk result (λ found. IfSome found (λ sides. (p : spec_built.Built) → built_of sig.now (tree_of sides.0) ≡ Some p → IsTrue (fits_of wanted p))) }
{
    let left = kernel.whnf(left)?;
    let n = match built_of(sig, &left) {
        Some(b) if meets(wanted, b) => b.family,
        _ => return Ok(None),
    };
    let right = kernel.whnf(right)?;
    match built_of(sig, &right) {
        Some(d) if d.family == n => Ok(Some((left, right))),
        _ => Ok(None),
    }
}

/// Injectivity and conflict of one equation.
pub(crate) fn constructor_trial(
    alloc: Global,
    sig: &Signature,
    s: &State,
    e: &Equation,
    kernel: &mut Kernel<'_>,
) -> Result<Option<Turn>, Stop>
    requires kernel { kernel.old.signature ≡ sig.now }
    requires ready { IsReady sig.now }
    requires state { IsKept sig.now (state_of s.now) }
    requires first { slice_get (state_of s.now).equations 0 ≡ Some (equation_of e.now) }
    ensures answer { Runs (option_map turn_of) result kernel.new.left (spec.constructor_trial sig.now (state_of s.now) (equation_of e.now) kernel.old.left) }
    ensures sum { kernel.new.left + kernel.new.spent ≡ kernel.old.left + kernel.old.spent }
    ensures spends { kernel.new.left ≤ kernel.old.left }
    ensures kernel { kernel.new.signature ≡ sig.now }
    ensures room { IfOk result (λ found. LeadsToRoomWhere (option_map turn_of found)) }
{
    match heads(sig, Fits::Level, &e.left, &e.right, kernel)? {
        Some((left, right)) => constructor_turn(alloc, sig, s, e, left, right, kernel),
        None => Ok(None),
    }
}

/// Different constructors, or one on both sides.
fn constructor_turn(
    alloc: Global,
    sig: &Signature,
    s: &State,
    e: &Equation,
    left: Term,
    right: Term,
    kernel: &mut Kernel<'_>,
) -> Result<Option<Turn>, Stop>
    requires kernel { kernel.old.signature ≡ sig.now }
    requires ready { IsReady sig.now }
    requires state { IsKept sig.now (state_of s.now) }
    requires first { slice_get (state_of s.now).equations 0 ≡ Some (equation_of e.now) }
    requires left { IsGiven sig.now (length s.now.ctx) (tree_of left) }
    requires right { IsGiven sig.now (length s.now.ctx) (tree_of right) }
    requires family { AreOfOneFamily sig.now (tree_of left) (tree_of right) }
    ensures answer { Runs (option_map turn_of) result kernel.new.left (spec.with_built (spec.constructor_turn sig.now (state_of s.now) (equation_of e.now)) (tree_of left) (tree_of right) (built_of sig.now (tree_of left)) (built_of sig.now (tree_of right)) kernel.old.left) }
    ensures sum { kernel.new.left + kernel.new.spent ≡ kernel.old.left + kernel.old.spent }
    ensures spends { kernel.new.left ≤ kernel.old.left }
    ensures kernel { kernel.new.signature ≡ sig.now }
    ensures room { IfOk result (λ found. LeadsToRoomWhere (option_map turn_of found)) }
{
    let (Some(b), Some(d)) = (built_of(sig, &left), built_of(sig, &right)) else {
        return Ok(None);
    };
    if b.number != d.number {
        let rule = Rule::Conflict(b.family, b.number, d.number);
        let step = single(rule, type_in(alloc, &e.ty)?, left, right);
        return fails(step, &e.left, &e.right, kernel);
    }
    if !has_no_indices(b.record) {
        return Ok(None);
    }
    let ps = parameters(alloc, &left, b)?;
    let next = inject_sides(alloc, s, 1, b, ps.as_slice(), &left, &right)?;
    let ty = type_in(alloc, &e.ty)?;
    let step = single(Rule::Inject(b.family, b.number), ty, left, right);
    Ok(Some(Turn::Goes(step, next)))
}

/// The parameters of a constructor.
fn parameters(alloc: Global, t: &Term, b: Built) -> Result<Tele, Stop>
    ensures { Gives tele_of result (Ok (take (length b.entry.record.now.params) (spine_of (tree_of t.now)))) }
{
    let (ps, _) = split_spine(alloc, t, b.record.params.as_slice().len())?;
    Ok(ps)
}

/// The state after the injectivity of one constructor on both sides, or Deep.
pub(crate) fn inject_sides(
    alloc: Global,
    s: &State,
    group: u32,
    b: Built,
    ps: &[Term],
    left: &Term,
    right: &Term,
) -> Result<Box<State>, Stop>
    requires state { HasRoom (state_of s.now) }
    requires group { group ≤ length s.now.equations }
    requires known { IsInjected b (length s.now.ctx) (tele_of ps.now) (tree_of left.now ∷ []) (tree_of right.now ∷ []) }
    requires indices { length b.record.now.indices < 1000 }
    requires parameters { length ps.now ≡ length b.record.now.params }
    requires left_all { length (spine_of (tree_of left.now)) ≡ length b.record.now.params + length b.con.now.args }
    requires right_all { length (spine_of (tree_of right.now)) ≡ length b.record.now.params + length b.con.now.args }
    ensures answer { Gives (λ next. state_of next.value) result (injection_made (state_of s.now) group b.entry.family b.entry.number (family_of b.entry.record.now) (constructor_of (length ps.now) b.entry.con.now) (tele_of ps.now) (drop (length b.entry.record.now.params) (spine_of (tree_of left.now))) (drop (length b.entry.record.now.params) (spine_of (tree_of right.now)))) }
    ensures few { IfOk result (λ next. length (state_of next.value).context + length (state_of next.value).equations ≤ most_levels) }
{
    let count = b.record.params.as_slice().len();
    let (_, us) = split_spine(alloc, left, count)?;
    let (_, vs) = split_spine(alloc, right, count)?;
    inject(alloc, s, group, b, ps, &us, &vs)
}
