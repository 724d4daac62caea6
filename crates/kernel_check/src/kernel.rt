ghost use Rattle.std.specs.Prelude.{◌≡◌, ◌≤◌, ◌+◌, ℕ, true, false, [], ◌∷◌, length, IfOk, IsTrue};
ghost use Rattle.theory.specs.Conversion.{Below, Converts};
ghost use Rattle.theory.specs.Telescopes.{context_behind};
ghost use Rattle.theory.specs.Terms as tree;
ghost use Rattle.theory.specs.SignatureScopes.{IsScoped, IsScopedSignature};
ghost use Rattle.theory.specs.Typing.{IsContext, IsType};
ghost use Rattle.theory.specs.WellFormed.{IsTyped};
ghost use Rattle.core_terms.specs.Answers.{Runs};
ghost use Rattle.core_terms.specs.Bounds.{most_height};
ghost use Rattle.core_terms.specs.Meanings.{tree_of, tele_of, verdict_of};
ghost use Rattle.kernel_reduce.specs.Comparison.{convertible_of, subtype_of};
ghost use Rattle.kernel_reduce.specs.Laws.{IsHeadForm};
ghost use Rattle.kernel_reduce.specs.Reduction.{nesting, normal_of, whnf_of};
ghost use Rattle.kernel_reduce.specs.Tidying.{tidy_of};
ghost use Rattle.kernel_reduce.specs.WellScoped.{AreWellScoped, CanReduce};
ghost use Rattle.kernel_check.specs.Checking.{check_of, infer_of, infer_sort_of};
ghost use Rattle.kernel_check.specs.Rooms.{without_room};
ghost use Rattle.kernel_check.specs.Laws.{AreBothLow, HasType, HasUniverse, HasWanted, IfYes, IsScopedVerdict, IsSort};

use crate::written_checks::check_written;
use crate::written_reduction::{
    convertible_written, normal_written, subtype_written, whnf_written,
};
use crate::written_typing::{infer_sort_written, infer_written};
use core_sig::{EntryIds, Signature};
use core_terms::{Stop, Tele, Term, Units, Verdict};
use std::alloc::Global;
use std::marker::Model;
use term_pool::{Id, Layer};

/// The values with which terms are reduced, compared and checked: where memory comes from, a scoped signature, units, and a layer over the
/// pool of the signature's entries, which holds the terms of the calls, each once.
///
/// Each call is the one of its name on trees, over this signature and with these units, with the same errors; want of room in the layer is
/// answered as Memory. After an error the units are those that the call left, and the kernel can be asked again. A kernel isn't dropped: who
/// made it ends it by `into_units`.
pub struct Kernel<'a> {
    alloc: Global,
    sig: &'a Signature,
    ids: &'a EntryIds<Id>,
    layer: Layer<'a>,
    units: Units,
}

impl<'a> Model for Kernel<'a> {
    ghost use Rattle.kernel_check.specs.Kernels.{IsKernel, Kernel, kernel_code};

    ghost Value = { Kernel };

    ghost coded = { kernel_code };

    ghost view = { λ k. record { signature = k.sig.now; left = k.units.left; spent = k.units.spent } };

    ghost invariant = { λ k. IsKernel k.layer k.sig.now k.ids.now };
}

impl<'a> Kernel<'a> {
    /// A kernel over the signature; takes no memory.
    pub fn new(alloc: Global, sig: &'a Signature, units: Units) -> Kernel<'a>
        requires { IsScopedSignature sig.now }
        ensures { result ≡ record { signature = sig.now; left = units.left; spent = units.spent } }
    {
        let stored = sig.stored();
        Kernel {
            alloc,
            sig,
            ids: stored.ids,
            layer: Layer::over(alloc, stored.pool),
            units,
        }
    }

    /// The signature.
    pub fn sig(&self) -> &'a Signature
        ensures signature { result.now ≡ self.now.signature }
        ensures scoped { IsScopedSignature self.now.signature }
    {
        self.sig
    }

    /// Ends the kernel, and gives its units back, with whether its layer came to where there was no room.
    pub fn into_units(self) -> Units
        ensures left { result.left ≡ self.entry.left }
        ensures spent { result.spent ≡ self.entry.spent }
    {
        let Kernel {
            alloc: _,
            sig: _,
            ids: _,
            layer,
            units,
        } = self;
        let mut units = units;
        units.full = units.full || layer.lacked();
        drop(layer);
        units
    }

    /// The head form of a term: head steps until there is none.
    pub fn whnf(&mut self, t: &Term) -> Result<Term, Stop>
        requires { CanReduce self.old.signature (tree_of t.now ∷ []) }
        ensures answer { Runs tree_of result self.new.left (whnf_of self.old.signature true self.old.left (tree_of t.now)) }
        ensures same { self.new.signature ≡ self.old.signature }
        ensures sum { self.new.left + self.new.spent ≡ self.old.left + self.old.spent }
        ensures spends { self.new.left ≤ self.old.left }
        ensures form { IfOk result (λ u. IsHeadForm self.old.signature true (tree_of t.now) (tree_of u)) }
        ensures scoped { (n : ℕ) → IsScoped self.old.signature n (tree_of t.now) → IfOk result (λ u. IsScoped self.old.signature n (tree_of u)) }
    {
        without_room(whnf_written(
            self.alloc,
            &mut self.layer,
            self.sig,
            self.ids,
            t,
            true,
            &mut self.units,
        ))
    }

    /// The head form of a term without delta.
    pub fn tidy(&mut self, t: &Term) -> Result<Term, Stop>
        requires { CanReduce self.old.signature (tree_of t.now ∷ []) }
        ensures answer { Runs tree_of result self.new.left (tidy_of self.old.signature self.old.left (tree_of t.now)) }
        ensures same { self.new.signature ≡ self.old.signature }
        ensures sum { self.new.left + self.new.spent ≡ self.old.left + self.old.spent }
        ensures spends { self.new.left ≤ self.old.left }
        ensures form { IfOk result (λ u. IsHeadForm self.old.signature false (tree_of t.now) (tree_of u)) }
        ensures scoped { (n : ℕ) → IsScoped self.old.signature n (tree_of t.now) → IfOk result (λ u. IsScoped self.old.signature n (tree_of u)) }
    {
        without_room(whnf_written(
            self.alloc,
            &mut self.layer,
            self.sig,
            self.ids,
            t,
            false,
            &mut self.units,
        ))
    }

    /// The normal form of a term. Without `delta` constants take no step.
    pub fn normal(&mut self, t: &Term, delta: bool) -> Result<Term, Stop>
        requires { CanReduce self.old.signature (tree_of t.now ∷ []) }
        ensures answer { Runs tree_of result self.new.left (normal_of self.old.signature delta nesting (tree_of t.now) self.old.left) }
        ensures same { self.new.signature ≡ self.old.signature }
        ensures sum { self.new.left + self.new.spent ≡ self.old.left + self.old.spent }
        ensures spends { self.new.left ≤ self.old.left }
        ensures converts { IfOk result (λ u. Converts self.old.signature (tree_of t.now) (tree_of u)) }
        ensures low { IfOk result (λ u. tree.height (tree_of u) ≤ most_height) }
        ensures scoped { (n : ℕ) → IsScoped self.old.signature n (tree_of t.now) → IfOk result (λ u. IsScoped self.old.signature n (tree_of u)) }
    {
        without_room(normal_written(
            self.alloc,
            &mut self.layer,
            self.sig,
            self.ids,
            t,
            delta,
            &mut self.units,
        ))
    }

    /// Whether two terms are found convertible.
    pub fn convertible(&mut self, a: &Term, b: &Term) -> Result<bool, Stop>
        requires { CanReduce self.old.signature (tree_of a.now ∷ tree_of b.now ∷ []) }
        ensures answer { Runs (λ holds. holds) result self.new.left (convertible_of self.old.signature nesting (tree_of a.now) (tree_of b.now) self.old.left) }
        ensures same { self.new.signature ≡ self.old.signature }
        ensures sum { self.new.left + self.new.spent ≡ self.old.left + self.old.spent }
        ensures spends { self.new.left ≤ self.old.left }
        ensures sound { IfOk result (λ holds. IsTrue holds → Converts self.old.signature (tree_of a.now) (tree_of b.now)) }
    {
        without_room(convertible_written(
            self.alloc,
            &mut self.layer,
            self.sig,
            self.ids,
            a,
            b,
            &mut self.units,
        ))
    }

    /// Whether the first term is found below the second one.
    pub fn subtype(&mut self, a: &Term, b: &Term) -> Result<bool, Stop>
        requires { CanReduce self.old.signature (tree_of a.now ∷ tree_of b.now ∷ []) }
        ensures answer { Runs (λ holds. holds) result self.new.left (subtype_of self.old.signature nesting (tree_of a.now) (tree_of b.now) self.old.left) }
        ensures same { self.new.signature ≡ self.old.signature }
        ensures sum { self.new.left + self.new.spent ≡ self.old.left + self.old.spent }
        ensures spends { self.new.left ≤ self.old.left }
        ensures sound { IfOk result (λ holds. IsTrue holds → Below self.old.signature (tree_of a.now) (tree_of b.now)) }
    {
        without_room(subtype_written(
            self.alloc,
            &mut self.layer,
            self.sig,
            self.ids,
            a,
            b,
            &mut self.units,
        ))
    }

    /// A type of the term in the context, which lists its types from the outermost on.
    pub fn infer(&mut self, ctx: &Tele, t: &Term) -> Result<Verdict, Stop>
        requires { AreWellScoped self.old.signature (tele_of ctx.now) (tree_of t.now ∷ []) }
        ensures answer { Runs verdict_of result self.new.left (infer_of self.old.signature nesting (context_behind [] (tele_of ctx.now)) (tree_of t.now) self.old.left) }
        ensures same { self.new.signature ≡ self.old.signature }
        ensures sum { self.new.left + self.new.spent ≡ self.old.left + self.old.spent }
        ensures spends { self.new.left ≤ self.old.left }
        ensures sound { IsTyped self.old.signature → IsContext self.old.signature (context_behind [] (tele_of ctx.now)) → IfOk result (λ v. IfYes (verdict_of v) (HasType self.old.signature (context_behind [] (tele_of ctx.now)) (tree_of t.now))) }
        ensures scoped { IfOk result (λ v. IsScopedVerdict self.old.signature (length ctx.now) (verdict_of v)) }
        ensures low { IfOk result (λ v. IfYes (verdict_of v) (AreBothLow (tree_of t.now))) }
    {
        without_room(infer_written(
            self.alloc,
            &mut self.layer,
            self.sig,
            self.ids,
            ctx.as_slice(),
            t,
            &mut self.units,
        ))
    }

    /// The sort of the type `t` in the context. A Yes holds a sort.
    pub fn infer_sort(&mut self, ctx: &Tele, t: &Term) -> Result<Verdict, Stop>
        requires { AreWellScoped self.old.signature (tele_of ctx.now) (tree_of t.now ∷ []) }
        ensures answer { Runs verdict_of result self.new.left (infer_sort_of self.old.signature nesting (context_behind [] (tele_of ctx.now)) (tree_of t.now) self.old.left) }
        ensures same { self.new.signature ≡ self.old.signature }
        ensures sum { self.new.left + self.new.spent ≡ self.old.left + self.old.spent }
        ensures spends { self.new.left ≤ self.old.left }
        ensures sound { IsTyped self.old.signature → IsContext self.old.signature (context_behind [] (tele_of ctx.now)) → IfOk result (λ v. IfYes (verdict_of v) (HasUniverse self.old.signature (context_behind [] (tele_of ctx.now)) (tree_of t.now))) }
        ensures scoped { IfOk result (λ v. IsScopedVerdict self.old.signature (length ctx.now) (verdict_of v)) }
        ensures low { IfOk result (λ v. IfYes (verdict_of v) (AreBothLow (tree_of t.now))) }
        ensures sort { IfOk result (λ v. IfYes (verdict_of v) IsSort) }
    {
        without_room(infer_sort_written(
            self.alloc,
            &mut self.layer,
            self.sig,
            self.ids,
            ctx.as_slice(),
            t,
            &mut self.units,
        ))
    }

    /// Whether the term has the type `wanted` in the context. A Yes holds the type that was inferred.
    pub fn check(&mut self, ctx: &Tele, t: &Term, wanted: &Term) -> Result<Verdict, Stop>
        requires { AreWellScoped self.old.signature (tele_of ctx.now) (tree_of t.now ∷ tree_of wanted.now ∷ []) }
        ensures answer { Runs verdict_of result self.new.left (check_of self.old.signature nesting (context_behind [] (tele_of ctx.now)) (tree_of t.now) (tree_of wanted.now) self.old.left) }
        ensures same { self.new.signature ≡ self.old.signature }
        ensures sum { self.new.left + self.new.spent ≡ self.old.left + self.old.spent }
        ensures spends { self.new.left ≤ self.old.left }
        ensures sound { IsTyped self.old.signature → IsContext self.old.signature (context_behind [] (tele_of ctx.now)) → IsType self.old.signature (context_behind [] (tele_of ctx.now)) (tree_of wanted.now) → IfOk result (λ v. IfYes (verdict_of v) (HasWanted self.old.signature (context_behind [] (tele_of ctx.now)) (tree_of t.now) (tree_of wanted.now))) }
        ensures scoped { IfOk result (λ v. IsScopedVerdict self.old.signature (length ctx.now) (verdict_of v)) }
        ensures low { IfOk result (λ v. IfYes (verdict_of v) (AreBothLow (tree_of t.now))) }
    {
        without_room(check_written(
            self.alloc,
            &mut self.layer,
            self.sig,
            self.ids,
            ctx.as_slice(),
            t,
            wanted,
            &mut self.units,
        ))
    }
}

/// The answer, where want of room in a store is want of memory.
fn without_room<A>(answer: Result<A, Stop>) -> Result<A, Stop>
    ensures { result ≡ without_room answer }
{
    match answer {
        Ok(a) => Ok(a),
        Err(Stop::PoolFull) => Err(Stop::Memory),
        Err(e) => Err(e),
    }
}
