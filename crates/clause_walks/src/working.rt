//! Pairs are worked from the left, with units.
ghost use Rattle.std.specs.Prelude.{◌≡◌, ◌≤◌, ◌+◌, IfOk, All, length, map, ℕ, Ok, true};
ghost use Rattle.core_terms.specs.Answers.{Gives, Runs};
ghost use Rattle.core_terms.specs.Meanings.{tree_of, tele_of};
ghost use Rattle.core_terms.specs.PatternMeanings.{pat_of, pats_of};
ghost use Rattle.core_terms.specs.Patterns as pattern;
ghost use Rattle.theory.specs.SignatureScopes.{IsScoped};
ghost use Rattle.theory.specs.Terms as tree;
ghost use Rattle.core_terms.specs.Bounds.{most_height};
ghost use Rattle.unification.specs.Built as built;
ghost use Rattle.unification.specs.ScopedStates.{IsReady};
ghost use Rattle.problems.specs.CodeBuilt.{IfThere, IsBuiltAs};
ghost use Rattle.problems.specs.Conditions.{most_levels};
ghost use Rattle.case_trees.specs.pattern_vectors.Matching.{is_constructor};
ghost use Rattle.case_trees.specs.Pairs.{term_in, terms_in, waiting as waiting_meant};
ghost use Rattle.case_trees.specs.Working as spec;
ghost use Rattle.clause_walks.specs.CodeWorking.{if_room, onto, rooms_of};
ghost use Rattle.clause_walks.specs.Meanings.{pair_of, pairs_of};
ghost use Rattle.clause_walks.specs.PairConditions.{AreKeptPairs};

use crate::Pair;
use crate::pairs::{
    binds_with, clashes, copied_builds, copy_after, copy_pair, keeps_with, passes_with,
    waiting_after, waits,
};
use core_sig::Signature;
use core_terms::{Items, MAX_HEIGHT, Pat, Stop, Term, copy_whole};
use kernel_check::Kernel;
use problems::{Built, built_of, split_spine};
use std::alloc::Global;

/// How high a term may be by the number of the terms from it on: one of a column, or an argument of a constructor that may be so
/// high itself.
#[derive(Clone, Copy)]
pub(crate) enum Rooms {
    Columns,
    Arguments(u32),
}

/// How high the first of so many terms may be.
fn room_for(rooms: Rooms, count: usize) -> u32
    ensures { result ≡ rooms_of rooms count }
{
    match rooms {
        Rooms::Columns => MAX_HEIGHT,
        Rooms::Arguments(room) => (room as u64).saturating_sub(count as u64) as u32,
    }
}

/// Whether a head form may take the place: a constructor that is too high may not.
fn has_room(sig: &Signature, room: u32, w: &Term) -> bool
    requires low { tree.height (tree_of w.now) ≤ most_height }
    ensures { if_room result (tree_of w.now) ≡ spec.in_room room (tree_of w.now) (built.built_of sig.now (tree_of w.now)) }
{
    match built_of(sig, w) {
        Some(_) => w.height() <= room,
        None => true,
    }
}

/// The head form with which a pattern is compared.
fn compared_head(
    sig: &Signature,
    room: u32,
    t: &Term,
    kernel: &mut Kernel<'_>,
) -> Result<Term, Stop>
    requires kernel { kernel.old.signature ≡ sig.now }
    requires ready { IsReady sig.now }
    requires term { IsScoped sig.now most_levels (tree_of t.now) }
    ensures answer { Runs tree_of result kernel.new.left (spec.compared_head sig.now room kernel.old.left (tree_of t.now)) }
    ensures sum { kernel.new.left + kernel.new.spent ≡ kernel.old.left + kernel.old.spent }
    ensures spends { kernel.new.left ≤ kernel.old.left }
    ensures kernel { kernel.new.signature ≡ sig.now }
    ensures low { IfOk result (λ w. tree.height (tree_of w) ≤ most_height) }
    ensures scoped { IfOk result (λ w. IsScoped sig.now most_levels (tree_of w)) }
{
    let w = kernel.whnf(t)?;
    if has_room(sig, room, &w) {
        Ok(w)
    } else {
        Err(Stop::Deep)
    }
}

/// The absurd pattern clashes with every constructor.
fn against_absurd<'a>(
    alloc: Global,
    sig: &Signature,
    pat: &'a Pat,
    t: &Term,
    w: Term,
) -> Result<Pair<'a>, Stop>
    requires low { tree.height (tree_of w) ≤ most_height }
    requires absurd_pattern { pat_of pat.now ≡ pattern.Absurd }
    ensures { Gives pair_of result (Ok (spec.against_absurd (tree_of t.now) (tree_of w) (built.built_of sig.now (tree_of w)))) }
{
    if built_of(sig, &w).is_some() {
        return Ok(Pair::Clashes(pat, w));
    }
    waits(alloc, pat, t)
}

/// A pattern with a term that it was not compared with yet, which may be so high.
#[cycle(working)]
fn work_pattern<'a>(
    alloc: Global,
    sig: &Signature,
    room: u32,
    pat: &'a Pat,
    t: &Term,
    kernel: &mut Kernel<'_>,
) -> Result<Pair<'a>, Stop>
    requires kernel { kernel.old.signature ≡ sig.now }
    requires ready { IsReady sig.now }
    requires term { IsScoped sig.now most_levels (tree_of t.now) }
    ensures answer { Runs pair_of result kernel.new.left (spec.work_pattern sig.now room (pat_of pat.now) (tree_of t.now) kernel.old.left) }
    ensures sum { kernel.new.left + kernel.new.spent ≡ kernel.old.left + kernel.old.spent }
    ensures spends { kernel.new.left ≤ kernel.old.left }
    ensures kernel { kernel.new.signature ≡ sig.now }
{
    match pat {
        Pat::Bind => binds_with(copy_whole(alloc, t)),
        Pat::Wild => passes_with(copy_whole(alloc, t)),
        Pat::Dot(written) => keeps_with(written, copy_whole(alloc, t)),
        Pat::Con(n, number, pats) => {
            let w = compared_head(sig, room, t, kernel)?;
            compared(
                alloc,
                sig,
                room,
                pat,
                *n,
                *number,
                pats.as_slice(),
                t,
                w,
                kernel,
            )
        }
        Pat::Absurd => {
            let w = compared_head(sig, room, t, kernel)?;
            against_absurd(alloc, sig, pat, t, w)
        }
    }
}

/// A constructor pattern against a term with the head form w: with its own constructor the arguments are worked, with another one
/// it clashes, and with none it stays open.
#[cycle(working)]
fn compared<'a>(
    alloc: Global,
    sig: &Signature,
    room: u32,
    pat: &'a Pat,
    n: u32,
    number: u32,
    pats: &'a [Pat],
    t: &Term,
    w: Term,
    kernel: &mut Kernel<'_>,
) -> Result<Pair<'a>, Stop>
    requires kernel { kernel.old.signature ≡ sig.now }
    requires ready { IsReady sig.now }
    requires pattern { pat_of pat.now ≡ pattern.Con n number (pats_of pats.now) }
    requires low { tree.height (tree_of w) ≤ most_height }
    requires scoped { IsScoped sig.now most_levels (tree_of w) }
    ensures answer { Runs pair_of result kernel.new.left (spec.compared n number (pats_of pats.now) (tree_of t.now) (tree_of w) (spec.work_patterns sig.now (spec.of_arguments room) (pats_of pats.now)) (built.built_of sig.now (tree_of w)) kernel.old.left) }
    ensures sum { kernel.new.left + kernel.new.spent ≡ kernel.old.left + kernel.old.spent }
    ensures spends { kernel.new.left ≤ kernel.old.left }
    ensures kernel { kernel.new.signature ≡ sig.now }
{
    let Some(b) = built_of(sig, &w) else {
        return waits(alloc, pat, t);
    };
    if is_own(b, n, number) {
        built_pair(alloc, sig, room, b, n, number, pats, t, &w, kernel)
    } else {
        Ok(Pair::Clashes(pat, w))
    }
}

/// Whether it is constructor `number` of family n.
fn is_own(b: Built, n: u32, number: u32) -> bool
    ensures { (p : built.Built) → IsBuiltAs b.entry p → result ≡ is_constructor n number p }
{
    b.family == n && b.number == number
}

/// The pattern's own constructor, whose arguments are worked.
#[cycle(working)]
fn built_pair<'a>(
    alloc: Global,
    sig: &Signature,
    room: u32,
    b: Built,
    n: u32,
    number: u32,
    pats: &'a [Pat],
    t: &Term,
    w: &Term,
    kernel: &mut Kernel<'_>,
) -> Result<Pair<'a>, Stop>
    requires kernel { kernel.old.signature ≡ sig.now }
    requires ready { IsReady sig.now }
    requires scoped { IsScoped sig.now most_levels (tree_of w.now) }
    requires there { IfThere (IsBuiltAs b) (built.built_of sig.now (tree_of w.now)) }
    requires own { (p : built.Built) → IsBuiltAs b p → is_constructor n number p ≡ true }
    ensures answer { Runs pair_of result kernel.new.left (spec.compared n number (pats_of pats.now) (tree_of t.now) (tree_of w.now) (spec.work_patterns sig.now (spec.of_arguments room) (pats_of pats.now)) (built.built_of sig.now (tree_of w.now)) kernel.old.left) }
    ensures sum { kernel.new.left + kernel.new.spent ≡ kernel.old.left + kernel.old.spent }
    ensures spends { kernel.new.left ≤ kernel.old.left }
    ensures kernel { kernel.new.signature ≡ sig.now }
{
    let (ps, us) = split_spine(alloc, w, b.record.params.as_slice().len())?;
    let made = Items::new(alloc);
    let pairs = work_patterns(
        alloc,
        sig,
        Rooms::Arguments(room),
        pats,
        us.as_slice(),
        made,
        kernel,
    )?;
    Ok(Pair::Builds(b.family, b.number, ps, pairs))
}

/// Patterns with terms that they were not compared with yet, after pairs that are made.
#[cycle(working)]
fn work_patterns<'a>(
    alloc: Global,
    sig: &Signature,
    rooms: Rooms,
    pats: &'a [Pat],
    terms: &[Term],
    made: Items<Pair<'a>>,
    kernel: &mut Kernel<'_>,
) -> Result<Items<Pair<'a>>, Stop>
    requires kernel { kernel.old.signature ≡ sig.now }
    requires ready { IsReady sig.now }
    requires terms { All (IsScoped sig.now most_levels) (tele_of terms.now) }
    ensures answer { Runs pairs_of result kernel.new.left (onto (map pair_of made.entry) (spec.work_patterns sig.now (rooms_of rooms) (pats_of pats.now) (tele_of terms.now) kernel.old.left)) }
    ensures sum { kernel.new.left + kernel.new.spent ≡ kernel.old.left + kernel.old.spent }
    ensures spends { kernel.new.left ≤ kernel.old.left }
    ensures kernel { kernel.new.signature ≡ sig.now }
{
    match pats {
        [pat, pats @ ..] => match terms {
            [t, rest @ ..] => {
                let room = room_for(rooms, terms.len());
                let pair = work_pattern(alloc, sig, room, pat, t, kernel)?;
                after_pattern(alloc, sig, rooms, pair, pats, rest, made, kernel)
            }
            [] => Ok(made),
        },
        [] => Ok(made),
    }
}

/// The other patterns, or those that wait after a clash: they are not worked, since the clause is dropped.
#[cycle(working)]
fn after_pattern<'a>(
    alloc: Global,
    sig: &Signature,
    rooms: Rooms,
    pair: Pair<'a>,
    pats: &'a [Pat],
    terms: &[Term],
    mut made: Items<Pair<'a>>,
    kernel: &mut Kernel<'_>,
) -> Result<Items<Pair<'a>>, Stop>
    requires kernel { kernel.old.signature ≡ sig.now }
    requires ready { IsReady sig.now }
    requires terms { All (IsScoped sig.now most_levels) (tele_of terms.now) }
    ensures answer { Runs pairs_of result kernel.new.left (onto (map pair_of made.entry) (spec.unless_clash (waiting_meant (pats_of pats.now) (tele_of terms.now)) (spec.work_patterns sig.now (rooms_of rooms) (pats_of pats.now) (tele_of terms.now)) (pair_of pair.entry) kernel.old.left)) }
    ensures sum { kernel.new.left + kernel.new.spent ≡ kernel.old.left + kernel.old.spent }
    ensures spends { kernel.new.left ≤ kernel.old.left }
    ensures kernel { kernel.new.signature ≡ sig.now }
{
    let clash = clashes(&pair);
    made.push(pair)?;
    if clash {
        waiting_after(alloc, pats, terms, made)
    } else {
        work_patterns(alloc, sig, rooms, pats, terms, made, kernel)
    }
}

/// A pair of a clause: one that waits is worked, others are done.
#[cycle(again)]
fn work_pair<'a>(
    alloc: Global,
    sig: &Signature,
    room: u32,
    pair: &Pair<'a>,
    kernel: &mut Kernel<'_>,
) -> Result<Pair<'a>, Stop>
    requires kernel { kernel.old.signature ≡ sig.now }
    requires ready { IsReady sig.now }
    requires term { IsScoped sig.now most_levels (term_in (pair_of pair.now)) }
    ensures answer { Runs pair_of result kernel.new.left (spec.work_pair sig.now room (pair_of pair.now) kernel.old.left) }
    ensures sum { kernel.new.left + kernel.new.spent ≡ kernel.old.left + kernel.old.spent }
    ensures spends { kernel.new.left ≤ kernel.old.left }
    ensures kernel { kernel.new.signature ≡ sig.now }
{
    match pair {
        Pair::Waits(pat, t) => work_pattern(alloc, sig, room, *pat, t, kernel),
        Pair::Builds(n, number, ps, pairs) => {
            let pairs = work_inside(alloc, sig, room, pairs.as_slice(), kernel)?;
            copied_builds(alloc, *n, *number, ps, pairs)
        }
        Pair::Binds(_) | Pair::Passes(_) | Pair::Keeps(_, _) | Pair::Clashes(_, _) => {
            copy_pair(alloc, pair)
        }
    }
}

/// The pairs of a constructor's arguments.
#[cycle(again)]
fn work_inside<'a>(
    alloc: Global,
    sig: &Signature,
    room: u32,
    pairs: &[Pair<'a>],
    kernel: &mut Kernel<'_>,
) -> Result<Items<Pair<'a>>, Stop>
    requires kernel { kernel.old.signature ≡ sig.now }
    requires ready { IsReady sig.now }
    requires terms { All (IsScoped sig.now most_levels) (terms_in (pairs_of pairs.now)) }
    ensures answer { Runs pairs_of result kernel.new.left (spec.work_pairs sig.now (spec.of_arguments room) (pairs_of pairs.now) kernel.old.left) }
    ensures sum { kernel.new.left + kernel.new.spent ≡ kernel.old.left + kernel.old.spent }
    ensures spends { kernel.new.left ≤ kernel.old.left }
    ensures kernel { kernel.new.signature ≡ sig.now }
{
    let made = Items::new(alloc);
    work_onto(alloc, sig, Rooms::Arguments(room), pairs, made, kernel)
}

/// The pairs of a clause after those that are made.
#[cycle(again)]
fn work_onto<'a>(
    alloc: Global,
    sig: &Signature,
    rooms: Rooms,
    pairs: &[Pair<'a>],
    made: Items<Pair<'a>>,
    kernel: &mut Kernel<'_>,
) -> Result<Items<Pair<'a>>, Stop>
    requires kernel { kernel.old.signature ≡ sig.now }
    requires ready { IsReady sig.now }
    requires terms { All (IsScoped sig.now most_levels) (terms_in (pairs_of pairs.now)) }
    ensures answer { Runs pairs_of result kernel.new.left (onto (map pair_of made.entry) (spec.work_pairs sig.now (rooms_of rooms) (pairs_of pairs.now) kernel.old.left)) }
    ensures sum { kernel.new.left + kernel.new.spent ≡ kernel.old.left + kernel.old.spent }
    ensures spends { kernel.new.left ≤ kernel.old.left }
    ensures kernel { kernel.new.signature ≡ sig.now }
{
    match pairs {
        [] => Ok(made),
        [pair, rest @ ..] => {
            let room = room_for(rooms, pairs.len());
            let worked = work_pair(alloc, sig, room, pair, kernel)?;
            after_pair(alloc, sig, rooms, worked, rest, made, kernel)
        }
    }
}

/// The other pairs, as they are after a clash, since the clause is dropped.
#[cycle(again)]
fn after_pair<'a>(
    alloc: Global,
    sig: &Signature,
    rooms: Rooms,
    worked: Pair<'a>,
    pairs: &[Pair<'a>],
    mut made: Items<Pair<'a>>,
    kernel: &mut Kernel<'_>,
) -> Result<Items<Pair<'a>>, Stop>
    requires kernel { kernel.old.signature ≡ sig.now }
    requires ready { IsReady sig.now }
    requires terms { All (IsScoped sig.now most_levels) (terms_in (pairs_of pairs.now)) }
    ensures answer { Runs pairs_of result kernel.new.left (onto (map pair_of made.entry) (spec.unless_clash (pairs_of pairs.now) (spec.work_pairs sig.now (rooms_of rooms) (pairs_of pairs.now)) (pair_of worked.entry) kernel.old.left)) }
    ensures sum { kernel.new.left + kernel.new.spent ≡ kernel.old.left + kernel.old.spent }
    ensures spends { kernel.new.left ≤ kernel.old.left }
    ensures kernel { kernel.new.signature ≡ sig.now }
{
    let clash = clashes(&worked);
    made.push(worked)?;
    if clash {
        copy_after(alloc, pairs, made)
    } else {
        work_onto(alloc, sig, rooms, pairs, made, kernel)
    }
}

/// The pairs of a clause: those that wait are worked, others are done.
pub fn work_pairs<'a>(
    alloc: Global,
    sig: &Signature,
    pairs: &[Pair<'a>],
    kernel: &mut Kernel<'_>,
) -> Result<Items<Pair<'a>>, Stop>
    requires kernel { kernel.old.signature ≡ sig.now }
    requires ready { IsReady sig.now }
    requires terms { All (IsScoped sig.now most_levels) (terms_in (pairs_of pairs.now)) }
    ensures answer { Runs pairs_of result kernel.new.left (spec.work_pairs sig.now spec.of_columns (pairs_of pairs.now) kernel.old.left) }
    ensures sum { kernel.new.left + kernel.new.spent ≡ kernel.old.left + kernel.old.spent }
    ensures spends { kernel.new.left ≤ kernel.old.left }
    ensures kernel { kernel.new.signature ≡ sig.now }
    ensures kept { (n : ℕ) → AreKeptPairs sig.now n (pairs_of pairs.now) → IfOk result (λ worked. AreKeptPairs sig.now n (pairs_of worked)) }
{
    let made = Items::new(alloc);
    work_onto(alloc, sig, Rooms::Columns, pairs, made, kernel)
}
