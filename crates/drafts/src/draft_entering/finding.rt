ghost use Rattle.std.specs.Prelude.{◌≡◌, ◌<◌, ◌+◌, ◌^◌, ◌∷◌, [], Ok, IfSome, flat_map, length, option_map, slice_get};
ghost use Rattle.std.specs.List.{range_with_len};
ghost use Rattle.clause_reports.specs.Generated as pure;
ghost use Rattle.core_sig.specs.Meanings.{entry_of, family_of};
ghost use Rattle.core_terms.specs.Answers.{Gives};
ghost use Rattle.drafts.specs.draft_entering.FoundNames.{confusions, courses, found_in, left_levels, level_of, numbers_of, of_number};
ghost use Rattle.generators.specs.noconf_gen.NoConfusionTypes as noconf;
ghost use Rattle.theory.specs.Signatures.{FamilyOf};
ghost use Rattle.theory.specs.Terms.{top};

use crate::draft_entering::Generated;
use crate::draft_entering::spelling::{after, is_constructors, is_left, is_marked, is_spelled};
use core_sig::{Entry, Family, Signature};
use core_terms::{Stop, TOP, number_of};
use core_text::{before_end, number_at_end};

/// Case analysis or course-of-values recursion of a family at a level, by its name.
#[tactic(auto, using(crate::proofs::draft_entering::FoundAmong::found_cons))]
fn course_at(n: u32, f: &Family, m: u8, name: &[u8]) -> Option<Generated>
    requires { m < 100 }
    ensures { result ≡ found_in name.now (courses n (family_of f.now) m) }
{
    let family = f.name.as_slice();
    if m < TOP && is_spelled(name, family, b"!case.", m) {
        return Some(Generated::Case(n, m));
    }
    if f.level > m || m + 1 >= TOP {
        return None;
    }
    if is_spelled(name, family, b"!below.", m) {
        return Some(Generated::Below(n, m));
    }
    if is_spelled(name, family, b"!aux.", m) {
        return Some(Generated::Aux(n, m));
    }
    if is_spelled(name, family, b"!rec.", m) {
        return Some(Generated::Rec(n, m));
    }
    if is_spelled(name, family, b"!all.", m) {
        return Some(Generated::All(n, m));
    }
    None
}

/// The name of a constructor, or no bytes.
fn constructor_name(f: &Family, number: u32) -> &[u8]
    ensures { result.now ≡ noconf.constructor_name (family_of f.now) number }
{
    match f.cons.as_slice().get(number as usize) {
        Some(con) => con.name.as_slice(),
        None => b"",
    }
}

/// No confusion of a constructor at a level, by its name.
#[tactic(auto, using(crate::proofs::draft_entering::FoundAmong::found_cons))]
fn confusion_at(n: u32, f: &Family, m: u8, number: u32, name: &[u8]) -> Option<Generated>
    requires { m < 100 }
    ensures { result ≡ found_in name.now (confusions n (family_of f.now) m number) }
{
    if f.level.max(m + 1) >= TOP - 1 {
        return None;
    }
    let family = f.name.as_slice();
    let constructor = constructor_name(f, number);
    if is_constructors(name, family, b"!nct.", constructor, m) {
        return Some(Generated::ConfusionType(n, number, m));
    }
    if is_constructors(name, family, b"!noconf.", constructor, m) {
        return Some(Generated::NoConfusion(n, number, m));
    }
    None
}

/// No confusion of one of `count` constructors from a number on at a level, by its name.
#[tactic(auto, using(crate::proofs::draft_entering::FoundAmong::found_append))]
fn confusion_from(
    n: u32,
    f: &Family,
    m: u8,
    number: u32,
    count: u32,
    name: &[u8],
) -> Option<Generated>
    requires m { m < 100 }
    requires few { number + count < 2 ^ 32 }
    ensures { result ≡ found_in name.now (flat_map (confusions n (family_of f.now) m) (range_with_len number count)) }
{
    if count == 0 {
        return None;
    }
    match confusion_at(n, f, m, number, name) {
        Some(found) => Some(found),
        None => confusion_from(n, f, m, number + 1, count - 1, name),
    }
}

/// The generated entry of a family of `count` constructors at a level, by its name.
#[tactic(auto, using(crate::proofs::draft_entering::FoundAmong::found_append))]
fn found_at(n: u32, f: &Family, count: u32, m: u8, name: &[u8]) -> Option<Generated>
    requires m { m < 100 }
    requires count { count ≡ length f.now.cons }
    ensures { result ≡ found_in name.now (pure.at_level n (family_of f.now) m) }
{
    match course_at(n, f, m, name) {
        Some(found) => Some(found),
        None => confusion_from(n, f, m, 0, count, name),
    }
}

/// The level that the name ends with. The name of a generated entry ends with its level, if it has one.
fn level_at_end(name: &[u8]) -> Option<u8>
    ensures level { result ≡ level_of name.now }
    ensures low { IfSome result (λ m. m < top) }
{
    let (_, level) = number_at_end(name)?;
    if level < TOP { Some(level) } else { None }
}

/// The generated entry of a family of `count` constructors at the level that its name ends with.
fn found_at_own_level(n: u32, f: &Family, count: u32, name: &[u8]) -> Option<Generated>
    requires count { count ≡ length f.now.cons }
    ensures { result ≡ found_in name.now (flat_map (pure.at_level n (family_of f.now)) pure.levels) }
{
    match level_at_end(name) {
        Some(m) => found_at(n, f, count, m, name),
        None => None,
    }
}

/// The generated entry of a family, by its name.
#[tactic(auto, using(crate::proofs::draft_entering::FoundAmong::found_cons))]
fn found_of_family(n: u32, f: &Family, count: u32, name: &[u8]) -> Option<Generated>
    requires count { count ≡ length f.now.cons }
    ensures { result ≡ found_in name.now (pure.of_entry n (FamilyOf (family_of f.now))) }
{
    if f.indices.as_slice().is_empty() && f.level < TOP - 1 {
        if is_marked(name, f.name.as_slice(), b"!direct") {
            return Some(Generated::Direct(n));
        }
        if is_marked(name, f.name.as_slice(), b"!acyclic") {
            return Some(Generated::Acyclic(n));
        }
    }
    found_at_own_level(n, f, count, name)
}

/// The generated entry of a family, by its name. Names that do not begin with that of the family are passed over.
fn found_by_family(n: u32, f: &Family, count: u32, name: &[u8]) -> Option<Generated>
    requires count { count ≡ length f.now.cons }
    ensures { result ≡ found_in name.now (pure.of_entry n (FamilyOf (family_of f.now))) }
{
    match after(name, f.name.as_slice()) {
        Some(_) => found_of_family(n, f, count, name),
        None => None,
    }
}

/// The generated entry of an entry that is a family, by its name.
fn found_of_entry(n: u32, entry: &Entry, name: &[u8]) -> Result<Option<Generated>, Stop>
    ensures { Gives (λ found. found) result (Ok (found_in name.now (pure.of_entry n (entry_of entry.now)))) }
{
    match entry {
        Entry::Family(f) => {
            let count = number_of(f.cons.as_slice().len())?;
            Ok(found_by_family(n, f, count, name))
        }
        _ => Ok(None),
    }
}

/// Elimination of an equation of `Eq.i` by its left side at a level, by its name.
#[tactic(auto, using(crate::proofs::draft_entering::FoundAmong::found_cons))]
fn left_at(i: u8, m: u8, name: &[u8]) -> Option<Generated>
    requires i { i < top }
    requires m { m < top }
    ensures { result ≡ found_in name.now (pure.Left i m ∷ []) }
{
    if i.max(m + 1) < TOP && is_left(name, i, m) {
        return Some(Generated::Left(i, m));
    }
    None
}

/// The levels i and m where the name ends like `Eq.i!left.m`.
fn left_levels(name: &[u8]) -> Option<(u8, u8)>
    ensures levels { result ≡ left_levels name.now }
    ensures low { IfSome result (λ p. (p.0 < top) × (p.1 < top)) }
{
    let (front, m) = number_at_end(name)?;
    let identity = before_end(b"!left.", front)?;
    let (_, i) = number_at_end(identity)?;
    if i < TOP && m < TOP {
        Some((i, m))
    } else {
        None
    }
}

/// Elimination of an equation by its left side, by its name.
fn found_left(name: &[u8]) -> Option<Generated>
    ensures { result ≡ found_in name.now pure.of_identities }
{
    match left_levels(name) {
        Some((i, m)) => left_at(i, m, name),
        None => None,
    }
}

/// The generated entry of the entry with a number, by its name.
fn found_of_number(sig: &Signature, n: u32, name: &[u8]) -> Result<Option<Generated>, Stop>
    ensures { Gives (λ found. found) result (Ok (found_in name.now (of_number n (slice_get sig.now.entries n)))) }
{
    match sig.entry(n) {
        Some(entry) => found_of_entry(n, entry, name),
        None => Ok(None),
    }
}

/// The generated entry over the signature with the name, if there is one. Memory is also answered where a family has
/// more constructors than 32 bits count.
pub fn generated_by(sig: &Signature, name: &[u8]) -> Result<Option<Generated>, Stop>
    ensures { Gives (λ found. found) result (Ok (option_map numbers_of (pure.generated_by sig.now name.now))) }
{
    let mut at = 0;
    while at < sig.len() {
        if let Some(found) = found_of_number(sig, at, name)? {
            return Ok(Some(found));
        }
        at += 1;
    }
    Ok(found_left(name))
}
