ghost use Rattle.std.specs.Prelude.{◌≡◌, get_or, map};
ghost use Rattle.core_terms.specs.Meanings.{tele_of};
ghost use Rattle.core_terms.specs.PatternMeanings.{pats_of};
ghost use Rattle.core_terms.specs.Patterns as pattern;
ghost use Rattle.case_trees.specs.pattern_vectors.Matching.{matches_all};

use case_trees::pattern_vectors::matches;
use core_sig::Signature;
use core_terms::{Items, Pat, Tele, Walk};
use leaf_terms::{Part, Plan};

/// A clause of a part of a plan, with its own walk. `number` is that of the part.
#[derive(Clone, Copy)]
pub struct PlannedClause<'a> {
    pub plan: &'a Plan,
    pub part: &'a Part,
    pub number: u32,
    pub clause: u32,
    pub walk: &'a Walk,
}

/// Whether the patterns of a clause match an argument list.
pub(crate) fn match_at(sig: &Signature, pats: &[Items<Pat>], clause: u32, vector: &Tele) -> bool
    ensures { result ≡ matches_all sig.now (get_or (map pats_of pats.now) clause pattern.nil) (tele_of vector.now) }
{
    match pats {
        [] => vector.as_slice().is_empty(),
        [first, rest @ ..] => {
            if clause == 0 {
                matches(sig, first, vector)
            } else {
                match_at(sig, rest, clause - 1, vector)
            }
        }
    }
}
