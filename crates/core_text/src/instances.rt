ghost use Rattle.std.specs.Prelude.{◌≡◌, ◌<◌, ◌+◌};
ghost use Rattle.std.specs.List.{list_any};
ghost use Rattle.core_text.specs.LineReading as spec;
ghost use Rattle.core_text.specs.Reading.{is_left, some_left};

use core_sig::Signature;
use core_terms::TOP;

/// The instances of the eliminator of one family, or of K of one identity family.
#[derive(Clone, Copy, Debug, PartialEq, Eq)]
pub(crate) enum Series {
    Elim(u32),
    AxiomK(u8),
}

/// The levels that may stand at a place of a line: those at which a series has no instance yet, or the identity families for which
/// there is a level at which K is not there yet.
#[derive(Clone, Copy, Debug, PartialEq, Eq)]
pub(crate) enum Choice {
    Level(Series),
    Identity,
}

/// Whether the signature has the instance.
fn has_instance(sig: &Signature, series: Series, level: u8) -> bool
    ensures { result ≡ list_any (spec.is_instance series level) sig.now.entries }
{
    match series {
        Series::Elim(family) => sig.eliminator(family, level).is_some(),
        Series::AxiomK(i) => sig.axiom_k(i, level).is_some(),
    }
}

/// Whether the series may have an instance at the level, and has none yet.
#[tactic(auto, using(crate::proofs::LevelLists::level_at))]
fn is_level_left(sig: &Signature, series: Series, level: u8) -> bool
    ensures { result ≡ is_left (spec.levels_left sig.now series) level }
{
    level < TOP && !has_instance(sig, series, level)
}

/// Whether the series has no instance yet at one of the levels from the given one on, among as many as `count` says.
fn some_level_left(sig: &Signature, series: Series, from: u8, count: u8) -> bool
    requires { from + count < 200 }
    ensures { result ≡ some_left (spec.levels_left sig.now series) from count }
{
    count > 0
        && (is_level_left(sig, series, from) || some_level_left(sig, series, from + 1, count - 1))
}

/// Whether there is an identity family with the number, and a level at which its K is not there yet.
fn is_identity_left(sig: &Signature, number: u8) -> bool
    ensures { result ≡ is_left (spec.identities_left sig.now) number }
{
    number < TOP && some_level_left(sig, Series::AxiomK(number), 0, TOP)
}

/// Whether the level may stand at the place.
pub(crate) fn is_left(sig: &Signature, choice: Choice, level: u8) -> bool
    ensures { result ≡ is_left (spec.levels_of sig.now choice) level }
{
    match choice {
        Choice::Level(series) => is_level_left(sig, series, level),
        Choice::Identity => is_identity_left(sig, level),
    }
}
