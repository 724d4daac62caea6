ghost use Rattle.std.specs.Prelude.{◌≡◌, ◌++◌, Ok, length};
ghost use Rattle.core_terms.specs.Answers.{Gives};
ghost use Rattle.run_terms.specs.outlines.Composing as spec;

use crate::level_at;
use core_terms::{Items, Stop, number_of, sum};

/// Whether all levels are below an end.
pub fn are_below(end: u32, levels: &[u32]) -> bool
    ensures { result ≡ spec.are_below end levels.now }
{
    match levels {
        [] => true,
        [level, rest @ ..] => *level < end && are_below(end, rest),
    }
}

/// The level that one of a placed part has where the part is placed again.
fn composed_level(levels: &[u32], depth: u32, level: u32) -> Result<u32, Stop>
    ensures { Gives (λ n. n) result (Ok (spec.composed_level levels.now depth level)) }
{
    let size = number_of(levels.len())?;
    if level < size {
        return Ok(level_at(levels, level as usize));
    }
    sum(depth, level - size)
}

/// Levels, followed by those that these have where what they place is placed again.
#[tactic(auto, using(tele_eq::proofs::Growing::listing))]
pub fn composed(
    levels: &[u32],
    depth: u32,
    own: &[u32],
    mut made: Items<u32>,
) -> Result<Items<u32>, Stop>
    ensures { Gives (λ v. v) result (Ok (made ++ spec.composed levels.now depth own.now)) }
{
    match own {
        [] => Ok(made),
        [level, rest @ ..] => {
            made.push(composed_level(levels, depth, *level)?)?;
            composed(levels, depth, rest, made)
        }
    }
}
