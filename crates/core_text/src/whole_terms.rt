ghost use Rattle.std.specs.Prelude.{◌≡◌, ◌+◌, ◌<◌, ◌≤◌, ◌^◌, IfOk, OnErr};
ghost use Rattle.core_terms.specs.Bounds.{most_height};
ghost use Rattle.core_terms.specs.Meanings.{tree_of};
ghost use Rattle.core_text.specs.LineReading.{nested, whole_term};
ghost use Rattle.core_text.specs.Reading.{Reads};
ghost use Rattle.core_text.specs.TermReading.{term_after};
ghost use Rattle.core_text.specs.declared.halt.Halt.TheVariants.{Memory};

use crate::halt::Halt;
use crate::scanning::past;
use crate::scope::Scope;
use crate::term_reader::read_term;
use core_terms::{MAX_HEIGHT, Term};

/// A number of parameters, or Memory where there are too many to count those of a term as well.
pub fn binders(count: usize) -> Result<u32, Halt>
    ensures ok { IfOk result (λ n. n ≡ count) }
    ensures few { IfOk result (λ n. n + 2001 < 2 ^ 32) }
    ensures memory { OnErr result (result ≡ Err Memory) }
{
    if count > 4_000_000_000 {
        return Err(Halt::Memory);
    }
    Ok(count as u32)
}

/// How many terms may be nested.
#[tactic(auto, unfolding(crate::specs::LineReading::nested))]
pub fn most_nested() -> u32
    ensures value { result ≡ nested }
    ensures few { result ≤ most_height }
{
    MAX_HEIGHT
}

/// A whole term under `count` parameters.
pub(crate) fn read_whole<'t>(
    scope: &Scope,
    count: usize,
    rest: &'t [u8],
) -> Result<(Term, &'t [u8]), Halt>
    ensures { Reads tree_of result (whole_term scope.now.sig.now scope.now.own.now count rest.now) }
{
    let (whole, rest) = read_term(scope, binders(count)?, most_nested(), rest)?;
    Ok((whole.term, rest))
}

/// A whole term under `count` parameters, after a word.
pub(crate) fn read_whole_after<'t>(
    scope: &Scope,
    word: &[u8],
    count: usize,
    rest: &'t [u8],
) -> Result<(Term, &'t [u8]), Halt>
    ensures { Reads tree_of result (term_after (whole_term scope.now.sig.now scope.now.own.now) word.now count rest.now) }
{
    read_whole(scope, count, past(word, rest)?)
}
