ghost use Rattle.std.specs.Prelude.{◌≡◌, ◌<◌, ◌+◌, ◌^◌, ◌++◌, ◌∷◌, [], Ok};
ghost use Rattle.core_terms.specs.Answers.{Gives};
ghost use Rattle.tree_translation.specs.Naming as spec;

use core_terms::{Name, Stop, copy_name};
use std::alloc::Global;

/// A function's name with a mark after it.
pub fn marked(alloc: Global, function: &Name, mark: &[u8]) -> Result<Vec<u8>, Stop>
    ensures { Gives (λ v. v.items) result (Ok (function.now ++ mark.now)) }
{
    let mut text = function.as_slice().to_vec(alloc)?;
    text.extend_from_slice(mark)?;
    Ok(text)
}

/// `F!motive`.
pub fn motive_name(alloc: Global, function: &Name) -> Result<Name, Stop>
    ensures { Gives (λ name. name) result (Ok (spec.motive_name function.now)) }
{
    Ok(Name::from_vec(marked(alloc, function, b"!motive")?))
}

/// `F!step`.
pub fn step_name(alloc: Global, function: &Name) -> Result<Name, Stop>
    ensures { Gives (λ name. name) result (Ok (spec.step_name function.now)) }
{
    Ok(Name::from_vec(marked(alloc, function, b"!step")?))
}

/// Bytes with a digit after them.
fn with_digit(mut text: Vec<u8>, n: u32) -> Result<Vec<u8>, Stop>
    requires { n < 10 }
    ensures { Gives (λ v. v.items) result (Ok (text.items ++ (48 + n) ∷ [])) }
{
    text.push(b'0' + n as u8)?;
    Ok(text)
}

/// Bytes with the digits of a number after them, which has at most so many and one.
#[tactic(auto, using(crate::proofs::Digits::numerals))]
fn with_digits(text: Vec<u8>, more: u32, n: u32) -> Result<Vec<u8>, Stop>
    requires { n < 10 ^ (more + 1) }
    ensures { Gives (λ v. v.items) result (Ok (text.items ++ spec.digits more n)) }
{
    if more == 0 {
        return with_digit(text, n);
    }
    if n < 10 {
        return with_digit(text, n);
    }
    let text = with_digits(text, more - 1, n / 10)?;
    with_digit(text, n % 10)
}

/// `F!wk`: the name of helper k.
#[tactic(auto, using(crate::proofs::Digits::numerals))]
pub fn helper_name(alloc: Global, function: &Name, k: u32) -> Result<Name, Stop>
    ensures { Gives (λ name. name) result (Ok (spec.helper_name function.now k)) }
{
    let text = marked(alloc, function, b"!w")?;
    Ok(Name::from_vec(with_digits(text, 9, k)?))
}

/// The name of part k of a function: its own, or that of helper k.
pub fn part_name(alloc: Global, function: &Name, k: u32) -> Result<Name, Stop>
    ensures { Gives (λ name. name) result (Ok (spec.part_named function.now k)) }
{
    if k == 0 {
        return Ok(copy_name(alloc, function)?);
    }
    helper_name(alloc, function, k)
}
