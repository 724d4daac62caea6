ghost use Rattle.std.specs.Prelude.{◌≡◌, ◌==◌, ◌≤◌, ◌<◌, ◌^◌, length, bytes_eq, map, IfOk, OnErr};
ghost use Rattle.surface_syntax.specs.Spelling as pieces;
ghost use Rattle.surface_syntax.specs.declared.token.Piece.TheVariants.{Found};
ghost use Rattle.surface_syntax.specs.declared.token.TokenKind.TheVariants.{Plain, Dotted};
ghost use Rattle.std.specs.Str.{chars};
ghost use Rattle.std.specs.List.{list_any};
ghost use Rattle.core_sig.specs.Raw.{raw_constructor_of};
ghost use Rattle.core_text.specs.DeclaredNames as spec;
ghost use Rattle.core_text.specs.Reading.{Reads};
ghost use Rattle.core_text.specs.declared.halt.Halt.TheVariants.{Memory};

use crate::halt::Halt;
use crate::lookup::{before_end, number_at_end};
use crate::runs::run_len;
use crate::scanning::skip;
use crate::scope::Scope;
use core_sig::RawCon;
use core_terms::Name;
use std::alloc::Global;
use surface_syntax::{Piece, TokenKind, piece};

/// The shape of a run of characters where a name is to be declared.
#[derive(Clone, Copy, Debug, PartialEq, Eq)]
pub(crate) enum Shape {
    Declarable,
    /// A `_` that begins no name.
    Underscore,
    Malformed,
}

/// `!` and a character more at least.
fn is_generated(text: &[char]) -> bool
    ensures { result ≡ spec.is_generated text.now }
{
    match text {
        [first, _, ..] => *first == '!',
        _ => false,
    }
}

/// The name itself, or one that is generated from it.
fn plain_shape(len: usize, text: &[char]) -> Shape
    requires { len ≤ length text.now }
    ensures { result ≡ spec.shape_by (Found Plain len) text.now }
{
    if len == text.len() || is_generated(&text[len..]) {
        Shape::Declarable
    } else {
        Shape::Malformed
    }
}

fn dotted_shape(len: usize, text: &[char]) -> Shape
    requires { len ≤ length text.now }
    ensures { result ≡ spec.shape_by (Found Dotted len) text.now }
{
    if is_generated(&text[len..]) {
        Shape::Declarable
    } else {
        Shape::Malformed
    }
}

fn mark_shape(text: &[char]) -> Shape
    ensures { result ≡ spec.marked text.now }
{
    match text {
        ['_', ..] => Shape::Underscore,
        _ => Shape::Malformed,
    }
}

fn shape_by(text: &[char]) -> Shape
    requires { length text.now < 2 ^ 32 }
    ensures { result ≡ spec.shape_by (pieces.piece text.now) text.now }
{
    match piece(text) {
        Piece::Found(TokenKind::Plain, len) => plain_shape(len, text),
        Piece::Found(TokenKind::Dotted, len) => dotted_shape(len, text),
        Piece::Found(TokenKind::Mark, _) => mark_shape(text),
        Piece::Found(TokenKind::Number, _) | Piece::Found(TokenKind::Keyword, _) =>
            Shape::Malformed,
        Piece::Gap(_) | Piece::Bad => Shape::Malformed,
    }
}

fn characters(alloc: Global, text: &str) -> Result<Vec<char>, Halt>
    ensures ok { IfOk result (λ v. v.items ≡ chars text.now) }
    ensures memory { OnErr result (result ≡ Err Memory) }
{
    Ok(text.chars().collect(alloc)?)
}

fn name_shape(alloc: Global, name: &[u8]) -> Result<Shape, Halt>
    ensures ok { IfOk result (λ s. s ≡ spec.shape_of name.now) }
    ensures memory { OnErr result (result ≡ Err Memory) }
{
    let Ok(text) = std::str::from_utf8(name) else {
        return Ok(Shape::Malformed);
    };
    let text = characters(alloc, text)?;
    if text.len() > u32::MAX as usize {
        return Err(Halt::Memory);
    }
    Ok(shape_by(text.as_slice()))
}

fn has_mark(name: &[u8]) -> bool
    ensures { result ≡ list_any (λ b. b == 33) name.now }
{
    for byte in name {
        if *byte == b'!' {
            return true;
        }
    }
    false
}

/// D!elim.m, where D holds no `!`.
fn is_eliminator_name(name: &[u8]) -> bool
    ensures { result ≡ spec.is_eliminator_name name.now }
{
    let Some((front, _)) = number_at_end(name) else {
        return false;
    };
    match before_end(b"!elim.", front) {
        Some(family) => !has_mark(family),
        None => false,
    }
}

/// Eq.i!k.m
fn is_axiom_k_name(name: &[u8]) -> bool
    ensures { result ≡ spec.is_axiom_k_name name.now }
{
    let Some((front, _)) = number_at_end(name) else {
        return false;
    };
    let Some(equality) = before_end(b"!k.", front) else {
        return false;
    };
    match number_at_end(equality) {
        Some((family, _)) => family == b"Eq.".as_slice(),
        None => false,
    }
}

fn is_found(found: &[RawCon], name: &[u8]) -> bool
    ensures { result ≡ list_any (λ c. bytes_eq name.now c.name) (map raw_constructor_of found.now) }
{
    for con in found {
        if con.name.as_slice() == name {
            return true;
        }
    }
    false
}

/// Whether the name may be declared after the constructors that were found.
fn may_declare(scope: &Scope, found: &[RawCon], name: &[u8]) -> bool
    ensures { result ≡ spec.may_declare scope.now.sig.now scope.now.own.now (map raw_constructor_of found.now) name.now }
{
    !is_eliminator_name(name)
        && !is_axiom_k_name(name)
        && scope.sig.find(name).is_none()
        && name != scope.own
        && !is_found(found, name)
}

fn copied(alloc: Global, name: &[u8]) -> Result<Name, Halt>
    ensures ok { IfOk result (λ n. n ≡ name.now) }
    ensures memory { OnErr result (result ≡ Err Memory) }
{
    Ok(Name::from_vec(Vec::from_slice(alloc, name)?))
}

/// A name that may be declared after the constructors that were found.
pub fn new_name<'t>(
    scope: &Scope,
    found: &[RawCon],
    rest: &'t [u8],
) -> Result<(Name, &'t [u8]), Halt>
    ensures { Reads (λ n. n) result (spec.new_name scope.now.sig.now scope.now.own.now (map raw_constructor_of found.now) rest.now) }
{
    let name = &rest[..run_len(rest)];
    match name_shape(scope.alloc, name)? {
        Shape::Declarable if may_declare(scope, found, name) => {
            Ok((copied(scope.alloc, name)?, skip(rest, name.len())))
        }
        Shape::Underscore => Err(Halt::Wrong(skip(rest, 1).len())),
        _ => Err(Halt::Wrong(rest.len())),
    }
}
