use crate::Item;
use core_terms::Term;

/// Terms over one telescope that inhabit another, with the left terms of the first.
#[derive(Clone, Copy)]
pub(crate) struct Map<'a> {
    pub(crate) from: &'a [Item],
    pub(crate) to: &'a [Item],
    pub(crate) terms: &'a [Term],
    pub(crate) left: &'a [Term],
}

/// The left terms of a telescope: terms of the context, or the terms of a map at the left terms of its own telescope.
#[derive(Clone, Copy)]
pub(crate) enum Left<'a> {
    Terms(&'a [Term]),
    Images(Map<'a>),
}

/// Terms for the variables of a telescope and for its equations.
#[derive(Clone, Copy)]
pub(crate) enum Sides<'a> {
    /// Terms of the context.
    Given(&'a [Term], &'a [Term]),
    /// Terms of the context, and the variables that a telescope of equations has.
    Bound(&'a [Term]),
    /// Variables at some positions, from a level on, and the left terms and reflexivities at the others.
    Inside(&'a [u32], u32),
}

/// These terms, or a map's terms at them, with the congruences of so many levels for the equations.
#[derive(Clone, Copy)]
pub(crate) enum Pairs<'a> {
    Plain(Sides<'a>),
    Mapped(Map<'a>, u32, Sides<'a>),
}

/// The goal of a telescopic J, and the term that it begins from.
#[derive(Clone, Copy)]
pub(crate) enum Goal<'a> {
    /// The function from the type at a position to that type at the right terms, from the identity.
    Transport(u32),
    /// The equation of a map's terms at a position, with the congruences of so many levels before it, from its reflexivity.
    Congruence(Map<'a>, u32, u32),
    /// A term applied to all right terms and all equations, from a term.
    Applied(&'a Term, &'a Term),
}
