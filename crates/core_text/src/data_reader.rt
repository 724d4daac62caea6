ghost use Rattle.std.specs.Prelude.{map, option_map};
ghost use Rattle.core_terms.specs.Meanings.{tree_of, tele_of};
ghost use Rattle.core_sig.specs.Raw.{raw_constructor_of};
ghost use Rattle.core_text.specs.LineReading as spec;
ghost use Rattle.core_text.specs.Reading.{Past, Reads};
ghost use Rattle.core_text.specs.Scopes.{line_of};

use crate::declared_names::new_name;
use crate::halt::Halt;
use crate::line::Line;
use crate::line_reader::end;
use crate::scanning::{first, past, skip};
use crate::scope::Scope;
use crate::whole_terms::{read_whole, read_whole_after};
use core_sig::{RawCon, RawFamily};
use core_terms::{Items, Name, Tele, Term};

fn read_parameter<'t>(
    scope: &Scope,
    count: usize,
    rest: &'t [u8],
) -> Result<(Option<Term>, &'t [u8]), Halt>
    ensures { Reads (option_map tree_of) result (spec.parameter_at scope.now.sig.now scope.now.own.now count rest.now) }
{
    let (ty, rest) = read_whole(scope, count, rest)?;
    Ok((Some(ty), past(b")", rest)?))
}

pub fn no_parameter(rest: &[u8]) -> Result<(Option<Term>, &[u8]), Halt>
    ensures { Reads (option_map tree_of) result (spec.no_parameter rest.now) }
{
    Ok((None, past(b": ", rest)?))
}

/// One parameter more, or the colon before the type of the family.
fn next_parameter<'t>(
    scope: &Scope,
    count: usize,
    rest: &'t [u8],
) -> Result<(Option<Term>, &'t [u8]), Halt>
    ensures { Reads (option_map tree_of) result (spec.next_parameter scope.now.sig.now scope.now.own.now count rest.now) }
{
    let rest = past(b" ", rest)?;
    if first(rest) == b'(' {
        read_parameter(scope, count, skip(rest, 1))
    } else {
        no_parameter(rest)
    }
}

fn read_parameters<'t>(scope: &Scope, from: &'t [u8]) -> Result<(Tele, &'t [u8]), Halt>
    ensures { Reads tele_of result (spec.parameters_at scope.now.sig.now scope.now.own.now from.now) }
{
    let mut found = Items::new(scope.alloc);
    let mut rest = from;
    let mut turns = from.len();
    'parameters: while 0 < turns {
        let (next, end) = next_parameter(scope, found.as_slice().len(), rest)?;
        let Some(ty) = next else {
            return Ok((found, end));
        };
        found.push(ty)?;
        rest = end;
        turns -= 1;
    }
    Err(Halt::Wrong(rest.len()))
}

/// A constructor.
fn read_constructor<'t>(
    scope: &Scope,
    count: usize,
    found: &[RawCon],
    rest: &'t [u8],
) -> Result<(Option<RawCon>, &'t [u8]), Halt>
    ensures { Reads (option_map raw_constructor_of) result (spec.constructor_at scope.now.sig.now scope.now.own.now count (map raw_constructor_of found.now) rest.now) }
{
    let (name, rest) = new_name(scope, found, rest)?;
    let (ty, rest) = read_whole_after(scope, b" : ", count, rest)?;
    Ok((Some(RawCon { name, ty }), rest))
}

/// Past the semicolon between a constructor and those before it.
pub fn separated<'t>(found: &[RawCon], rest: &'t [u8]) -> Result<&'t [u8], Halt>
    ensures { Past result (spec.separated (map raw_constructor_of found.now) rest.now) }
{
    if found.is_empty() {
        return Ok(rest);
    }
    past(b"; ", rest)
}

/// One constructor more, or the brace after them.
fn next_constructor<'t>(
    scope: &Scope,
    count: usize,
    found: &[RawCon],
    rest: &'t [u8],
) -> Result<(Option<RawCon>, &'t [u8]), Halt>
    ensures { Reads (option_map raw_constructor_of) result (spec.next_constructor scope.now.sig.now scope.now.own.now count (map raw_constructor_of found.now) rest.now) }
{
    let rest = past(b" ", rest)?;
    if first(rest) == b'}' {
        return Ok((None, skip(rest, 1)));
    }
    read_constructor(scope, count, found, separated(found, rest)?)
}

fn read_constructors<'t>(
    scope: &Scope,
    count: usize,
    from: &'t [u8],
) -> Result<(Items<RawCon>, &'t [u8]), Halt>
    ensures { Reads (map raw_constructor_of) result (spec.constructors_at scope.now.sig.now scope.now.own.now count from.now) }
{
    let mut found = Items::new(scope.alloc);
    let mut rest = from;
    let mut turns = from.len();
    'constructors: while 0 < turns {
        let (next, end) = next_constructor(scope, count, found.as_slice(), rest)?;
        let Some(con) = next else {
            return Ok((found, end));
        };
        found.push(con)?;
        rest = end;
        turns -= 1;
    }
    Err(Halt::Wrong(rest.len()))
}

/// A family, after its keyword.
pub(crate) fn read_family<'t>(scope: &Scope, rest: &'t [u8]) -> Result<(Line, &'t [u8]), Halt>
    ensures { Reads line_of result (spec.family_at scope.now.sig.now scope.now.own.now rest.now) }
{
    let (name, rest) = new_name(scope, &[], rest)?;
    let (params, rest) = read_parameters(scope, rest)?;
    let (ty, rest) = read_whole(scope, params.as_slice().len(), rest)?;
    read_family_after(scope, name, params, ty, past(b" {", rest)?)
}

/// The constructors of a family, and the end of its line.
fn read_family_after<'t>(
    scope: &Scope,
    name: Name,
    params: Tele,
    ty: Term,
    rest: &'t [u8],
) -> Result<(Line, &'t [u8]), Halt>
    ensures { Reads line_of result (spec.family_after scope.now.sig.now name (tele_of params) (tree_of ty) rest.now) }
{
    let inside = Scope {
        alloc: scope.alloc,
        sig: scope.sig,
        own: name.as_slice(),
    };
    let (cons, rest) = read_constructors(&inside, params.as_slice().len(), rest)?;
    end(
        Line::Family(RawFamily {
            name,
            params,
            ty,
            cons,
        }),
        rest,
    )
}
