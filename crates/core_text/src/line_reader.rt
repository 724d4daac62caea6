ghost use Rattle.std.specs.Prelude.{◌≡◌, ◌+◌, ◌<◌, ◌^◌, map, length, option_map, IfOk, OnErr};
ghost use Rattle.core_terms.specs.Meanings.{tree_of, tele_of};
ghost use Rattle.core_sig.specs.Raw.{raw_constructor_of};
ghost use Rattle.core_text.specs.LineReading as spec;
ghost use Rattle.core_text.specs.Reading.{Reads};
ghost use Rattle.core_text.specs.Scopes.{line_of};
ghost use Rattle.core_text.specs.declared.halt.Halt.TheVariants.{Memory};

use crate::data_reader::read_family;
use crate::declared_names::new_name;
use crate::halt::Halt;
use crate::instances::{Choice, Series};
use crate::levels::read_level;
use crate::line::Line;
use crate::lookup::found_symbol;
use crate::runs::run_len;
use crate::scanning::{begins, first, past, skip};
use crate::scope::Scope;
use crate::whole_terms::read_whole_after;
use core_sig::Signature;
use core_terms::Term;

/// The line feed that ends a line.
pub fn end(line: Line, rest: &[u8]) -> Result<(Line, &[u8]), Halt>
    ensures { Reads line_of result (spec.ended (line_of line) rest.now) }
{
    Ok((line, past(b"\n", rest)?))
}

fn read_definition<'t>(scope: &Scope, rest: &'t [u8]) -> Result<(Line, &'t [u8]), Halt>
    ensures { Reads line_of result (spec.definition_at scope.now.sig.now scope.now.own.now rest.now) }
{
    let (name, rest) = new_name(scope, &[], rest)?;
    let (ty, rest) = read_whole_after(scope, b" : ", 0, rest)?;
    let (body, rest) = read_whole_after(scope, b" = ", 0, rest)?;
    end(Line::Def { name, ty, body }, rest)
}

/// The name of a family.
fn family_name<'t>(sig: &Signature, rest: &'t [u8]) -> Result<(u32, &'t [u8]), Halt>
    ensures { Reads (λ n. n) result (spec.family_name sig.now rest.now) }
{
    let len = run_len(rest);
    match found_symbol(sig, &rest[..len]) {
        Some(Term::Fam(at)) => Ok((at, skip(rest, len))),
        _ => Err(Halt::Wrong(rest.len())),
    }
}

pub fn read_eliminator<'t>(scope: &Scope, rest: &'t [u8]) -> Result<(Line, &'t [u8]), Halt>
    ensures { Reads line_of result (spec.eliminator_at scope.now.sig.now rest.now) }
{
    let (family, rest) = family_name(scope.sig, rest)?;
    let levels = Choice::Level(Series::Elim(family));
    let (level, rest) = read_level(scope.sig, levels, past(b" ", rest)?)?;
    end(Line::Elim(family, level), rest)
}

pub fn read_axiom_k<'t>(scope: &Scope, rest: &'t [u8]) -> Result<(Line, &'t [u8]), Halt>
    ensures { Reads line_of result (spec.axiom_k_line scope.now.sig.now rest.now) }
{
    let (i, rest) = read_level(scope.sig, Choice::Identity, rest)?;
    let levels = Choice::Level(Series::AxiomK(i));
    let (level, rest) = read_level(scope.sig, levels, past(b" ", rest)?)?;
    end(Line::AxiomK(i, level), rest)
}

/// A line, by its first bytes.
pub(crate) fn read_line<'t>(scope: &Scope, rest: &'t [u8]) -> Result<(Line, &'t [u8]), Halt>
    ensures { Reads line_of result (spec.line_at scope.now.sig.now scope.now.own.now rest.now) }
{
    if begins(b"de", rest) {
        read_definition(scope, past(b"def ", rest)?)
    } else if first(rest) == b'e' {
        read_eliminator(scope, past(b"elim ", rest)?)
    } else if scope.sig.k() && first(rest) == b'a' {
        read_axiom_k(scope, past(b"axiomk ", rest)?)
    } else {
        read_family(scope, past(b"data ", rest)?)
    }
}
