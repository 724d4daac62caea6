ghost use Rattle.std.specs.Prelude.{◌≡◌, ◌++◌, codes, map, IsTrue, OnOk, OnErr, Err};
ghost use Rattle.core_terms.specs.declared.stop.Stop.TheVariants.{Memory};
ghost use Rattle.core_sig.specs.Raw.{raw_constructor_of, raw_of};
ghost use Rattle.core_text.specs.RawEntries.{RawDefinition};
ghost use Rattle.term_pool.specs.Pools.{pool_held};
ghost use Rattle.shared_text.specs.BlockText.{constructors_by, family_by, parameters_by, shared_text, text_by};
ghost use Rattle.shared_text.specs.CodeMeanings.{AreFamilyIds, AreIdsOf, AreLive, shared_of, trees};

use crate::term_writer::{Texts, write_shared};
use crate::written::FamilyIds;
use core_sig::{RawCon, RawFamily};
use core_terms::Stop;
use core_text::bytes::write;
use term_pool::Id;

/// Writes the types of parameters, each after a space and in parentheses.
fn write_parameters(out: &mut Vec<u8>, texts: &Texts, params: &[Id]) -> Result<(), Stop>
    requires shared { AreLive texts.now.pool.now texts.now.shared.now }
    requires live { AreLive texts.now.pool.now params.now }
    ensures ok { OnOk result (out.new.items ≡ out.old.items ++ parameters_by (shared_text texts.now.sig.now (shared_of texts.now)) (trees texts.now.pool.now params.now)) }
    ensures memory { OnErr result (result ≡ Err Memory) }
{
    for ty in params {
        write(out, b" (")?;
        write_shared(out, texts, *ty)?;
        write(out, b")")?;
    }
    Ok(())
}

/// Writes a constructor with its type, after what is before it.
fn write_constructor(
    out: &mut Vec<u8>,
    texts: &Texts,
    before: &[u8],
    con: &RawCon,
    ty: Id,
) -> Result<(), Stop>
    requires shared { AreLive texts.now.pool.now texts.now.shared.now }
    requires live { IsTrue ((pool_held texts.now.pool.now).live ty) }
    ensures ok { OnOk result (out.new.items ≡ out.old.items ++ before.now ++ con.now.name ++ codes " : " ++ shared_text texts.now.sig.now (shared_of texts.now) ((pool_held texts.now.pool.now).tree ty)) }
    ensures memory { OnErr result (result ≡ Err Memory) }
{
    write(out, before)?;
    write(out, con.name.as_slice())?;
    write(out, b" : ")?;
    write_shared(out, texts, ty)
}

/// Writes constructors with their types.
fn write_constructors(
    out: &mut Vec<u8>,
    texts: &Texts,
    cons: &[RawCon],
    types: &[Id],
) -> Result<(), Stop>
    requires shared { AreLive texts.now.pool.now texts.now.shared.now }
    requires types { AreIdsOf texts.now.pool.now types.now (map (λ c. c.type) (map raw_constructor_of cons.now)) }
    ensures ok { OnOk result (out.new.items ≡ out.old.items ++ constructors_by (shared_text texts.now.sig.now (shared_of texts.now)) (codes " ") (map raw_constructor_of cons.now)) }
    ensures memory { OnErr result (result ≡ Err Memory) }
{
    let mut before: &[u8] = b" ";
    let mut at = 0;
    'cons: while at < cons.len() {
        write_constructor(out, texts, before, &cons[at], types[at])?;
        before = b" ; ";
        at += 1;
    }
    Ok(())
}

/// Writes the line of a family, without the line feed.
pub(crate) fn write_family(
    out: &mut Vec<u8>,
    texts: &Texts,
    raw: &RawFamily,
    ids: &FamilyIds,
) -> Result<(), Stop>
    requires shared { AreLive texts.now.pool.now texts.now.shared.now }
    requires ids { AreFamilyIds texts.now.pool.now ids.now (raw_of raw.now) }
    ensures ok { OnOk result (out.new.items ≡ out.old.items ++ family_by (shared_text texts.now.sig.now (shared_of texts.now)) (raw_of raw.now)) }
    ensures memory { OnErr result (result ≡ Err Memory) }
{
    write(out, b"data ")?;
    write(out, raw.name.as_slice())?;
    write_parameters(out, texts, ids.params.as_slice())?;
    write(out, b" : ")?;
    write_shared(out, texts, ids.ty)?;
    write(out, b" {")?;
    write_constructors(out, texts, raw.cons.as_slice(), ids.cons.as_slice())?;
    write(out, b" }")
}

/// Writes the line of a definition, without the line feed.
pub(crate) fn write_definition(
    out: &mut Vec<u8>,
    texts: &Texts,
    name: &[u8],
    ty: Id,
    body: Id,
) -> Result<(), Stop>
    requires shared { AreLive texts.now.pool.now texts.now.shared.now }
    requires ty { IsTrue ((pool_held texts.now.pool.now).live ty) }
    requires body { IsTrue ((pool_held texts.now.pool.now).live body) }
    ensures ok { OnOk result (out.new.items ≡ out.old.items ++ text_by (shared_text texts.now.sig.now (shared_of texts.now)) texts.now.sig.now (RawDefinition name.now ((pool_held texts.now.pool.now).tree ty) ((pool_held texts.now.pool.now).tree body))) }
    ensures memory { OnErr result (result ≡ Err Memory) }
{
    write(out, b"def ")?;
    write(out, name)?;
    write(out, b" : ")?;
    write_shared(out, texts, ty)?;
    write(out, b" = ")?;
    write_shared(out, texts, body)
}
