ghost use Rattle.std.specs.Prelude.{◌≡◌, ◌≤◌, ◌+◌, ◌++◌, ◌∷◌, [], length, decimal, false, Err, OnErr, OnOk, IfOk, IfSome};
ghost use Rattle.elim.specs.elim_program.Blocks.{Makes};
ghost use Rattle.elim.specs.elim_program.Outputs.{block};
ghost use Rattle.elim.specs.program_texts.Texts.{limit, limited};
ghost use Rattle.elim.specs.elim_program.WorkTexts as spec;
ghost use Rattle.elim.specs.declared.program_texts.status.Status.TheVariants.{NoMemory};

use crate::elim_program::Block;
use crate::elim_program::counts::Counts;
use crate::program_texts::{LIMIT, Status, write_number};
use core_terms::Items;
use std::alloc::{AllocError, Global};

const TEMPLATE: &[u8] =
    b"data T# : Type 0 { a# : T# ; b# : T# -> T# ; c# : T# -> T# -> T# }\nfun f# : T# -> T# -> T# { f# a# y = y ; f# (b# x) y = b# (f# x y) ;\n  f# (c# u v) y = c# (f# u y) (f# v y) }\n";

/// A family and a function over it, with `#` for their number.
#[tactic(auto, unfolding(crate::specs::elim_program::WorkTexts::template))]
fn template() -> &'static [u8]
    ensures { result.now ≡ spec.template }
{
    TEMPLATE
}

/// Writes a text with the number in the place of each `#`.
fn write_numbered(out: &mut Vec<u8>, number: u64, text: &[u8]) -> Result<(), AllocError>
    ensures { OnOk result (out.new.items ≡ out.old.items ++ spec.numbered number text.now) }
{
    match text {
        [] => Ok(()),
        [first, rest @ ..] => {
            if *first == b'#' {
                write_number(out, number)?;
            } else {
                out.push(*first)?;
            }
            write_numbered(out, number, rest)
        }
    }
}

/// Writes so many families and functions from a number on.
fn write_text(out: &mut Vec<u8>, from: u64, count: u64) -> Result<(), AllocError>
    requires { from + count ≤ 200 }
    ensures { OnOk result (out.new.items ≡ out.old.items ++ spec.text_from from count) }
{
    if count == 0 {
        return Ok(());
    }
    write_numbered(out, from, template())?;
    write_text(out, from + 1, count - 1)
}

/// The source file of `work`, or None where it is longer than a source file may be.
pub(crate) fn work_text(alloc: Global, count: u64) -> Result<Option<Items<u8>>, Status>
    requires { count ≤ 200 }
    ensures ok { IfOk result (λ text. text ≡ limited (spec.work_text count)) }
    ensures within { IfOk result (λ text. IfSome text (λ bytes. length bytes ≤ limit)) }
    ensures memory { OnErr result (result ≡ Err NoMemory) }
{
    let mut text = Vec::new(alloc);
    write_text(&mut text, 0, count)?;
    if text.len() > LIMIT as usize {
        Ok(None)
    } else {
        Ok(Some(Items::from_vec(text)))
    }
}

/// Writes a kind and how many there are.
fn write_count(out: &mut Vec<u8>, kind: &[u8], count: u64) -> Result<(), AllocError>
    ensures { OnOk result (out.new.items ≡ out.old.items ++ (kind.now ++ decimal count)) }
{
    out.extend_from_slice(kind)?;
    write_number(out, count)
}

/// The line of what is counted.
pub(crate) fn summary(alloc: Global, number: u64, counts: Counts) -> Result<Block, Status>
    ensures { Makes result (block (spec.summary_line number counts ∷ []) false) }
{
    let mut text = Vec::new(alloc);
    write_count(&mut text, b"# work ", number)?;
    write_count(&mut text, b" accepted ", counts.accepted as u64)?;
    write_count(&mut text, b" definitional ", counts.definitional as u64)?;
    write_count(&mut text, b" proved ", counts.proved as u64)?;
    write_count(&mut text, b" shadowed ", counts.shadowed as u64)?;
    write_count(&mut text, b" absurd ", counts.absurd as u64)?;
    text.extend_from_slice(b"\n")?;
    Ok(Block {
        text,
        refused: false,
    })
}
