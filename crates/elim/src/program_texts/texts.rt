ghost use Rattle.std.specs.Prelude.{◌≡◌, ◌≤◌, ℕ, List, length, IfSome};
ghost use Rattle.elim.specs.program_texts.Texts.{Says, limit, limited};

use crate::program_texts::TextStop;
use crate::program_texts::text_stop::stop_of;
use core_terms::Items;
use std::alloc::Global;
use surface_syntax::{Decl, parse, tokens};

/// The most bytes of a source file.
pub const LIMIT: u32 = 1_048_576;

fn written(alloc: Global, bytes: &[u8]) -> Result<Items<Decl>, TextStop>
    requires { length bytes.now ≤ limit }
    ensures { Says bytes.now result }
{
    let tokens = match tokens(alloc, bytes) {
        Ok(tokens) => tokens,
        Err(stop) => return Err(stop_of(stop)),
    };
    match parse(alloc, bytes, &tokens) {
        Ok(decls) => Ok(decls),
        Err(stop) => Err(stop_of(stop)),
    }
}

/// The declarations of a source file; None is a file that is too long.
pub fn declarations(alloc: Global, text: &Option<Items<u8>>) -> Result<Items<Decl>, TextStop>
    requires { IfSome text.now (λ bytes. length bytes ≤ limit) }
    ensures { (bytes : List ℕ) → text.now ≡ limited bytes → Says bytes result }
{
    match text {
        Some(bytes) => written(alloc, bytes.as_slice()),
        None => Err(TextStop::TooLong),
    }
}
