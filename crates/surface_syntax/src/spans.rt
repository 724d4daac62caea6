ghost use Rattle.std.specs.Prelude.{◌≡◌, ◌≢◌, ◌≤◌, ◌<◌, ◌^◌, ◌+◌, ℕ, length, List, drop, Ok, Err, IfOk, OnErr};
ghost use Rattle.std.specs.Str.{chars};
ghost use Rattle.surface_syntax.specs.Spelling.{byte_len};
ghost use Rattle.surface_syntax.specs.Outcomes.{SplitSays, TokensSay, GivesOnly};
ghost use Rattle.surface_syntax.specs.Splitting.{AreTokens, AreInOrder};
ghost use Rattle.surface_syntax.specs.declared.token.Token.{Token};
ghost use Rattle.surface_syntax.specs.declared.stop.SyntaxStop.TheVariants.{Memory};

use crate::lexer::{byte_len, piece};
use crate::token::Piece;
use crate::{SyntaxStop, Token};
use core_terms::Items;
use std::alloc::Global;

fn behind(text: &[char], from: usize) -> &[char]
    requires { from ≤ length text.now }
    ensures { result.now ≡ drop from text.now }
{
    &text[from..]
}

#[tactic(auto, using(crate::proofs::Splits::length_le_byte_len, crate::proofs::Splits::byte_len_parts))]
fn split(alloc: Global, text: &[char]) -> Result<Items<Token>, SyntaxStop>
    requires { byte_len text.now < 2 ^ 32 }
    ensures { SplitSays text.now result }
{
    let mut tokens = Vec::new(alloc);
    let mut from = 0;
    let mut at: u32 = 0;
    'pieces: while from < text.len() {
        let rest = behind(text, from);
        match piece(rest) {
            Piece::Gap(len) => {
                at += byte_len(&rest[..len]) as u32;
                from += len;
            }
            Piece::Found(kind, len) => {
                let end = at + byte_len(&rest[..len]) as u32;
                tokens.push(Token {
                    kind,
                    start: at,
                    end,
                })?;
                at = end;
                from += len;
            }
            Piece::Bad => return Err(SyntaxStop::BadToken(at)),
        }
    }
    Ok(Items::from_vec(tokens))
}

fn characters(alloc: Global, text: &str) -> Result<Vec<char>, SyntaxStop>
    ensures ok { IfOk result (λ v. v.items ≡ chars text.now) }
    ensures err { OnErr result (result ≡ Err Memory) }
{
    Ok(text.chars().collect(alloc)?)
}

/// The tokens of a source file, in order, and the offsets between which each is. Space, tab, carriage return and line feed
/// separate tokens, and `--` begins a comment that goes on to the next line feed.
pub fn tokens(alloc: Global, bytes: &[u8]) -> Result<Items<Token>, SyntaxStop>
    ensures says { TokensSay bytes.now result }
    ensures ordered { IfOk result (λ found. AreInOrder 0 found (length bytes.now)) }

    // The tokens are answered if there are any, unless memory runs out.
    ensures only { (expected : List Token) → AreTokens bytes.now expected → GivesOnly result expected }
{
    if bytes.len() > u32::MAX as usize {
        return Err(SyntaxStop::Memory);
    }
    let text = match std::str::from_utf8(bytes) {
        Ok(text) => text,
        Err(error) => return Err(SyntaxStop::NotUtf8(error.valid_up_to() as u32)),
    };
    let characters = characters(alloc, text)?;
    split(alloc, characters.as_slice())
}
