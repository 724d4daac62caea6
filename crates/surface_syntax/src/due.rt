ghost use Rattle.std.specs.Prelude.{◌≡◌};
ghost use Rattle.surface_syntax.specs.Steps as spec;

use crate::halt::Halt;
use crate::{Lexeme, Word};

/// The name, where one is due.
pub(crate) fn name(lexeme: Lexeme) -> Result<Word, Halt>
    ensures { result ≡ spec.name_due lexeme }
{
    match lexeme {
        Lexeme::Plain(word) => Ok(word),
        _ => Err(Halt::Stuck),
    }
}

pub(crate) fn colon(lexeme: Lexeme) -> Result<(), Halt>
    ensures { result ≡ spec.colon_due lexeme }
{
    match lexeme {
        Lexeme::Colon => Ok(()),
        _ => Err(Halt::Stuck),
    }
}

pub(crate) fn close(lexeme: Lexeme) -> Result<(), Halt>
    ensures { result ≡ spec.close_due lexeme }
{
    match lexeme {
        Lexeme::Close => Ok(()),
        _ => Err(Halt::Stuck),
    }
}

pub(crate) fn equals(lexeme: Lexeme) -> Result<(), Halt>
    ensures { result ≡ spec.equals_due lexeme }
{
    match lexeme {
        Lexeme::Equals => Ok(()),
        _ => Err(Halt::Stuck),
    }
}

pub(crate) fn open_brace(lexeme: Lexeme) -> Result<(), Halt>
    ensures { result ≡ spec.open_brace_due lexeme }
{
    match lexeme {
        Lexeme::OpenBrace => Ok(()),
        _ => Err(Halt::Stuck),
    }
}

/// The word `in`.
pub(crate) fn inside(lexeme: Lexeme) -> Result<(), Halt>
    ensures { result ≡ spec.in_due lexeme }
{
    match lexeme {
        Lexeme::In => Ok(()),
        _ => Err(Halt::Stuck),
    }
}
