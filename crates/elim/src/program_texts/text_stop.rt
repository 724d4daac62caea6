ghost use Rattle.std.specs.Prelude.{◌≡◌};
ghost use Rattle.elim.specs.program_texts.Texts as spec;

use core_text::CoreTextStop;
use surface_syntax::SyntaxStop;

/// Why a source file is refused at one of its bytes, or whole; each offset is one in bytes.
///
/// `TooLong` is a file of more than 1,048,576 bytes.
/// `NotCoreText` is that of core text, `Nested` that of core text or of the grammar, and the others are those of the
/// tokens and of the grammar.
#[derive(Clone, Copy, Debug, PartialEq, Eq)]
pub enum TextStop {
    Memory,
    TooLong,
    NotUtf8(u32),
    BadToken(u32),
    Nested(u32),
    Syntax(u32),
    NotCoreText(u32),
}

/// Why a source file has no tokens or no declarations.
pub fn stop_of(stop: SyntaxStop) -> TextStop
    ensures { result ≡ spec.stop_of stop }
{
    match stop {
        SyntaxStop::Memory => TextStop::Memory,
        SyntaxStop::NotUtf8(offset) => TextStop::NotUtf8(offset),
        SyntaxStop::BadToken(offset) => TextStop::BadToken(offset),
        SyntaxStop::Nested(offset) => TextStop::Nested(offset),
        SyntaxStop::Syntax(offset) => TextStop::Syntax(offset),
    }
}

/// Why core text is not read.
pub fn unread(stop: CoreTextStop) -> TextStop
    ensures { result ≡ spec.unread stop }
{
    match stop {
        CoreTextStop::Memory => TextStop::Memory,
        CoreTextStop::Nested(offset) => TextStop::Nested(offset),
        CoreTextStop::NotCoreText(offset) => TextStop::NotCoreText(offset),
    }
}

pub fn is_memory(stop: TextStop) -> bool
    ensures { result ≡ spec.is_memory stop }
{
    matches!(stop, TextStop::Memory)
}
