ghost use Rattle.std.specs.Prelude.{◌≡◌, ◌<◌, ◌+◌, drop, slice_index, IfOk};
ghost use Rattle.core_text.specs.Reading as spec;
ghost use Rattle.core_text.specs.Reading.{Past, Reads, begins, past};

use crate::halt::Halt;
use crate::head::shared_len;

/// The first byte, or 0.
pub fn first(rest: &[u8]) -> u8
    ensures { result ≡ slice_index rest.now 0 }
{
    match rest {
        [first, ..] => *first,
        [] => 0,
    }
}

/// The bytes after the first `len`.
pub fn skip(rest: &[u8], len: usize) -> &[u8]
    ensures { result.now ≡ drop len rest.now }
{
    rest.get(len..).unwrap_or(&[])
}

/// Whether the bytes begin with the word.
pub fn begins(word: &[u8], rest: &[u8]) -> bool
    ensures { result ≡ begins word.now rest.now }
{
    shared_len(rest, word) == word.len()
}

/// The bytes after a word.
pub fn past<'t>(word: &[u8], rest: &'t [u8]) -> Result<&'t [u8], Halt>
    ensures { Past result (past word.now rest.now) }
{
    let len = shared_len(rest, word);
    if len == word.len() {
        Ok(&rest[len..])
    } else {
        Err(Halt::Wrong(rest.len() - len))
    }
}

pub(crate) fn is_digit(byte: u8) -> bool
    ensures { result ≡ spec.is_digit byte }
{
    b'0' <= byte && byte <= b'9'
}

/// A number below `bound`, in decimal.
pub fn read_index(bound: u32, rest: &[u8]) -> Result<(u32, &[u8]), Halt>
    ensures reads { Reads (λ n. n) result (spec.read_index bound rest.now) }
    ensures below { IfOk result (λ p. p.0 < bound) }
{
    let [first, more @ ..] = rest else {
        return Err(Halt::Wrong(0));
    };
    if is_digit(*first) && u32::from(*first - b'0') < bound {
        Ok(index_from(bound, u32::from(*first - b'0'), more))
    } else {
        Err(Halt::Wrong(rest.len()))
    }
}

/// The digits that go on with `start`.
fn index_from(bound: u32, start: u32, digits: &[u8]) -> (u32, &[u8])
    requires { start < bound }
    ensures goes_on { (result.0, result.1.now) ≡ spec.index_from bound start digits.now }
    ensures below { result.0 < bound }
{
    let mut value = u64::from(start);
    let mut rest = digits;
    'digits: while let [digit, more @ ..] = rest {
        if !is_digit(*digit) || value == 0 {
            break;
        }
        let longer = 10 * value + u64::from(*digit - b'0');
        if longer >= u64::from(bound) {
            break;
        }
        value = longer;
        rest = more;
    }
    (value as u32, rest)
}
