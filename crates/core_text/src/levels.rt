ghost use Rattle.std.specs.Prelude.{◌≡◌, ◌<◌, ◌+◌};
ghost use Rattle.core_text.specs.LineReading.{levels_of};
ghost use Rattle.core_text.specs.Reading as spec;
ghost use Rattle.core_text.specs.Reading.{Reads};

use crate::halt::Halt;
use crate::instances::{Choice, is_left};
use crate::scanning::is_digit;
use core_sig::Signature;

/// Whether one of the levels from the given one on is left, among as many as `count` says.
fn some_left(sig: &Signature, choice: Choice, from: u8, count: u8) -> bool
    requires { from + count < 200 }
    ensures { result ≡ spec.some_left (levels_of sig.now choice) from count }
{
    count > 0 && (is_left(sig, choice, from) || some_left(sig, choice, from + 1, count - 1))
}

/// Whether some level that is left begins with the digit.
fn begins_level(sig: &Signature, choice: Choice, digit: u8) -> bool
    requires { digit < 10 }
    ensures { result ≡ spec.begins_level (levels_of sig.now choice) digit }
{
    is_left(sig, choice, digit) || (0 < digit && some_left(sig, choice, 10 * digit, 10))
}

/// One of the levels that are left, in decimal.
pub(crate) fn read_level<'t>(
    sig: &Signature,
    choice: Choice,
    rest: &'t [u8],
) -> Result<(u8, &'t [u8]), Halt>
    ensures { Reads (λ n. n) result (spec.read_level (levels_of sig.now choice) rest.now) }
{
    let [first, more @ ..] = rest else {
        return Err(Halt::Wrong(0));
    };
    if is_digit(*first) && begins_level(sig, choice, *first - b'0') {
        level_from(sig, choice, *first - b'0', more)
    } else {
        Err(Halt::Wrong(rest.len()))
    }
}

/// The level that begins with the digit.
fn level_from<'t>(
    sig: &Signature,
    choice: Choice,
    digit: u8,
    rest: &'t [u8],
) -> Result<(u8, &'t [u8]), Halt>
    requires { digit < 10 }
    ensures { Reads (λ n. n) result (spec.level_from (levels_of sig.now choice) digit rest.now) }
{
    if let [second, more @ ..] = rest {
        if is_digit(*second) && 0 < digit {
            let level = 10 * digit + (*second - b'0');
            if is_left(sig, choice, level) {
                return Ok((level, more));
            }
        }
    }
    if is_left(sig, choice, digit) {
        Ok((digit, rest))
    } else {
        Err(Halt::Wrong(rest.len()))
    }
}
