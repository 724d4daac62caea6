ghost use Rattle.std.specs.Prelude.{◌≡◌, ◌+◌, Err, IfOk, OnErr};
ghost use Rattle.core_terms.specs.declared.stop.Stop.TheVariants.{Memory};

use crate::Stop;

/// A length as a number of 32 bits, or Memory where it does not fit.
pub fn number_of(len: usize) -> Result<u32, Stop>
    ensures ok { IfOk result (λ n. n ≡ len) }
    ensures memory { OnErr result (result ≡ Err Memory) }
{
    match u32::try_from(len) {
        Ok(number) => Ok(number),
        Err(_) => Err(Stop::Memory),
    }
}

/// The sum of two numbers, or Memory where it does not fit 32 bits.
pub fn sum(a: u32, b: u32) -> Result<u32, Stop>
    ensures ok { IfOk result (λ n. n ≡ a + b) }
    ensures memory { OnErr result (result ≡ Err Memory) }
{
    number_of(a as usize + b as usize)
}

/// The next number, or Memory where it does not fit 32 bits.
pub fn next(a: u32) -> Result<u32, Stop>
    ensures ok { IfOk result (λ n. n ≡ a + 1) }
    ensures memory { OnErr result (result ≡ Err Memory) }
{
    number_of(a as usize + 1)
}
