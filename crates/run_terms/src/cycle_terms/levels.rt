ghost use Rattle.std.specs.Prelude.{◌≡◌, ◌≤◌, ◌+◌, Err, IfOk, OnErr};
ghost use Rattle.core_terms.specs.declared.stop.Stop.TheVariants.{Memory};

use core_terms::{Stop, next, number_of, sum};
use generators::acyclic_gen::Carrier;

/// The number itself, or Memory where it is greater than 90,000.
pub fn near(n: u32) -> Result<u32, Stop>
    ensures is { IfOk result (λ m. m ≡ n) }
    ensures near { IfOk result (λ m. m ≤ 90000) }
    ensures memory { OnErr result (result ≡ Err Memory) }
{
    if n > 90000 {
        return Err(Stop::Memory);
    }
    Ok(n)
}

/// The level after the parameters and the variable, or Memory where it is greater than 90,000.
pub fn after_variable(q: Carrier) -> Result<u32, Stop>
    ensures is { IfOk result (λ n. n ≡ q.params + 1) }
    ensures near { IfOk result (λ n. n ≤ 90000) }
    ensures memory { OnErr result (result ≡ Err Memory) }
{
    near(next(q.params)?)
}

/// The level after so many arguments, which come after the parameters and the variable, or Memory where it is greater than 90,000.
pub fn after_arguments(q: Carrier, count: usize) -> Result<u32, Stop>
    ensures is { IfOk result (λ n. n ≡ q.params + 1 + count) }
    ensures near { IfOk result (λ n. n ≤ 90000) }
    ensures memory { OnErr result (result ≡ Err Memory) }
{
    near(sum(next(q.params)?, number_of(count)?)?)
}
