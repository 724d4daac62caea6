use core_terms::Stop;
use thiserror::Error;

/// Why an entry is not made: a call on terms stopped, or the family has indices.
#[derive(Clone, Copy, Debug, PartialEq, Eq, Error)]
pub enum AcyclicStop {
    #[error("{0}")]
    Stop(Stop),
    #[error("Indexed")]
    Indexed,
}

impl From<Stop> for AcyclicStop {
    ghost use Rattle.std.specs.Prelude.{◌≡◌};
    ghost use Rattle.generators.specs.declared.acyclic_gen.stop.AcyclicStop.TheVariants as stop;

    ghost from_gives = { λ e s. s ≡ stop.Stop e };

    fn from(stop: Stop) -> AcyclicStop {
        AcyclicStop::Stop(stop)
    }
}
