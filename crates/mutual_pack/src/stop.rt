use core_terms::Stop;

/// Why families that refer to each other are not packed.
///
/// `TagCount`: the tags are not as many as the members. `MemberLevel` has the first member, counted from 1, whose type is not that of the
/// first one. `NotPositive` has a constructor, counted from 0 among those of all members, and its argument, counted from 1, where 0 is the
/// result. `Memory` and `Deep` are those of `Stop`.
#[derive(Clone, Copy, Debug, PartialEq, Eq)]
pub enum MutualStop {
    Memory,
    Deep,
    TagCount,
    MemberLevel(u32),
    NotPositive(u32, u32),
}

impl From<Stop> for MutualStop {
    ghost use Rattle.std.specs.Prelude.{◌≡◌};
    ghost use Rattle.mutual_pack.specs.Packing.{stopped};

    ghost from_gives = { λ stop e. e ≡ stopped stop };

    fn from(stop: Stop) -> MutualStop {
        match stop {
            Stop::Deep => MutualStop::Deep,
            _ => MutualStop::Memory,
        }
    }
}
