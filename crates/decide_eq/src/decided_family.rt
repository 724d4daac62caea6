ghost use Rattle.std.specs.Prelude.{◌≡◌, ◌≤◌, ◌<◌, ◌+◌, length};
ghost use Rattle.core_sig.specs.Shapes.{shape_of};
ghost use Rattle.decide_eq.specs.DecisionEntries as spec;
ghost use Rattle.decide_eq.specs.Fitting.{IsNearFamily};

use core_sig::Family;

/// Family D, whose equality is decided, by its number: how many parameters it has, and its level l. Then the family E into which it is
/// decided, and the constant `D!case.l`. The constants `D!noconf.c.0` of D's constructors follow this one, in their order.
#[derive(Clone, Copy)]
pub struct DecidedFamily {
    pub family: u32,
    pub params: u32,
    pub level: u8,
    pub into: u32,
    pub analysis: u32,
}

/// Family number `family`, where the constant `D!case.l` is `analysis`.
pub fn decided_family(analysis: u32, family: u32, f: &Family, into: u32) -> DecidedFamily
    requires params { length (shape_of f.now).parameters < 1000 }
    requires analysis { analysis + 2001 < 4294967296 }
    ensures is { result ≡ spec.decided_family analysis family (shape_of f.now) into }
    ensures params { result.params ≡ length (shape_of f.now).parameters }
    ensures near { IsNearFamily result }
{
    DecidedFamily {
        family,
        params: f.params.as_slice().len() as u32,
        level: f.level,
        into,
        analysis,
    }
}
