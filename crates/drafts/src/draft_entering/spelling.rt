ghost use Rattle.std.specs.Prelude.{◌≡◌, ◌<◌, ◌++◌, ℕ, List, bytes_eq, codes};
ghost use Rattle.std.specs.Option.{option_copied};
ghost use Rattle.core_sig.specs.Drafts.{generated_name};
ghost use Rattle.drafts.specs.draft_entering.FoundNames.{goes_on};
ghost use Rattle.generators.specs.noconf_gen.NoConfusionTypes.{constructor_mark};
ghost use Rattle.theory.specs.PreludeFamilies.{level_text};

/// Whether the bytes are the level in decimal.
fn is_level(text: &[u8], i: u8) -> bool
    requires { i < 100 }
    ensures { result ≡ bytes_eq (level_text i) text.now }
{
    match text {
        [digit] => i < 10 && b'0' + i == *digit,
        [tens, units] => i >= 10 && b'0' + i / 10 == *tens && b'0' + i % 10 == *units,
        _ => false,
    }
}

/// The rest of the name after the part, where the name begins with it.
pub(crate) fn after<'a>(name: &'a [u8], part: &[u8]) -> Option<&'a [u8]>
    ensures { (rest : List ℕ) → bytes_eq (part.now ++ rest) name.now ≡ goes_on (option_copied result) rest }
{
    match (name, part) {
        (_, []) => Some(name),
        ([first, others @ ..], [byte, more @ ..]) if byte == first => after(others, more),
        _ => None,
    }
}

/// The rest of the name after a level in decimal, where the name begins with it.
fn after_level(name: &[u8], i: u8) -> Option<&[u8]>
    requires { i < 100 }
    ensures { (rest : List ℕ) → bytes_eq (level_text i ++ rest) name.now ≡ goes_on (option_copied result) rest }
{
    if i < 10 {
        after(name, &[b'0' + i])
    } else {
        after(name, &[b'0' + i / 10, b'0' + i % 10])
    }
}

/// Whether the name is that of a generated entry of a family, with no level.
pub(crate) fn is_marked(name: &[u8], family: &[u8], mark: &[u8]) -> bool
    ensures { result ≡ bytes_eq (family.now ++ mark.now) name.now }
{
    match after(name, family) {
        Some(rest) => mark == rest,
        None => false,
    }
}

/// Whether the name is that of a generated entry of a family at a level.
#[tactic(auto, using(crate::proofs::draft_entering::NameParts::joined))]
pub(crate) fn is_spelled(name: &[u8], family: &[u8], mark: &[u8], m: u8) -> bool
    requires { m < 100 }
    ensures { result ≡ bytes_eq (generated_name family.now mark.now m) name.now }
{
    match after(name, family) {
        Some(rest) => ends_in(rest, mark, m),
        None => false,
    }
}

fn ends_in(name: &[u8], mark: &[u8], m: u8) -> bool
    requires { m < 100 }
    ensures { result ≡ bytes_eq (mark.now ++ level_text m) name.now }
{
    match after(name, mark) {
        Some(rest) => is_level(rest, m),
        None => false,
    }
}

/// Whether the name is that of a generated entry of a constructor at a level.
#[tactic(auto, using(crate::proofs::draft_entering::NameParts::joined))]
pub(crate) fn is_constructors(
    name: &[u8],
    family: &[u8],
    mark: &[u8],
    constructor: &[u8],
    m: u8,
) -> bool
    requires { m < 100 }
    ensures { result ≡ bytes_eq (generated_name family.now (constructor_mark mark.now constructor.now) m) name.now }
{
    match after(name, family) {
        Some(rest) => ends_in_constructor(rest, mark, constructor, m),
        None => false,
    }
}

#[tactic(auto, using(crate::proofs::draft_entering::NameParts::joined))]
fn ends_in_constructor(name: &[u8], mark: &[u8], constructor: &[u8], m: u8) -> bool
    requires { m < 100 }
    ensures { result ≡ bytes_eq (mark.now ++ (constructor.now ++ (codes "." ++ level_text m))) name.now }
{
    match after(name, mark) {
        Some(rest) => is_spelled(rest, constructor, b".", m),
        None => false,
    }
}

/// Whether the name is `Eq.i!left.m`.
#[tactic(auto, using(crate::proofs::draft_entering::NameParts::joined))]
pub(crate) fn is_left(name: &[u8], i: u8, m: u8) -> bool
    requires i { i < 100 }
    requires m { m < 100 }
    ensures { result ≡ bytes_eq (generated_name (codes "Eq." ++ level_text i) (codes "!left.") m) name.now }
{
    match after(name, b"Eq.") {
        Some(rest) => is_left_at(rest, i, m),
        None => false,
    }
}

#[tactic(auto, using(crate::proofs::draft_entering::NameParts::joined))]
fn is_left_at(name: &[u8], i: u8, m: u8) -> bool
    requires i { i < 100 }
    requires m { m < 100 }
    ensures { result ≡ bytes_eq (level_text i ++ (codes "!left." ++ level_text m)) name.now }
{
    match after_level(name, i) {
        Some(rest) => ends_in(rest, b"!left.", m),
        None => false,
    }
}
