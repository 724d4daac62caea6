ghost use Rattle.std.specs.Prelude.{◌≡◌, ◌≤◌, ◌∷◌, [], map, string_bytes, is_some, IfSome};
ghost use Rattle.surface_syntax.specs.Spelling.{is_text, is_digit};
ghost use Rattle.elim.specs.program_texts.Words as spec;

/// The values of words that ask for the source: axiom K or not, and the units that each declaration or entry may spend.
#[derive(Clone, Copy, Debug, PartialEq, Eq)]
pub struct Command {
    pub k: bool,
    pub fuel: u64,
}

/// The words ask to compile the source file, or to verify the core file that the source holds.
#[derive(Clone, Copy, Debug, PartialEq, Eq)]
pub enum Asked {
    Compile(Command),
    Verify(Command),
}

/// The arguments of the mode `work`: how many families and functions it makes, and the units that each declaration may
/// spend.
#[derive(Clone, Copy, Debug, PartialEq, Eq)]
pub struct Work {
    pub count: u64,
    pub fuel: u64,
}

/// The units where the words don't say.
pub const DEFAULT_FUEL: u64 = 100_000_000;

const MOST_FUEL: u64 = 1_000_000_000;

const MOST_COUNT: u64 = 200;

fn is_word(word: &String, text: &[u8]) -> bool
    ensures { result ≡ is_text (string_bytes word.now) text.now }
{
    word.as_bytes() == text
}

fn is_digit(byte: u8) -> bool
    ensures { result ≡ is_digit byte }
{
    byte >= b'0' && byte <= b'9'
}

/// The number that digits spell after those of `number`, where it is within the limit.
fn number_after(number: u64, digits: &[u8]) -> Option<u64>
    requires { number ≤ 1000000000 }
    ensures { result ≡ spec.number_after number digits.now }
{
    match digits {
        [] => Some(number),
        [digit, rest @ ..] => {
            if !is_digit(*digit) {
                return None;
            }
            let next = 10 * number + (*digit - b'0') as u64;
            if next > MOST_FUEL {
                return None;
            }
            number_after(next, rest)
        }
    }
}

fn fuel_number(word: &String) -> Option<u64>
    ensures { result ≡ spec.fuel_of (string_bytes word.now) }
{
    let digits = word.as_bytes();
    match digits {
        [] | [b'0', ..] => None,
        _ => number_after(0, digits),
    }
}

fn is_fuel_number(word: &String) -> bool
    ensures { result ≡ is_some (spec.fuel_of (string_bytes word.now)) }
{
    fuel_number(word).is_some()
}

fn count_number(word: &String) -> Option<u64>
    ensures { result ≡ spec.count_of (string_bytes word.now) }
{
    match fuel_number(word) {
        Some(count) => {
            if count <= MOST_COUNT {
                Some(count)
            } else {
                None
            }
        }
        None => None,
    }
}

fn are_three_flags(first: &String, second: &String, third: &String) -> bool
    ensures { result ≡ is_some (spec.flags (string_bytes first.now ∷ string_bytes second.now ∷ string_bytes third.now ∷ [])) }
{
    if is_word(first, b"--k") && is_word(second, b"--fuel") {
        is_fuel_number(third)
    } else if is_word(first, b"--fuel") && is_word(third, b"--k") {
        is_fuel_number(second)
    } else {
        false
    }
}

fn are_flags(words: &[String]) -> bool
    ensures { result ≡ is_some (spec.flags (map string_bytes words.now)) }
{
    match words {
        [] => true,
        [only] => is_word(only, b"--k"),
        [first, second] => is_word(first, b"--fuel") && is_fuel_number(second),
        [first, second, third] => are_three_flags(first, second, third),
        _ => false,
    }
}

fn work_of(count: Option<u64>, fuel: Option<u64>) -> Option<Work>
    ensures { result ≡ spec.work_of count fuel }
{
    match (count, fuel) {
        (Some(count), Some(fuel)) => Some(Work { count, fuel }),
        _ => None,
    }
}

/// The arguments of the mode `work`, where the words ask for it.
pub fn work_asked(words: &[String]) -> Option<Work>
    ensures asked { result ≡ spec.work_asked (map string_bytes words.now) }
    ensures within { IfSome result (λ work. work.count ≤ 200) }
{
    match words {
        [mode, count] => {
            if is_word(mode, b"work") {
                work_of(count_number(count), Some(DEFAULT_FUEL))
            } else {
                None
            }
        }
        [mode, count, flag, fuel] => {
            if is_word(mode, b"work") && is_word(flag, b"--fuel") {
                work_of(count_number(count), fuel_number(fuel))
            } else {
                None
            }
        }
        _ => None,
    }
}

/// Whether the words ask to compile the source file, or to verify the core file that the source holds.
pub fn asks_for_source(words: &[String]) -> bool
    ensures { result ≡ spec.asks_for_source (map string_bytes words.now) }
{
    match words {
        [mode, rest @ ..] => {
            (is_word(mode, b"compile") || is_word(mode, b"verify")) && are_flags(rest)
        }
        [] => false,
    }
}
