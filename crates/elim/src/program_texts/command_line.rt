ghost use Rattle.std.specs.Prelude.{◌≡◌, ℕ, List, map, codes, string_bytes, IfOk, IfErr, Some, None, true, false};
ghost use Rattle.clap.specs.Words.{app_of, first_value, found_of, matches_of, one_text, rows_of, takes};
ghost use Rattle.elim.specs.program_texts.Words as spec;
ghost use Rattle.elim.specs.program_texts.CommandLine.{command_line};

use crate::program_texts::Status;
use crate::program_texts::words::{Asked, Command, DEFAULT_FUEL};
use clap::error::ErrorKind;
use clap::{Arg, ArgAction, ArgMatches};
use std::alloc::{AllocError, Global};

fn command_line<'a>(alloc: Global) -> Result<clap::Command<'a>, AllocError>
    ensures { IfOk result (λ command. app_of command ≡ command_line) }
{
    let mode = Arg::new(alloc, "mode").required(true);
    let k = Arg::new(alloc, "k").long("k").action(ArgAction::SetTrue);
    let fuel = Arg::new(alloc, "fuel")
        .long("fuel")
        .value_parser(clap::value_parser!(u64));
    let named = clap::Command::new(alloc, "elim").no_binary_name(true);
    named.arg(mode)?.arg(k)?.arg(fuel)
}

fn is_verify(matches: &ArgMatches<'_>) -> bool
    ensures compile { first_value (found_of matches.now) (codes "mode") ≡ Some (codes "compile") → result ≡ false }
    ensures verify { first_value (found_of matches.now) (codes "mode") ≡ Some (codes "verify") → result ≡ true }
{
    match matches.get_str("mode") {
        Some(word) => word == "verify",
        None => false,
    }
}

fn fuel(matches: &ArgMatches<'_>) -> u64
    ensures none { one_text (found_of matches.now) (codes "fuel") ≡ None → result ≡ spec.default_fuel }
    ensures some { (text : List ℕ) (n : ℕ) → one_text (found_of matches.now) (codes "fuel") ≡ Some text → spec.fuel_of text ≡ Some n → result ≡ n }
{
    matches.get_one::<u64>("fuel").unwrap_or(DEFAULT_FUEL)
}

fn matched<'a>(alloc: Global, words: &'a [String]) -> Result<ArgMatches<'a>, Status>
    requires { takes command_line (map string_bytes words.now) ≡ true }
    ensures ok { IfOk result (λ matches. rows_of (found_of matches) ≡ matches_of command_line (map string_bytes words.now)) }
    ensures err { IfErr result (λ status. status ≡ Status.NoMemory) }
{
    let command_line = command_line(alloc)?;
    match command_line.try_get_matches_from(words) {
        Ok(matches) => Ok(matches),
        Err(error) => {
            let is_memory = error.kind() == ErrorKind::OutOfMemory;
            prove!(is_memory);
            Err(Status::NoMemory)
        }
    }
}

/// Reads from the words whether the source is compiled or verified, with axiom K or not, and with how many units.
pub fn asked(alloc: Global, words: &[String]) -> Result<Asked, Status>
    requires { spec.asks_for_source (map string_bytes words.now) ≡ true }
    ensures ok { IfOk result (spec.Asks (map string_bytes words.now)) }
    ensures err { IfErr result (λ status. status ≡ Status.NoMemory) }
{
    let matches = matched(alloc, words)?;
    let command = Command {
        k: matches.get_flag("k"),
        fuel: fuel(&matches),
    };
    if is_verify(&matches) {
        Ok(Asked::Verify(command))
    } else {
        Ok(Asked::Compile(command))
    }
}
