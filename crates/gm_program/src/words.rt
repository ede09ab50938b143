// The words after the program's name, read by `clap` as one simple command of one option.
ghost use Rattle.std.specs.Prelude.{◌≡◌, IfOk, IfErr, true, false, map, option_map};
ghost use Rattle.clap.specs.Words.{app_of, found_of, rows_of, matches_of};
ghost use Rattle.gm_program.specs.Words.{Reads, gm_command, generate_value};
ghost use Rattle.gm_program.specs.Words.{has_fault, options_of, pair_value};
ghost use Rattle.gm_program.specs.declared.options.WordsFault.TheVariants.{Usage};

use crate::number::number_in;
use crate::options::{Made, Options, WordsFault};
use clap::error::ErrorKind;
use clap::{Arg, ArgMatches, Command};
use gm_base::{NoMemory, Text};
use std::alloc::Global;

/// The greatest number of features of a generated script.
const COUNT_LIMIT: u64 = 100_000;

/// What the words after the program's name ask for. `Usage` comes only where `clap` finds a fault
/// in them for a command of the option `--generate SEED:COUNT`, or where SEED or COUNT is no number
/// of its range in plain digits; there it is the answer, but for want of memory.
pub(crate) fn read_words(alloc: Global, words: &[Text]) -> Result<Options, WordsFault>
    ensures { Reads (options_of words.now) result }
{
    let texts = texts_of(alloc, words)?;
    let matches = parsed(alloc, texts.as_slice())?;
    match generate_in(matches.get_str("generate")) {
        Some(generate) => Ok(Options { generate }),
        None => Err(WordsFault::Usage),
    }
}

// The texts of the words.
fn texts_of<'w>(alloc: Global, words: &'w [Text]) -> Result<Vec<&'w str>, NoMemory>
    ensures { IfOk result (λ v. map (λ s. s.now) v.items ≡ words.now) }
{
    let mut texts = Vec::new(alloc);
    for word in words {
        texts.push(word.as_str())?;
    }
    Ok(texts)
}

// The command of `gm`: an option by its long name, and no flag for help or the version.
fn command<'a>(alloc: Global) -> Result<Command<'a>, NoMemory>
    ensures { IfOk result (λ c. app_of c ≡ gm_command) }
{
    let generate = Arg::new(alloc, "generate").long("generate");
    let bare = Command::new(alloc, "gm")
        .no_binary_name(true)
        .disable_help_flag(true);
    let whole = bare.arg(generate)?;
    Ok(whole)
}

// The values that `clap` finds in the words.
fn parsed<'a>(alloc: Global, words: &'a [&'a str]) -> Result<ArgMatches<'a>, WordsFault>
    ensures ok { IfOk result (λ m. (has_fault (map (λ s. s.now) words.entry.now) ≡ false)
        × (rows_of (found_of m) ≡ matches_of gm_command (map (λ s. s.now) words.entry.now))) }
    ensures usage { IfErr result (λ e. e ≡ Usage
        → has_fault (map (λ s. s.now) words.entry.now) ≡ true) }
{
    match command(alloc)?.try_get_matches_from(words) {
        Ok(matches) => Ok(matches),
        Err(error) => {
            if error.kind() == ErrorKind::OutOfMemory {
                Err(WordsFault::NoMemory)
            } else {
                Err(WordsFault::Usage)
            }
        }
    }
}

// The script that a value of `--generate` names.
fn generate_in(value: Option<&str>) -> Option<Option<Made>>
    ensures { result ≡ generate_value (option_map (λ s. s.now) value.entry) }
{
    match value {
        None => Some(None),
        Some(text) => Some(Some(pair_in(text)?)),
    }
}

// The two numbers round the first colon.
fn pair_in(text: &str) -> Option<Made>
    ensures { result ≡ pair_value text.now }
{
    let (seed, count) = text.split_once(':')?;
    let seed = number_in(seed, 0, u64::MAX)?;
    let count = number_in(count, 1, COUNT_LIMIT)?;
    Some(Made {
        seed,
        count: count as u32,
    })
}
