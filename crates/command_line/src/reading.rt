ghost use Rattle.std.specs.Prelude.{◌≡◌, map, option_map, IfOk, IsErrOf, None, Some, true, false};
ghost use Rattle.clap.specs.Words.{app_of, fault_of, is_simple_and_free, found_of, matches_of, one_of, rows_of};
ghost use Rattle.command_line.specs.Options.{demo_app, explain_app, run_app};
ghost use Rattle.command_line.specs.Words.{accepted, are_short, command_of, demo_of, explain_of, is_faultless, is_given, IsNumber, IsWithinLimits, named, number_of, run_of, text_of};

use crate::asked::Command;
use crate::fault::WordsFault;
use crate::options::{demo_options, explain_options, run_options};
use clap::ArgMatches;
use clap::error::ErrorKind;
use ksql_types::{Word, Words};
use std::alloc::{AllocError, Global};

/// The command that the words ask for, with the program's name first, or `Usage` if they are no command.
pub fn read_words(alloc: Global, words: &Words) -> Result<Command, WordsFault>
    // A command is exactly what the words ask for; on `Usage` they are no command. Memory can run out for any words.
    ensures read { IfOk result (λ command. command_of words.now ≡ Some command) }
    ensures usage { IsErrOf result WordsFault.Usage → command_of words.now ≡ None }
    // Each text has at most 4,096 bytes, and the numbers are in their ranges.
    ensures limits { IfOk result IsWithinLimits }
{
    if !are_short(words.items()) {
        return Err(WordsFault::Usage);
    }
    let texts = texts_of(alloc, words.items())?;
    match texts.as_slice() {
        [_, words @ ..] => named_command(alloc, words),
        [] => Err(WordsFault::Usage),
    }
}

/// Whether each word has at most 4,096 bytes.
fn are_short(words: &[Word]) -> bool
    ensures { result ≡ are_short words.now }
{
    words.iter().all(|word| word.items().len() <= 4096)
}

/// The texts of the words.
fn texts_of<'a>(alloc: Global, words: &'a [Word]) -> Result<Vec<&'a str>, AllocError>
    ensures { IfOk result (λ texts. map (λ text. text.now) texts.items ≡ words.entry.now) }
{
    let mut texts = Vec::with_capacity(alloc, words.len())?;
    for word in words {
        texts.push(word.items())?;
    }
    Ok(texts)
}

/// The command of the words from the second on, where the first word names it.
fn named_command(alloc: Global, words: &[&str]) -> Result<Command, WordsFault>
    requires { are_short (map (λ word. word.now) words.now) ≡ true }
    ensures read { IfOk result (λ command. named (map (λ word. word.now) words.now) ≡ Some command) }
    ensures usage { IsErrOf result WordsFault.Usage → named (map (λ word. word.now) words.now) ≡ None }
{
    match words.first() {
        Some(name) if *name == "run" => run_command(alloc, words),
        Some(name) if *name == "explain" => explain_command(alloc, words),
        Some(name) if *name == "demo" => demo_command(alloc, words),
        _ => Err(WordsFault::Usage),
    }
}

/// The command of the words of `run`.
fn run_command(alloc: Global, words: &[&str]) -> Result<Command, WordsFault>
    requires { are_short (map (λ word. word.now) words.now) ≡ true }
    ensures read { IfOk result (λ command. accepted run_app run_of (map (λ word. word.now) words.now) ≡ Some command) }
    ensures usage { IsErrOf result WordsFault.Usage → accepted run_app run_of (map (λ word. word.now) words.now) ≡ None }
{
    let matches = accepted_matches(run_options(alloc)?, words)?;
    Ok(Command::Run {
        script: word_of(alloc, text_of(&matches, "script"))?,
        topics: word_of(alloc, text_of(&matches, "topics"))?,
        workers: number_of(&matches, "workers"),
        schedule: word_if_some(alloc, matches.get_str("schedule"))?,
        trace: is_given(&matches, "trace"),
    })
}

/// The command of the words of `explain`.
fn explain_command(alloc: Global, words: &[&str]) -> Result<Command, WordsFault>
    requires { are_short (map (λ word. word.now) words.now) ≡ true }
    ensures read { IfOk result (λ command. accepted explain_app explain_of (map (λ word. word.now) words.now) ≡ Some command) }
    ensures usage { IsErrOf result WordsFault.Usage → accepted explain_app explain_of (map (λ word. word.now) words.now) ≡ None }
{
    let matches = accepted_matches(explain_options(alloc)?, words)?;
    Ok(Command::Explain {
        script: word_of(alloc, text_of(&matches, "script"))?,
    })
}

/// The command of the words of `demo`.
fn demo_command(alloc: Global, words: &[&str]) -> Result<Command, WordsFault>
    requires { are_short (map (λ word. word.now) words.now) ≡ true }
    ensures read { IfOk result (λ command. accepted demo_app demo_of (map (λ word. word.now) words.now) ≡ Some command) }
    ensures usage { IsErrOf result WordsFault.Usage → accepted demo_app demo_of (map (λ word. word.now) words.now) ≡ None }
{
    let matches = accepted_matches(demo_options(alloc)?, words)?;
    Ok(Command::Demo {
        records: number_of(&matches, "records"),
        workers: number_of(&matches, "workers"),
    })
}

/// The matches of a command that accepts the words.
fn accepted_matches<'a>(
    command: clap::Command<'a>,
    words: &'a [&'a str],
) -> Result<ArgMatches<'a>, WordsFault>
    requires { is_simple_and_free (app_of command) ≡ true }
    ensures faultless { IfOk result (λ _. is_faultless (fault_of (app_of command.entry) (map (λ word. word.now) words.entry.now)) ≡ true) }
    ensures rows { IfOk result (λ m. rows_of (found_of m) ≡ matches_of (app_of command.entry) (map (λ word. word.now) words.entry.now)) }
    ensures usage { IsErrOf result WordsFault.Usage
        → is_faultless (fault_of (app_of command.entry) (map (λ word. word.now) words.entry.now)) ≡ false }
{
    match command.try_get_matches_from(words) {
        Ok(matches) => Ok(matches),
        Err(error) => match error.kind() {
            ErrorKind::OutOfMemory => Err(WordsFault::OutOfMemory),
            _ => Err(WordsFault::Usage),
        },
    }
}

/// The text of an option, or empty if it has none.
fn text_of<'a>(matches: &ArgMatches<'a>, id: &str) -> &'a str
    ensures { result.now ≡ text_of id.now (rows_of (found_of matches.now)) }
{
    matches.get_str(id).unwrap_or("")
}

/// The number of an option, or 1 if it has none.
fn number_of(matches: &ArgMatches<'_>, id: &str) -> u32
    requires { IsNumber (one_of id.now (rows_of (found_of matches.now))) }
    ensures { result ≡ number_of id.now (rows_of (found_of matches.now)) }
{
    matches.get_one::<u32>(id).unwrap_or(1)
}

/// Whether a flag is given.
fn is_given(matches: &ArgMatches<'_>, id: &str) -> bool
    ensures { result ≡ is_given id.now (rows_of (found_of matches.now)) }
{
    matches.get_one::<bool>(id).unwrap_or(false)
}

/// A text as a word.
fn word_of(alloc: Global, text: &str) -> Result<Word, AllocError>
    ensures { IfOk result (λ word. word ≡ text.now) }
{
    Ok(Word::of(String::from_str(alloc, text)?))
}

/// A text as a word, if any.
fn word_if_some(alloc: Global, text: Option<&str>) -> Result<Option<Word>, AllocError>
    ensures { IfOk result (λ word. word ≡ option_map (λ t. t.now) text.entry) }
{
    match text {
        Some(text) => Ok(Some(word_of(alloc, text)?)),
        None => Ok(None),
    }
}
