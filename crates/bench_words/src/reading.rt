//! Reads the words of the command line.

ghost use Rattle.std.specs.Prelude.{◌≡◌, ℕ, List, Some, None, Err, IfOk, map, option_map};
ghost use Rattle.std.specs.List.{All, list_all};
ghost use Rattle.std.specs.Str.{IsUtf8};
ghost use Rattle.std.specs.Char.{is_ascii_digit};
ghost use Rattle.clap.specs.Simple.{app_of};
ghost use Rattle.bench_words.specs.Reading.{asked_by_words, number_of, setting, task_named};
ghost use Rattle.bench_words.specs.kept.Clap.{clap_reading, bench_app, asked_of, listed};
ghost use Rattle.bench_words.specs.kept.Found.{given, text_of};

use crate::asked::{Task, Words, WordsFault};
use clap::error::ErrorKind;
use clap::{Arg, Command};
use std::alloc::{AllocError, Global};

/// Memory ran out.
#[derive(Clone, Copy, Debug, PartialEq, Eq)]
struct NoMemory;

/// The plain word and the options' values.
#[derive(Clone, Copy)]
struct Found<'a> {
    job: Option<&'a str>,
    workers: Option<&'a str>,
    number: Option<&'a str>,
}

fn command<'a>(alloc: Global) -> Result<Command<'a>, AllocError>
    ensures { IfOk result (λ c. app_of c ≡ bench_app) }
{
    let job = Arg::new(alloc, "job").required(true);
    let workers = Arg::new(alloc, "workers").long("workers");
    let number = Arg::new(alloc, "number").long("number");
    let top = Command::new(alloc, "jesd_bench")
        .no_binary_name(true)
        .disable_help_flag(true);
    top.arg(job)?.arg(workers)?.arg(number)
}

fn is_text(word: &str)
    ensures { IsUtf8 word.now }
{}

/// Each word is text, which a slice of words does not say by itself.
fn are_texts(words: &[&str])
    ensures { All (λ w. IsUtf8 w.now) words.now }
{
    for word in words {
        is_text(word);
    }
}

/// What clap makes of the words, None where it refuses them.
fn read_with_clap<'a>(alloc: Global, words: &'a [&'a str]) -> Result<Option<Found<'a>>, NoMemory>
    ensures { IfOk result (λ r. option_map given r ≡ clap_reading (map (λ w. w.now) words.entry.now)) }
{
    let Ok(command) = command(alloc) else {
        return Err(NoMemory);
    };
    match command.try_get_matches_from(words) {
        Ok(matches) => Ok(Some(Found {
            job: matches.get_str("job"),
            workers: matches.get_str("workers"),
            number: matches.get_str("number"),
        })),
        Err(error) => {
            let kind = error.kind();
            match kind {
                ErrorKind::OutOfMemory => Err(NoMemory),
                _ => Ok(None),
            }
        }
    }
}

fn read_task(word: &str) -> Option<Task>
    ensures { result ≡ task_named word.now }
{
    if word == "map" {
        Some(Task::Map)
    } else if word == "unmap" {
        Some(Task::Unmap)
    } else if word == "run" {
        Some(Task::Run)
    } else if word == "gen" {
        Some(Task::Gen)
    } else {
        None
    }
}

fn are_digits(text: &str) -> bool
    ensures { result ≡ list_all is_ascii_digit text.now }
{
    text.bytes().all(|byte| byte.is_ascii_digit())
}

/// A number from `low` to `high` in 1 to 10 digits.
fn read_number(low: u32, high: u32, text: &str) -> Option<u32>
    ensures { result ≡ number_of low high text.now }
{
    if text.is_empty() || 10 < text.len() || !are_digits(text) {
        return None;
    }
    match text.parse::<u32>() {
        Ok(value) => {
            if low <= value && value <= high {
                Some(value)
            } else {
                None
            }
        }
        Err(_) => None,
    }
}

/// The value of an option, or what stands for it.
fn setting_or(low: u32, high: u32, default: u32, text: Option<&str>) -> Option<u32>
    ensures { result ≡ setting low high default (listed (text_of text.entry)) }
{
    match text {
        Some(text) => read_number(low, high, text),
        None => Some(default),
    }
}

/// What the texts ask for.
fn ask(found: &Found<'_>) -> Option<Words>
    ensures { result ≡ asked_of (given found.now) }
{
    let task = read_task(found.job?)?;
    let workers = setting_or(1, 32, 1, found.workers)?;
    let number = setting_or(0, u32::MAX, 1, found.number)?;
    Some(Words {
        task,
        workers,
        number,
    })
}

/// Reads the words after the program's name, from left to right.
///
/// `--workers` and `--number` take the next word, which must not begin with `-`, or the value follows `=` in the
/// same word; after the word `--` every word is plain. Exactly one plain word must be there, the job: `map`,
/// `unmap`, `run` or `gen`. Another word that begins with `-` and is longer than one byte is refused, and so is an
/// option that is given twice. Workers are 1 to 32, the number is 0 to 4294967295, each in 1 to 10 decimal digits.
pub fn read_words(alloc: Global, words: &[&str]) -> Result<Words, WordsFault>
    ensures read { IfOk result (λ w. asked_by_words (map (λ s. s.now) words.now) ≡ Some w) }
    ensures refused { result ≡ Err WordsFault.Bad → asked_by_words (map (λ s. s.now) words.now) ≡ None }
{
    are_texts(words);
    match read_with_clap(alloc, words) {
        Ok(Some(found)) => match ask(&found) {
            Some(asked) => Ok(asked),
            None => Err(WordsFault::Bad),
        },
        Ok(None) => Err(WordsFault::Bad),
        Err(NoMemory) => Err(WordsFault::NoMemory),
    }
}
