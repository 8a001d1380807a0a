//! The words that the program is called with.

ghost use Rattle.std.specs.Prelude.{◌≡◌, ◌≢◌, Some, None, Bool, codes, if◌then◌else◌, map, string_bytes, IfOk, MatchResult, Err};
ghost use Rattle.clap.specs.Words.{app_of, found_of, one_text};
ghost use Rattle.pl_cli.specs.Command.{any_one_dash, has_one_dash, plpg_app};
ghost use Rattle.pl_cli.specs.Line.{asked, steps_read};
ghost use Rattle.pl_cli.specs.Lines.{asked_in, matched_line};

use clap::error::ErrorKind;
use clap::{Arg, ArgAction, ArgMatches, Command};
use std::alloc::{AllocError, Global};
use thiserror::Error;

/// A valid line: the names of the store and of the script, and what the options say.
#[derive(Clone, Copy, Debug)]
pub struct Line<'a> {
    /// The store's area A is the file of this name, and its area B the one with `.alt` behind it.
    pub store: &'a str,
    pub script: &'a str,
    /// The most steps of one command: 1 to 1,000,000,000.
    pub steps: u64,
    /// The script is left at its first error.
    pub stops_on_error: bool,
}

/// Why words gave no line.
#[derive(Clone, Copy, Debug, PartialEq, Eq, Error)]
pub enum WordsFail {
    /// They are no valid line.
    #[error("usage: plpg STORE SCRIPT [--steps N] [--on-error-stop]")]
    Usage,
    #[error("out of memory")]
    Memory,
}

impl From<AllocError> for WordsFail {
    ghost use Rattle.pl_cli.specs.declared.line.WordsFail.TheVariants.{Memory};

    ghost from_gives = { λ _ e. e ≡ Memory };

    fn from(_: AllocError) -> Self {
        WordsFail::Memory
    }
}

/// The steps of a command where the line doesn't say.
const STEPS: u64 = 10_000_000;

const MOST_STEPS: u64 = 1_000_000_000;

/// The line that the words are. The first word is the program's own name.
pub fn read_words(alloc: Global, words: &[String]) -> Result<Line<'_>, WordsFail>
    ensures line { IfOk result (λ line. asked (map string_bytes words.now) ≡ Some (asked_in line)) }
    ensures usage { result ≡ Err WordsFail.Usage → asked (map string_bytes words.now) ≡ None }
{
    if words.is_empty() {
        return Err(WordsFail::Usage);
    }
    if any_one_dash(&words[1..]) {
        return Err(WordsFail::Usage);
    }
    match command(alloc)?.try_get_matches_from(words) {
        Ok(matches) => line_of(&matches),
        Err(error) => Err(fail_of(error.kind())),
    }
}

fn fail_of(kind: ErrorKind) -> WordsFail
    ensures { result ≡ WordsFail.Usage → kind ≢ ErrorKind.OutOfMemory }
{
    match kind {
        ErrorKind::OutOfMemory => WordsFail::Memory,
        _ => WordsFail::Usage,
    }
}

fn command<'a>(alloc: Global) -> Result<Command<'a>, AllocError>
    ensures { IfOk result (λ command. app_of command ≡ plpg_app) }
{
    let store = Arg::new(alloc, "store").required(true);
    let script = Arg::new(alloc, "script").required(true);
    let steps = Arg::new(alloc, "steps")
        .long("steps")
        .action(ArgAction::Set);
    let on_error_stop = Arg::new(alloc, "on-error-stop")
        .long("on-error-stop")
        .action(ArgAction::SetTrue);
    Command::new(alloc, "plpg")
        .disable_help_flag(true)
        .disable_version_flag(true)
        .arg(store)?
        .arg(script)?
        .arg(steps)?
        .arg(on_error_stop)
}

fn line_of<'a>(matches: &ArgMatches<'a>) -> Result<Line<'a>, WordsFail>
    ensures line { MatchResult result
        (λ line. matched_line (found_of matches.now) line.stops_on_error ≡ Some (asked_in line))
        (λ _. (stop : Bool) → matched_line (found_of matches.now) stop ≡ None) }
    ensures flag { IfOk result (λ line. (stop : Bool)
        → one_text (found_of matches.now) (codes "on-error-stop")
        ≡ Some (if stop then codes "true" else codes "false")
        → line.stops_on_error ≡ stop) }
{
    let (Some(store), Some(script)) = (matches.get_str("store"), matches.get_str("script")) else {
        return Err(WordsFail::Usage);
    };
    let steps = match matches.get_str("steps") {
        None => Some(STEPS),
        Some(text) => read_steps(text),
    };
    let Some(steps) = steps else {
        return Err(WordsFail::Usage);
    };
    Ok(Line {
        store,
        script,
        steps,
        stops_on_error: matches.get_flag("on-error-stop"),
    })
}

fn read_steps(text: &str) -> Option<u64>
    ensures { result ≡ steps_read text.now }
{
    // A plus would be read too.
    let bytes = text.as_bytes();
    if bytes.is_empty() || bytes[0] == b'+' {
        return None;
    }
    let Ok(steps) = text.parse::<u64>() else {
        return None;
    };
    if 1 <= steps && steps <= MOST_STEPS {
        Some(steps)
    } else {
        None
    }
}

fn has_one_dash(word: &[u8]) -> bool
    ensures { result ≡ has_one_dash word.now }
{
    word.first() == Some(&b'-') && word.get(1) != Some(&b'-')
}

// clap takes a lone dash for a name, and one dash for short options, of which there are none.
fn any_one_dash(words: &[String]) -> bool
    ensures { result ≡ any_one_dash (map string_bytes words.now) }
{
    for word in words {
        if has_one_dash(word.as_bytes()) {
            return true;
        }
        if word.as_str() == "--" {
            return false;
        }
    }
    false
}
