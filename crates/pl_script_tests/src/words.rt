//! What the words of a command line mean.

use crate::report::Report;
use pl_base::Memory;
use pl_cli::{WordsFail, read_words};
use std::alloc::Global;

// A line has words with `|` between them, and behind the arrow what they mean: the store, the script, the
// steps, and whether the script is left at an error.
const LINES: &str = "\
plpg|s|t -> s|t|10000000|false
plpg|s -> usage
plpg -> usage
 -> usage
plpg|s|t|u -> usage
plpg|s|t|--steps|5 -> s|t|5|false
plpg|s|--steps|5|t -> s|t|5|false
plpg|--steps|5|s|t -> s|t|5|false
plpg|s|t|--steps=5 -> s|t|5|false
plpg|s|--steps=5|t -> s|t|5|false
plpg|--steps=5|s|t -> s|t|5|false
plpg|s|t|--on-error-stop -> s|t|10000000|true
plpg|s|--on-error-stop|t -> s|t|10000000|true
plpg|--on-error-stop|s|t -> s|t|10000000|true
plpg|--on-error-stop|--steps|7|s|t -> s|t|7|true
plpg|--steps|7|--on-error-stop|s|t -> s|t|7|true
plpg|s|--steps=7|--on-error-stop|t -> s|t|7|true
plpg|s|--on-error-stop|t|--steps|7 -> s|t|7|true
plpg|--|s|t -> s|t|10000000|false
plpg|s|--|t -> s|t|10000000|false
plpg|s|t|-- -> s|t|10000000|false
plpg|--|--steps|5 -> --steps|5|10000000|false
plpg|--|-|-- -> -|--|10000000|false
plpg|--|--|s -> --|s|10000000|false
plpg|s|--|--on-error-stop -> s|--on-error-stop|10000000|false
plpg|--steps|5|--|-s|t -> -s|t|5|false
plpg|--on-error-stop|s|--|--help -> s|--help|10000000|true
plpg|--|s -> usage
plpg|-- -> usage
plpg|--|s|t|u -> usage
plpg|--|--|s|t -> usage
plpg|--|s|t|--steps=5 -> usage
plpg|s|t|- -> usage
plpg|-|t -> usage
plpg|s|-|t -> usage
plpg|-s|t -> usage
plpg|s|-t -> usage
plpg|s|t|-x|-- -> usage
plpg|--help -> usage
plpg|s|t|--help -> usage
plpg|-h -> usage
plpg|s|t|-h -> usage
plpg|--version -> usage
plpg|s|t|-V -> usage
plpg|help -> usage
plpg|help|t -> help|t|10000000|false
plpg|s|t|--steps -> usage
plpg|s|t|--steps| -> usage
plpg|s|t|--steps= -> usage
plpg|s|t|--steps|0 -> usage
plpg|s|t|--steps=0 -> usage
plpg|s|t|--steps|1 -> s|t|1|false
plpg|s|t|--steps|1000000000 -> s|t|1000000000|false
plpg|s|t|--steps|1000000001 -> usage
plpg|s|t|--steps|007 -> s|t|7|false
plpg|s|t|--steps|00000000000000000000000000000007 -> s|t|7|false
plpg|s|t|--steps|18446744073709551617 -> usage
plpg|s|t|--steps|+5 -> usage
plpg|s|t|--steps|-5 -> usage
plpg|s|t|--steps=-5 -> usage
plpg|s|t|--steps=5=6 -> usage
plpg|s|t|--steps|5.0 -> usage
plpg|s|t|--steps| 5 -> usage
plpg|s|t|--steps|1e3 -> usage
plpg|s|t|--steps|0x5 -> usage
plpg|s|t|--steps|\u{665} -> usage
plpg|s|t|--steps|5|--steps|5 -> usage
plpg|s|t|--steps=5|--steps|6 -> usage
plpg|s|t|--steps|--|5 -> usage
plpg|s|t|--steps|--steps|5 -> usage
plpg|s|t|--steps|--on-error-stop -> usage
plpg|s|--steps|t -> usage
plpg|--steps|s|t -> usage
plpg|s|t|--on-error-stop|--on-error-stop -> usage
plpg|s|t|--on-error-stop=1 -> usage
plpg|s|t|--on-error-stop= -> usage
plpg|s|t|--on-error -> usage
plpg|s|t|--step|5 -> usage
plpg|s|t|--stepss=5 -> usage
plpg|s|t|--Steps=5 -> usage
plpg|s|t|-steps|5 -> usage
plpg|s|t|---steps|5 -> usage
plpg|s|t|--=5 -> usage
plpg||t -> |t|10000000|false
plpg|s| -> s||10000000|false
plpg|| -> ||10000000|false
-x|s|t -> s|t|10000000|false
--|s|t -> s|t|10000000|false
|s|t -> s|t|10000000|false
plpg|my shop|\u{fc}.sql -> my shop|\u{fc}.sql|10000000|false
plpg|s=1|--steps=5|t -> s=1|t|5|false
";

// The words of a line. An empty one has none.
fn words_of(alloc: Global, line: &str) -> Result<Vec<String>, Memory> {
    let mut words = Vec::new(alloc);
    if line.is_empty() {
        return Ok(words);
    }
    for word in line.split('|') {
        words.push(String::from_str(alloc, word)?)?;
    }
    Ok(words)
}

// Writes what the words mean.
fn write_meaning(out: &mut Report, alloc: Global, words: &[String]) {
    match read_words(alloc, words) {
        Ok(line) => {
            out.push(line.store.as_bytes());
            out.push(b"|");
            out.push(line.script.as_bytes());
            out.push(b"|");
            out.push_number(line.steps);
            let stops = if line.stops_on_error {
                "|true"
            } else {
                "|false"
            };
            out.push(stops.as_bytes());
        }
        Err(WordsFail::Usage) => out.push(b"usage"),
        Err(WordsFail::Memory) => out.spoil(),
    }
}

fn meaning(alloc: Global, line: &str) -> Report {
    let mut out = Report::new(alloc);
    match words_of(alloc, line) {
        Ok(words) => write_meaning(&mut out, alloc, &words),
        Err(_) => out.spoil(),
    }
    out
}

// Whether the words of the entry mean what stands behind the arrow.
fn is_told(alloc: Global, entry: &str) -> bool {
    match entry.split_once(" -> ") {
        Some((line, meant)) => meaning(alloc, line).text() == meant,
        None => false,
    }
}

/// The first entry that means something else.
fn other(alloc: Global, entries: &str) -> Option<&str> {
    for entry in entries.lines() {
        if !is_told(alloc, entry) {
            return Some(entry);
        }
    }
    None
}

#[test]
fn words_have_their_meaning(rt: HostRuntime) {
    assert_eq!(rt; other(rt.alloc(), LINES), None);
}
