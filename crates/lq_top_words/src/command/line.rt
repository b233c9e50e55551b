// What stands at the places of a command line, read by `clap`.
ghost use Rattle.std.specs.Prelude.{◌≡◌, IfOk, map, string_bytes};
ghost use Rattle.std.specs.Option.{option_map};
ghost use Rattle.clap.specs.Words.{FailsBy, fault_of, found_of, matches_of, rows_of};
ghost use Rattle.lq_top_words.specs.Command.Arguments.{arguments, line_found};
ghost use Rattle.lq_top_words.specs.Command.Line.{complete, line_of};
ghost use Rattle.lq_top_words.specs.Command.View.{line_view};

use clap::error::ErrorKind;
use clap::{Arg, ArgMatches};
use std::alloc::{AllocError, Global};

// The texts at the places. The first two are there.
#[derive(Clone, Copy)]
pub(crate) struct Line<'a> {
    pub(crate) mode: &'a str,
    pub(crate) subject: &'a str,
    pub(crate) quals: Option<&'a str>,
    pub(crate) measures: Option<&'a str>,
    pub(crate) pivots: Option<&'a str>,
}

// What a parse of the words gives: the command has two words and three options.
fn matches<'a>(alloc: Global, words: &'a [String]) -> Result<ArgMatches<'a>, clap::Error>
    ensures rows { IfOk result (λ m. rows_of (found_of m) ≡ matches_of arguments (map string_bytes words.now)) }
    ensures fails { FailsBy (fault_of arguments (map string_bytes words.now)) result }
{
    let mode = Arg::new(alloc, "MODE").required(true);
    let subject = Arg::new(alloc, "SUBJECT").required(true);
    let quals = Arg::new(alloc, "quals").long("quals");
    let measures = Arg::new(alloc, "measures").long("measures");
    let pivots = Arg::new(alloc, "pivots").long("pivots");
    let command = clap::Command::new(alloc, "lq")
        .arg(mode)?
        .arg(subject)?
        .arg(quals)?
        .arg(measures)?
        .arg(pivots)?;
    command.try_get_matches_from(words)
}

// What stands at the places of the words, or nothing where they are no command line.
pub(crate) fn line_in<'a>(
    alloc: Global,
    words: &'a [String],
) -> Result<Option<Line<'a>>, AllocError>
    ensures { IfOk result (λ line. option_map line_view line ≡ line_of (map string_bytes words.now)) }
{
    match matches(alloc, words) {
        Ok(matches) => Ok(texts(&matches)),
        Err(error) => match error.kind() {
            ErrorKind::OutOfMemory => Err(AllocError),
            _ => Ok(None),
        },
    }
}

// The texts that a parse found.
fn texts<'a>(matches: &ArgMatches<'a>) -> Option<Line<'a>>
    ensures { option_map line_view result ≡ complete (line_found (found_of matches.now)) }
{
    Some(Line {
        mode: matches.get_str("MODE")?,
        subject: matches.get_str("SUBJECT")?,
        quals: matches.get_str("quals"),
        measures: matches.get_str("measures"),
        pivots: matches.get_str("pivots"),
    })
}
