// The command that the words are.
ghost use Rattle.std.specs.Prelude.{◌≡◌, IfOk};
ghost use Rattle.std.specs.Option.{option_map};
ghost use Rattle.lq_top_words.specs.Command.Command.{command_of, count_of, mode_of, pivots_of, request_of};
ghost use Rattle.lq_top_words.specs.Command.View.{line_view, request_view};

use crate::command::Words;
use crate::command::line::{Line, line_in};
use crate::command::number::number;
use std::alloc::{AllocError, Global};

// How many pivots a check of a tableau may take, where the words don't say.
const PIVOTS: u64 = 67_108_864;

// How many functions a sample program may have.
const SAMPLE_LIMIT: u64 = 2_000;

/// What is printed of a program.
#[derive(Clone, Copy)]
pub enum Mode {
    /// The verdict, and the failing demand.
    Check,
    /// The types, where the program is accepted.
    Types,
    /// The failing demand with what is known there.
    Explain,
}

/// A program to judge, by the names of its files.
#[derive(Clone, Copy)]
pub struct Judge<'a> {
    pub mode: Mode,
    pub program: &'a str,
    pub measures: Option<&'a str>,
    pub quals: Option<&'a str>,
    /// How many pivots a check of a tableau may take.
    pub pivots: u64,
}

/// What the words ask for.
#[derive(Clone, Copy)]
pub enum Command<'a> {
    /// To judge a program.
    Judge(Judge<'a>),
    /// To make a sample program of so many functions and to judge it.
    Sample { count: u32, pivots: u64 },
}

impl Words {
    /// The command that the words are, or nothing where they are none.
    pub fn command<'a>(&'a self, alloc: Global) -> Result<Option<Command<'a>>, AllocError>
        ensures { IfOk result (λ command. option_map request_view command ≡ command_of self.now) }
    {
        match line_in(alloc, self.texts())? {
            Some(line) => Ok(request(&line)),
            None => Ok(None),
        }
    }
}

fn request<'a>(line: &Line<'a>) -> Option<Command<'a>>
    ensures { option_map request_view result ≡ request_of (line_view line.now) }
{
    let pivots = pivots(line.pivots)?;
    if line.mode == "sample" {
        let count = count(line.subject)?;
        return Some(Command::Sample { count, pivots });
    }
    Some(Command::Judge(Judge {
        mode: mode_named(line.mode)?,
        program: line.subject,
        measures: line.measures,
        quals: line.quals,
        pivots,
    }))
}

fn pivots(text: Option<&str>) -> Option<u64>
    ensures { result ≡ pivots_of (option_map (λ text. text.now) text.entry) }
{
    match text {
        Some(text) => number(text),
        None => Some(PIVOTS),
    }
}

fn mode_named(text: &str) -> Option<Mode>
    ensures { result ≡ mode_of text.now }
{
    match text {
        "check" => Some(Mode::Check),
        "types" => Some(Mode::Types),
        "explain" => Some(Mode::Explain),
        _ => None,
    }
}

fn count(text: &str) -> Option<u32>
    ensures { result ≡ count_of text.now }
{
    let number = number(text)?;
    if 1 <= number && number <= SAMPLE_LIMIT {
        Some(number as u32)
    } else {
        None
    }
}
