//! The words and options of the program's commands, as clap takes them.

ghost use Rattle.std.specs.Prelude.{◌≡◌, ◌∷◌, [], codes, false};
ghost use Rattle.clap.specs.Words.{new_rule, rule_of};
ghost use Rattle.hart_cli.specs.program.CommandLine.{fields_rule, flag_rule, image_rule, number_rule, preambles_rule, required_rule};
ghost use Rattle.hart_cli.specs.program.CommandLine.{who_rule};

use super::help::words;
use clap::{Arg, ArgAction, value_parser};
use hart_frame::{LEAST_PREAMBLES, MOST_PREAMBLES};
use std::alloc::Global;

/// Returns the argument for a required word.
pub(super) fn required_word<'a>(alloc: Global, id: &'a str, help: &'a str) -> Arg<'a>
    ensures rule { rule_of result ≡ required_rule id.entry.now }
    ensures local { result.global ≡ false }
{
    Arg::new(alloc, id).required(true).help(help)
}

/// Returns the argument for the data, which may be left out.
pub(super) fn data_word<'a>(alloc: Global) -> Arg<'a>
    ensures rule { rule_of result ≡ new_rule (codes "DATA") }
    ensures local { result.global ≡ false }
{
    Arg::new(alloc, "DATA").help(words::DATA_HELP)
}

/// Returns the argument for the words of fields, which may be left out.
pub(super) fn field_words<'a>(alloc: Global) -> Arg<'a>
    ensures rule { rule_of result ≡ fields_rule }
    ensures local { result.global ≡ false }
{
    Arg::new(alloc, "FIELD")
        .action(ArgAction::Append)
        .help(words::FIELD_HELP)
}

/// Returns the option for the image that the device of a call starts from.
pub(super) fn image_option<'a>(alloc: Global) -> Arg<'a>
    ensures rule { rule_of result ≡ image_rule }
    ensures local { result.global ≡ false }
{
    Arg::new(alloc, "image")
        .long("image")
        .value_name("HEX")
        .help(words::IMAGE_HELP)
}

/// Returns the flag with this name.
pub(super) fn flag<'a>(alloc: Global, name: &'a str, help: &'a str) -> Arg<'a>
    ensures rule { rule_of result ≡ flag_rule name.entry.now }
    ensures local { result.global ≡ false }
{
    Arg::new(alloc, name)
        .long(name)
        .action(ArgAction::SetTrue)
        .help(help)
}

/// Returns the option that says how many preamble bytes a message begins with. If the option is absent, `default` is used.
pub(super) fn preambles_option<'a>(alloc: Global, default: &'a str) -> Arg<'a>
    ensures rule { rule_of result ≡ preambles_rule default.entry.now }
    ensures local { result.global ≡ false }
{
    number_option(alloc, "preambles", LEAST_PREAMBLES, MOST_PREAMBLES)
        .default_value(default)
        .help(words::PREAMBLES_HELP)
}

/// Returns the option that says which of the two masters the program is.
pub(super) fn who_option<'a>(alloc: Global) -> Arg<'a>
    ensures rule { rule_of result ≡ who_rule }
    ensures local { result.global ≡ false }
{
    Arg::new(alloc, "who")
        .long("who")
        .value_name("WHO")
        .default_value("P")
        .help(words::MASTER_WHO_HELP)
}

/// Returns the option that says how often a request is sent again.
pub(super) fn retries_option<'a>(alloc: Global) -> Arg<'a>
    ensures rule { rule_of result ≡ number_rule (codes "retries") 0 15 (codes "3" ∷ []) }
    ensures local { result.global ≡ false }
{
    number_option(alloc, "retries", 0, 15)
        .default_value("3")
        .help(words::RETRIES_HELP)
}

/// Returns the option that says how long a reply is awaited.
pub(super) fn limit_option<'a>(alloc: Global) -> Arg<'a>
    ensures rule { rule_of result ≡ number_rule (codes "limit") 1 255 [] }
    ensures local { result.global ≡ false }
{
    number_option(alloc, "limit", 1, 255).help(words::LIMIT_HELP)
}

/// Returns the option for a number within bounds.
fn number_option<'a>(alloc: Global, name: &'a str, least: u8, most: u8) -> Arg<'a>
    ensures rule { rule_of result ≡ number_rule name.entry.now least most [] }
    ensures local { result.global ≡ false }
{
    Arg::new(alloc, name)
        .long(name)
        .value_name("N")
        .value_parser(value_parser!(u8).range(i64::from(least)..=i64::from(most)))
}
