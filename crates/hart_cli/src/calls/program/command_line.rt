//! The call that the words after the program's name ask for.

ghost use Rattle.std.specs.Prelude.{◌≡◌, IfErr, IfOk, OnOk, [], codes, false, map, string_bytes, true};
ghost use Rattle.clap.specs.Words.{App, HasKind, Rule, all_of, app_of, fault_of, first_of, found_of, new_app, rows_of, rule_of};
ghost use Rattle.clap.specs.Words.{subcommand_of, subcommand_rows_of};
ghost use Rattle.clap.specs.Words.{with_rule, with_subcommand};
ghost use Rattle.std.specs.Option.{option_map};
ghost use Rattle.hart_cli.specs.program.CommandLine.{app_with_required_words, asking_app, call_of, encode_app, explain_app};
ghost use Rattle.hart_cli.specs.program.CommandLine.{explain_call, hart_alone, hart_app, hearing_app, image_app};
ghost use Rattle.hart_cli.specs.program.CommandLine.{is_set, master_app, master_words_of, number_of};
ghost use Rattle.hart_cli.specs.program.CommandLine.{optional_number, preambles_of, reading_app, request_app};
ghost use Rattle.hart_cli.specs.program.CommandLine.{request_words_of, words_of};

use super::arguments::{
    data_word, field_words, flag, image_option, limit_option, preambles_option, required_word,
    retries_option, who_option,
};
use super::help;
use super::help::{HelpPage, stations, words};
use crate::calls::explain::printer::Style;
use crate::calls::master::MasterWords;
use crate::image_word::ImageWord;
use clap::{Arg, ArgMatches, Command};
use hart_frame::{LEAST_PREAMBLES, MOST_PREAMBLES};
use hart_station::encode::EncodeWords;
use hart_station::request::RequestWords;
use std::alloc::{AllocError, Global};

/// The version that `hart --version` shows.
const VERSION: &str = "0.1.0";

/// The calls that a command line can make.
#[derive(Drop)]
pub enum Call<'w, 'a: 'w> {
    /// `hart answer`.
    Answer(ImageWord<'a>),
    /// `hart dump`.
    Dump,
    /// `hart explain`.
    Explain {
        /// In words, or as JSON with `--json`.
        style: Style,
        /// Whether the input is raw, with `--raw`.
        is_raw: bool,
    },
    /// `hart serve`.
    Serve(ImageWord<'a>),
    /// `hart master`.
    Master(MasterWords<'a>),
    /// `hart sim`.
    Sim(ImageWord<'a>),
    /// `hart encode`.
    Encode(EncodeWords<'a>),
    /// `hart request`.
    Request(RequestWords<'w, 'a>),
}

/// Matches the words against the program's commands, and returns the matches of clap.
///
/// # Errors
///
/// The error that clap returns if it finds no matches for the words, or if memory is refused. The text of this error may be clap's help. No
/// clause says when memory is refused, so a body that refuses more than 64 words would meet this contract.
pub fn matches_of<'a>(alloc: Global, words: &'a [String]) -> Result<ArgMatches<'a>, clap::Error>
    ensures fits { OnOk result (fault_of hart_app (map string_bytes words.now) ≡ []) }
    ensures matches { IfOk result (λ matches. subcommand_rows_of matches ≡ subcommand_of hart_app (map string_bytes words.now)) }
    ensures refused { IfErr result (HasKind (fault_of hart_app (map string_bytes words.now))) }
{
    let matches = hart_command(alloc)?.try_get_matches_from(words)?;
    Ok(matches)
}

/// Returns the call of the subcommand that the words name. Returns `None` if the words name none of the eight subcommands, or if
/// `master_words`, `encode_words` or `request_words` returns `None`. clap excludes all these cases. No clause says so, because the proof
/// would take about 800 lines, and would strengthen no clause of the program.
pub fn call_of<'w, 'a: 'w>(matches: &'w ArgMatches<'a>) -> Option<Call<'w, 'a>>
    ensures { result ≡ call_of (subcommand_rows_of matches.now) }
{
    let (name, given) = matches.subcommand()?;
    match name {
        "answer" => Some(Call::Answer(image_word(given))),
        "dump" => Some(Call::Dump),
        "explain" => Some(explain_call(given)),
        "serve" => Some(Call::Serve(image_word(given))),
        "master" => Some(Call::Master(master_words(given)?)),
        "sim" => Some(Call::Sim(image_word(given))),
        "encode" => Some(Call::Encode(encode_words(given)?)),
        "request" => Some(Call::Request(request_words(given)?)),
        _ => None,
    }
}

/// Returns the call of `hart explain`, by its flags.
fn explain_call<'w, 'a: 'w>(given: &'w ArgMatches<'a>) -> Call<'w, 'a>
    ensures { result ≡ explain_call
        (first_of (codes "raw") (rows_of (found_of given.now)))
        (first_of (codes "json") (rows_of (found_of given.now))) }
{
    let is_raw = is_set(given, "raw");
    let style = if is_set(given, "json") {
        Style::Objects
    } else {
        Style::Words
    };
    Call::Explain { style, is_raw }
}

/// Returns true if a flag is set.
fn is_set(given: &ArgMatches<'_>, id: &str) -> bool
    ensures { result ≡ is_set (first_of id.now (rows_of (found_of given.now))) }
{
    matches!(word_of(given, id), Some("true"))
}

/// Returns the word of the image of `hart answer`, `hart serve` or `hart sim`, if an image was given.
fn image_word<'a>(given: &ArgMatches<'a>) -> ImageWord<'a>
    ensures { result ≡ first_of (codes "image") (rows_of (found_of given.now)) }
{
    ImageWord {
        word: word_of(given, "image"),
    }
}

/// Returns the first word that clap has under this name.
fn word_of<'a>(given: &ArgMatches<'a>, id: &str) -> Option<&'a str>
    ensures { option_map (λ word. word.now) result ≡ first_of id.now (rows_of (found_of given.now)) }
{
    given.get_str(id)
}

/// Returns the words of `hart encode`. Returns `None` if WHO, ADDRESS or COMMAND is missing, or if the number of preamble bytes is outside
/// 5 to 20. clap excludes both cases.
fn encode_words<'a>(given: &ArgMatches<'a>) -> Option<EncodeWords<'a>>
    ensures { result ≡ words_of (rows_of (found_of given.now)) }
{
    let preambles = preambles_of(word_of(given, "preambles")?)?;
    Some(EncodeWords {
        who: word_of(given, "WHO")?,
        address: word_of(given, "ADDRESS")?,
        command: word_of(given, "COMMAND")?,
        payload: word_of(given, "DATA").unwrap_or(""),
        preambles,
    })
}

/// Returns the words of `hart request`. Returns `None` if WHO, ADDRESS or COMMAND is missing, or if the number of preamble bytes is outside
/// 5 to 20. clap excludes both cases.
fn request_words<'w, 'a: 'w>(given: &'w ArgMatches<'a>) -> Option<RequestWords<'w, 'a>>
    ensures { result ≡ request_words_of (rows_of (found_of given.now)) }
{
    let preambles = preambles_of(word_of(given, "preambles")?)?;
    let who = word_of(given, "WHO")?;
    let address = word_of(given, "ADDRESS")?;
    let command = word_of(given, "COMMAND")?;
    Some(RequestWords {
        who,
        address,
        command,
        fields: words_of(given, "FIELD"),
        preambles,
    })
}

/// Returns the words of `hart master`. Returns `None` if one of them is missing, except the limit, or if a number is out of range. clap
/// excludes these cases.
fn master_words<'a>(given: &ArgMatches<'a>) -> Option<MasterWords<'a>>
    ensures { result ≡ master_words_of (rows_of (found_of given.now)) }
{
    Some(MasterWords {
        who: word_of(given, "who")?,
        retries: number_of(0, 15, word_of(given, "retries")?)?,
        limit: optional_number(1, 255, word_of(given, "limit"))?,
        preambles: preambles_of(word_of(given, "preambles")?)?,
    })
}

/// Returns the words that clap has under this name, or `None` if clap has no words there.
fn words_of<'w, 'a: 'w>(given: &'w ArgMatches<'a>, id: &str) -> Option<&'w [&'a str]>
    ensures { option_map (λ words. map (λ word. word.now) words.now) result ≡ all_of id.now (rows_of (found_of given.now)) }
{
    given.get_strs(id)
}

/// Returns the number of preamble bytes that a word writes, or `None` if it is not a number from 5 to 20.
fn preambles_of(word: &str) -> Option<u8>
    ensures { result ≡ preambles_of word.now }
{
    number_of(LEAST_PREAMBLES, MOST_PREAMBLES, word)
}

/// Returns the number that a word writes, or `None` if it is no number within these bounds.
fn number_of(least: u8, most: u8, word: &str) -> Option<u8>
    ensures { result ≡ number_of least most word.now }
{
    let count = word.parse::<u8>().ok()?;
    if count < least || count > most {
        return None;
    }
    Some(count)
}

/// Returns the number of an option, or `Some(None)` if the option is absent. Returns `None` if the option's word is no number within these
/// bounds.
fn optional_number(least: u8, most: u8, word: Option<&str>) -> Option<Option<u8>>
    ensures { result ≡ optional_number least most (option_map (λ word. word.now) word.entry) }
{
    match word {
        Some(word) => Some(Some(number_of(least, most, word)?)),
        None => Some(None),
    }
}

/// Returns the command that the words are matched against.
fn hart_command<'a>(alloc: Global) -> Result<Command<'a>, AllocError>
    ensures { IfOk result (λ command. app_of command ≡ hart_app) }
{
    let hart = with_made(asking_command(alloc), encode_command(alloc))?;
    // The words leave out the program's name, so clap gets it here: the usage of `hart help` shows it.
    hart.bin_name("hart")
}

/// Returns `hart` with the subcommand `request` and all subcommands that read an input.
fn asking_command<'a>(alloc: Global) -> Result<Command<'a>, AllocError>
    ensures { IfOk result (λ command. app_of command ≡ asking_app) }
{
    with_made(reading_command(alloc), request_command(alloc))
}

/// Returns `hart` with the subcommands that read an input.
fn reading_command<'a>(alloc: Global) -> Result<Command<'a>, AllocError>
    ensures { IfOk result (λ command. app_of command ≡ reading_app) }
{
    let hart = hearing_command(alloc);
    let hart = with_made(hart, image_command(alloc, "serve", stations::SERVE));
    let hart = with_made(hart, master_command(alloc));
    with_made(hart, image_command(alloc, "sim", stations::SIM))
}

/// Returns `hart` with the subcommands that read what is heard: `answer`, `dump` and `explain`.
fn hearing_command<'a>(alloc: Global) -> Result<Command<'a>, AllocError>
    ensures { IfOk result (λ command. app_of command ≡ hearing_app) }
{
    let hart = Ok(hart_alone(alloc));
    let hart = with_made(hart, image_command(alloc, "answer", help::ANSWER));
    let hart = with_made(hart, Ok(plain_command(alloc, "dump", help::DUMP)));
    with_made(hart, explain_command(alloc))
}

/// Returns `hart explain` with its flags.
fn explain_command<'a>(alloc: Global) -> Result<Command<'a>, AllocError>
    ensures { IfOk result (λ command. app_of command ≡ explain_app) }
{
    let explain = Ok(plain_command(alloc, "explain", help::EXPLAIN));
    let explain = with_arg(explain, flag(alloc, "raw", words::RAW_HELP));
    with_arg(explain, flag(alloc, "json", words::JSON_HELP))
}

/// Returns `hart master` with its options.
fn master_command<'a>(alloc: Global) -> Result<Command<'a>, AllocError>
    ensures { IfOk result (λ command. app_of command ≡ master_app) }
{
    let master = Ok(plain_command(alloc, "master", stations::MASTER));
    let master = with_arg(master, who_option(alloc));
    let master = with_arg(master, retries_option(alloc));
    let master = with_arg(master, limit_option(alloc));
    with_arg(master, preambles_option(alloc, "20"))
}

/// Returns `hart` without its subcommands.
fn hart_alone<'a>(alloc: Global) -> Command<'a>
    ensures { app_of result ≡ hart_alone }
{
    Command::new(alloc, "hart")
        .about(help::HART_ABOUT)
        .version(VERSION)
        .after_help(help::HART_HELP)
        .subcommand_value_name("SUBCOMMAND")
        .subcommand_help_heading("Subcommands")
        .no_binary_name(true)
        .subcommand_required(true)
        .arg_required_else_help(true)
}

/// Returns `hart encode` with its words and its option.
fn encode_command<'a>(alloc: Global) -> Result<Command<'a>, AllocError>
    ensures { IfOk result (λ command. app_of command ≡ encode_app) }
{
    let encode = with_required_words(alloc, "encode", help::ENCODE);
    let encode = with_arg(encode, data_word(alloc));
    with_arg(encode, preambles_option(alloc, "5"))
}

/// Returns `hart request` with its words and its option.
fn request_command<'a>(alloc: Global) -> Result<Command<'a>, AllocError>
    ensures { IfOk result (λ command. app_of command ≡ request_app) }
{
    let request = with_required_words(alloc, "request", help::REQUEST);
    let request = with_arg(request, field_words(alloc));
    with_arg(request, preambles_option(alloc, "5"))
}

/// Returns a subcommand with its required words.
fn with_required_words<'a>(
    alloc: Global,
    name: &'a str,
    page: HelpPage<'a>,
) -> Result<Command<'a>, AllocError>
    ensures { IfOk result (λ command. app_of command ≡ app_with_required_words name.entry.now) }
{
    let command = Ok(plain_command(alloc, name, page));
    let command = with_arg(command, required_word(alloc, "WHO", words::WHO_HELP));
    let command = with_arg(
        command,
        required_word(alloc, "ADDRESS", words::ADDRESS_HELP),
    );
    with_arg(
        command,
        required_word(alloc, "COMMAND", words::COMMAND_HELP),
    )
}

/// Returns a subcommand that takes an image.
fn image_command<'a>(
    alloc: Global,
    name: &'a str,
    page: HelpPage<'a>,
) -> Result<Command<'a>, AllocError>
    ensures { IfOk result (λ command. app_of command ≡ image_app name.entry.now) }
{
    plain_command(alloc, name, page).arg(image_option(alloc))
}

// A `?` on a command takes the prover seconds, since the command is dropped there. So each such `?` stands in one of the next two
// functions.

/// Returns a command with one more subcommand, if the command and the subcommand could be made.
fn with_made<'a>(
    command: Result<Command<'a>, AllocError>,
    subcommand: Result<Command<'a>, AllocError>,
) -> Result<Command<'a>, AllocError>
    ensures { (outer inner : App) → inner.top.is_plain ≡ true
        → IfOk command.entry (λ made. app_of made ≡ outer) → IfOk subcommand.entry (λ made. app_of made ≡ inner)
        → IfOk result (λ more. app_of more ≡ with_subcommand outer inner.top) }
{
    command?.subcommand(subcommand?)
}

/// Returns a command with one more argument, if the command could be made.
fn with_arg<'a>(
    command: Result<Command<'a>, AllocError>,
    arg: Arg<'a>,
) -> Result<Command<'a>, AllocError>
    requires { arg.global ≡ false }
    ensures { (app : App) (rule : Rule)
        → IfOk command.entry (λ made. app_of made ≡ app) → rule_of arg.entry ≡ rule
        → IfOk result (λ more. app_of more ≡ with_rule app rule) }
{
    command?.arg(arg)
}

/// Returns a subcommand without words of its own.
fn plain_command<'a>(alloc: Global, name: &'a str, page: HelpPage<'a>) -> Command<'a>
    ensures { app_of result ≡ new_app name.entry.now }
{
    Command::new(alloc, name)
        .about(page.about)
        .override_usage(page.usage)
        .long_about(page.help)
        .after_long_help(page.example)
}
