//! A call of hart_cli. The tests make it by its function, or by running `program` on the words of the command line.

use hart_cli::{
    CliFault, MasterWords, RequestWords, Sink, Source, Style, answer, dump, encode_text, explain,
    master_by_words, request, serve, simulate,
};
use hart_frame::{LEAST_PREAMBLES, is_preamble_count};
use std::alloc::{AllocError, Global};
use std::test::Fail;

/// A message to send, in the words of the command line. The command line leaves out DATA if it is empty, and the number of preamble bytes
/// if it is 5.
#[derive(Clone, Copy)]
pub struct Words<'a> {
    pub who: &'a str,
    pub address: &'a str,
    pub command: &'a str,
    pub data: &'a str,
    pub preambles: u8,
}

/// A message to send, by the names of its fields.
#[derive(Clone, Copy)]
pub struct Named<'a> {
    pub who: &'a str,
    pub address: &'a str,
    pub command: &'a str,
    pub fields: &'a [&'a str],
    pub preambles: u8,
}

/// The options of `hart master`, in the words of the command line. If `limit` is `None`, the command line leaves the option out.
#[derive(Clone, Copy)]
pub struct Asker<'a> {
    pub who: &'a str,
    pub retries: u8,
    pub limit: Option<u8>,
    pub preambles: u8,
}

/// The options that `hart master` uses if the command line gives none.
pub const USUAL: Asker = Asker {
    who: "P",
    retries: 3,
    limit: None,
    preambles: 20,
};

/// The image of a new device.
pub const NEW: &str = "020001\
    820820820820820820820820820820820820820820820820820820820820820820820820820820820820\
    0000000000002020202020202020202020202020202020202020202020202020202020202020000000";

/// A call and its arguments, but not its streams.
#[derive(Clone, Copy)]
pub enum Call<'a> {
    Dump,
    Explain,
    /// `explain --raw`.
    ExplainRaw,
    /// `explain --json`.
    ExplainJson,
    /// `explain --raw --json`.
    ExplainRawJson,
    /// `answer`, with the word of an image if an image is given.
    Answer(Option<&'a str>),
    /// `serve`, with the word of an image if an image is given.
    Serve(Option<&'a str>),
    Master(Asker<'a>),
    /// `sim`, with the word of an image if an image is given.
    Simulate(Option<&'a str>),
    Encode(Words<'a>),
    Request(Named<'a>),
}

/// Appends a word to other words.
fn push_word(alloc: Global, words: &mut Vec<String>, word: &str) -> Result<(), AllocError> {
    words.push(String::from_str(alloc, word)?)?;
    Ok(())
}

/// Appends words to other words.
fn push_words(alloc: Global, words: &mut Vec<String>, more: &[&str]) -> Result<(), AllocError> {
    for word in more {
        push_word(alloc, words, word)?;
    }
    Ok(())
}

/// Returns words as strings.
pub fn strings_of(alloc: Global, words: &[&str]) -> Result<Vec<String>, AllocError> {
    let mut strings = Vec::new(alloc);
    push_words(alloc, &mut strings, words)?;
    Ok(strings)
}

/// Appends the option for a number of preamble bytes, unless the number is the default, which is the least number allowed.
fn push_preambles(alloc: Global, words: &mut Vec<String>, preambles: u8) -> Result<(), AllocError> {
    if preambles == LEAST_PREAMBLES {
        return Ok(());
    }
    push_word(alloc, words, "--preambles")?;
    words.push(format!(in alloc; "{preambles}")?)?;
    Ok(())
}

impl Named<'_> {
    /// Appends the words of this message to the words of the command line.
    fn push_to(self, alloc: Global, words: &mut Vec<String>) -> Result<(), AllocError> {
        push_preambles(alloc, words, self.preambles)?;
        push_words(alloc, words, &[self.who, self.address, self.command])?;
        push_words(alloc, words, self.fields)
    }

    /// Calls `request`.
    fn request<W: Sink>(self, alloc: Global, writer: &mut W) -> Result<Result<(), CliFault>, Fail> {
        if !is_preamble_count(self.preambles) {
            return Err("a number of preamble bytes".into());
        }
        let words = RequestWords {
            who: self.who,
            address: self.address,
            command: self.command,
            fields: Some(self.fields),
            preambles: self.preambles,
        };
        Ok(request(alloc, &words, writer))
    }
}

impl Words<'_> {
    /// Appends the words of this message to the words of the command line.
    fn push_to(self, alloc: Global, words: &mut Vec<String>) -> Result<(), AllocError> {
        push_preambles(alloc, words, self.preambles)?;
        let all = [self.who, self.address, self.command, self.data];
        let given = if self.data.is_empty() { 3 } else { 4 };
        push_words(alloc, words, &all[..given])
    }

    /// Calls `encode_text`.
    fn encode<W: Sink>(self, alloc: Global, writer: &mut W) -> Result<Result<(), CliFault>, Fail> {
        if !is_preamble_count(self.preambles) {
            return Err("a number of preamble bytes".into());
        }
        Ok(encode_text(
            alloc,
            self.who,
            self.address,
            self.command,
            self.data,
            self.preambles,
            writer,
        ))
    }
}

impl Asker<'_> {
    /// Appends the options of this master to the words of the command line.
    fn push_to(self, alloc: Global, words: &mut Vec<String>) -> Result<(), AllocError> {
        push_words(alloc, words, &["--who", self.who])?;
        push_number(alloc, words, "--retries", self.retries)?;
        push_number(alloc, words, "--preambles", self.preambles)?;
        match self.limit {
            Some(limit) => push_number(alloc, words, "--limit", limit),
            None => Ok(()),
        }
    }

    /// Calls `master`.
    fn serve<R: Source, W: Sink>(
        self,
        alloc: Global,
        reader: &mut R,
        writer: &mut W,
    ) -> Result<Result<(), CliFault>, Fail> {
        if self.retries > 15 || self.limit == Some(0) || !is_preamble_count(self.preambles) {
            return Err("a number of a master".into());
        }
        let words = MasterWords {
            who: self.who,
            retries: self.retries,
            limit: self.limit,
            preambles: self.preambles,
        };
        Ok(master_by_words(alloc, &words, reader, writer))
    }
}

/// Appends an option and its number.
fn push_number(
    alloc: Global,
    words: &mut Vec<String>,
    option: &str,
    number: u8,
) -> Result<(), AllocError> {
    push_word(alloc, words, option)?;
    words.push(format!(in alloc; "{number}")?)?;
    Ok(())
}

impl Call<'_> {
    /// Returns the subcommand that makes the call.
    pub fn subcommand(self) -> &'static str {
        match self {
            Call::Dump => "dump",
            Call::Explain | Call::ExplainRaw | Call::ExplainJson | Call::ExplainRawJson => {
                "explain"
            }
            Call::Answer(_) => "answer",
            Call::Serve(_) => "serve",
            Call::Master(_) => "master",
            Call::Simulate(_) => "sim",
            Call::Encode(_) => "encode",
            Call::Request(_) => "request",
        }
    }

    /// Returns the words of the command line for this call.
    pub fn words(self, alloc: Global) -> Result<Vec<String>, AllocError> {
        let mut words = strings_of(alloc, &[self.subcommand()])?;
        self.push_rest(alloc, &mut words)?;
        Ok(words)
    }

    /// Appends the words after the subcommand.
    fn push_rest(self, alloc: Global, words: &mut Vec<String>) -> Result<(), AllocError> {
        match self {
            Call::Answer(Some(image)) | Call::Serve(Some(image)) | Call::Simulate(Some(image)) => {
                push_words(alloc, words, &["--image", image])
            }
            Call::Encode(message) => message.push_to(alloc, words),
            Call::Master(asker) => asker.push_to(alloc, words),
            Call::ExplainRaw => push_word(alloc, words, "--raw"),
            Call::ExplainJson => push_word(alloc, words, "--json"),
            Call::ExplainRawJson => push_words(alloc, words, &["--raw", "--json"]),
            Call::Request(named) => named.push_to(alloc, words),
            Call::Dump
            | Call::Explain
            | Call::Answer(None)
            | Call::Serve(None)
            | Call::Simulate(None) => Ok(()),
        }
    }

    /// Makes the call by its function.
    pub fn make<R: Source, W: Sink>(
        self,
        alloc: Global,
        reader: &mut R,
        writer: &mut W,
    ) -> Result<Result<(), CliFault>, Fail> {
        match self {
            Call::Dump => Ok(make_dump(alloc, reader, writer)),
            Call::Explain => Ok(make_explain(alloc, Style::Words, false, reader, writer)),
            Call::ExplainRaw => Ok(make_explain(alloc, Style::Words, true, reader, writer)),
            Call::ExplainJson => Ok(make_explain(alloc, Style::Objects, false, reader, writer)),
            Call::ExplainRawJson => Ok(make_explain(alloc, Style::Objects, true, reader, writer)),
            Call::Answer(image) => Ok(make_answer(alloc, image, reader, writer)),
            Call::Serve(image) => Ok(make_serve(alloc, image, reader, writer)),
            Call::Master(asker) => asker.serve(alloc, reader, writer),
            Call::Simulate(image) => Ok(make_simulate(alloc, image, reader, writer)),
            Call::Encode(message) => message.encode(alloc, writer),
            Call::Request(named) => named.request(alloc, writer),
        }
    }
}

// Each call has a function of its own, without a contract. If one function made all calls, the proof of each call would contain the
// contracts of all calls.

/// Calls `dump`.
fn make_dump<R: Source, W: Sink>(
    alloc: Global,
    reader: &mut R,
    writer: &mut W,
) -> Result<(), CliFault> {
    dump(alloc, reader, writer)
}

/// Calls `explain`.
fn make_explain<R: Source, W: Sink>(
    alloc: Global,
    style: Style,
    is_raw: bool,
    reader: &mut R,
    writer: &mut W,
) -> Result<(), CliFault> {
    explain(alloc, style, is_raw, reader, writer)
}

/// Calls `answer`.
fn make_answer<R: Source, W: Sink>(
    alloc: Global,
    image: Option<&str>,
    reader: &mut R,
    writer: &mut W,
) -> Result<(), CliFault> {
    answer(alloc, image, reader, writer)
}

/// Calls `serve`.
fn make_serve<R: Source, W: Sink>(
    alloc: Global,
    image: Option<&str>,
    reader: &mut R,
    writer: &mut W,
) -> Result<(), CliFault> {
    serve(alloc, image, reader, writer)
}

/// Calls `simulate`.
fn make_simulate<R: Source, W: Sink>(
    alloc: Global,
    image: Option<&str>,
    reader: &mut R,
    writer: &mut W,
) -> Result<(), CliFault> {
    simulate(alloc, image, reader, writer)
}
