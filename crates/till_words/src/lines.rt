//! Cuts a prompt's line into words.

ghost use Rattle.std.specs.Prelude.{◌≡◌, Some, None, IfOk, IfErr, OnOk, map, option_map, string_bytes, unwrap_or, []};
ghost use Rattle.shop_types.specs.declared.line.Usage.TheVariants as usage;
ghost use Rattle.till_words.specs.PromptLine as spec;
ghost use Rattle.till_words.specs.Seen.{seen_split};

use shop_types::Usage;
use std::alloc::{AllocError, Global};

/// What was read of a line so far.
#[derive(Drop)]
struct LineSplit {
    words: Vec<String>,
    /// The word that is being read.
    word: Option<String>,
    /// Whether a quote is open.
    is_quoted: bool,
}

fn is_blank(c: char) -> bool
    ensures { result ≡ spec.is_blank c }
{
    c == ' ' || c == '\t' || c == '\n' || c == '\r'
}

/// Returns the word that is being read, or an empty one.
fn begun(alloc: Global, word: Option<String>) -> String
    ensures { string_bytes result ≡ unwrap_or (option_map string_bytes word) [] }
{
    match word {
        Some(word) => word,
        None => String::new(alloc),
    }
}

impl LineSplit {
    fn end_word(&mut self) -> Result<(), AllocError>
        ensures { OnOk result (seen_split self.new ≡ spec.ended (seen_split self.old)) }
    {
        if let Some(word) = self.word.take() {
            self.words.push(word)?;
        }
        Ok(())
    }

    fn add(&mut self, alloc: Global, c: char) -> Result<(), AllocError>
        ensures { OnOk result (seen_split self.new ≡ spec.longer (seen_split self.old) c) }
    {
        let mut word = begun(alloc, self.word.take());
        word.push(c)?;
        self.word = Some(word);
        Ok(())
    }

    fn turn(&mut self, alloc: Global)
        ensures { seen_split self.new ≡ spec.turned (seen_split self.old) }
    {
        let word = begun(alloc, self.word.take());
        self.word = Some(word);
        self.is_quoted = !self.is_quoted;
    }

    fn read(&mut self, alloc: Global, c: char) -> Result<(), AllocError>
        ensures { OnOk result (seen_split self.new ≡ spec.read_char (seen_split self.old) c) }
    {
        if c == '"' {
            self.turn(alloc);
            return Ok(());
        }
        if is_blank(c) && !self.is_quoted {
            self.end_word()
        } else {
            self.add(alloc, c)
        }
    }
}

/// Returns the words of the line, or none if a quote is left open.
fn words_of(alloc: Global, line: &str) -> Result<Option<Vec<String>>, AllocError>
    ensures { IfOk result (λ found. option_map (λ words. map string_bytes words.items) found ≡ spec.words_of line.now) }
{
    let mut reading = LineSplit {
        words: Vec::new(alloc),
        word: None,
        is_quoted: false,
    };
    for c in line.chars() {
        reading.read(alloc, c)?;
    }
    if reading.is_quoted {
        return Ok(None);
    }
    reading.end_word()?;
    Ok(Some(reading.words))
}

/// Returns the fault of a line with a quote that is left open.
fn left_open(alloc: Global) -> Usage {
    match String::from_str(alloc, "a quote is left open") {
        Ok(text) => Usage::Words(text),
        Err(_) => Usage::Memory,
    }
}

/// Returns the words of a line that was typed. Blanks separate them: spaces, tabs and ends of lines. Between two double
/// quotes a blank is part of a word, and the quotes aren't. Fails with `Usage::Words` if a quote is left open.
pub fn split_line(alloc: Global, line: &str) -> Result<Vec<String>, Usage>
    ensures ok { IfOk result (λ words. spec.words_of line.now ≡ Some (map string_bytes words.items)) }
    ensures refused { IfErr result (λ e. ¬ (e ≡ usage.Memory) → spec.words_of line.now ≡ None) }
{
    match words_of(alloc, line) {
        Ok(Some(words)) => Ok(words),
        Ok(None) => Err(left_open(alloc)),
        Err(_) => Err(Usage::Memory),
    }
}
