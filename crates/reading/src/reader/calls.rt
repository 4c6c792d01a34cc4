// What a reader of a script can be asked for.
ghost use Rattle.std.specs.Prelude.{◌≡◌, length, ◌==◌, count_by, position};
ghost use Rattle.std.specs.Option.{option_map};
ghost use Rattle.reading.specs.Text.{Parted};
ghost use Rattle.reading.specs.Reading.{ahead, unread, NextLine, Begun, NextWord};

use crate::reader::Reader;

// The most bytes of a script.
pub const SCRIPT_MOST: usize = 65_536;

const LINE_END: u8 = b'\n';

const SPACE: u8 = b' ';

// The first place of `b`.
fn place_of(text: &[u8], b: u8) -> Option<usize>
    ensures { result ≡ position (λ c. c == b) text.now }
{
    text.iter().position(|c| *c == b)
}

// How often `b` stands in a text.
fn count_of(text: &[u8], b: u8) -> usize
    ensures { result ≡ count_by (λ c. c == b) text.now }
{
    text.iter().filter(|c| **c == b).count()
}

// What stands before the first `b`, and what follows that, if there is one.
fn parted(text: &[u8], b: u8) -> (&[u8], Option<&[u8]>)
    ensures { Parted b text.now result.0.now result.1 }
{
    match place_of(text, b) {
        Some(end) => (&text[..end], Some(&text[end + 1..])),
        None => (text, None),
    }
}

impl<'a> Reader<'a> {
    // A reader before the first line; of a script that is too long it reads nothing.
    pub fn new(script: &'a [u8]) -> Reader<'a>
        ensures { Begun script.now result }
    {
        let rest = if script.len() <= SCRIPT_MOST {
            script
        } else {
            &script[0..0]
        };
        Reader {
            line: None,
            rest,
            lines: 0,
            words: 0,
        }
    }

    // Goes to the next line, where there is one.
    pub fn next_line(&mut self) -> bool
        ensures { NextLine self.old result self.new }
    {
        if self.rest.is_empty() {
            return false;
        }
        let (line, rest) = parted(self.rest, LINE_END);
        let none = &self.rest[0..0];
        self.line = Some(line);
        self.rest = rest.unwrap_or(none);
        self.lines += 1;
        self.words = 0;
        true
    }

    // Takes the next word of the line, where there is one.
    pub fn next_word(&mut self) -> Option<&'a [u8]>
        ensures { NextWord self.old result self.new }
    {
        let line = self.line?;
        let (word, rest) = parted(line, SPACE);
        self.line = rest;
        self.words += 1;
        Some(word)
    }

    // How many words of the line are still to come.
    pub fn words_left(&self) -> u32
        ensures { result ≡ length (ahead self.now) }
    {
        match self.line {
            // `as`: a line has at most 65,536 bytes
            Some(line) => count_of(line, SPACE) as u32 + 1,
            None => 0,
        }
    }

    // What is not read yet of the line; none once its last word is read.
    pub fn line(&self) -> Option<&'a [u8]>
        ensures { option_map (λ x. x.now) result ≡ unread self.now }
    {
        self.line
    }

    // The number of the line at hand, from 1; 0 before the first.
    pub fn line_number(&self) -> u32
        ensures { result ≡ self.now.lines }
    {
        self.lines
    }

    // How many words of the line are read.
    pub fn word_number(&self) -> u32
        ensures { result ≡ self.now.words }
    {
        self.words
    }
}
