// The letter of a line, which says what its words are.
ghost use Rattle.std.specs.Prelude.{◌≡◌};
ghost use Rattle.reading.specs.Reading.{below};
ghost use Rattle.reading.specs.Fields.{LetterTaken, letter_below};

use crate::reader::Reader;

impl<'a> Reader<'a> {
    // The next word as a letter, where it is one byte.
    pub fn letter(&mut self) -> Option<char>
        ensures { LetterTaken self.old result self.new }
    {
        match self.next_word()? {
            [letter] => Some(char::from(*letter)),
            _ => None,
        }
    }

    // The letter of the next line, where one follows and has one; nothing is read.
    pub fn letter_ahead(&self) -> Option<char>
        ensures { result ≡ letter_below (below self.now) }
    {
        let mut probe = *self;
        if probe.next_line() {
            probe.letter()
        } else {
            None
        }
    }
}
