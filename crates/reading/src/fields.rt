// The words of a line as numbers, one after another.
ghost use Rattle.std.specs.Prelude.{◌≡◌, [], length, slice_index_or};
ghost use Rattle.reading.specs.Making.{Makes, sizes};
ghost use Rattle.reading.specs.Reading.{ahead};
ghost use Rattle.reading.specs.Fields.{OneTaken, Numbers, ReadTo, InLine, WordAnswers};

use crate::faults::WordFault;
use crate::reader::Reader;
use numbers::{NumberFault, Unit, read};

// What a word of a line is to be: a count of some unit, an amount that may be below nought, or letters, which are no number.
#[derive(Clone, Copy)]
pub enum Field {
    Count(Unit),
    Signed(Unit),
    Letters,
}

pub const COUNT: Field = Field::Count(Unit::Count);

pub const POWER: Field = Field::Count(Unit::Megawatt);

impl Field {
    // The number that a word is; nought for letters, which fill a place of the array that no caller reads.
    fn read(self, word: &[u8]) -> Result<i32, NumberFault>
        ensures { WordAnswers self word.now result }
    {
        match self {
            Field::Count(unit) => {
                let count: u32 = read(word, unit)?;
                // `as`: a count that is read has at most 31 bits
                Ok(count as i32)
            }
            Field::Signed(unit) => read(word, unit),
            Field::Letters => Ok(0),
        }
    }
}

// Numbers without their signs.
// A loop: tried as `array::from_fn`, whose proof did not close; `map` and `try_map` require that it fits in memory once more.
pub fn sizes<const N: usize>(numbers: [i32; N]) -> [u32; N]
    ensures { result ≡ sizes numbers.entry }
{
    let mut sizes = [0; N];
    for (i, number) in numbers.iter().enumerate() {
        sizes[i] = number.unsigned_abs();
    }
    sizes
}

impl<'a> Reader<'a> {
    // The word so many places ahead; an empty one past the line's end, which is neither a side nor a kind, as a missing one.
    pub fn word_ahead(&self, places: u32) -> &'a [u8]
        ensures { result.now ≡ slice_index_or (ahead self.now) places [] }
    {
        let mut probe = *self;
        for _ in 0..places {
            probe.next_word();
        }
        probe.next_word().unwrap_or(b"")
    }

    // The next word as a number.
    fn number(&mut self, field: Field) -> Result<i32, WordFault>
        ensures { OneTaken self.old field result self.new }
    {
        let word = self.next_word().ok_or(WordFault::Form)?;
        let place = self.word_number();
        field
            .read(word)
            .map_err(|fault| WordFault::Number { place, fault })
    }

    // The words that are left of the line as numbers, one for each field.
    // A loop: `try_map` requires that it fits in memory once more, `from_fn` knows no `?`, and no call here may require anything.
    pub fn numbers<const N: usize>(&mut self, fields: [Field; N]) -> Result<[i32; N], WordFault>
        ensures numbers { Numbers self.old.words fields.entry (ahead self.old) result }
        ensures reads { ReadTo (length fields.entry) self.old result self.new }
        ensures stays { InLine self.old self.new }
    {
        if self.words_left() as usize != N {
            return Err(WordFault::Form);
        }
        let mut numbers = [0; N];
        for (i, field) in fields.iter().enumerate() {
            numbers[i] = self.number(*field)?;
        }
        Ok(numbers)
    }

    // The same without their signs.
    pub fn counts<const N: usize>(&mut self, fields: [Field; N]) -> Result<[u32; N], WordFault>
        ensures counts { Makes self.old.words fields.entry sizes (ahead self.old) result }
        ensures reads { ReadTo (length fields.entry) self.old result self.new }
        ensures stays { InLine self.old self.new }
    {
        let numbers = self.numbers(fields)?;
        Ok(sizes(numbers))
    }
}
