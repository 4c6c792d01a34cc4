// Why a line of a script is refused.
ghost use Rattle.std.specs.Prelude.{◌≡◌, ℕ, Option};
ghost use Rattle.reading.specs.Faults.{word_number, word_place, link_number, link_place};
ghost use Rattle.reading.specs.declared.faults.LinkFault.TheVariants.{Word, Map};

use capacity::faults::MapFault;
use numbers::NumberFault;

// A refusal that can be printed: its number, and the place of the word at fault where one is.
pub trait Refusal {
    ghost number: { Self → ℕ };

    ghost place: { Self → Option ℕ };

    fn number(&self) -> u32
        ensures { result ≡ number self.now };

    fn place(&self) -> Option<u32>
        ensures { result ≡ place self.now };
}

// A fault of the words of a line.
#[derive(Clone, Copy)]
pub enum WordFault {
    // the header, the letter, the count of words, side, kind, M's place or the script's length is wrong
    Form,
    // the word at this place, the letter's being 1, is no number of its unit
    Number { place: u32, fault: NumberFault },
}

impl Refusal for WordFault {
    ghost number = { word_number };

    ghost place = { word_place };

    fn number(&self) -> u32 {
        match self {
            WordFault::Form => 17,
            WordFault::Number { fault, .. } => fault.number(),
        }
    }

    fn place(&self) -> Option<u32> {
        match self {
            WordFault::Form => None,
            WordFault::Number { place, .. } => Some(*place),
        }
    }
}

// Why an M line is refused. An enum of its own, as the fault of call lines is in `lines`: `From<F>` of a generic one would overlap that
// of `WordFault`, and `?` needs both.
#[derive(Clone, Copy)]
pub enum LinkFault {
    Word(WordFault),
    // the map takes no such connector
    Map(MapFault),
}

impl Refusal for LinkFault {
    ghost number = { link_number };

    ghost place = { link_place };

    fn number(&self) -> u32 {
        match self {
            LinkFault::Word(fault) => fault.number(),
            LinkFault::Map(fault) => fault.number(),
        }
    }

    fn place(&self) -> Option<u32> {
        match self {
            LinkFault::Word(fault) => fault.place(),
            LinkFault::Map(_) => None,
        }
    }
}

impl From<WordFault> for LinkFault {
    ghost from_gives = { λ f l. l ≡ Word f };

    fn from(fault: WordFault) -> LinkFault {
        LinkFault::Word(fault)
    }
}

impl From<MapFault> for LinkFault {
    ghost from_gives = { λ f l. l ≡ Map f };

    fn from(fault: MapFault) -> LinkFault {
        LinkFault::Map(fault)
    }
}
