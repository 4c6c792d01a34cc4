// The words of an entry that are no numbers: its side and its kind.
ghost use Rattle.lines.specs.Asking.{Stands, side_word, kind_word};

use book::rows::{Kind, Side};

// The side that a word stands for. Two lines as in `Reader::letter`, which reads on: a function for both is no shorter.
pub(crate) fn side_of(word: &[u8]) -> Option<Side>
    ensures { Stands side_word word.now result }
{
    let [letter] = word else {
        return None;
    };
    match char::from(*letter) {
        'B' => Some(Side::Buy),
        'S' => Some(Side::Sell),
        _ => None,
    }
}

// The kind that a word stands for.
pub(crate) fn kind_of(word: &[u8]) -> Option<Kind>
    ensures { Stands kind_word word.now result }
{
    match word {
        b"NON" => Some(Kind::Non),
        b"IOC" => Some(Kind::Ioc),
        b"ICE" => Some(Kind::Ice),
        _ => None,
    }
}
