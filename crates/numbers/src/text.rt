// The text of a count: a sign, the whole part, a point and the unit's decimals.
ghost use Rattle.std.specs.Prelude.{◌≡◌, ◌≤◌, ◌<◌, ◌+◌, ◌^◌, ◌++◌, length, decimal};
ghost use Rattle.arrayvec.specs.ArrayString.{array_string_len};
ghost use Rattle.numbers.specs.Printing.{shown_size, text_of};

use crate::Unit;
use arrayvec::ArrayString;
use itoa::Buffer;

// The most bytes of a printed count of fewer than 2 ^ 32 units: a minus, nine digits, a point and one more.
const WIDEST: usize = 12;

/// A printed count.
#[derive(Clone, Copy)]
pub struct Shown {
    text: ArrayString<WIDEST>,
}

impl Shown {
    /// Its text.
    pub fn as_str(&self) -> &str
        ensures { result.now ≡ text_of self.now }
    {
        self.text.as_str()
    }

    /// Its bytes.
    pub fn as_bytes(&self) -> &[u8]
        ensures { result.now ≡ text_of self.now }
    {
        self.as_str().as_bytes()
    }
}

// `n` units after `sign`.
pub(crate) fn show_size(sign: &str, n: u64, unit: Unit) -> Shown
    requires sign { length sign.now ≤ 1 }
    requires size { n < 2 ^ 32 }
    ensures { text_of result ≡ sign.now ++ shown_size unit n }
{
    let mut buffer = Buffer::new();
    let mut text = ArrayString::new();
    text.push_str(sign);
    match unit {
        Unit::Count => text.push_str(buffer.format(n)),
        Unit::Megawatt => {
            text.push_str(buffer.format(n / 10));
            text.push_str(".");
            text.push_str(buffer.format(n % 10));
        }
        Unit::Euro => {
            text.push_str(buffer.format(n / 100));
            text.push_str(".");
            text.push_str(buffer.format(n / 10 % 10));
            text.push_str(buffer.format(n % 10));
        }
    }
    Shown { text }
}
