// Number words read exactly as counts of a unit, and counts printed so that they read back the same.
#![tactic(auto)]

ghost use Rattle.std.specs.Prelude.{◌≡◌, pos, Ok, Result, MatchResult};
ghost use Rattle.numbers.specs.Numerals.{minus_text};
ghost use Rattle.numbers.specs.Reading.{scale_of, fault_number, Means, Answers};
ghost use Rattle.numbers.specs.Printing.{is_below, shown, text_of};
ghost use Rattle.numbers.specs.Examples.{Examples};
ghost use Rattle.numbers.specs.Scans.{Unread, SizeIs, NoSize};

mod figures;
mod scale;
mod scan;
mod text;

pub use figures::Figure;
use scan::Part;
pub use text::Shown;

// The most bytes of a number word.
const LONGEST: usize = 16;

// What a count counts: a thing, a tenth of a MW or a cent.
#[derive(Clone, Copy)]
pub enum Unit {
    Count,
    Megawatt,
    Euro,
}

impl Unit {
    fn decimals(self) -> i64
        ensures { result ≡ pos (scale_of self) }
    {
        match self {
            Unit::Count => 0,
            Unit::Megawatt => 1,
            Unit::Euro => 2,
        }
    }
}

// Why a word is no count, by the numbers of the refusal sheet: its form, a part of a unit left over, or its size.
#[derive(Clone, Copy, Debug, PartialEq, Eq)]
pub enum NumberFault {
    Form = 18,
    Fraction = 19,
    Range = 20,
}

impl NumberFault {
    // The refusal's number.
    pub fn number(&self) -> u32
        ensures { result ≡ fault_number self.now }
    {
        *self as u32
    }
}

// How many units a word is; what no count can hold may be refused already here.
fn read_amount(word: &[u8], unit: Unit) -> Result<i64, NumberFault>
    ensures { MatchResult result (λ z. Means word.now unit z) (λ e. Unread word.now unit e) }
{
    if word.len() > LONGEST {
        return Err(NumberFault::Form);
    }
    match word {
        [b'-', bytes @ ..] => Ok(-read_size(Part { bytes }, unit)?),
        _ => read_size(Part { bytes: word }, unit),
    }
}

// The same of a word without its sign.
fn read_size(body: Part, unit: Unit) -> Result<i64, NumberFault>
    ensures { MatchResult result (SizeIs body.entry.bytes.now unit) (NoSize body.entry.bytes.now unit) }
{
    let number = scan::scan_body(body).ok_or(NumberFault::Form)?;
    let size = scale::scaled(number, unit)?;
    i64::try_from(size).map_err(|_| NumberFault::Range)
}

// The count that a word writes.
pub fn read<F: Figure>(word: &[u8], unit: Unit) -> Result<F, NumberFault>
    ensures answer { Answers word.now unit F.signed (F.answer result) }
    ensures only { (q : Result F NumberFault) → Answers word.now unit F.signed (F.answer q) → q ≡ result }
{
    F::fit(read_amount(word, unit)?)
}

fn sign_of(n: i64) -> &'static str
    ensures { result.now ≡ minus_text (is_below n) }
{
    if n < 0 { "-" } else { "" }
}

/// A count as a word with the unit's decimals.
pub fn show<F: Figure>(figure: F, unit: Unit) -> Shown
    ensures text { text_of result ≡ shown unit (F.value figure) }
    ensures back { F.Readable figure → Answers (text_of result) unit F.signed (Ok (F.value figure)) }
{
    let n = figure.units();
    text::show_size(sign_of(n), n.unsigned_abs(), unit)
}

// The examples, as a theorem.
pub fn examples_hold()
    ensures { Examples }
{}

#[cfg(test)]
mod tests {
    use super::*;

    const FORM: NumberFault = NumberFault::Form;

    const PART: NumberFault = NumberFault::Fraction;

    const SIZE: NumberFault = NumberFault::Range;

    // The number table of the scripts' document: a word as a limit, as a quantity and as a plain number.
    const TABLE: [(
        &str,
        Result<i32, NumberFault>,
        Result<u32, NumberFault>,
        Result<u32, NumberFault>,
    ); 17] = [
        ("1E-2", Ok(1), Err(PART), Err(PART)),
        ("12E2", Ok(120000), Ok(12000), Ok(1200)),
        ("-0", Ok(0), Ok(0), Ok(0)),
        ("-0.05", Ok(-5), Err(PART), Err(PART)),
        ("1e-3", Err(PART), Err(PART), Err(PART)),
        ("30E-1", Ok(300), Ok(30), Ok(3)),
        ("-1", Ok(-100), Err(SIZE), Err(SIZE)),
        ("1.", Err(FORM), Err(FORM), Err(FORM)),
        (".5", Err(FORM), Err(FORM), Err(FORM)),
        ("+1", Err(FORM), Err(FORM), Err(FORM)),
        ("", Err(FORM), Err(FORM), Err(FORM)),
        ("00000000000000000", Err(FORM), Err(FORM), Err(FORM)),
        ("0e999999999", Ok(0), Ok(0), Ok(0)),
        ("1e999999999", Err(SIZE), Err(SIZE), Err(SIZE)),
        ("1e-999999999", Err(PART), Err(PART), Err(PART)),
        ("21474836.47", Ok(2147483647), Err(PART), Err(PART)),
        ("-21474836.48", Ok(-2147483648), Err(PART), Err(PART)),
    ];

    #[test]
    fn number_table(rt: HostRuntime) {
        for (word, limit, quantity, plain) in TABLE {
            assert_eq!(rt; read::<i32>(word.as_bytes(), Unit::Euro), limit, "{}", word);
            assert_eq!(rt;
                read::<u32>(word.as_bytes(), Unit::Megawatt),
                quantity,
                "{}",
                word
            );
            assert_eq!(rt;
                read::<u32>(word.as_bytes(), Unit::Count),
                plain,
                "{}",
                word
            );
        }
    }

    #[test]
    fn printed(rt: HostRuntime) {
        for (n, text) in [
            (-5, "-0.05"),
            (5000, "50.00"),
            (-2147483648, "-21474836.48"),
        ] {
            assert!(rt; show::<i32>(n, Unit::Euro).as_bytes() == text.as_bytes());
        }
        assert!(rt;
            show::<i32>(-2147483648, Unit::Megawatt).as_bytes() == b"-214748364.8".as_slice()
        );
        for (n, text) in [(0, "0.0"), (200, "20.0"), (4294967295, "429496729.5")] {
            assert!(rt; show::<u32>(n, Unit::Megawatt).as_bytes() == text.as_bytes());
        }
        assert!(rt; show::<u32>(4294967295, Unit::Count).as_bytes() == b"4294967295".as_slice());
        assert_eq!(rt; NumberFault::Range.number(), 20);
    }
}
