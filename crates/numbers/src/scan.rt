// The scan of a number word that has no sign: its digits and its exponent.
ghost use Rattle.std.specs.Prelude.{◌≡◌, ◌+◌, ◌*◌, ◌^◌, ◌≤◌, pos, length, MatchOption};
ghost use Rattle.std.specs.Char.{is_ascii_digit};
ghost use Rattle.std.specs.List.{prefix_len};
ghost use Rattle.numbers.specs.Numerals.{AllDigits, SomeDigits, number_on};
ghost use Rattle.numbers.specs.Scans.{NoDigit, Splits, Pointed, LonePoint, PowerIs, NoPower, BodyIs, NoBody, Near};

// A number: `mantissa` times ten to the power of `exponent`.
#[derive(Clone, Copy)]
pub(crate) struct Scientific {
    pub(crate) mantissa: u64,
    pub(crate) exponent: i64,
    ghost near: { Near exponent },
}

// A word, or a part of one.
#[derive(Clone, Copy)]
pub(crate) struct Part<'a> {
    pub(crate) bytes: &'a [u8],
    ghost short: { length bytes.now ≤ 16 },
}

// How many digits stand at the front.
fn digit_run(s: &[u8]) -> usize
    ensures { result ≡ prefix_len is_ascii_digit s.now }
{
    s.iter().take_while(|b| b.is_ascii_digit()).count()
}

// The number that digits write, where `start` stands before them.
fn read_on(start: u64, ds: &[u8]) -> u64
    requires { (AllDigits ds.now) × ((start + 1) * 10 ^ length ds.now ≤ 2 ^ 63) }
    ensures { result ≡ number_on start ds.now }
{
    let mut n = start;
    for d in ds {
        n = n * 10 + u64::from(*d - b'0');
    }
    n
}

// The digits at the front, and what follows them.
fn digits_then(s: &[u8]) -> (&[u8], &[u8])
    ensures { Splits s.now result.0.now result.1.now }
{
    s.split_at(digit_run(s))
}

// The number that is written by digits alone.
fn read_digits(s: Part) -> Option<i64>
    ensures { MatchOption result (SomeDigits s.entry.bytes.now → ⊥) (λ n. SomeDigits s.entry.bytes.now × (n ≡ pos (number_on 0 s.entry.bytes.now))) }
{
    let (digits, rest) = digits_then(s.bytes);
    if digits.is_empty() || !rest.is_empty() {
        return None;
    }
    // `as`: at most 16 digits fit, and `try_from` would add a refusal that cannot happen.
    Some(read_on(0, digits) as i64)
}

// The power of ten that an exponent writes, or nothing.
fn read_power(s: Part) -> Option<i64>
    ensures { MatchOption result (NoPower s.entry.bytes.now) (PowerIs s.entry.bytes.now) }
{
    match s.bytes {
        [] => Some(0),
        [b'e' | b'E', b'-', bytes @ ..] => Some(-read_digits(Part { bytes })?),
        [b'e' | b'E', b'+', bytes @ ..] => read_digits(Part { bytes }),
        [b'e' | b'E', bytes @ ..] => read_digits(Part { bytes }),
        _ => None,
    }
}

// The digits after a point, which may be missing, and what follows them.
fn read_point(s: &[u8]) -> Option<(&[u8], &[u8])>
    requires { NoDigit s.now }
    ensures { MatchOption result (LonePoint s.now) (λ p. Pointed s.now p.0.now p.1.now) }
{
    let [b'.', after @ ..] = s else {
        return Some((&s[0..0], s));
    };
    let (ds, rest) = digits_then(after);
    if ds.is_empty() {
        None
    } else {
        Some((ds, rest))
    }
}

// What a word with no sign writes.
pub(crate) fn scan_body(s: Part) -> Option<Scientific>
    ensures { MatchOption result (NoBody s.entry.bytes.now) (λ n. BodyIs s.entry.bytes.now n.mantissa n.exponent) }
{
    let (whole, rest) = digits_then(s.bytes);
    if whole.is_empty() {
        return None;
    }
    let (decimals, tail) = read_point(rest)?;
    let power = read_power(Part { bytes: tail })?;
    Some(Scientific {
        mantissa: read_on(read_on(0, whole), decimals),
        // `as`, as in `read_digits`.
        exponent: power - decimals.len() as i64,
    })
}
