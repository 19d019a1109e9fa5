//! Number words, cut into their parts from the left.

ghost use Rattle.std.specs.Prelude.{◌≡◌, ◌<◌, ◌≤◌, length, IfSome, MatchOption};
ghost use Rattle.std.specs.Char.{digit_value, is_ascii_digit};
ghost use Rattle.std.specs.List.{list_all, prefix_len};
ghost use Rattle.std.specs.Str.Parse.{AllDigits, digits_value};
ghost use Rattle.fixed_num.specs.Scan.{digits_front, behind_digits, starts_with_minus, behind_sign, fraction_front, behind_fraction, power_of, short_number, written_power, scan_power, scan_unsigned, parts_of, IsReadable};
ghost use Rattle.fixed_num.specs.NumberWord.{IsNumberWord, HasParts};

/// The longest number word.
pub(crate) const MAX_LEN: usize = 64;
// The most digits of an exponent.
const MAX_EXPONENT_LEN: usize = 4;

/// The size of an exponent, and whether it is negative.
#[derive(Clone, Copy)]
pub(crate) struct Exponent {
    pub(crate) lowers: bool,
    pub(crate) size: usize,
}

/// The parts of a number word: its sign, the digits before and behind its point, and its exponent.
#[derive(Clone, Copy)]
pub(crate) struct Number<'a> {
    pub(crate) negative: bool,
    pub(crate) whole: &'a [u8],
    pub(crate) fraction: &'a [u8],
    pub(crate) exponent: Exponent,
}

/// Whether a minus stands in front, and what stands behind a sign.
pub(crate) fn split_sign(bytes: &[u8]) -> (bool, &[u8])
    ensures negative { result.0 ≡ starts_with_minus bytes.now }
    ensures rest { result.1.now ≡ behind_sign bytes.now }
{
    match bytes {
        [b'-', rest @ ..] => (true, rest),
        [b'+', rest @ ..] => (false, rest),
        _ => (false, bytes),
    }
}

fn digit_count(bytes: &[u8]) -> usize
    ensures { result ≡ prefix_len is_ascii_digit bytes.now }
{
    bytes
        .iter()
        .take_while(|byte| byte.is_ascii_digit())
        .count()
}

/// Whether each byte is a digit.
pub(crate) fn all_digits(bytes: &[u8]) -> bool
    ensures { result ≡ list_all is_ascii_digit bytes.now }
{
    bytes.iter().all(|byte| byte.is_ascii_digit())
}

fn split_digits(bytes: &[u8]) -> (&[u8], &[u8])
    ensures digits { result.0.now ≡ digits_front bytes.now }
    ensures rest { result.1.now ≡ behind_digits bytes.now }
{
    let count = digit_count(bytes);
    bytes.split_at(count)
}

fn split_fraction(bytes: &[u8]) -> (&[u8], &[u8])
    ensures digits { result.0.now ≡ fraction_front bytes.now }
    ensures rest { result.1.now ≡ behind_fraction bytes.now }
{
    match bytes {
        [b'.', rest @ ..] => split_digits(rest),
        _ => (&bytes[..0], bytes),
    }
}

/// What a digit counts.
pub(crate) fn digit_of(byte: u8) -> u64
    requires { digit_value byte < 10 }
    ensures value { result ≡ digit_value byte }
    ensures below_ten { result < 10 }
{
    u64::from(byte - b'0')
}

fn short_value(digits: &[u8]) -> usize
    requires few { length digits.now ≤ 4 }
    requires all_digits { AllDigits 10 digits.now }
    ensures { result ≡ digits_value 10 digits.now }
{
    let mut value = 0;
    for digit in digits {
        value = value * 10 + digit_of(*digit) as usize;
    }
    value
}

#[tactic(auto, unfolding(crate::specs::Scan::short_number))]
fn exponent_size(digits: &[u8]) -> Option<usize>
    ensures { result ≡ short_number digits.now }
{
    match digits.len() {
        1..=MAX_EXPONENT_LEN if all_digits(digits) => Some(short_value(digits)),
        _ => None,
    }
}

#[tactic(auto, unfolding(crate::specs::Scan::written_power))]
fn written_exponent(bytes: &[u8]) -> Option<Exponent>
    ensures { MatchOption result (written_power bytes.now ≡ None)
        (λ e. written_power bytes.now ≡ Some (power_of e.lowers e.size)) }
{
    let (lowers, digits) = split_sign(bytes);
    let size = exponent_size(digits)?;
    Some(Exponent { lowers, size })
}

#[tactic(auto, unfolding(crate::specs::Scan::scan_power))]
fn read_exponent(bytes: &[u8]) -> Option<Exponent>
    ensures { MatchOption result (scan_power bytes.now ≡ None)
        (λ e. scan_power bytes.now ≡ Some (power_of e.lowers e.size)) }
{
    match bytes {
        [] => Some(Exponent {
            lowers: false,
            size: 0,
        }),
        [b'e' | b'E', rest @ ..] => written_exponent(rest),
        _ => None,
    }
}

#[tactic(auto, unfolding(crate::specs::Scan::scan_unsigned))]
fn unsigned_number(negative: bool, bytes: &[u8]) -> Option<Number<'_>>
    ensures { MatchOption result (scan_unsigned negative bytes.now ≡ None)
        (λ n. scan_unsigned negative bytes.now
        ≡ Some (parts_of n.negative n.whole.now n.fraction.now (power_of n.exponent.lowers n.exponent.size))) }
{
    let (whole, behind) = split_digits(bytes);
    let (fraction, power) = split_fraction(behind);
    if whole.len() + fraction.len() == 0 {
        return None;
    }
    let exponent = read_exponent(power)?;
    Some(Number {
        negative,
        whole,
        fraction,
        exponent,
    })
}

/// The parts of a number word; `None` for any other word.
pub(crate) fn read_number(word: &[u8]) -> Option<Number<'_>>
    ensures parts { MatchOption result (¬ IsNumberWord word.now)
        (λ n. HasParts word.now
        (parts_of n.negative n.whole.now n.fraction.now (power_of n.exponent.lowers n.exponent.size))) }
    ensures readable { IfSome result (λ n. IsReadable n.whole.now n.fraction.now n.exponent.size) }
{
    if word.len() > MAX_LEN {
        return None;
    }
    let (negative, bytes) = split_sign(word);
    unsigned_number(negative, bytes)
}
