// What a word of a line says, as a number or as bytes.
ghost use Rattle.std.specs.Prelude.{◌≡◌, ◌*◌, ◌^◌, ◌<◌, ◌≤◌, length, IfOk, IfErr, OnErr};
ghost use Rattle.std.specs.Result.{OkIff};
ghost use Rattle.std.specs.Str.Parse.{IsNumeral, digits_value, without_leading_plus};
ghost use Rattle.arrayvec.specs.ArrayVec.{array_vec_len};
ghost use Rattle.twyn.specs.declared.words.ParseError.TheVariants.{BadNumber};

use arrayvec::ArrayVec;
use std::num::ParseIntError;

/// The most bytes that a word says.
const MOST_BYTES: usize = 8192;

/// The bytes that a word says.
pub(crate) type Bytes = ArrayVec<u8, MOST_BYTES>;

/// Why a line cannot be read.
#[derive(Clone, Copy, Debug, PartialEq, Eq)]
pub(crate) enum ParseError {
    /// It is longer than what is kept of a line.
    TooLong,
    /// It is not UTF-8.
    NotText,
    /// Its words are no command, or are too many or too few for one.
    NoCommand,
    /// A word is not a number, or one that is too large.
    BadNumber,
    /// A word is not bytes, or more of them than a word says.
    BadBytes,
}

impl From<ParseIntError> for ParseError {
    ghost from_gives = { λ _ e. e ≡ BadNumber };

    fn from(_: ParseIntError) -> ParseError {
        ParseError::BadNumber
    }
}

// The word, if no plus stands before its digits: `parse` would take one.
fn unsigned(word: &str) -> Result<&str, ParseError>
    ensures ok { IfOk result (λ w. w.now ≡ word.now) }
    ensures no_sign { IfOk result (λ w. without_leading_plus word.now ≡ word.now) }
    ensures sign { OnErr result (¬ (IsNumeral 10 word.now)) }
    ensures err { IfErr result (λ e. e ≡ BadNumber) }
{
    if word.starts_with('+') {
        return Err(ParseError::BadNumber);
    }
    Ok(word)
}

/// The decimal number that the word says: 0 to 4,294,967,295.
pub(crate) fn number(word: &str) -> Result<u32, ParseError>
    ensures value { OkIff result (IsNumeral 10 word.now × (digits_value 10 word.now < 2 ^ 32)) (digits_value 10 word.now) }
    ensures err { IfErr result (λ e. e ≡ BadNumber) }
{
    Ok(unsigned(word)?.parse::<u32>()?)
}

/// The read-protect code that the word says: 0 to 255.
pub(crate) fn code(word: &str) -> Result<u8, ParseError>
    ensures value { OkIff result (IsNumeral 10 word.now × (digits_value 10 word.now < 2 ^ 8)) (digits_value 10 word.now) }
    ensures err { IfErr result (λ e. e ≡ BadNumber) }
{
    Ok(unsigned(word)?.parse::<u8>()?)
}

/// Whether the number that the word says is 1, and not 0.
pub(crate) fn flag(word: &str) -> Result<bool, ParseError>
    ensures { IfErr result (λ e. e ≡ BadNumber) }
{
    match number(word)? {
        0 => Ok(false),
        1 => Ok(true),
        _ => Err(ParseError::BadNumber),
    }
}

// A hexadecimal digit's value, in either case.
fn digit(b: u8) -> Result<u8, ParseError>
    ensures { IfOk result (λ d. d ≤ 15) }
{
    match b {
        b'0'..=b'9' => Ok(b - b'0'),
        b'A'..=b'F' => Ok(b - b'A' + 10),
        b'a'..=b'f' => Ok(b - b'a' + 10),
        _ => Err(ParseError::BadBytes),
    }
}

/// The bytes that the word says, in pairs of hexadecimal digits, at most 8,192. `-` says none.
pub(crate) fn bytes(word: &str) -> Result<Bytes, ParseError>
    ensures { IfOk result (λ b. 2 * array_vec_len b ≤ length word.now) }
{
    let mut bytes = Bytes::new();
    if word == "-" {
        return Ok(bytes);
    }
    let (pairs, rest) = word.as_bytes().as_chunks::<2>();
    if pairs.is_empty() || !rest.is_empty() {
        return Err(ParseError::BadBytes);
    }
    for [high, low] in pairs {
        let byte = 16 * digit(*high)? + digit(*low)?;
        if bytes.try_push(byte).is_err() {
            return Err(ParseError::BadBytes);
        }
    }
    Ok(bytes)
}
