//! The two ways in which the programs read digits: a number in decimal, and a word in hexadecimal.
//!
//! A line says a number or a word in these ways alone: std's `parse` takes a sign too, and `from_str_radix` digits in upper case.
//!
//! ```
//! assert_eq!(rt; number("17"), Some(17));
//! assert_eq!(rt; word("0000001d"), Some(0x1D));
//! assert_eq!(rt; word("1D"), None);
//! ```
#![tactic(auto)]

#[cfg(test)]
mod tests;

ghost use Rattle.std.specs.Prelude.{◌↔◌, IsTrue, SomeIff};
ghost use Rattle.std.specs.Str.Parse.{digits_value};
ghost use Rattle.digits.specs.Digits.{IsNumber, IsWord, IsWordDigit};

/// The number that decimal digits spell, if it is below 2^64; nothing for any other text.
pub fn number(text: &str) -> Option<usize>
    ensures { SomeIff result (IsNumber text.now) (digits_value 10 text.now) }
{
    if text.starts_with('+') {
        return None;
    }
    text.parse().ok()
}

/// The word that eight hexadecimal digits in lower case spell; nothing for any other text.
#[tactic(auto, using(crate::proofs::Words::word_parses))]
pub fn word(text: &str) -> Option<u32>
    ensures { SomeIff result (IsWord text.now) (digits_value 16 text.now) }
{
    if !is_word(text) {
        return None;
    }
    u32::from_str_radix(text, 16).ok()
}

fn is_word(text: &str) -> bool
    ensures { IsTrue result ↔ IsWord text.now }
{
    text.len() == 8 && text.bytes().all(is_word_digit)
}

fn is_word_digit(byte: u8) -> bool
    ensures { IsTrue result ↔ IsWordDigit byte }
{
    matches!(byte, b'0'..=b'9' | b'a'..=b'f')
}
