//! Numbers of moves, as people write them.

ghost use Rattle.std.specs.Prelude.{◌≡◌, ◌≤◌, length, map};
ghost use Rattle.stipulations.specs.Numbers.{digits_number as number_of_digits, is_first_digit as is_digit_of_first, named_number as number_of_name};
ghost use Rattle.stipulations.specs.Numbers.{number as number_of_word, number_among as number_among_names, one_too, or_else};

use crate::words::is_word;

/// The language of a phrase, and of the word for its number.
#[derive(Clone, Copy)]
pub(crate) enum Language {
    /// Signs and digits alone.
    Signs,
    English,
    German,
    French,
    Spanish,
    Italian,
    Dutch,
    Polish,
    Russian,
}

static ENGLISH: [&str; 15] = [
    "one", "two", "three", "four", "five", "six", "seven", "eight", "nine", "ten", "eleven",
    "twelve", "thirteen", "fourteen", "fifteen",
];

static GERMAN: [&str; 15] = [
    "einem", "zwei", "drei", "vier", "funf", "sechs", "sieben", "acht", "neun", "zehn", "elf",
    "zwolf", "dreizehn", "vierzehn", "funfzehn",
];

static GERMAN_TOO: [&str; 15] = [
    "eins",
    "zwei",
    "drei",
    "vier",
    "fuenf",
    "sechs",
    "sieben",
    "acht",
    "neun",
    "zehn",
    "elf",
    "zwoelf",
    "dreizehn",
    "vierzehn",
    "fuenfzehn",
];

static FRENCH: [&str; 15] = [
    "un", "deux", "trois", "quatre", "cinq", "six", "sept", "huit", "neuf", "dix", "onze", "douze",
    "treize", "quatorze", "quinze",
];

static SPANISH: [&str; 15] = [
    "una", "dos", "tres", "cuatro", "cinco", "seis", "siete", "ocho", "nueve", "diez", "once",
    "doce", "trece", "catorce", "quince",
];

static ITALIAN: [&str; 15] = [
    "una",
    "due",
    "tre",
    "quattro",
    "cinque",
    "sei",
    "sette",
    "otto",
    "nove",
    "dieci",
    "undici",
    "dodici",
    "tredici",
    "quattordici",
    "quindici",
];

static DUTCH: [&str; 15] = [
    "een", "twee", "drie", "vier", "vijf", "zes", "zeven", "acht", "negen", "tien", "elf",
    "twaalf", "dertien", "veertien", "vijftien",
];

static POLISH: [&str; 10] = [
    "jednym",
    "dwoch",
    "trzech",
    "czterech",
    "pieciu",
    "szesciu",
    "siedmiu",
    "osmiu",
    "dziewieciu",
    "dziesieciu",
];

static RUSSIAN: [&str; 15] = [
    "odin",
    "dva",
    "tri",
    "chetyre",
    "pyat",
    "shest",
    "sem",
    "vosem",
    "devyat",
    "desyat",
    "odinnadtsat",
    "dvenadtsat",
    "trinadtsat",
    "chetyrnadtsat",
    "pyatnadtsat",
];

/// The first of two numbers, or the second where it isn't there.
pub(crate) fn first_of(first: Option<u8>, second: Option<u8>) -> Option<u8>
    ensures { result ≡ or_else first second }
{
    match first {
        Some(_) => first,
        None => second,
    }
}

fn is_first_digit(byte: u8) -> bool
    ensures { result ≡ is_digit_of_first byte }
{
    byte.is_ascii_digit() && byte != b'0'
}

/// One digit, or two.
pub(crate) fn digits_number(word: &[u8]) -> Option<u8>
    ensures { result ≡ number_of_digits word.now }
{
    match word {
        [a] if is_first_digit(*a) => Some(*a - b'0'),
        [a, b] if is_first_digit(*a) && b.is_ascii_digit() => {
            Some(10 * (*a - b'0') + (*b - b'0'))
        }
        _ => None,
    }
}

/// The number of a word among those for `first`, the next number and so on.
fn number_among(first: u8, names: &[&str], word: &[u8]) -> Option<u8>
    requires small { first ≤ 100 }
    requires few { length names.now ≤ 100 }
    ensures { result ≡ number_among_names first (map (λ name. name.now) names.now) word.now }
{
    let mut number = first;
    for name in names {
        if is_word(word, name) {
            return Some(number);
        }
        number += 1;
    }
    None
}

/// One, as Spanish and Italian have it beside `una`.
fn one_named(word: &[u8]) -> Option<u8>
    ensures { result ≡ one_too word.now }
{
    first_of(
        number_among(1, &["un"], word),
        number_among(1, &["uno"], word),
    )
}

/// The number of a language's word.
fn number_named(language: Language, word: &[u8]) -> Option<u8>
    ensures { result ≡ number_of_name language word.now }
{
    match language {
        Language::Signs => None,
        Language::English => number_among(1, &ENGLISH, word),
        Language::German => first_of(
            number_among(1, &GERMAN, word),
            number_among(1, &GERMAN_TOO, word),
        ),
        Language::French => number_among(1, &FRENCH, word),
        Language::Spanish => first_of(number_among(1, &SPANISH, word), one_named(word)),
        Language::Italian => first_of(number_among(1, &ITALIAN, word), one_named(word)),
        Language::Dutch => number_among(1, &DUTCH, word),
        Language::Polish => first_of(
            number_among(1, &POLISH, word),
            number_among(2, &["dwu"], word),
        ),
        Language::Russian => number_among(1, &RUSSIAN, word),
    }
}

/// A number in digits, or in a language's word.
pub(crate) fn number(language: Language, word: &[u8]) -> Option<u8>
    ensures { result ≡ number_of_word language word.now }
{
    match digits_number(word) {
        Some(number) => Some(number),
        None => number_named(language, word),
    }
}
