//! Letters of Cyrillic and Greek, those of Latin that have no marks to lose, and signs, in ASCII (Cyrillic and Greek much as BGN/PCGN have
//! them for Russian and ISO 843 for Greek, without marks).

/// Letters in rows, and what stands for them in that order, each behind a space. The hard and the soft sign of Russian are nothing.
static ROWS: [(&str, &str); 12] = [
    (
        "АБВГДЕЖЗИЙКЛМНОПРСТУФХЦЧШЩЪЫЬЭЮЯ",
        "A B V G D E Zh Z I I K L M N O P R S T U F Kh Ts Ch Sh Shch  Y  E Yu Ya",
    ),
    (
        "абвгдежзийклмнопрстуфхцчшщъыьэюя",
        "a b v g d e zh z i i k l m n o p r s t u f kh ts ch sh shch  y  e yu ya",
    ),
    // Of Ukrainian, Serbian and Macedonian, and older ones.
    ("ІЄҐЂЅЈЉЊЋЏѢѲѴ", "I Ye G Dj Dz J Lj Nj C Dz E F I"),
    ("ієґђѕјљњћџѣѳѵ", "i ie g dj dz j lj nj c dz e f i"),
    // Of Kazakh and Tatar.
    ("ӘҒҖҚҢӨҰҮҺ", "A G Zh K N O U U H"),
    ("әғҗқңөұүһ", "a g zh k n o u u h"),
    (
        "ΑΒΓΔΕΖΗΘΙΚΛΜΝΞΟΠΡΣΤΥΦΧΨΩ",
        "A V G D E Z I Th I K L M N X O P R S T Y F Ch Ps O",
    ),
    (
        "αβγδεζηθικλμνξοπρςστυφχψω",
        "a v g d e z i th i k l m n x o p r s s t y f ch ps o",
    ),
    ("ÆŒØŁĐÐÞĦŦŊƏẞĲ", "AE OE O L D D Th H T Ng A SS IJ"),
    (
        "æœøłđðþħŧŋəßĳıȷĸſŀŉ",
        "ae oe o l d d th h t ng a ss ij i j k s l 'n",
    ),
    ("ǄǅǆǇǈǉǊǋǌﬀﬁﬂªº", "DZ Dz dz LJ Lj lj NJ Nj nj ff fi fl a o"),
    (
        "\u{2010}\u{2011}\u{2012}\u{2013}\u{2014}\u{2212}\u{2026}\u{02bb}\u{02bc}№×½†‡",
        "- - - - - - ... ' ' No. x 1/2 + +",
    ),
];

/// What stands for a letter of a row.
fn latin_in(letters: &str, latin: &'static str, c: char) -> Option<&'static str> {
    for (letter, word) in letters.chars().zip(latin.split(' ')) {
        if letter == c {
            return Some(word);
        }
    }
    None
}

/// What stands for a letter or a sign; nothing for another.
pub(crate) fn latin_of(c: char) -> Option<&'static str> {
    for (letters, latin) in &ROWS {
        let found = latin_in(letters, latin, c);
        if found.is_some() {
            return found;
        }
    }
    None
}
