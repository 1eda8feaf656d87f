//! The letters that men have in a language.

ghost use Rattle.std.specs.Prelude.{◌≡◌, ◌==◌};
ghost use Rattle.std.specs.List.{list_all, list_any};
ghost use Rattle.move_words.specs.Languages.{are_apart as are_letters_apart, has_german_letters as is_german_code};
ghost use Rattle.move_words.specs.Languages.{has_spanish_letters as is_spanish_code, is_capital as is_capital_byte, is_english as are_of_english};
ghost use Rattle.move_words.specs.Languages.{kind_of_letter, letter_of, letters_said, of_six as letters_of_six, six_letters as six_letters_of};

use chess_board::Kind;

/// The letters of men, capitals in ASCII.
#[derive(Clone, Copy, Debug, PartialEq, Eq)]
pub struct Letters {
    pub king: u8,
    pub queen: u8,
    pub rook: u8,
    pub bishop: u8,
    pub knight: u8,
    pub pawn: u8,
    /// What stands behind the king's, in a language that has two letters for him.
    pub behind_king: Option<u8>,
}

fn is_capital(byte: u8) -> bool
    ensures { result ≡ is_capital_byte byte }
{
    b'A' <= byte && byte <= b'Z'
}

/// Whether all are capitals.
fn are_capitals(text: &[u8]) -> bool
    ensures { result ≡ list_all is_capital_byte text.now }
{
    for byte in text {
        if !is_capital(*byte) {
            return false;
        }
    }
    true
}

/// Whether a byte stands in a text.
fn stands_in(text: &[u8], byte: u8) -> bool
    ensures { result ≡ list_any (λ other. other == byte) text.now }
{
    text.iter().any(|other| *other == byte)
}

/// Whether none stands there twice.
fn are_apart(text: &[u8]) -> bool
    ensures { result ≡ are_letters_apart text.now }
{
    let mut rest = text;
    while let [first, more @ ..] = rest {
        if stands_in(more, *first) {
            return false;
        }
        rest = more;
    }
    true
}

/// Six capitals, each another: the king's, queen's, rook's, bishop's, knight's and pawn's.
fn of_six(text: &[u8]) -> Option<Letters>
    ensures { result ≡ letters_of_six text.now }
{
    let [king, queen, rook, bishop, knight, pawn] = text else {
        return None;
    };
    if !are_capitals(text) || !are_apart(text) {
        return None;
    }
    Some(Letters {
        king: *king,
        queen: *queen,
        rook: *rook,
        bishop: *bishop,
        knight: *knight,
        pawn: *pawn,
        behind_king: None,
    })
}

fn has_german_letters(code: &str) -> bool
    ensures { result ≡ is_german_code code.now }
{
    code == "de" || code == "da" || code == "no" || code == "sv"
}

fn has_spanish_letters(code: &str) -> bool
    ensures { result ≡ is_spanish_code code.now }
{
    code == "es" || code == "it"
}

/// The six letters of a language's code; another word stands for itself.
fn six_letters(word: &str) -> &str
    ensures { result.now ≡ six_letters_of word.now }
{
    if has_german_letters(word) {
        "KDTLSB"
    } else if has_spanish_letters(word) {
        "RDTACP"
    } else if word == "en" {
        "KQRBNP"
    } else if word == "fr" {
        "RDTFCP"
    } else if word == "nl" {
        "KDTLPO"
    } else if word == "pl" {
        "KHWGSP"
    } else if word == "pt" {
        "RDTBCP"
    } else if word == "cs" {
        "KDVSJP"
    } else if word == "hu" {
        "KVBFHG"
    } else if word == "fi" {
        "KDTLRP"
    } else if word == "ro" {
        "RDTNCP"
    } else if word == "et" {
        "KLVORP"
    } else if word == "is" {
        "KDHBRP"
    } else {
        word
    }
}

impl Letters {
    /// Those of SAN.
    pub const ENGLISH: Letters = Letters {
        king: b'K',
        queen: b'Q',
        rook: b'R',
        bishop: b'B',
        knight: b'N',
        pawn: b'P',
        behind_king: None,
    };

    /// Those of Russian, written in Latin letters: `Kr` is the king, and `K` the knight.
    const RUSSIAN: Letters = Letters {
        king: b'K',
        queen: b'F',
        rook: b'L',
        bishop: b'S',
        knight: b'K',
        pawn: b'P',
        behind_king: Some(b'r'),
    };

    /// What a word stands for: six capitals, each another, for king, queen, rook, bishop, knight and pawn; or the code of a language.
    #[tactic(auto, unfolding(crate::specs::Languages::letters_said))]
    pub fn said(word: &str) -> Option<Letters>
        ensures { result ≡ letters_said word.now }
    {
        if word == "ru" {
            return Some(Letters::RUSSIAN);
        }
        of_six(six_letters(word).as_bytes())
    }

    /// Whether they are those of SAN.
    pub fn is_english(&self) -> bool
        ensures { result ≡ are_of_english self.now }
    {
        self.king == b'K'
            && self.queen == b'Q'
            && self.rook == b'R'
            && self.bishop == b'B'
            && self.knight == b'N'
            && self.pawn == b'P'
            && self.behind_king.is_none()
    }

    /// The kind of man that a letter stands for.
    pub fn kind(&self, letter: u8) -> Option<Kind>
        ensures { result ≡ kind_of_letter self.now letter }
    {
        if letter == self.queen {
            Some(Kind::Queen)
        } else if letter == self.rook {
            Some(Kind::Rook)
        } else if letter == self.bishop {
            Some(Kind::Bishop)
        } else if letter == self.knight {
            Some(Kind::Knight)
        } else if letter == self.pawn {
            Some(Kind::Pawn)
        } else if letter == self.king {
            Some(Kind::King)
        } else {
            None
        }
    }

    /// The letter of a kind of man; of a king's two the first.
    pub fn letter(&self, kind: Kind) -> u8
        ensures { result ≡ letter_of self.now kind }
    {
        match kind {
            Kind::Pawn => self.pawn,
            Kind::Knight => self.knight,
            Kind::Bishop => self.bishop,
            Kind::Rook => self.rook,
            Kind::Queen => self.queen,
            Kind::King => self.king,
        }
    }
}
