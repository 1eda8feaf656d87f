//! Laws about the definitions. A function here does nothing: its contract is the law.

ghost use Rattle.problem_sheets.specs.Laws.{EachReferred, LettersApart, NoMarkup};

/// No angle bracket and no quotation mark is left in a text that is escaped.
#[tactic(auto, using(crate::proofs::EscapedTexts::no_markup))]
pub fn no_markup()
    ensures { NoMarkup }
{}

/// Each ampersand in such a text begins one of five character references.
#[tactic(auto, using(crate::proofs::EscapedTexts::each_referred))]
pub fn each_referred()
    ensures { EachReferred }
{}

/// No two men's shapes are called by one letter.
#[tactic(auto, using(crate::proofs::ShapeLetters::letters_apart))]
pub fn letters_apart()
    ensures { LettersApart }
{}
