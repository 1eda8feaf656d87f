//! A line of EPD or FEN, mended.

ghost use Rattle.std.specs.Prelude.{◌≡◌, IfOk, codes};
ghost use Rattle.std.specs.Str.{bytes_eq};
ghost use Rattle.chess_notation.specs.RecordFields.{line_fields};
ghost use Rattle.chess_notation.specs.Words.{behind, word_at as word_of_text};
ghost use Rattle.problem_import.specs.Numbers.{asked_by as asked_by_operation, asked_by_id as asked_by_id_of};
ghost use Rattle.problem_import.specs.Numbers.{asked_by_sign as asked_by_sign_of};
ghost use Rattle.problem_import.specs.Numbers.{asked_together, beside as beside_asked, bound_among, bound_of_word as bound_of_text, has_moves as does_have_moves};
ghost use Rattle.problem_import.specs.Numbers.{has_signs as does_have_signs};
ghost use Rattle.problem_import.specs.Numbers.{has_string as does_have_string};
ghost use Rattle.problem_import.specs.Numbers.{is_comment as is_comment_opcode, is_free as is_free_operation, is_silent as is_silent_opcode};
ghost use Rattle.problem_import.specs.Numbers.{or_by_id as other_or_by_id};
ghost use Rattle.problem_import.specs.Numbers.{parts_of, said};
ghost use Rattle.problem_import.specs.Numbers.{said_by};

use crate::changes::Changes;
use crate::fields::{behind_counters, push_counters, text_before};
use crate::lengths::{asked_by_sign, bound_of_word, length_digits, mate_digits};
use crate::operations::{cut_words, is_operation, push_bound_operation, push_claim, push_comment};
use crate::solutions::{bare, claimed, is_play, is_solution, is_try, push_joined};
use crate::texts::{is_same, push_byte, trimmed};
use crate::tokens::{Kind, Token, part_at, segment_at, token_at};
use chess_notation::{four_words, word_at};
use std::alloc::{AllocError, Global};
use stipulations::{Asked, moves_asked, moves_named};

/// A record that is made of a line.
#[derive(Drop)]
struct Mending<'a> {
    alloc: Global,
    /// What stands behind its four fields.
    text: Vec<u8>,
    changes: &'a mut Changes,
    /// Whether it has a bound, or the line has.
    is_bound: bool,
    /// Whether it claims keys, or the line does.
    has_keys: bool,
    /// Whether Black is to move.
    is_blacks: bool,
    /// The key that words have told of last.
    told: Vec<u8>,
    /// How many comments there are among `c0` to `c8`, of the line or added: the next is added behind them.
    comments: u8,
    /// What is to stand in `c8`, the last of them.
    last_words: Vec<u8>,
}

/// Whether an operation's opcode is `dm`.
fn is_bound_segment(segment: &[u8]) -> bool
    ensures { result ≡ bytes_eq (word_of_text segment.now) (codes "dm") }
{
    is_same(word_at(segment).0, "dm")
}

/// The number of moves that an operation `dm` asks, or 16 where it is larger.
fn bound_of(segment: &[u8]) -> u8
    ensures { result ≡ bound_of_text (word_of_text (behind segment.now)) }
{
    bound_of_word(word_at(word_at(segment).1).0)
}

/// The number of moves that the first `dm` among operations asks, if there is one.
fn bound_in(operations: &[u8]) -> Option<u8>
    ensures { result ≡ bound_among (parts_of 59 operations.now) }
{
    let mut rest = operations;
    while let Some(segment) = part_at(rest, b';') {
        if is_bound_segment(segment.text) {
            return Some(bound_of(segment.text));
        }
        rest = segment.rest;
    }
    None
}

/// Whether an opcode's operands are moves.
fn has_moves(opcode: &[u8]) -> bool
    ensures { result ≡ does_have_moves opcode.now }
{
    is_same(opcode, "bm")
        || is_same(opcode, "am")
        || is_same(opcode, "pv")
        || is_same(opcode, "pm")
        || is_same(opcode, "sm")
}

/// Whether an opcode is one of `c0` to `c9`.
fn is_comment(opcode: &[u8]) -> bool
    ensures { result ≡ is_comment_opcode opcode.now }
{
    match opcode {
        [letter, digit] => *letter == b'c' && digit.is_ascii_digit(),
        _ => false,
    }
}

/// Whether a text has a quotation mark.
fn has_string(text: &[u8]) -> bool
    ensures { result ≡ does_have_string text.now }
{
    for byte in text {
        if *byte == b'"' {
            return true;
        }
    }
    false
}

/// Whether what stands between two semicolons is words: it has no string, and begins with no opcode that says something of its operands.
fn is_free(segment: &[u8]) -> bool
    ensures { result ≡ is_free_operation segment.now }
{
    let opcode = word_at(segment).0;
    !has_string(segment)
        && !has_moves(opcode)
        && !is_comment(opcode)
        && !is_same(opcode, "dm")
        && !is_same(opcode, "id")
        && !is_same(opcode, "ce")
}

/// What the words among operands ask by a sign that stands alone, as `#2` among claimed keys.
fn asked_by_signs(operands: &[u8]) -> Asked
    ensures { result ≡ asked_together asked_by_sign_of Asked.Nothing (parts_of 32 operands.now) }
{
    let mut rest = operands;
    let mut asked = Asked::Nothing;
    while let Some(part) = part_at(rest, b' ') {
        asked = asked.and(asked_by_sign(part.text));
        rest = part.rest;
    }
    asked
}

/// Whether a sign may stand among an opcode's operands.
fn has_signs(opcode: &[u8]) -> bool
    ensures { result ≡ does_have_signs opcode.now }
{
    is_same(opcode, "bm") || is_same(opcode, "ce")
}

/// Whether an operation with such an opcode asks nothing by its text.
fn is_silent(opcode: &[u8]) -> bool
    ensures { result ≡ is_silent_opcode opcode.now }
{
    has_moves(opcode) || is_same(opcode, "dm") || is_same(opcode, "id")
}

/// What stands between two semicolons asks: by `bm`, `ce`, a comment, or the text of another operation, or words.
fn asked_by_segment(segment: &[u8]) -> Asked
    ensures { result ≡ asked_by_operation segment.now }
{
    let (opcode, operands) = word_at(segment);
    if has_signs(opcode) {
        asked_by_signs(operands)
    } else if is_comment(opcode) {
        moves_asked(operands)
    } else if is_silent(opcode) {
        Asked::Nothing
    } else {
        moves_asked(segment)
    }
}

/// What it asks by `id`.
fn asked_by_id(segment: &[u8]) -> Asked
    ensures { result ≡ asked_by_id_of segment.now }
{
    let (opcode, operands) = word_at(segment);
    if is_same(opcode, "id") {
        moves_named(operands)
    } else {
        Asked::Nothing
    }
}

/// What is asked, unless something beside it isn't understood.
fn beside(aside: Asked, asked: Asked) -> Asked
    ensures { result ≡ beside_asked aside asked }
{
    match aside {
        Asked::Unknown => Asked::Unknown,
        Asked::Nothing | Asked::Moves(_) | Asked::Two => asked,
    }
}

/// What an operation asks that isn't `id`, or where that is nothing what `id` does.
fn or_by_id(others: Asked, by_id: Asked) -> Asked
    ensures { result ≡ other_or_by_id others by_id }
{
    match others {
        Asked::Nothing => by_id,
        Asked::Moves(_) | Asked::Two | Asked::Unknown => beside(by_id, others),
    }
}

/// What operations ask together elsewhere than in `dm` and `id`.
fn asked_in(operations: &[u8]) -> Asked
    ensures { result ≡ asked_together asked_by_operation Asked.Nothing (parts_of 59 operations.now) }
{
    let mut rest = operations;
    let mut asked = Asked::Nothing;
    while let Some(segment) = part_at(rest, b';') {
        asked = asked.and(asked_by_segment(segment.text));
        rest = segment.rest;
    }
    asked
}

/// What they ask together by `id`.
fn asked_by_ids(operations: &[u8]) -> Asked
    ensures { result ≡ asked_together asked_by_id_of Asked.Nothing (parts_of 59 operations.now) }
{
    let mut rest = operations;
    let mut asked = Asked::Nothing;
    while let Some(segment) = part_at(rest, b';') {
        asked = asked.and(asked_by_id(segment.text));
        rest = segment.rest;
    }
    asked
}

/// The number of moves that operations say: that of `dm`, or else what they ask; or that they say two, or something in them isn't understood.
fn said_in(operations: &[u8]) -> Asked
    ensures { result ≡ said_by (parts_of 59 operations.now) }
{
    let asked = asked_in(operations);
    match bound_in(operations) {
        Some(moves) => asked.and(Asked::Moves(moves)),
        None => or_by_id(asked, asked_by_ids(operations)),
    }
}

/// The number of the comment that stands behind all others, from 0 to 9, of these operations.
fn next_comment(operations: &[u8]) -> u8 {
    let mut rest = operations;
    let mut next: u8 = 0;
    for _ in 0..operations.len() {
        let Some(segment) = segment_at(rest) else {
            break;
        };
        if let [b'c', digit @ b'0'..=b'8'] = word_at(segment.text).0 {
            next = next.max(*digit - b'0' + 1);
        }
        rest = segment.rest;
    }
    next
}

/// A move without the marks of praise and blame behind it.
fn without_marks(word: &[u8]) -> &[u8] {
    for (index, byte) in word.iter().enumerate() {
        if index > 0 && (*byte == b'!' || *byte == b'?') {
            return word.split_at(index).0;
        }
    }
    word
}

/// Whether one of these operations claims keys.
fn have_keys(operations: &[u8]) -> bool {
    let mut rest = operations;
    for _ in 0..operations.len() {
        let Some(segment) = segment_at(rest) else {
            return false;
        };
        if is_same(word_at(segment.text).0, "bm") {
            return true;
        }
        rest = segment.rest;
    }
    false
}

/// Whether a word is a move's number alone.
fn is_number_alone(word: &[u8]) -> bool {
    matches!(word, [b'0'..=b'9', .., b'.'])
}

impl Mending<'_> {
    /// Adds a bound.
    fn push_bound(&mut self, digits: &[u8]) -> Result<(), AllocError> {
        self.changes.bound = true;
        self.is_bound = true;
        self.text.extend_from_slice(b" dm ")?;
        self.text.extend_from_slice(digits)?;
        push_byte(&mut self.text, b';')
    }

    /// Adds what stands in a string of single quotation marks.
    fn push_requoted(&mut self, text: &[u8]) -> Result<(), AllocError> {
        self.changes.quotes = true;
        for byte in text {
            let plain = if *byte == b'"' { b'\'' } else { *byte };
            self.text.push(plain)?;
        }
        Ok(())
    }

    /// Adds an operand behind a space.
    fn push_token(&mut self, token: &Token<'_>) -> Result<(), AllocError> {
        self.text.push(b' ')?;
        if let Kind::Word = token.kind {
            return self.text.extend_from_slice(token.text);
        }
        self.text.push(b'"')?;
        if let Kind::String = token.kind {
            self.text.extend_from_slice(token.text)?;
        } else {
            self.push_requoted(token.text)?;
        }
        push_byte(&mut self.text, b'"')
    }

    /// Adds a move behind a space.
    fn push_move(&mut self, token: &Token<'_>) -> Result<(), AllocError> {
        if !matches!(token.kind, Kind::Word) {
            return self.push_token(token);
        }
        let bare = without_marks(token.text);
        if bare.len() < token.text.len() {
            self.changes.marks = true;
        }
        self.text.push(b' ')?;
        self.text.extend_from_slice(bare)
    }

    /// Adds operands as they are, or those that are moves.
    fn push_operands(&mut self, operands: &[u8], are_moves: bool) -> Result<(), AllocError> {
        let mut rest = operands;
        for _ in 0..operands.len() {
            let Some(token) = token_at(rest) else {
                break;
            };
            if are_moves {
                self.push_move(&token)?;
            } else {
                self.push_token(&token)?;
            }
            rest = token.rest;
        }
        Ok(())
    }

    /// Adds the keys that are claimed, but no tries: of a line of play its first move. The first number of moves among them is a bound, where
    /// there is none.
    fn push_keys(&mut self, operands: &[u8]) -> Result<(), AllocError> {
        let before = self.text.len();
        self.text.extend_from_slice(b" bm")?;
        let mut has_keys = false;
        let mut has_tries = false;
        let mut bound: &[u8] = &[];
        let is_play = is_play(operands);
        let mut rest = operands;
        for _ in 0..operands.len() {
            let Some(token) = token_at(rest) else {
                break;
            };
            if is_play && (has_keys || has_tries) {
                self.changes.moves = true;
                break;
            }
            match length_digits(token.text) {
                Some(digits) if matches!(token.kind, Kind::Word) && !self.is_bound => {
                    bound = digits;
                    self.is_bound = true;
                }
                _ if matches!(token.kind, Kind::Word) && is_try(token.text) => {
                    has_tries = true;
                    self.changes.marks = true;
                }
                _ => {
                    has_keys = !is_number_alone(token.text) || has_keys;
                    self.push_move(&token)?;
                }
            }
            rest = token.rest;
        }
        if has_keys || (bound.is_empty() && !has_tries) {
            self.text.push(b';')?;
        } else {
            self.text.truncate(before);
        }
        if bound.is_empty() {
            return Ok(());
        }
        self.push_bound(bound)
    }

    /// Adds an operation.
    fn push_operation(&mut self, operation: &[u8]) -> Result<(), AllocError> {
        let (opcode, operands) = word_at(operation);
        if opcode.is_empty() {
            return Ok(());
        }
        if is_same(opcode, "bm") {
            return self.push_keys(operands);
        }
        if is_same(opcode, "dm") {
            if let Some(digits) = length_digits(trimmed(operands)) {
                return self.push_bound(digits);
            }
        }
        self.text.push(b' ')?;
        self.text.extend_from_slice(opcode)?;
        self.push_operands(operands, has_moves(opcode))?;
        push_byte(&mut self.text, b';')
    }

    /// Whether words may stand in a comment: they have no string, and the line hasn't the last one itself.
    fn has_room(&self, words: &[u8]) -> bool {
        self.comments < 9 && !words.contains(&b'"')
    }

    /// Adds words as a comment, so that nothing of them is lost, in the last one behind others; as an operation where there is no room.
    fn push_words(&mut self, words: &[u8]) -> Result<(), AllocError> {
        if !self.has_room(words) {
            return self.push_operation(words);
        }
        let words = trimmed(words);
        if self.comments < 8 {
            push_comment(
                &mut self.text,
                self.comments,
                cut_words(words, self.changes),
            )?;
            self.comments += 1;
            return Ok(());
        }
        if !self.last_words.is_empty() {
            self.last_words.extend_from_slice(b" / ")?;
        }
        self.last_words.extend_from_slice(words)
    }

    /// Adds words that say a number of moves.
    fn push_bound_words(&mut self, words: &[u8]) -> Result<(), AllocError> {
        self.changes.bound = self.changes.bound || self.has_room(words);
        self.push_words(words)
    }

    /// Adds words that say none.
    fn push_remark(&mut self, words: &[u8]) -> Result<(), AllocError> {
        self.changes.quotes = self.changes.quotes || self.has_room(words);
        self.push_words(words)
    }

    /// Claims the keys that words tell of, where the line claims none itself: behind a `?` where they leave open which. Words that tell of
    /// another than words before claim that, too.
    fn claim(&mut self, key: &[u8], words: &[u8]) -> Result<(), AllocError> {
        let key = bare(key);
        let is_first = self.told.is_empty();
        if self.has_keys && is_first || !is_first && self.told.as_slice() == key {
            return Ok(());
        }
        self.has_keys = true;
        self.changes.moves = true;
        let mut keys = Vec::from_slice(self.alloc, key)?;
        let is_open = push_joined(&mut keys, self.is_blacks, words)?;
        let mut told = Vec::new(self.alloc);
        if is_open {
            told.push(b'?')?;
        }
        told.extend_from_slice(keys.as_slice())?;
        push_claim(&mut self.text, told.as_slice())?;
        self.told = Vec::from_slice(self.alloc, key)?;
        Ok(())
    }

    /// Adds words that tell of a solution, where there is room; the key that they claim stands before them.
    fn push_solution(&mut self, words: &[u8]) -> Result<(), AllocError> {
        if let Some(key) = claimed(self.is_blacks, words) {
            self.claim(key, words)?;
        }
        if !self.has_room(words) {
            self.changes.cut = true;
            return Ok(());
        }
        self.push_remark(words)
    }

    /// Adds words that are no operation of this crate's, as one where the grammar has them.
    fn push_free(&mut self, words: &[u8]) -> Result<(), AllocError> {
        if is_solution(self.is_blacks, words) {
            return self.push_solution(words);
        }
        if !matches!(moves_asked(words), Asked::Nothing) {
            return self.push_bound_words(words);
        }
        if is_operation(words) {
            self.push_operation(words)
        } else {
            self.push_remark(words)
        }
    }

    /// Adds what stands between two semicolons: a number of moves is a bound.
    fn push_segment(&mut self, segment: &[u8]) -> Result<(), AllocError> {
        let (first, behind) = word_at(segment);
        let is_more = self.is_bound;
        match length_digits(first) {
            Some(digits) if !is_more && trimmed(behind).is_empty() => {
                return self.push_bound(digits);
            }
            Some(_) => return self.push_bound_words(segment),
            None => {}
        }
        match mate_digits(segment) {
            Some(digits) if !is_more => return self.push_bound(digits),
            Some(_) => return self.push_bound_words(segment),
            None => {}
        }
        if is_free(segment) {
            self.push_free(segment)
        } else {
            self.push_operation(segment)
        }
    }

    /// Adds the bound that the line says, unless it has one.
    fn push_asked(&mut self, said: Asked) -> Result<(), AllocError> {
        let Asked::Moves(moves) = said else {
            return Ok(());
        };
        if self.is_bound {
            return Ok(());
        }
        self.changes.bound = true;
        self.is_bound = true;
        push_bound_operation(&mut self.text, moves)
    }

    /// Adds the last comment, if something is to stand in it.
    fn push_last_words(&mut self) -> Result<(), AllocError> {
        let words = self.last_words.as_slice();
        if words.is_empty() {
            return Ok(());
        }
        push_comment(&mut self.text, 8, cut_words(words, self.changes))
    }

    /// Adds all operations; an empty one is dropped, and told but where it is the first.
    fn push_operations(&mut self, operations: &[u8]) -> Result<(), AllocError> {
        let mut rest = operations;
        let mut is_first = true;
        for _ in 0..operations.len() {
            let Some(segment) = segment_at(rest) else {
                break;
            };
            if !segment.is_ended {
                self.changes.semicolon = true;
            }
            if segment.text.is_empty() {
                self.changes.operation = self.changes.operation || !is_first;
            } else {
                self.push_segment(segment.text)?;
            }
            is_first = false;
            rest = segment.rest;
        }
        self.push_last_words()
    }
}

/// What a line is once it is mended.
#[derive(Drop)]
pub(crate) struct Mended {
    pub(crate) text: Vec<u8>,
    /// The number of moves that the line says.
    pub(crate) said: Asked,
    /// Whether an operation `dm` says it.
    pub(crate) is_by_dm: bool,
}

/// A line in printable ASCII, mended. One that has fewer words than a position has fields stays as it is.
pub(crate) fn mended_line(
    alloc: Global,
    line: &[u8],
    changes: &mut Changes,
) -> Result<Mended, AllocError>
    ensures fields { IfOk result (λ mended. line_fields mended.text.items ≡ line_fields line.now) }
    ensures said { IfOk result (λ mended. mended.said ≡ said line.now) }
{
    let fields = four_words(line);
    let said = said_in(behind_counters(fields.behind));
    if fields.target.is_empty() {
        let text = Vec::from_slice(alloc, line)?;
        return Ok(Mended {
            text,
            said,
            is_by_dm: false,
        });
    }
    let mut mending = Mending {
        alloc,
        text: Vec::new(alloc),
        changes,
        is_bound: false,
        has_keys: false,
        is_blacks: is_same(fields.side, "b"),
        told: Vec::new(alloc),
        comments: 0,
        last_words: Vec::new(alloc),
    };
    let operations = push_counters(&mut mending.text, fields.behind)?;
    let is_by_dm = bound_in(operations).is_some();
    mending.is_bound = is_by_dm;
    mending.has_keys = have_keys(operations);
    mending.comments = next_comment(operations);
    mending.push_operations(operations)?;
    mending.push_asked(said)?;
    let mended = text_before(alloc, &fields, mending.text.as_slice())?;
    Ok(Mended {
        text: mended,
        said,
        is_by_dm,
    })
}
