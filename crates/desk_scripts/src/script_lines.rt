//! The lines of a script, one by one.

ghost use Rattle.std.specs.Prelude.{◌≡◌, ◌<◌, ℕ, [], ◌∷◌, IfNone, IfSome, length};
ghost use Rattle.text_lines.specs.Lines.{lines_of};
ghost use Rattle.desk_scripts.specs.Scripts.{said, said_from};
ghost use Rattle.desk_scripts.specs.inside.ScriptReading.{line_value};

use chess_notation::is_blank;
use std::marker::Model;
use text_lines::{first_line, without_cr};

/// A line that isn't blank, without one CR at its end, and its number in the script, counted from 1.
#[derive(Clone, Copy)]
pub struct Line<'a> {
    pub number: usize,
    pub text: &'a [u8],
}

/// The lines of a script that are still to come.
#[derive(Drop)]
pub struct Lines<'a> {
    rest: &'a [u8],
    /// How many lines were passed.
    passed: usize,
}

impl<'a> Model for Lines<'a> {
    ghost use Rattle.std.specs.Prelude.{◌+◌, ◌<◌, ◌^◌, List, length};
    ghost use Rattle.text_lines.specs.Lines.{lines_of};
    ghost use Rattle.desk_scripts.specs.Scripts.{Line, said_from};

    ghost Value = { List Line };

    ghost view = { λ l. said_from (l.passed + 1) (lines_of l.rest.now) };

    ghost invariant = { λ l. l.passed + length l.rest.now < 2 ^ 64 };
}

/// The first line of a text, and what follows its newline; all of it where there is none.
fn line_and_rest(text: &[u8]) -> (&[u8], &[u8])
    ensures said { (k : ℕ) → said_from k (lines_of text.now) ≡ said_from k (result.0.now ∷ lines_of result.1.now) }
    ensures shorter { 0 < length text.now → length result.1.now < length text.now }
{
    match first_line(text) {
        Some(cut) => cut,
        None => (text, &[]),
    }
}

impl<'a> Lines<'a> {
    /// All lines of a script.
    #[tactic(auto, unfolding(crate::specs::Scripts::said))]
    pub fn new(script: &'a [u8]) -> Lines<'a>
        ensures { result ≡ said script.now }
    {
        Lines {
            rest: script,
            passed: 0,
        }
    }

    /// The next line that isn't blank.
    pub fn next(&mut self) -> Option<Line<'a>>
        ensures none { IfNone result (self.old ≡ []) }
        ensures line { IfSome result (λ line. self.old ≡ line_value line ∷ self.new) }
    {
        while !self.rest.is_empty() {
            let (line, rest) = line_and_rest(self.rest);
            self.rest = rest;
            self.passed += 1;
            let text = without_cr(line);
            if !is_blank(text) {
                return Some(Line {
                    number: self.passed,
                    text,
                });
            }
        }
        None
    }
}
