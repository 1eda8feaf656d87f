//! What was changed to make a record.

ghost use Rattle.std.specs.Prelude.{◌≡◌, ◌++◌, ◌∷◌, List, IfOk, false, true};
ghost use Rattle.problem_import.specs.Changes.{IsChanged, all_changes, change_name, listed, separator};
ghost use Rattle.problem_import.specs.inside.KeptChanges.{has_change};

use std::alloc::AllocError;

/// What a record was made of.
#[derive(Clone, Copy)]
pub(crate) enum Form {
    Line,
    Game,
    Popeye,
}

/// What may be changed to make a record.
#[derive(Clone, Copy)]
pub enum Change {
    /// It was a game in PGN.
    Pgn,
    /// It was a problem for Popeye.
    Popeye,
    /// Letters beyond printable ASCII.
    Letters,
    /// Tabs, or a CR within the line.
    Tabs,
    /// Quotation marks of another kind.
    Quotes,
    /// Marks behind moves.
    Marks,
    /// Moves that a record claims or avoids, named otherwise than in SAN.
    Moves,
    /// A bound in another form.
    Bound,
    /// The last semicolon, which wasn't there.
    Semicolon,
    /// An operation without an opcode.
    Operation,
    /// An `id`, cut to the longest string.
    Cut,
    /// Spaces, where nothing else was changed.
    Spaces,
}

/// What was changed to make a record.
#[derive(Clone, Copy)]
pub(crate) struct Changes {
    pub(crate) form: Form,
    pub(crate) letters: bool,
    pub(crate) tabs: bool,
    pub(crate) quotes: bool,
    pub(crate) marks: bool,
    pub(crate) moves: bool,
    pub(crate) bound: bool,
    pub(crate) semicolon: bool,
    pub(crate) operation: bool,
    pub(crate) cut: bool,
}

impl Change {
    /// Its name.
    fn name(self) -> &'static str
        ensures { result.now ≡ change_name self }
    {
        match self {
            Change::Pgn => "PGN",
            Change::Popeye => "Popeye",
            Change::Letters => "letters",
            Change::Tabs => "tabs",
            Change::Quotes => "quotation marks",
            Change::Marks => "marks behind moves",
            Change::Moves => "moves",
            Change::Bound => "bound",
            Change::Semicolon => "semicolon",
            Change::Operation => "empty operation",
            Change::Cut => "cut",
            Change::Spaces => "spaces",
        }
    }
}

/// What stands before a name: a colon before the first, a comma before another.
fn separator_of(is_first: bool) -> &'static str
    ensures { result.now ≡ separator is_first }
{
    if is_first { ": " } else { ", " }
}

impl Changes {
    /// Nothing but the form.
    pub(crate) fn none(form: Form) -> Changes {
        Changes {
            form,
            letters: false,
            tabs: false,
            quotes: false,
            marks: false,
            moves: false,
            bound: false,
            semicolon: false,
            operation: false,
            cut: false,
        }
    }

    /// The same, and a bound.
    pub(crate) fn of_bound(self) -> Changes
        ensures { result.form ≡ self.form }
    {
        Changes {
            bound: true,
            ..self
        }
    }

    /// The same, made of another form.
    pub(crate) fn of(self, form: Form) -> Changes
        ensures { result.form ≡ form }
    {
        Changes { form, ..self }
    }

    /// These and others.
    pub(crate) fn and(self, other: Changes) -> Changes {
        Changes {
            form: self.form,
            letters: self.letters || other.letters,
            tabs: self.tabs || other.tabs,
            quotes: self.quotes || other.quotes,
            marks: self.marks || other.marks,
            moves: self.moves || other.moves,
            bound: self.bound || other.bound,
            semicolon: self.semicolon || other.semicolon,
            operation: self.operation || other.operation,
            cut: self.cut || other.cut,
        }
    }

    /// Whether nothing is kept that was changed.
    fn is_none(&self) -> bool
        ensures { result ≡ has_change self.now Change.Spaces }
    {
        let Form::Line = self.form else {
            return false;
        };
        if self.letters || self.tabs {
            return false;
        }
        if self.quotes || self.marks {
            return false;
        }
        if self.moves {
            return false;
        }
        if self.bound || self.semicolon {
            return false;
        }
        !(self.operation || self.cut)
    }

    /// Whether this was changed.
    fn has(&self, change: Change) -> bool
        ensures { result ≡ has_change self.now change }
    {
        match change {
            Change::Pgn => matches!(self.form, Form::Game),
            Change::Popeye => matches!(self.form, Form::Popeye),
            Change::Letters => self.letters,
            Change::Tabs => self.tabs,
            Change::Quotes => self.quotes,
            Change::Marks => self.marks,
            Change::Moves => self.moves,
            Change::Bound => self.bound,
            Change::Semicolon => self.semicolon,
            Change::Operation => self.operation,
            Change::Cut => self.cut,
            Change::Spaces => self.is_none(),
        }
    }

    /// Whether a text is the line that it was made of, as that stands.
    pub(crate) fn is_line(&self, line: &[u8], text: &[u8]) -> bool
        ensures line { result ≡ true → text.now ≡ line.now }
        ensures changed { result ≡ false → IsChanged line.now text.now (has_change self.now) }
    {
        let Form::Line = self.form else {
            return false;
        };
        text == line
    }

    /// Adds a name, if this was changed; gives whether the next is the first.
    fn push_if(
        &self,
        text: &mut Vec<u8>,
        is_first: bool,
        change: Change,
    ) -> Result<bool, AllocError>
        ensures { IfOk result (λ first. (more : List Change) → text.old.items ++ listed (has_change self.now) is_first (change ∷ more)
            ≡ text.new.items ++ listed (has_change self.now) first more) }
    {
        if !self.has(change) {
            return Ok(is_first);
        }
        text.extend_from_slice(separator_of(is_first).as_bytes())?;
        text.extend_from_slice(change.name().as_bytes())?;
        Ok(false)
    }

    /// Adds the names of what was changed, each behind what stands before it.
    pub(crate) fn push_names(&self, text: &mut Vec<u8>) -> Result<(), AllocError>
        ensures { IfOk result (λ _. text.new.items ≡ text.old.items ++ listed (has_change self.now) true all_changes) }
    {
        let changes = [
            Change::Pgn,
            Change::Popeye,
            Change::Letters,
            Change::Tabs,
            Change::Quotes,
            Change::Marks,
            Change::Moves,
            Change::Bound,
            Change::Semicolon,
            Change::Operation,
            Change::Cut,
            Change::Spaces,
        ];
        let mut rest = changes.as_slice();
        let mut is_first = true;
        while let [change, more @ ..] = rest {
            is_first = self.push_if(text, is_first, *change)?;
            rest = more;
        }
        Ok(())
    }
}
