//! How many records are printed, and how many problems refused.

ghost use Rattle.std.specs.Prelude.{◌≡◌, ◌++◌, IfOk, OnOk, string_bytes};
ghost use Rattle.problem_import.specs.ImportCounts.{aside_text, counts_text, no_counts, some_text};
ghost use Rattle.problem_import.specs.inside.Counted.{is_no_bound as is_no_bound_of, with_aside as with_aside_of, with_record as with_record_of, with_refusal as with_refusal_of};

use crate::import_faults::ImportFault;
use crate::problem_lines::one_if;
use byte_streams::NoMemory;
use std::alloc::{AllocError, Global};

/// How many records are printed, and how many problems are refused.
#[derive(Clone, Copy, Debug, PartialEq, Eq)]
pub struct ImportCounts {
    pub records: usize,
    pub refused: usize,
    /// How many of the refused ones say no number of moves.
    pub unbound: usize,
    /// How many of the records say no number of moves.
    pub unnumbered: usize,
    /// How many lines are passed over that were put aside, as remarks, and have a placement.
    pub aside: usize,
    /// The number of the first of them.
    pub first_aside: usize,
}

/// Whether a problem is refused for want of a number of moves.
fn is_no_bound(fault: ImportFault) -> bool
    ensures { result ≡ is_no_bound_of fault }
{
    matches!(fault, ImportFault::NoBound)
}

impl ImportCounts {
    /// Of nothing.
    pub fn new() -> ImportCounts
        ensures { result ≡ no_counts }
    {
        ImportCounts {
            records: 0,
            refused: 0,
            unbound: 0,
            unnumbered: 0,
            aside: 0,
            first_aside: 0,
        }
    }

    /// With one record more, which says its number of moves or not.
    pub(crate) fn with_record(self, says: bool) -> ImportCounts
        ensures { result ≡ with_record_of says self }
    {
        ImportCounts {
            records: self.records.saturating_add(1),
            unnumbered: self.unnumbered.saturating_add(one_if(!says)),
            ..self
        }
    }

    /// With one problem more that is refused.
    pub(crate) fn with_refusal(self, fault: ImportFault) -> ImportCounts
        ensures { result ≡ with_refusal_of (is_no_bound_of fault) self }
    {
        ImportCounts {
            refused: self.refused.saturating_add(1),
            unbound: self.unbound.saturating_add(one_if(is_no_bound(fault))),
            ..self
        }
    }

    /// With one line more that is passed over and has a placement.
    pub(crate) fn with_aside(self, number: usize) -> ImportCounts
        ensures { result ≡ with_aside_of number self }
    {
        ImportCounts {
            aside: self.aside.saturating_add(1),
            first_aside: if self.aside == 0 {
                number
            } else {
                self.first_aside
            },
            ..self
        }
    }

    /// Adds the counts, one behind the other.
    #[tactic(auto, unfolding(crate::specs::ImportCounts::counts_text))]
    fn push_to(&self, alloc: Global, text: &mut String) -> Result<(), AllocError>
        ensures { OnOk result (string_bytes text.new ≡ string_bytes text.old ++ counts_text self.now) }
    {
        text.push_str("records ")?;
        text.push_str(self.records.to_string(alloc)?.as_str())?;
        text.push_str(", refused ")?;
        text.push_str(self.refused.to_string(alloc)?.as_str())?;
        push_some(
            alloc,
            text,
            self.unbound,
            " refused for want of a number of moves",
        )?;
        push_some(
            alloc,
            text,
            self.unnumbered,
            " printed without a number of moves",
        )?;
        push_aside(alloc, text, self.aside, self.first_aside)
    }

    /// The counts on one line, without a newline: those at the end only where they are not 0.
    pub fn text(&self, alloc: Global) -> Result<String, NoMemory>
        ensures { IfOk result (λ text. string_bytes text ≡ counts_text self.now) }
    {
        let mut text = String::new(alloc);
        self.push_to(alloc, &mut text)?;
        Ok(text)
    }
}

/// Adds how many lines were put aside, and the number of the first, where there are any.
fn push_aside(
    alloc: Global,
    text: &mut String,
    count: usize,
    first: usize,
) -> Result<(), AllocError>
    ensures { OnOk result (string_bytes text.new ≡ string_bytes text.old ++ aside_text count first) }
{
    if count == 0 {
        return Ok(());
    }
    push_some(
        alloc,
        text,
        count,
        " passed over that begin with `%`, `;` or `#` and have a FEN",
    )?;
    text.push_str(", the first of them line ")?;
    text.push_str(first.to_string(alloc)?.as_str())
}

/// Adds how many there are of this kind, where there are any.
fn push_some(alloc: Global, text: &mut String, count: usize, kind: &str) -> Result<(), AllocError>
    ensures { OnOk result (string_bytes text.new ≡ string_bytes text.old ++ some_text count kind.now) }
{
    if count == 0 {
        return Ok(());
    }
    text.push_str("; ")?;
    text.push_str(count.to_string(alloc)?.as_str())?;
    text.push_str(kind)
}
