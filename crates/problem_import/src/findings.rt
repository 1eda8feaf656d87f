//! What was found of a problem: a text and how many moves it is to ask, or a fault.

ghost use Rattle.std.specs.Prelude.{◌≡◌, ◌+◌, ℕ, List, IfOk, length};
ghost use Rattle.move_words.specs.declared.languages.Letters.{Letters as LettersValue};
ghost use Rattle.problem_import.specs.inside.Findings.{AreFoundOf, IsFoundOf};
ghost use Rattle.problem_import.specs.inside.KnownSources.{AreFrom, IsFoundFrom};

use crate::changes::Changes;
use crate::import_faults::ImportFault;
use std::alloc::AllocError;

/// How many moves a text is to ask.
#[derive(Clone, Copy)]
pub(crate) enum Number {
    /// As many as its line says.
    Said(u8),
    /// None itself: its line says none, and is a record as it stands.
    Own,
    /// As many as are given, if any are: its line says none, and is no record.
    Unsaid,
}

/// What was found of a problem: what its record is to be, or why there is none.
#[derive(Drop)]
pub(crate) enum Found {
    /// A text, what was changed, and how many moves it is to ask.
    Text(Vec<u8>, Changes, Number),
    Fault(ImportFault),
}

/// What was found, and the number of its first line.
#[derive(Drop)]
pub(crate) struct Finding {
    pub(crate) number: usize,
    pub(crate) found: Found,
}

/// Adds a finding.
pub(crate) fn push_finding(findings: &mut Vec<Finding>, finding: Finding) -> Result<(), AllocError>
    ensures length { IfOk result (λ _. length findings.new.items ≡ length findings.old.items + 1) }
    ensures own { IfOk result (λ _. (line : List ℕ) → AreFoundOf line findings.old.items → IsFoundOf line finding.found
        → AreFoundOf line findings.new.items) }
    ensures from { IfOk result (λ _. (letters : LettersValue) (lines : List (List ℕ)) → AreFrom letters lines findings.old.items
        → IsFoundFrom letters lines finding.found → AreFrom letters lines findings.new.items) }
{
    findings.push(finding)?;
    Ok(())
}
