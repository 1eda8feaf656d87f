//! What answers problems that are imported.

ghost use Rattle.std.specs.Prelude.{ℕ, List, IfOk};
ghost use Rattle.problem_import.specs.Imports.{IsRecord};
ghost use Rattle.problem_import.specs.declared.import_faults.ImportFault.{ImportFault as FaultValue};

use crate::import_faults::ImportFault;
use byte_streams::NoMemory;
use std::alloc::Global;
use text_lines::Output;

/// What answers problems one by one, in place of having them printed.
pub trait ProblemHandler {
    /// What goes from each problem to the next.
    type Memory;

    /// What a record is answered: a number, its line's or that of the first line of what it was made of, the record, the text, and how many
    /// refusals that is.
    ghost records: { Self → ℕ → List ℕ → List ℕ → ℕ → Type 0 };

    /// What is told of a problem that is refused: by the number of its first line, and its fault.
    ghost rows: { Self → ℕ → FaultValue → List ℕ → Type 0 };

    /// The answer to a record. Only a growth that is refused is an error.
    fn answer(
        &self,
        alloc: Global,
        number: usize,
        line: &[u8],
        memory: &mut Self::Memory,
    ) -> Result<Output, NoMemory>
        requires { IsRecord line.now }
        ensures { IfOk result (λ output. records self.now number line.now output.text.items output.refused) };

    /// The row of a problem that is refused. It knows nothing of the memory, since a line that is too long is refused unread.
    fn refuse(&self, alloc: Global, number: usize, fault: ImportFault) -> Result<Vec<u8>, NoMemory>
        ensures { IfOk result (λ row. rows self.now number fault row.items) };
}
