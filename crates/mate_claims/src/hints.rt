//! What is told of lines beside the counts of their verdicts: what was written, but isn't read so.

use chess_notation::{ClaimFault, Operation};

/// Of how many lines it is told.
#[derive(Clone, Copy, Debug, PartialEq, Eq)]
pub struct Hints {
    /// What is claimed is no move in SAN or by coordinates.
    pub unnamed: usize,
    /// An opcode is `am`, `bm`, `dm` or `pv` but for its capitals, and so another, which nothing is asked or claimed by.
    pub misspelt: usize,
}

/// Whether an opcode is one of those that ask or claim, or is one but for its capitals.
fn is_known_but_for_capitals(opcode: &[u8]) -> bool {
    matches!(
        opcode,
        [b'a' | b'A' | b'b' | b'B' | b'd' | b'D', b'm' | b'M'] | [b'p' | b'P', b'v' | b'V']
    )
}

/// Whether an opcode is one of those that ask or claim.
fn is_known(opcode: &[u8]) -> bool {
    matches!(opcode, [b'a' | b'b' | b'd', b'm'] | [b'p', b'v'])
}

/// Whether an opcode among these is a known one but for its capitals.
fn has_misspelt(operations: &[Operation]) -> bool {
    for operation in operations {
        let opcode = operation.opcode.as_str().as_bytes();
        if is_known_but_for_capitals(opcode) && !is_known(opcode) {
            return true;
        }
    }
    false
}

impl Hints {
    /// Of none.
    pub fn new() -> Hints {
        Hints {
            unnamed: 0,
            misspelt: 0,
        }
    }

    /// Of a record of whose claims this word comes, and which keeps these operations.
    pub(crate) fn of(word: &str, operations: &[Operation]) -> Hints {
        Hints {
            unnamed: usize::from(word == ClaimFault::NoSuchMove.code()),
            misspelt: usize::from(has_misspelt(operations)),
        }
    }

    /// Of these lines and of others.
    pub fn and(self, others: Hints) -> Hints {
        Hints {
            unnamed: self.unnamed.saturating_add(others.unnamed),
            misspelt: self.misspelt.saturating_add(others.misspelt),
        }
    }

    /// Of these lines without those before.
    pub fn since(self, before: Hints) -> Hints {
        Hints {
            unnamed: self.unnamed.saturating_sub(before.unnamed),
            misspelt: self.misspelt.saturating_sub(before.misspelt),
        }
    }
}
