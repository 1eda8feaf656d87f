//! Records: what a line of EPD says.

ghost use Rattle.std.specs.Prelude.{◌≡◌};
ghost use Rattle.chess_notation.specs.Records.{problem_of};

use arrayvec::ArrayString;
use chess_board::Position;
use chess_problems::{AvoidList, Bound, Problem};
use std::marker::Model;

/// An operation (PGN Specification, section 16.2.4): its opcode, a letter and up to 14 letters, digits and underscores, and each
/// operand after one space.
#[derive(Drop)]
pub struct Operation {
    pub opcode: ArrayString<15>,
    pub operands: String,
}

impl Model for Operation {
    ghost use Rattle.std.specs.Prelude.{string_bytes};
    ghost use Rattle.chess_notation.specs.Operations.{Entry};

    ghost Value = { Entry };

    ghost view = { λ o. record { opcode = o.opcode.bytes; operands = string_bytes o.operands } };
}

/// What a line of EPD says (PGN Specification, section 16.2): the position, the bound within which mate is asked for, the first
/// moves to avoid, and the operations that
/// an answer copies. The moves rise by origin, then target, then promotion, each once. The operations rise by opcode, without
/// repeats and without those that an answer writes itself: `bm`, `c0`, `dm` and `pv`.
#[derive(Drop)]
pub struct Record {
    pub position: Position,
    pub bound: Bound,
    pub avoid: AvoidList,
    pub rest: Vec<Operation>,
}

impl Model for Record {
    ghost use Rattle.chess_moves.specs.Laws.{IsRising};
    ghost use Rattle.chess_notation.specs.Records.{RecordValue};
    ghost use Rattle.chess_notation.specs.Opcodes.{RisesByOpcode, AreKept};

    ghost Value = { RecordValue };

    ghost view = { λ r. record { position = r.position; bound = r.bound; avoid = r.avoid.items; rest = r.rest.items } };

    ghost invariant = { λ r. IsRising r.avoid.items × RisesByOpcode r.rest.items × AreKept r.rest.items };
}

impl Record {
    /// The problem that the record asks, made anew.
    pub fn problem(&self) -> Problem
        ensures { result ≡ problem_of self.now }
    {
        let mut avoid = AvoidList::new();
        for m in self.avoid.as_slice() {
            avoid.push(*m);
        }
        Problem {
            position: self.position,
            bound: self.bound,
            avoid,
        }
    }
}
