//! The position that is to be searched, as commands say one after the other.

ghost use Rattle.std.specs.Prelude.{◌≡◌, IfErr, IfOk, None, OnOk, Some, map};
ghost use Rattle.uci_commands.specs.PositionCommands.{IsPositionFault, Leads};

use crate::position_commands::{PositionFault, place};
use chess_board::Fen;
use chess_moves::Rays;
use std::alloc::Global;

/// The position that was taken last, and why what was said since is none.
#[derive(Clone, Copy)]
pub struct Board {
    pub taken: Fen,
    pub refused: Option<PositionFault>,
}

impl Board {
    /// Takes up the position that the words behind `position` say. Where they say none, the one before stays, and is no more to be searched.
    pub fn take(&mut self, alloc: Global, rays: &Rays, words: &[&str]) -> Result<(), PositionFault>
        ensures taken { OnOk result (Leads (map (λ s. s.now) words.now) self.new.taken) }
        ensures searched { OnOk result (self.new.refused ≡ None) }
        ensures fault { IfErr result (λ fault. IsPositionFault (map (λ s. s.now) words.now) fault) }
        ensures refused { IfErr result (λ fault. self.new ≡ record { taken = self.old.taken; refused = Some fault }) }
    {
        match place(alloc, rays, words, &mut self.taken) {
            Ok(()) => {
                self.refused = None;
                Ok(())
            }
            Err(fault) => {
                self.refuse(fault);
                Err(fault)
            }
        }
    }

    /// Takes up none: what was said is refused.
    pub fn refuse(&mut self, fault: PositionFault)
        ensures { self.new ≡ record { taken = self.old.taken; refused = Some fault } }
    {
        self.refused = Some(fault);
    }

    /// The FEN that is to be searched, or why there is none.
    pub fn searched(&self) -> Result<&Fen, PositionFault>
        ensures taken { IfOk result (λ fen. fen.now ≡ self.now.taken) }
        ensures last { OnOk result (self.now.refused ≡ None) }
        ensures refused { IfErr result (λ fault. self.now.refused ≡ Some fault) }
    {
        match self.refused {
            None => Ok(&self.taken),
            Some(fault) => Err(fault),
        }
    }
}
