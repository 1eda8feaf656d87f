//! Why a call of a window is refused. Each reason prints as its name, and where several apply the first of them is answered.

ghost use Rattle.std.specs.Prelude.{◌≡◌, Some};
ghost use Rattle.room_ends.specs.WindowFaults.{window_fault_name, withdraw_fault_name, bye_fault_name};

use chess_notation::EpdFault;
use std::fmt;
use thiserror::Error;

/// Why a line is not sent.
#[derive(Clone, Copy, Debug, PartialEq, Eq, Error)]
pub enum WindowFault {
    /// The window said farewell.
    Gone,
    /// The line says no record, by this fault, or memory was refused. It prints as that fault.
    BadRecord(EpdFault),
    /// No place of the record ring is known to be free.
    Busy,
    /// The window has sent 2^64 - 1 records.
    Exhausted,
}

impl WindowFault {
    /// The fault's name.
    pub fn code(&self) -> &'static str
        ensures { result.now ≡ window_fault_name self.now }
    {
        match self {
            WindowFault::Gone => "Gone",
            WindowFault::BadRecord(fault) => fault.code(),
            WindowFault::Busy => "Busy",
            WindowFault::Exhausted => "Exhausted",
        }
    }
}

impl fmt::Display for WindowFault {
    ghost output = { λ fault. Some (window_fault_name fault) };

    fn fmt<W: fmt::Write>(&self, f: &mut fmt::Formatter<W>) -> fmt::Result {
        f.write_str(self.code())
    }
}

/// Why a withdrawal is not sent.
#[derive(Clone, Copy, Debug, PartialEq, Eq, Error)]
pub enum WithdrawFault {
    /// The window said farewell.
    Gone,
    /// The window sent no more than so many records.
    NotSent,
    /// No place of the record ring is known to be free.
    Busy,
}

impl WithdrawFault {
    /// The fault's name.
    pub fn code(&self) -> &'static str
        ensures { result.now ≡ withdraw_fault_name self.now }
    {
        match self {
            WithdrawFault::Gone => "Gone",
            WithdrawFault::NotSent => "NotSent",
            WithdrawFault::Busy => "Busy",
        }
    }
}

impl fmt::Display for WithdrawFault {
    ghost output = { λ fault. Some (withdraw_fault_name fault) };

    fn fmt<W: fmt::Write>(&self, f: &mut fmt::Formatter<W>) -> fmt::Result {
        f.write_str(self.code())
    }
}

/// Why a farewell is not sent.
#[derive(Clone, Copy, Debug, PartialEq, Eq, Error)]
pub enum ByeFault {
    /// The window said farewell before.
    Gone,
    /// No place of the record ring is known to be free.
    Busy,
}

impl ByeFault {
    /// The fault's name.
    pub fn code(&self) -> &'static str
        ensures { result.now ≡ bye_fault_name self.now }
    {
        match self {
            ByeFault::Gone => "Gone",
            ByeFault::Busy => "Busy",
        }
    }
}

impl fmt::Display for ByeFault {
    ghost output = { λ fault. Some (bye_fault_name fault) };

    fn fmt<W: fmt::Write>(&self, f: &mut fmt::Formatter<W>) -> fmt::Result {
        f.write_str(self.code())
    }
}
