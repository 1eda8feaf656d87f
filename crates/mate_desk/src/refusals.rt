//! Why a call is refused. Each reason prints as its name, and where several apply the first of them is answered.

ghost use Rattle.std.specs.Prelude.{◌≡◌, codes, Some};
ghost use Rattle.mate_desk.specs.Refusals.{desk_fault_name, submit_refusal_name, withdraw_refusal_name};

use std::fmt;
use thiserror::Error;

/// Why there is no desk.
#[derive(Clone, Copy, Debug, PartialEq, Eq, Error)]
pub enum DeskFault {
    /// The number of submitters is not one of 1 to 16.
    BadSubmitters,
    /// The room of a submitter is not one of 1 to 64 records.
    BadRoom,
    /// Memory was refused.
    NoMemory,
}

impl DeskFault {
    /// The fault's name.
    pub fn code(&self) -> &'static str
        ensures { result.now ≡ desk_fault_name self.now }
    {
        match self {
            DeskFault::BadSubmitters => "BadSubmitters",
            DeskFault::BadRoom => "BadRoom",
            DeskFault::NoMemory => "NoMemory",
        }
    }
}

impl fmt::Display for DeskFault {
    ghost output = { λ fault. Some (desk_fault_name fault) };

    fn fmt<W: fmt::Write>(&self, f: &mut fmt::Formatter<W>) -> fmt::Result {
        f.write_str(self.code())
    }
}

/// Why a record is not accepted.
#[derive(Clone, Copy, Debug, PartialEq, Eq, Error)]
pub enum SubmitRefusal {
    /// There is no submitter of that number.
    NoSuchSubmitter,
    /// The desk is closed.
    Closed,
    /// The submitter has as many records pending as it may.
    Full,
    /// All tickets were given.
    Exhausted,
}

impl SubmitRefusal {
    /// The refusal's name.
    pub fn code(&self) -> &'static str
        ensures { result.now ≡ submit_refusal_name self.now }
    {
        match self {
            SubmitRefusal::NoSuchSubmitter => "NoSuchSubmitter",
            SubmitRefusal::Closed => "Closed",
            SubmitRefusal::Full => "Full",
            SubmitRefusal::Exhausted => "Exhausted",
        }
    }
}

impl fmt::Display for SubmitRefusal {
    ghost output = { λ fault. Some (submit_refusal_name fault) };

    fn fmt<W: fmt::Write>(&self, f: &mut fmt::Formatter<W>) -> fmt::Result {
        f.write_str(self.code())
    }
}

/// Why a record is not withdrawn.
#[derive(Clone, Copy, Debug, PartialEq, Eq, Error)]
pub enum WithdrawRefusal {
    /// There is no submitter of that number.
    NoSuchSubmitter,
    /// So many records were not accepted from the submitter.
    NotAccepted,
    /// What was owed for the record was delivered.
    Delivered,
    /// The record was withdrawn before.
    Withdrawn,
}

impl WithdrawRefusal {
    /// The refusal's name.
    pub fn code(&self) -> &'static str
        ensures { result.now ≡ withdraw_refusal_name self.now }
    {
        match self {
            WithdrawRefusal::NoSuchSubmitter => "NoSuchSubmitter",
            WithdrawRefusal::NotAccepted => "NotAccepted",
            WithdrawRefusal::Delivered => "Delivered",
            WithdrawRefusal::Withdrawn => "Withdrawn",
        }
    }
}

impl fmt::Display for WithdrawRefusal {
    ghost output = { λ fault. Some (withdraw_refusal_name fault) };

    fn fmt<W: fmt::Write>(&self, f: &mut fmt::Formatter<W>) -> fmt::Result {
        f.write_str(self.code())
    }
}

/// There is no submitter of that number.
#[derive(Clone, Copy, Debug, PartialEq, Eq, Error)]
#[error("NoSuchSubmitter")]
pub struct NoSuchSubmitter;

impl NoSuchSubmitter {
    /// The refusal's name.
    pub fn code(&self) -> &'static str
        ensures { result.now ≡ codes "NoSuchSubmitter" }
    {
        "NoSuchSubmitter"
    }
}

/// No record is out under that ticket with an equal problem.
#[derive(Clone, Copy, Debug, PartialEq, Eq, Error)]
#[error("Stranger")]
pub struct Stranger;

impl Stranger {
    /// The refusal's name.
    pub fn code(&self) -> &'static str
        ensures { result.now ≡ codes "Stranger" }
    {
        "Stranger"
    }
}
