//! The option that a command sets: what the words behind `setoption` say.

ghost use Rattle.std.specs.Prelude.{◌≡◌, map};
ghost use Rattle.std.specs.Str.{str_eq_ignore_ascii_case};
ghost use Rattle.uci_commands.specs.OptionCommands.{most, setting_of, spin_name, spin_named, valued};

use crate::marks::{behind, number_behind};

/// An option whose value is a number from 1 on: a `spin` of the interface.
#[derive(Clone, Copy, Debug, PartialEq, Eq)]
pub enum Spin {
    /// How many megabytes the memo has.
    Hash,
    /// Within how many moves mate is looked for where a search is told nothing of that.
    Bound,
    /// How many first moves have lines of their own.
    MultiPv,
}

impl Spin {
    /// Its name, as it is told; it may be said in any case.
    pub fn name(self) -> &'static str
        ensures { result.now ≡ spin_name self }
    {
        match self {
            Spin::Hash => "Hash",
            Spin::Bound => "Bound",
            Spin::MultiPv => "MultiPV",
        }
    }

    /// Its greatest value.
    pub fn most(self) -> u64
        ensures { result ≡ most self }
    {
        match self {
            Spin::Hash => 10,
            Spin::Bound => 15,
            Spin::MultiPv => 64,
        }
    }
}

/// What is said of an option.
#[derive(Clone, Copy, Debug, PartialEq, Eq)]
pub enum Setting {
    /// It is to have this value, one of its range.
    Value(Spin, u64),
    /// No number of its range is said.
    OutOfRange(Spin),
}

/// Whether a word is this name, in whichever case its letters are.
#[tactic(auto, using(crate::proofs::NamesAlike::named_alike))]
fn is_name(word: &str, name: &str) -> bool
    ensures { result ≡ str_eq_ignore_ascii_case word.now name.now }
{
    word.eq_ignore_ascii_case(name)
}

/// The option that the first word names.
#[tactic(auto, unfolding(crate::specs::OptionCommands::spin_named))]
fn spin_named(words: &[&str]) -> Option<Spin>
    ensures { result ≡ spin_named (map (λ s. s.now) words.now) }
{
    let [word, ..] = words else {
        return None;
    };
    if is_name(word, Spin::Hash.name()) {
        Some(Spin::Hash)
    } else if is_name(word, Spin::Bound.name()) {
        Some(Spin::Bound)
    } else if is_name(word, Spin::MultiPv.name()) {
        Some(Spin::MultiPv)
    } else {
        None
    }
}

/// An option with the number that is said.
#[tactic(auto, unfolding(crate::specs::OptionCommands::valued))]
fn valued(number: Option<u64>, spin: Spin) -> Setting
    ensures { result ≡ valued number spin }
{
    match number {
        Some(value) if 1 <= value && value <= spin.most() => Setting::Value(spin, value),
        _ => Setting::OutOfRange(spin),
    }
}

/// Reads the words behind `setoption`: `name NAME value NUMBER`; none where the name is none of these options'.
#[tactic(auto, unfolding(crate::specs::OptionCommands::setting_of))]
pub fn read_setting(words: &[&str]) -> Option<Setting>
    ensures { result ≡ setting_of (map (λ s. s.now) words.now) }
{
    let spin = spin_named(behind("name", words))?;
    Some(valued(number_behind("value", words), spin))
}
