//! Tests of `uci_commands` and `uci_engine`, by their public calls alone.
#![tactic(auto)]

#[cfg(test)]
mod command_tests;
#[cfg(test)]
mod engine_tests;
#[cfg(test)]
mod test_rows;
