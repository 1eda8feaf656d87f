//! Tests of `mate_desk` by its public calls alone. `test_plain_desk` is a plain, slow desk to compare with.
#![tactic(auto)]

#[cfg(test)]
mod limit_tests;
#[cfg(test)]
mod row_tests;
#[cfg(test)]
mod run_tests;
#[cfg(test)]
mod run_withdrawal_tests;
#[cfg(test)]
mod stranger_tests;
#[cfg(test)]
mod test_plain_desk;
#[cfg(test)]
mod walk_tests;
