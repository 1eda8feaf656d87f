//! Tests of problems, read, solved and answered, and of positions shown: of the crates from `chess_problems` to `mate_claims`, by their
//! public calls alone.
#![tactic(auto)]

#[cfg(test)]
mod answer_tests;
#[cfg(test)]
mod avoid_move_tests;
#[cfg(test)]
mod avoid_tests;
#[cfg(test)]
mod claim_tests;
#[cfg(test)]
mod input_tests;
#[cfg(test)]
mod limited_tests;
#[cfg(test)]
mod mail_tests;
#[cfg(test)]
mod memo_tests;
#[cfg(test)]
mod plain_memo;
#[cfg(test)]
mod plain_search;
#[cfg(test)]
mod plain_search_tests;
#[cfg(test)]
mod plain_solving;
#[cfg(test)]
mod plain_table;
#[cfg(test)]
mod record_reading_tests;
#[cfg(test)]
mod san_tests;
#[cfg(test)]
mod solve_tests;
#[cfg(test)]
mod test_rows;
#[cfg(test)]
mod view_tests;
