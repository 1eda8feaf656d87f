//! Tests of the rules: of `square_sets`, `chess_board` and `chess_moves`, by their public calls alone. What tests share stands in
//! `test_positions`.
#![tactic(auto)]

#[cfg(test)]
mod check_tests;
#[cfg(test)]
mod fen_tests;
#[cfg(test)]
mod legal_move_tests;
#[cfg(test)]
mod move_tests;
#[cfg(test)]
mod perft_tests;
#[cfg(test)]
mod placement_tests;
#[cfg(test)]
mod set_tests;
#[cfg(test)]
mod test_positions;
