//! Tests of `desk_room` by its public calls alone. What they share stands in the modules `test_..`; `test_plain_room` is a plain, slow room
//! to compare with.
#![tactic(auto)]

#[cfg(test)]
mod room_tests;
#[cfg(test)]
mod sequence_tests;
#[cfg(test)]
mod serving_tests;
#[cfg(test)]
mod shared_tests;
#[cfg(test)]
mod test_calls;
#[cfg(test)]
mod test_crews;
#[cfg(test)]
mod test_manners;
#[cfg(test)]
mod test_plain_room;
#[cfg(test)]
mod test_plain_turns;
#[cfg(test)]
mod test_real_room;
#[cfg(test)]
mod test_rows;
#[cfg(test)]
mod test_scenes;
#[cfg(test)]
mod test_solvers;
#[cfg(test)]
mod test_submitters;
#[cfg(test)]
mod thread_tests;
#[cfg(test)]
mod window_tests;
