//! The tests, and what they share.

mod arbiters;
mod comparing;
mod fetching_tests;
mod opening_tests;
mod positions;
mod seeded_world_tests;
mod world_tests;
