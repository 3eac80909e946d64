//! The tests, and what they share.

mod board_tests;
mod comparing;
mod determined_tests;
mod files;
mod forge_tests;
mod manifest_tests;
mod message_tests;
mod positions;
mod record_tests;
mod refusal_tests;
mod root_tests;
mod seeded_tests;
