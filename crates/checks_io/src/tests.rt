//! The tests, and what they share.

mod calls_tests;
mod comparing;
mod disk_file_tests;
mod kept_tests;
mod loop_tests;
mod mode_tests;
mod no_stores;
mod output_tests;
mod port_tests;
mod sealed_tests;
mod source_port;
mod source_tests;
