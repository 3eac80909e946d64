//! The words of the command line: which options there are, what their values are, and what is said of a misuse.

pub(crate) mod addresses;
pub(crate) mod game_paths;
pub(crate) mod help;
pub(crate) mod lazy_folders;
pub(crate) mod near;
pub(crate) mod numbers;
pub(crate) mod usage;
pub(crate) mod uses;
pub(crate) mod values;
