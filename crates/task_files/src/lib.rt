//! What is read for a task: the files of tables in a folder, a manifest, the input and kept files.
//!
//! What a task names goes in (`InputPaths`); what was read comes out (`Inputs`), over a `System` with a timeline. `read_tables` keeps the
//! wanted files of a folder whole; `look_at_tables` reads them one by one and keeps of each what a type makes of it (`TableRequest`).
//! Names rise in the order of bytes, and a name that is listed twice is a fault of the folder. With a manifest only the files that it
//! names are wanted.
//!
//! Inside: `sources` (what a task names, and what was read), `reading` (the wanted names of a folder, and what is kept of a file),
//! `input_reading`, `table_reading`, `table_looks` (of which the last holds one file at a time), `file_name`.
//!
//! Definitions, in reading order: `FileNames`, `Outside` (`AreWantedOf`, `FolderFails`), `Made`, `Given`, `Sources` (`Named`);
//! `TableReads` (`ListsTables`, `ReadsFolder`), `InputReads` (`Then`, `ReadsGiven`), `TableLooks`
//! (`LooksAt`).
//! Its cases stand in `folders.txt` and `disk.txt` of `rows`.
//!
//! - CLAIM: `list_tables`, `read_table`, `read_tables`: what happens outside while the files of a folder are read, all of it and in order:
//!   the folder is listed once, then each wanted file is read once, in rising order of names, up to the first that can't be. The files
//!   are exactly its wanted names, each once, with the bytes at their paths. They are refused only where the folder or one of them
//!   can't be read, it lists one of them twice, or memory is refused.
//! - CLAIM: `look_at_tables`: the same of files that are read one by one, with the lines of progress, where these are wanted.
//! - CLAIM: `read_inputs`: what happens outside while what a task names is read, all of it and in order: the manifest, the folder's files,
//!   the input and the kept files, each once, up to the first that can't be. What was read is what the task's places name; there is no
//!   error where nothing is named.
#![tactic(auto)]

mod file_name;
mod input_reading;
mod reading;
mod sources;
mod table_looks;
mod table_reading;

pub use file_name::FileName;
pub use input_reading::{manifest_at, read_inputs};
pub use reading::TableRequest;
pub use sources::{InputPaths, Inputs};
pub use table_looks::look_at_tables;
pub use table_reading::{list_tables, read_table, read_tables};
