//! Tests of the crates of files, tokens, lines and records, through their public calls.
#![tactic(auto)]

#[cfg(test)]
mod disk_files;
#[cfg(test)]
mod forms;
#[cfg(test)]
mod lexemes;
#[cfg(test)]
mod lines;
#[cfg(test)]
mod memory_files;
#[cfg(test)]
mod records;
