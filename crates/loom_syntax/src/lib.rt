//! The grammar of files, and the reader that takes one token after another.
//!
//! The definition of a file stands in `specs/File.antt`, and the reader's steps, as functions on lists, in
//! `specs/Head.antt`, `specs/Part.antt` and `specs/FileReader.antt`.
#![tactic(auto)]

mod block;
mod file;
pub mod item;
pub mod items;
pub mod laws;
mod statement;
mod token;
