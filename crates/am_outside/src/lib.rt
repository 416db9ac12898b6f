//! What a program reads and writes outside itself: libraries of named bytes and sinks for bytes, in
//! memory and real.
//!
//! `specs/` says what they mean: `Causes` when a count of faults rose, `Growth` what is told of the
//! bytes, `Files` which file has a name, `Pages` what a page takes. The crate rests on `am_term` for
//! names and on the kit.
#![tactic(auto)]

mod answer;
mod folder;
mod library;
mod page;
mod quiet;
mod shelf;
mod sink;
mod stream;
#[cfg(test)]
mod tests;

pub use answer::{Fetched, Put};
pub use folder::Folder;
pub use library::Library;
pub use page::Page;
pub use quiet::QuietShelf;
pub use shelf::Shelf;
pub use sink::Sink;
pub use stream::{StdErr, StdOut, Stream};
