//! The canonical text of a theory: which declarations a theory has, which form a declaration has, and the
//! law that the text of a theory that was read is read as that theory.
//!
//! `specs/CanonicalText.antt` says which text a theory has, `Spellable` which declarations are read again
//! from their forms, `DeclarationLaws` what holds of all declarations and their forms, `RoundTrip` that
//! the canonical text of a theory is read as that theory. The crate rests on `am_theory`, whose format
//! this is, and on `am_term`, `am_text` and `am_syntax`.
#![tactic(auto)]

mod declaration_forms;
mod declarations;
mod laws;
mod writing;

pub use laws::{
    canonical_text_is_read, places_do_not_count, read_declarations_are_no_higher,
    read_declarations_can_be_spelled, spelled_declarations_are_read,
    spelled_declarations_can_be_written,
};
pub use writing::write_theory;
