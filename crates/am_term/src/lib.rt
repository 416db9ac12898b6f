//! Many-sorted terms, atoms, literals and formulas over a signature.
//!
//! `specs/` says what they mean: `Sorts` which sort fits which, `Sorting` which sort a term has,
//! `Variables` which variables occur in it, `Span` how many terms an instance takes, `Instance` what it
//! is, `Place` which part stands at a path, `Weight` how large a term is, `Same` when two are one. The
//! crate rests on the kit alone.
#![tactic(auto)]

mod comparing;
mod copying;
mod id;
mod kind;
mod laws;
mod name;
mod places;
mod signature;
mod sorting;
mod spelling;
mod substitution;
mod symbol;
mod term;
mod weighing;

pub use comparing::{same, same_atom, same_literal, same_terms};
pub use copying::{copies, copy, copy_atom, copy_literal};
pub use id::{SortId, SymId};
pub use kind::SymKind;
pub use laws::{
    law_of_akin, law_of_fits, law_of_instances, law_of_older_sorts, law_of_places, law_of_sorts,
    law_of_span,
};
pub use name::{Name, NoMemory};
pub use places::{at, put_at};
pub use signature::{Ctx, Signature};
pub use sorting::{akin, fits, well_sorted};
pub use spelling::{is_fortran_name, is_local_name, is_name};
pub use substitution::{is_covered, subst};
pub use symbol::Symbol;
pub use term::{Atom, Formula, Literal, Term};
pub use weighing::weight;
