//! Terms, atoms and formulas as files write them: their shapes, what is wrong with them, and what they
//! mean.
//!
//! `specs/Shapes.antt` says which form is which term or formula, `Flaws` what can be wrong with one in
//! a scope, `Meaning` which term or formula it stands for, `Forms` and `Naming` how that is written
//! again. The format is this project's own. The crate rests on `am_term` and `am_text`.
#![tactic(auto)]

mod bound_table;
mod flaws;
mod form_lists;
mod forms;
mod laws;
mod laws_of_shapes;
mod lookups;
mod meaning;
mod naming;
mod scope;
mod shapes;
mod table;
mod written;

pub use bound_table::BoundTable;
pub use flaws::{atom_has, formula_has, has_quantifier, term_has};
pub use forms::{atom_form, formula_form, term_form};
pub use laws::{
    in_a_larger_scope_nothing_changes, variables_are_of_the_scope, what_has_no_flaw_is_well_sorted,
    what_is_meant_is_written_back,
};
pub use laws_of_shapes::{
    places_do_not_count, read_formulas_are_no_higher, read_formulas_can_be_spelled,
    read_formulas_can_be_written, read_terms_are_no_higher, read_terms_are_their_forms,
    read_terms_can_be_spelled, read_terms_can_be_written, spelled_formulas_are_read,
    spelled_formulas_can_be_written, spelled_terms_are_read, spelled_terms_can_be_written,
};
pub use lookups::written_sort;
pub use meaning::{atom_meaning, formula_meaning, literal_meaning, term_meaning};
pub use naming::{Naming, named_atom, named_formula, named_term};
pub use scope::{Bound, Flaw, Scope, Standing};
pub use shapes::{formula_of, literal_of, term_of};
pub use table::NameTable;
pub use written::{Words, WrittenAtom, WrittenFormula, WrittenLiteral, WrittenTerm};
