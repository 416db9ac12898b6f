ghost use Rattle.std.specs.Prelude.{◌≡◌, List, ℕ, map, option_copied};
ghost use Rattle.am_term.specs.NameLists.{is_among};
ghost use Rattle.am_theory.specs.declared.theory.FortranFunction.{FortranFunction};
ghost use Rattle.am_theory.specs.declared.theory.Routine.{Routine};
ghost use Rattle.am_theory.specs.Contents.{contents, nothing, sort_number, rep_named, copy_named, symbol_names};
ghost use Rattle.am_theory.specs.Faults.{variable_names, called_names, copy_names, is_unknown_sort, is_symbol_name, is_taken, is_called};

use crate::theory::{Rep, Theory};
use am_syntax::NameTable;
use am_term::{Name, Signature, SortId};
use sqlite_items::Items;
use std::alloc::Global;

/// What was declared so far, with its names in maps: the sorts and the symbols by their numbers, the
/// variables of the axioms, the routines, the listed functions and the copy routines.
#[derive(Drop)]
pub struct Tables {
    pub theory: Theory,
    pub sorts: NameTable,
    pub symbols: NameTable,
    pub variables: NameTable,
    pub routines: NameTable,
    pub functions: NameTable,
    pub copies: NameTable,
    ghost sorts_agree: { sorts.names ≡ (contents theory).sorts },
    ghost symbols_agree: { symbols.names ≡ symbol_names (contents theory) },
    ghost variables_agree: { (q : List ℕ)
        → is_among q variables.names ≡ is_among q (variable_names (contents theory)) },
    ghost routines_agree: { routines.names ≡ map (λ (r : Routine). r.name) theory.routines },
    ghost functions_agree: { functions.names ≡ map (λ (f : FortranFunction). f.name) theory.functions },
    ghost copies_agree: { copies.names ≡ copy_names (contents theory) },
}

impl Tables {
    /// Before the first declaration of a file of version 1. Takes no memory.
    pub fn new(alloc: Global) -> Tables
        ensures { contents result.theory ≡ nothing 1 }
    {
        let sig = Signature {
            sorts: Items::new(alloc),
            parents: Items::new(alloc),
            symbols: Items::new(alloc),
        };
        let theory = Theory {
            version: 1,
            sig,
            reps: Items::new(alloc),
            copies: Items::new(alloc),
            routines: Items::new(alloc),
            functions: Items::new(alloc),
            literals: Items::new(alloc),
            axioms: Items::new(alloc),
        };
        Tables {
            theory,
            sorts: NameTable::new(alloc),
            symbols: NameTable::new(alloc),
            variables: NameTable::new(alloc),
            routines: NameTable::new(alloc),
            functions: NameTable::new(alloc),
            copies: NameTable::new(alloc),
        }
    }

    /// Whether the name is no sort's.
    pub fn is_unknown_sort(&self, name: &Name) -> bool
        ensures { result ≡ is_unknown_sort (contents self.now.theory) name.now }
    {
        !self.sorts.contains(name)
    }

    /// The number of the sort of this name, and 0 where there is none.
    pub fn sort_number(&self, name: &Name) -> SortId
        ensures { result ≡ sort_number (contents self.now.theory) name.now }
    {
        match self.sorts.position(name) {
            Some(number) => SortId(number),
            None => SortId(0),
        }
    }

    /// The representation of the sort of this name, if it is concrete.
    pub fn rep_named(&self, name: &Name) -> Option<Rep>
        ensures { result ≡ rep_named (contents self.now.theory) name.now }
    {
        let number = self.sorts.position(name)?;
        match self.theory.reps.get(number as usize) {
            Some(rep) => *rep,
            None => None,
        }
    }

    /// The copy routine of the sort of this name, if it has one.
    pub fn copy_named(&self, name: &Name) -> Option<&Name>
        ensures { option_copied result ≡ copy_named (contents self.now.theory) name.now }
    {
        let number = self.sorts.position(name)?;
        match self.theory.copies.get(number as usize) {
            Some(copy) => copy.as_ref(),
            None => None,
        }
    }

    /// Whether the name is a symbol's.
    pub fn is_symbol_name(&self, name: &Name) -> bool
        ensures { result ≡ is_symbol_name (contents self.now.theory) name.now }
    {
        self.symbols.contains(name)
    }

    /// Whether the name is a symbol's, or that of a variable of an axiom.
    pub fn is_taken(&self, name: &Name) -> bool
        ensures { result ≡ is_taken (contents self.now.theory) name.now }
    {
        self.is_symbol_name(name) || self.variables.contains(name)
    }

    /// Whether the name is that of a routine or of a listed function.
    #[tactic(auto, using(crate::proofs::AddSteps::call_steps))]
    pub fn is_call(&self, name: &Name) -> bool
        ensures { result ≡ is_among name.now (called_names (contents self.now.theory)) }
    {
        self.routines.contains(name) || self.functions.contains(name)
    }

    /// Whether the name is that of a routine, of a listed function or of a copy routine.
    pub fn is_called(&self, name: &Name) -> bool
        ensures { result ≡ is_called (contents self.now.theory) name.now }
    {
        self.is_call(name) || self.copies.contains(name)
    }
}
