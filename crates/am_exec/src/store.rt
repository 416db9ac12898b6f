ghost use Rattle.std.specs.Prelude.{◌≡◌, ◌≤◌, ◌++◌, ◌∷◌, [], length, option_copied, IfOk};
ghost use Rattle.am_exec.specs.States.{term_held as held_under, inputs_held as held_at_start};

use crate::name_index::NameIndex;
use am_diagram::Diagram;
use am_term::{Name, NoMemory, Term};
use sqlite_items::Items;
use std::alloc::Global;
use std::marker::Model;

/// The terms that names hold, in the order in which they were set, which contracts see as the list of
/// pairs.
#[derive(Drop)]
pub struct Store {
    names: NameIndex,
    terms: Items<Term>,
}

impl Model for Store {
    ghost use Rattle.std.specs.Prelude.{List, ℕ, ◌≡◌, length};
    ghost use Rattle.am_term.specs.declared.term.Term.{Term};
    ghost use Rattle.am_term.specs.contracts.term.Term as term;
    ghost use Rattle.std.specs.Coded.{codes};
    ghost use Rattle.am_exec.specs.States.{store_of};

    ghost Value = { List (List ℕ × Term) };

    ghost coded = { Prim.hlevel (codes, term.the_row.coded) };

    ghost view = { λ s. store_of s.names s.terms };

    ghost invariant = { λ s. length s.names ≡ length s.terms };
}

#[tactic(auto, using(crate::proofs::Paired::pairing))]
impl Store {
    /// No names. Takes no memory.
    pub fn new(alloc: Global) -> Store
        ensures { result ≡ [] }
    {
        Store {
            names: NameIndex::new(alloc),
            terms: Items::new(alloc),
        }
    }

    /// The term that a name holds, if it holds one. Takes no memory.
    pub fn get(&self, name: &Name) -> Option<&Term>
        ensures { option_copied result ≡ held_under self.now name.now }
    {
        match self.names.place(name) {
            Some(at) => self.terms.get(at),
            None => None,
        }
    }

    /// The store in which the name holds the term as well.
    pub fn with(self, alloc: Global, name: &Name, term: Term) -> Result<Store, NoMemory>
        ensures { IfOk result (λ store. store ≡ self ++ (name.now, term) ∷ []) }
    {
        let Store { names, mut terms } = self;
        let names = names.with(alloc, name)?;
        terms.push(term)?;
        Ok(Store { names, terms })
    }

    /// The store in which these names hold their terms as well.
    pub fn with_all(self, alloc: Global, more: Items<(Name, Term)>) -> Result<Store, NoMemory>
        ensures { IfOk result (λ store. store ≡ self ++ more) }
    {
        let mut store = self;
        let mut rest = more;
        'pairs: while !rest.is_empty() {
            let (name, term) = rest.remove(0);
            store = store.with(alloc, &name, term)?;
        }
        Ok(store)
    }
}

/// Each input's name with that input.
#[tactic(auto, using(crate::proofs::Stores::storing))]
pub fn inputs_held(alloc: Global, diagram: &Diagram) -> Result<Store, NoMemory>
    requires { length diagram.now.inputs ≤ 18 }
    ensures { IfOk result (λ store. store ≡ held_at_start diagram.now.inputs) }
{
    let mut store = Store::new(alloc);
    let mut k: u32 = 0;
    let mut rest = diagram.inputs.as_slice();
    while let [input, behind @ ..] = rest {
        store = store.with(alloc, &input.0, Term::In { k })?;
        k += 1;
        rest = behind;
    }
    Ok(store)
}
