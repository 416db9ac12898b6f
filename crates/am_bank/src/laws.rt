ghost use Rattle.std.specs.Prelude.{◌≡◌, ◌<◌, ℕ, List, Some, length, map, slice_get};
ghost use Rattle.am_term.specs.declared.id.SortId.{SortId};
ghost use Rattle.am_term.specs.declared.id.SymId.{SymId};
ghost use Rattle.am_term.specs.declared.term.Term.{Term};
ghost use Rattle.am_term.specs.declared.term.Term.TheVariants as term;
ghost use Rattle.am_bank.specs.Node.{Shared, Var, In, App};
ghost use Rattle.am_bank.specs.Bank.{IsBank, Grows};
ghost use Rattle.am_bank.specs.Trees.{tree};
ghost use Rattle.am_term.specs.declared.term.Atom.{Atom};
ghost use Rattle.am_term.specs.declared.term.Literal.{Literal};
ghost use Rattle.am_clause.specs.declared.clause.Clause.{Clause};
ghost use Rattle.am_clause.specs.declared.row.Made.{Made};
ghost use Rattle.am_bank.specs.declared.id.TermId.{TermId};
ghost use Rattle.am_bank.specs.declared.shared.SharedAtom.{SharedAtom};
ghost use Rattle.am_bank.specs.declared.shared.SharedLiteral.{SharedLiteral};
ghost use Rattle.am_bank.specs.declared.shared.SharedClause.{SharedClause};
ghost use Rattle.am_bank.specs.declared.shared.SharedMade.{SharedMade};
ghost use Rattle.am_bank.specs.declared.shared.SharedSubst.{SharedSubst};
ghost use Rattle.am_bank.specs.Stands.{terms_of, atom_of, literal_of, clause_of, made_of, bindings_of};

/// An id of a bank stands for the tree of its node: a variable, an input, or a symbol at the trees of the
/// node's arguments, each of which has one. An id that isn't of the bank stands for nothing.
pub fn law_of_trees()
    ensures there { (ns : List Shared) (i : ℕ) → i < length ns → (t : Term) × (tree ns i ≡ Some t) }
    ensures within { (ns : List Shared) (i : ℕ) (t : Term) → tree ns i ≡ Some t → i < length ns }
    ensures variable { (ns : List Shared) → IsBank ns → (i n : ℕ) (s : SortId) → slice_get ns i ≡ Some (Var n s)
        → tree ns i ≡ Some (term.Var n s) }
    ensures input { (ns : List Shared) → IsBank ns → (i k : ℕ) → slice_get ns i ≡ Some (In k)
        → tree ns i ≡ Some (term.In k) }
    ensures symbol { (ns : List Shared) → IsBank ns → (i : ℕ) (f : SymId) (ids : List ℕ)
        → slice_get ns i ≡ Some (App f ids) → (ts : List Term) × (tree ns i ≡ Some (term.App f ts))
        × (map (tree ns) ids ≡ map Some ts) }
{}

/// In a bank, two ids that stand for one term are one id.
pub fn law_of_equal_trees()
    ensures { (ns : List Shared) → IsBank ns → (t : Term) (i j : ℕ) → tree ns i ≡ Some t → tree ns j ≡ Some t → i ≡ j }
{}

/// Where a bank grows, old ids stand for what they stood for, and so does what is over them.
pub fn law_of_growth()
    ensures ids { (old new : List Shared) → Grows old new → (i : ℕ) (t : Term) → tree old i ≡ Some t
        → tree new i ≡ Some t }
    ensures lists { (old new : List Shared) → Grows old new → (is : List TermId) (ts : List Term)
        → terms_of old is ≡ Some ts → terms_of new is ≡ Some ts }
    ensures literals { (old new : List Shared) → Grows old new → (l : SharedLiteral) (m : Literal)
        → literal_of old l ≡ Some m → literal_of new l ≡ Some m }
    ensures clauses { (old new : List Shared) → Grows old new → (c : SharedClause) (d : Clause)
        → clause_of old c ≡ Some d → clause_of new c ≡ Some d }
    ensures conclusions { (old new : List Shared) → Grows old new → (m : SharedMade) (d : Made)
        → made_of old m ≡ Some d → made_of new m ≡ Some d }
    ensures bindings { (old new : List Shared) → Grows old new → (s : SharedSubst) (b : List (ℕ × Term))
        → bindings_of old s ≡ Some b → bindings_of new s ≡ Some b }
{}

/// A relation atom is that of the term that it is held as: the term's symbol is its relation.
pub fn law_of_relations()
    ensures { (ns : List Shared) (id : TermId) (r : SymId) (args : List Term) → tree ns id.0 ≡ Some (term.App r args)
        → atom_of ns (SharedAtom.Rel id) ≡ Some (Atom.Rel r args) }
{}
