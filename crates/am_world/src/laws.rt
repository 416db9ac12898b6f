ghost use Rattle.std.specs.Prelude.{◌≡◌, ◌↔◌, ◌++◌, ℕ, Some, List, [], IsTrue, IsFalse};
ghost use Rattle.std.specs.List.{AllByRecursion};
ghost use Rattle.am_term.specs.declared.id.SortId.{SortId};
ghost use Rattle.am_term.specs.declared.signature.Signature.{Signature};
ghost use Rattle.am_term.specs.declared.term.Atom.{Atom};
ghost use Rattle.am_term.specs.declared.term.Atom.TheVariants.{Eq};
ghost use Rattle.am_term.specs.declared.term.Literal.{Literal};
ghost use Rattle.am_term.specs.declared.term.Term.{Term};
ghost use Rattle.am_term.specs.declared.term.Formula.{Formula};
ghost use Rattle.am_term.specs.Sorts.{fits};
ghost use Rattle.am_term.specs.Sorting.{sort_of, is_sorted_atom};
ghost use Rattle.am_term.specs.SortedFormula.{is_sorted_formula};
ghost use Rattle.am_term.specs.Instance.{instance, instances, instance_literal};
ghost use Rattle.am_term.specs.Parts.{place_in, replaced_literal};
ghost use Rattle.am_term.specs.Place.{place, replaced};
ghost use Rattle.am_clause.specs.declared.clause.Clause.{Clause};
ghost use Rattle.am_clause.specs.Bound.{bound, without_repeats};
ghost use Rattle.am_clause.specs.ClauseForm.{cnf};
ghost use Rattle.am_clause.specs.Goals.{goal_of, given_clause};
ghost use Rattle.am_clause.specs.Numbered.{IsNumbered};
ghost use Rattle.am_clause.specs.Renaming.{Numbers, renamed, renumbered as numbering_of};
ghost use Rattle.am_clause.specs.SortedClause.{are_bindings};
ghost use Rattle.am_clause.specs.Sources.{sources_of};
ghost use Rattle.am_clause.specs.Variables.{occurrences, in_atom, in_clause};
ghost use Rattle.am_world.specs.Agreement.{AgreeOn};
ghost use Rattle.am_world.specs.ClauseTruth.{clause_truth, FormulaHolds, ClauseHolds, before_renaming};
ghost use Rattle.am_world.specs.Holding.{HoldsFor, SourcesHold};
ghost use Rattle.am_world.specs.Interpretation.{Interpretation, IsWorld, Members, trivial};
ghost use Rattle.am_world.specs.Questions.{Meets, IsPosed, IsSortOf, numbered};
ghost use Rattle.am_world.specs.Truth.{Models, truth};
ghost use Rattle.am_world.specs.Value.{Assignment, IsAssignment, value, values, through, atom_truth, literal_truth};

/// The trivial world is an interpretation of every signature.
pub fn trivial_is_world()
    ensures { (sig : Signature) → IsWorld sig trivial }
{}

/// A member of a sort is a member of every sort that this one fits.
pub fn law_of_members()
    ensures { (sig : Signature) (w : Interpretation) → IsWorld sig w → (s t : SortId) → IsTrue (fits sig s t) → (n : ℕ)
        → IsTrue (w.dom s n) → IsTrue (w.dom t n) }
{}

/// A term that has a sort stands for a member of it, where the inputs and variables stand for members
/// of theirs.
pub fn law_of_values()
    ensures { (sig : Signature) (w : Interpretation) → IsWorld sig w → (sorts : List SortId) (ins : List ℕ)
        → Members w sorts ins → (a : Assignment) → IsAssignment sig w a → (t : Term) (s : SortId)
        → sort_of sig sorts t ≡ Some s → IsTrue (w.dom s (value w ins a t)) }
{}

/// Each world has an assignment of members to the variables.
pub fn law_of_assignments()
    ensures { (sig : Signature) (w : Interpretation) → IsWorld sig w → (a : Assignment) × IsAssignment sig w a }
{}

/// The value of a term and the truth of a literal and of a clause depend on what is assigned to the
/// variables that occur in them, and on no other.
pub fn law_of_coincidence()
    ensures terms { (w : Interpretation) (ins : List ℕ) (a b : Assignment) (t : Term) → AgreeOn (occurrences t) a b
        → value w ins a t ≡ value w ins b t }
    ensures literals { (w : Interpretation) (ins : List ℕ) (a b : Assignment) (l : Literal)
        → AgreeOn (in_atom l.atom) a b → literal_truth w ins a l ≡ literal_truth w ins b l }
    ensures clauses { (w : Interpretation) (ins : List ℕ) (a b : Assignment) (c : Clause) → AgreeOn (in_clause c) a b
        → clause_truth w ins a c ≡ clause_truth w ins b c }
{}

/// The value of an instance of a term is the value of the term where each variable has the value of
/// the term that it became. So are the truth of a literal and of a clause, and the values of an answer.
pub fn law_of_instances()
    ensures terms { (w : Interpretation) (ins : List ℕ) (a : Assignment) (with : List Term) (t : Term)
        → value w ins a (instance with t) ≡ value w ins (through w ins a with) t }
    ensures literals { (w : Interpretation) (ins : List ℕ) (a : Assignment) (with : List Term) (l : Literal)
        → literal_truth w ins a (instance_literal with l) ≡ literal_truth w ins (through w ins a with) l }
    ensures clauses { (w : Interpretation) (ins : List ℕ) (a : Assignment) (with : List Term) (c : Clause)
        → clause_truth w ins a (bound with c) ≡ clause_truth w ins (through w ins a with) c }
    ensures answers { (w : Interpretation) (ins : List ℕ) (a : Assignment) (with ts : List Term)
        → values w ins a (instances with ts) ≡ values w ins (through w ins a with) ts }
{}

/// Replacing a part of a term by one of the same value keeps the value of the term; in a literal it
/// keeps the truth of the literal.
pub fn law_of_places()
    ensures literals { (w : Interpretation) (ins : List ℕ) (a : Assignment) (new part : Term)
        → value w ins a new ≡ value w ins a part → (path : List ℕ) (l : Literal) → place_in path l.atom ≡ Some part
        → literal_truth w ins a (replaced_literal new path l) ≡ literal_truth w ins a l }
    ensures terms { (w : Interpretation) (ins : List ℕ) (a : Assignment) (new part : Term)
        → value w ins a new ≡ value w ins a part → (path : List ℕ) (t u : Term) → place path t ≡ Some part
        → replaced new path t ≡ Some u → value w ins a u ≡ value w ins a t }
{}

/// The value of a term with other numbers for its variables is the value of the term where each variable
/// stands for what the renamed one does.
pub fn law_of_renaming()
    ensures { (w : Interpretation) (ins : List ℕ) (a : Assignment) (to : Numbers) (t : Term)
        → value w ins a (renamed to t) ≡ value w ins (before_renaming a to) t }
{}

/// A formula is true whatever its variables stand for exactly where each clause of its clause form is. It
/// needs no condition on sorts, as an assignment has a member for each variable, whether it occurs or not:
/// where some sort is empty there is no assignment, and the law says nothing.
pub fn law_of_clauses()
    ensures { (sig : Signature) (w : Interpretation) (ins : List ℕ) (f : Formula)
        → FormulaHolds sig w ins f ↔ AllByRecursion (ClauseHolds sig w ins) (cnf f) }
{}

/// An equation is true exactly where the values of its sides are one number; and some formula is false
/// in the trivial world, whatever its inputs and variables are.
pub fn law_of_truth()
    ensures equations { (w : Interpretation) (ins : List ℕ) (a : Assignment) (left right : Term)
        → IsTrue (atom_truth w ins a (Eq left right)) ↔ (value w ins a left ≡ value w ins a right) }
    ensures falsehood { (f : Formula) × ((ins : List ℕ) (a : Assignment) → IsFalse (truth trivial ins a f)) }
{}

/// What is well sorted where there are no inputs is true or false whatever the inputs are.
pub fn law_of_inputs()
    ensures atoms { (sig : Signature) (w : Interpretation) (ins : List ℕ) (a : Assignment) (x : Atom)
        → IsTrue (is_sorted_atom sig [] x) → atom_truth w ins a x ≡ atom_truth w [] a x }
    ensures formulas { (sig : Signature) (w : Interpretation) (ins : List ℕ) (a : Assignment) (f : Formula)
        → IsTrue (is_sorted_formula sig [] f) → truth w ins a f ≡ truth w [] a f }
{}

/// Merging equal literals and numbering the variables keep what holds of a clause with its answer.
pub fn law_of_holding()
    ensures merged { (sig : Signature) (w : Interpretation) (ins : List ℕ) (objects outputs : List SortId)
        (required : List Literal) (c : Clause) → HoldsFor sig w ins (Meets w objects outputs required ins) c
        → HoldsFor sig w ins (Meets w objects outputs required ins) (without_repeats c) }
    ensures renumbered { (sig : Signature) (w : Interpretation) (ins : List ℕ) (objects outputs : List SortId)
        (required : List Literal) (c : Clause) → HoldsFor sig w ins (Meets w objects outputs required ins) c
        → HoldsFor sig w ins (Meets w objects outputs required ins) (numbering_of c) }
{}

/// What holds of a numbered clause holds of its instance under terms of fitting sorts.
pub fn law_of_bindings()
    ensures { (sig : Signature) (w : Interpretation) → IsWorld sig w → (sorts : List SortId) (ins : List ℕ)
        → Members w sorts ins → (objects outputs : List SortId) (required : List Literal) (c : Clause)
        (with : List Term) → IsNumbered c → IsTrue (are_bindings sig sorts with c)
        → HoldsFor sig w ins (Meets w objects outputs required ins) c
        → HoldsFor sig w ins (Meets w objects outputs required ins) (bound with c) }
{}

/// The goal, which has the negated requirements and the outputs' variables as answer, holds where an
/// answer is asked that meets the requirements.
pub fn law_of_goals()
    ensures { (sig : Signature) (w : Interpretation) (ins : List ℕ) (objects outputs : List SortId)
        → AllByRecursion (IsSortOf sig) objects → AllByRecursion (IsSortOf sig) outputs → (required : List Literal)
        → AllByRecursion (IsPosed (objects ++ outputs)) required
        → HoldsFor sig w ins (Meets w objects outputs required ins) (goal_of objects outputs required) }
{}

/// A literal without variables that is true holds as a clause.
pub fn law_of_givens()
    ensures { (sig : Signature) (w : Interpretation) (ins : List ℕ) (l : Literal) → in_atom l.atom ≡ []
        → IsTrue (literal_truth w ins (numbered []) l) → ClauseHolds sig w ins (given_clause l) }
{}

/// In a model of well sorted axioms, what a proof starts from holds, if its goal and givens do.
pub fn law_of_sources()
    ensures { (sig : Signature) (w : Interpretation) (ins : List ℕ) (axioms : List Formula) → Models sig axioms w
        → AllByRecursion (λ (f : Formula). IsTrue (is_sorted_formula sig [] f)) axioms
        → (objects outputs : List SortId) (required : List Literal) (asked : Clause) (facts : List Clause)
        → HoldsFor sig w ins (Meets w objects outputs required ins) asked
        → AllByRecursion (ClauseHolds sig w ins) facts
        → SourcesHold sig w ins (Meets w objects outputs required ins) (sources_of axioms asked facts) }
{}
