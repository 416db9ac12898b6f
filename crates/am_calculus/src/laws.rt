ghost use Rattle.std.specs.Prelude.{◌≡◌, ◌↔◌, ℕ, List, [], Some, None, IsTrue};
ghost use Rattle.am_term.specs.declared.id.SortId.{SortId};
ghost use Rattle.am_term.specs.declared.signature.Signature.{Signature};
ghost use Rattle.am_term.specs.declared.term.Formula.{Formula};
ghost use Rattle.am_term.specs.declared.term.Literal.{Literal};
ghost use Rattle.am_term.specs.declared.term.Term.{Term};
ghost use Rattle.am_clause.specs.declared.clause.Clause.{Clause};
ghost use Rattle.am_clause.specs.declared.row.Row.{Row};
ghost use Rattle.am_clause.specs.Bound.{bound, without_repeats};
ghost use Rattle.am_clause.specs.Numbered.{IsNumbered};
ghost use Rattle.am_clause.specs.Rules.{reflex, resolve};
ghost use Rattle.am_clause.specs.SortedClause.{are_bindings, is_sorted_clause};
ghost use Rattle.am_clause.specs.Steps.{Sources, IsStep, AreSteps, clause_at};
ghost use Rattle.am_world.specs.Holding.{HoldsFor, SourcesHold};
ghost use Rattle.am_world.specs.Interpretation.{Interpretation, IsWorld, Members};
ghost use Rattle.am_world.specs.Questions.{Meets};
ghost use Rattle.am_world.specs.Value.{Assignment, IsAssignment, values};
ghost use Rattle.am_calculus.specs.Asked.{IsAskedIn, AreStepsFrom};
ghost use Rattle.am_calculus.specs.Faults.{first_fault};

/// Each row of a list of steps holds, if what the steps start from does.
pub fn law_of_steps()
    ensures { (sig : Signature) (w : Interpretation) → IsWorld sig w → (sorts : List SortId) (ins : List ℕ)
        → Members w sorts ins → (objects outputs : List SortId) (required : List Literal) (sources : Sources)
        → SourcesHold sig w ins (Meets w objects outputs required ins) sources → (rows : List Row)
        → AreSteps sig sorts sources [] rows → (n : ℕ) (c : Clause) → clause_at rows n ≡ Some c
        → HoldsFor sig w ins (Meets w objects outputs required ins) c }
{}

/// A clause that holds and has no literals has an answer, and its values are what is asked for.
pub fn law_of_last()
    ensures answers { (sig : Signature) (w : Interpretation) (ins : List ℕ) (objects outputs : List SortId)
        (required : List Literal) (c : Clause) → HoldsFor sig w ins (Meets w objects outputs required ins) c
        → c.literals ≡ [] → (ts : List Term) → c.answer ≡ Some ts → (a : Assignment) → IsAssignment sig w a
        → Meets w objects outputs required ins (values w ins a ts) }
    ensures refutes { (sig : Signature) (w : Interpretation) → IsWorld sig w
        → (ins : List ℕ) (objects outputs : List SortId) (required : List Literal) (c : Clause)
        → HoldsFor sig w ins (Meets w objects outputs required ins) c → c.literals ≡ [] → c.answer ≡ None → ⊥ }
{}

/// From a proof to what was asked: in a model of the axioms, for inputs in their sorts that meet the
/// givens, each row holds; the values of the answer of a row without literals are what is asked for; and
/// there is no row without literals and without an answer.
pub fn law_of_proofs()
    ensures rows { (sig : Signature) (axioms : List Formula) (w : Interpretation) (sorts : List SortId) (ins : List ℕ)
        (objects outputs : List SortId) (required : List Literal) (facts : List Clause)
        → IsAskedIn sig axioms w sorts ins objects outputs required facts → (rows : List Row)
        → AreStepsFrom sig axioms sorts objects outputs required facts rows → (n : ℕ) (c : Clause)
        → clause_at rows n ≡ Some c → HoldsFor sig w ins (Meets w objects outputs required ins) c }
    ensures answers { (sig : Signature) (axioms : List Formula) (w : Interpretation) (sorts : List SortId)
        (ins : List ℕ) (objects outputs : List SortId) (required : List Literal) (facts : List Clause)
        → IsAskedIn sig axioms w sorts ins objects outputs required facts → (rows : List Row)
        → AreStepsFrom sig axioms sorts objects outputs required facts rows → (n : ℕ) (c : Clause)
        → clause_at rows n ≡ Some c → c.literals ≡ [] → (ts : List Term) → c.answer ≡ Some ts → (a : Assignment)
        → IsAssignment sig w a → Meets w objects outputs required ins (values w ins a ts) }
    ensures refutes { (sig : Signature) (axioms : List Formula) (w : Interpretation) (sorts : List SortId)
        (ins : List ℕ) (objects outputs : List SortId) (required : List Literal) (facts : List Clause)
        → IsAskedIn sig axioms w sorts ins objects outputs required facts → (rows : List Row)
        → AreStepsFrom sig axioms sorts objects outputs required facts rows → (n : ℕ) (c : Clause)
        → clause_at rows n ≡ Some c → c.literals ≡ [] → c.answer ≡ None → ⊥ }
{}

/// A well sorted row has no fault exactly where it is a step.
pub fn law_of_faults()
    ensures { (sig : Signature) (sorts : List SortId) (sources : Sources) (rows : List Row) (row : Row)
        → IsTrue (is_sorted_clause sig sorts row.clause)
        → (first_fault sig sorts sources rows row ≡ None) ↔ IsStep sig sorts sources rows row }
{}

/// The instance of a well sorted clause is well sorted, and so is what factor, reflex, resolve and close
/// make of such instances. What replaces a part needs a test.
pub fn law_of_sorting()
    ensures bound { (sig : Signature) (sorts : List SortId) (with : List Term) (c : Clause) → IsNumbered c
        → IsTrue (are_bindings sig sorts with c) → IsTrue (is_sorted_clause sig sorts c)
        → IsTrue (is_sorted_clause sig sorts (bound with c)) }
    ensures merged { (sig : Signature) (sorts : List SortId) (c : Clause) → IsTrue (is_sorted_clause sig sorts c)
        → IsTrue (is_sorted_clause sig sorts (without_repeats c)) }
    ensures reflex { (sig : Signature) (sorts : List SortId) (i : ℕ) (c : Clause)
        → IsTrue (is_sorted_clause sig sorts c) → IsTrue (is_sorted_clause sig sorts ((reflex i).made c)) }
    ensures resolve { (sig : Signature) (sorts : List SortId) (i j : ℕ) (c d : Clause)
        → IsTrue (is_sorted_clause sig sorts c) → IsTrue (is_sorted_clause sig sorts d)
        → IsTrue (is_sorted_clause sig sorts ((resolve i j).made c d)) }
{}
