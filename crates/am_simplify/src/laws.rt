ghost use Rattle.std.specs.Prelude.{◌≡◌, ◌↔◌, ◌++◌, ◌∷◌, ℕ, Bool, true, false, List, Some, IsTrue};
ghost use Rattle.std.specs.List.{AllByRecursion, filter};
ghost use Rattle.am_term.specs.declared.id.SortId.{SortId};
ghost use Rattle.am_term.specs.declared.signature.Signature.{Signature};
ghost use Rattle.am_term.specs.declared.term.Atom.{Atom};
ghost use Rattle.am_term.specs.declared.term.Term.{Term};
ghost use Rattle.am_term.specs.Variables.{occurs};
ghost use Rattle.am_order.specs.Order.{greater};
ghost use Rattle.am_clause.specs.Numbered.{IsNumbered};
ghost use Rattle.am_clause.specs.SortedClause.{is_sorted_clause};
ghost use Rattle.am_clause.specs.declared.clause.Clause.{Clause};
ghost use Rattle.am_simplify.specs.NormalStep.{normal_step};
ghost use Rattle.am_simplify.specs.Places.{IsListed, IsPlace, places_of_atom};
ghost use Rattle.am_simplify.specs.Reasons.{NumberedClause};
ghost use Rattle.am_simplify.specs.Steps.{IsProper, IsStepBy};
ghost use Rattle.am_simplify.specs.Subsuming.{subsumed_by};
ghost use Rattle.am_simplify.specs.Subsumption.{Subsumes};
ghost use Rattle.am_simplify.specs.declared.step.RewriteMade.{RewriteMade};
ghost use Rattle.am_simplify.specs.Units.{AreRising, is_unit, unit_of, units, with_row, with_units};

/// The test finds a subsumption exactly where there is one.
pub fn law_of_subsumption()
    ensures { (sig : Signature) (ins : List SortId) (d c : Clause) → IsNumbered d → IsTrue (is_sorted_clause sig ins d)
        → (IsTrue (subsumed_by sig ins d c) ↔ Subsumes sig ins d c) }
{}

/// The places that are listed are those of the parts that aren't variables.
pub fn law_of_places()
    ensures { (a : Atom) (path : List ℕ) → (IsListed path (places_of_atom a) ↔ IsPlace a path) }
{}

/// Each variable of the lesser of two terms occurs in the greater one.
pub fn law_of_lesser_variables()
    ensures { (sig : Signature) (s t : Term) → IsTrue (greater sig s t) → (n : ℕ) (r : SortId) → IsTrue (occurs n r t)
        → IsTrue (occurs n r s) }
{}

/// The normal step by some rows is that by those of them that are units. Where the numbers of rows rise, a row that is
/// put in by its number puts its unit in by its number; and where one more of such rows is picked, it is put in by
/// number among those picked before.
pub fn law_of_units()
    ensures alone { (sig : Signature) (ins : List SortId) (rows : List NumberedClause) (c : Clause)
        → normal_step sig ins (filter (is_unit sig) rows) c ≡ normal_step sig ins rows c }
    ensures added { (sig : Signature) (row : NumberedClause) (rows : List NumberedClause) → AreRising rows
        → units sig (with_row row rows) ≡ with_units (unit_of sig row) (units sig rows) }
    ensures picked { (p q : NumberedClause → Bool) (row : NumberedClause) (before behind : List NumberedClause)
        → AreRising (before ++ row ∷ behind) → AllByRecursion (λ r. q r ≡ p r) (before ++ behind) → p row ≡ false
        → q row ≡ true → filter q (before ++ row ∷ behind) ≡ with_row row (filter p (before ++ row ∷ behind)) }
{}

/// The normal step of a numbered, well sorted clause by such rows follows from it, by a reflex or by a rewrite with the
/// clause of a row, and its conclusion is well sorted and numbered.
pub fn law_of_normal_steps()
    ensures { (sig : Signature) (ins : List SortId) (rows : List NumberedClause) (c : Clause) → IsProper sig ins c
        → AllByRecursion (λ (r : NumberedClause). IsProper sig ins r.1) rows → (s : RewriteMade)
        → normal_step sig ins rows c ≡ Some s → IsStepBy sig ins rows c s.rule s.made }
{}
