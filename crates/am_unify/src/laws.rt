ghost use Rattle.std.specs.Prelude.{◌≡◌, ◌≢◌, ◌∷◌, [], ℕ, List, Some, IsTrue};
ghost use Rattle.am_term.specs.declared.id.SortId.{SortId};
ghost use Rattle.am_term.specs.declared.signature.Signature.{Signature};
ghost use Rattle.am_term.specs.declared.term.Term.{Term};
ghost use Rattle.am_term.specs.declared.term.Term.TheVariants.{Var};
ghost use Rattle.am_term.specs.Variables.{occurs};
ghost use Rattle.am_unify.specs.Mgu.{mgu, mgu_step};
ghost use Rattle.am_unify.specs.Occurrence.{has_given_sorts, number_occurs};
ghost use Rattle.am_unify.specs.Substitution.{Substitution, apply};
ghost use Rattle.am_unify.specs.Unifier.{AreSortedUnder, IsMostGeneral, IsRenamed, IsSolved, IsUnifier};

/// `mgu` is the textbook recursion: no pairs have the empty unifier, and from pairs it takes one step
/// and goes on. Of two variables of one sort the left one is bound.
pub fn law_of_mgu()
    ensures none { (sig : Signature) (ins : List SortId) → mgu sig ins [] ≡ Some [] }
    ensures step { (sig : Signature) (ins : List SortId) (p : Term × Term) (ps : List (Term × Term))
        → mgu sig ins (p ∷ ps) ≡ mgu_step sig ins (mgu sig ins) (mgu sig ins) p ps }
    ensures left { (sig : Signature) (ins : List SortId) (n m : ℕ) (s : SortId) → n ≢ m
        → mgu sig ins ((Var n s, Var m s) ∷ []) ≡ Some ((n, Var m s) ∷ []) }
{}

/// For well-sorted terms whose variables of one number have one sort, `mgu` gives a most general
/// unifier, or none where there is no unifier. A most general unifier is idempotent, and every unifier
/// gives a term what it gives the term's instance under the most general one.
pub fn law_of_most_general()
    ensures solved { (sig : Signature) (ins : List SortId) (sorts : ℕ → SortId) (ps : List (Term × Term))
        → AreSortedUnder sig ins sorts ps → IsSolved sig ins sorts ps (mgu sig ins ps) }
    ensures terms { (sig : Signature) (ins : List SortId) (sorts : ℕ
        → SortId) (σ θ : Substitution) (ps : List (Term × Term)) → IsMostGeneral sig ins sorts σ ps
        → IsUnifier sig ins sorts θ ps → (t : Term) → IsTrue (has_given_sorts sorts t)
        → apply θ (apply σ t) ≡ apply θ t }
    ensures idempotent { (sig : Signature) (ins : List SortId) (sorts : ℕ
        → SortId) (σ : Substitution) (ps : List (Term × Term)) → IsMostGeneral sig ins sorts σ ps → (n : ℕ)
        → apply σ (σ n (sorts n)) ≡ σ n (sorts n) }
{}

/// Any two most general unifiers differ by a renaming of variables that keeps their sorts.
pub fn law_of_renaming()
    ensures { (sig : Signature) (ins : List SortId) (sorts : ℕ → SortId) (σ τ : Substitution) (ps : List (Term × Term))
        → IsMostGeneral sig ins sorts σ ps → IsMostGeneral sig ins sorts τ ps → IsRenamed sig sorts σ τ }
{}

/// A number occurs in a term exactly where a variable of that number, of some sort, occurs there.
pub fn law_of_occurrence()
    ensures number { (n : ℕ) (s : SortId) (t : Term) → IsTrue (occurs n s t) → IsTrue (number_occurs n t) }
    ensures variable { (n : ℕ) (t : Term) → IsTrue (number_occurs n t) → (s : SortId) × IsTrue (occurs n s t) }
{}
