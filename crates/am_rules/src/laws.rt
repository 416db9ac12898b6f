ghost use Rattle.std.specs.Prelude.{◌≡◌, ℕ, List, Some, IsTrue};
ghost use Rattle.am_term.specs.declared.id.SortId.{SortId};
ghost use Rattle.am_term.specs.declared.signature.Signature.{Signature};
ghost use Rattle.am_clause.specs.declared.clause.Clause.{Clause};
ghost use Rattle.am_clause.specs.declared.row.Made.{Made};
ghost use Rattle.am_clause.specs.declared.row.Row.{Row};
ghost use Rattle.am_clause.specs.declared.row.Side.{Side};
ghost use Rattle.am_clause.specs.declared.row.Rule.TheVariants.{Factor, Reflex, Resolve, Para, Close};
ghost use Rattle.am_clause.specs.Numbered.{IsNumbered};
ghost use Rattle.am_clause.specs.Rules.{factor, reflex, resolve, para, close, rewrite};
ghost use Rattle.am_clause.specs.SortedClause.{is_sorted_clause};
ghost use Rattle.am_clause.specs.Steps.{Sources, IsStep, clause_at};
ghost use Rattle.am_rules.specs.Conclusions.{factored, reflexed, resolved, paramodulated, closed_off, rewritten};
ghost use Rattle.am_rules.specs.Inference.{IsInferenceOfOne, IsInferenceOfTwo, AnswersOne, AnswersTwo, AnswersSorted, AnswersRewrite, IsStepOfOne, IsStepOfTwo, row_of};
ghost use Rattle.am_rules.specs.Closing.{IsClosing, AnswersClosing};

/// Any two most general bindings give one row.
pub fn law_of_one_row()
    ensures factor { (sig : Signature) (ins : List SortId) (p : Clause) (i j : ℕ) (m n : Made) → IsNumbered p
        → IsInferenceOfOne sig ins (factor i j) p m → IsInferenceOfOne sig ins (factor i j) p n → n ≡ m }
    ensures reflex { (sig : Signature) (ins : List SortId) (p : Clause) (i : ℕ) (m n : Made) → IsNumbered p
        → IsInferenceOfOne sig ins (reflex i) p m → IsInferenceOfOne sig ins (reflex i) p n → n ≡ m }
    ensures resolve { (sig : Signature) (ins : List SortId) (p : Clause) (i : ℕ) (q : Clause) (j : ℕ) (m n : Made)
        → IsNumbered p → IsNumbered q → IsInferenceOfTwo sig ins (resolve i j) p q m
        → IsInferenceOfTwo sig ins (resolve i j) p q n → n ≡ m }
    ensures para { (sig : Signature) (ins : List SortId) (p : Clause) (j : ℕ) (side : Side) (q : Clause) (i : ℕ)
        (path : List ℕ) (m n : Made) → IsNumbered p → IsNumbered q
        → IsInferenceOfTwo sig ins (para j side i path) p q m → IsInferenceOfTwo sig ins (para j side i path) p q n
        → n ≡ m }
    ensures close { (sig : Signature) (ins : List SortId) (p : Clause) (m n : Made) → IsClosing sig ins p m
        → IsClosing sig ins p n → n ≡ m }
{}

/// What factor, reflex, resolve and close make of well sorted clauses is well sorted.
pub fn law_of_sorted_inferences()
    ensures factor { (sig : Signature) (ins : List SortId) (p : Clause) (i j : ℕ) (m : Made) → IsNumbered p
        → IsTrue (is_sorted_clause sig ins p) → IsInferenceOfOne sig ins (factor i j) p m
        → IsTrue (is_sorted_clause sig ins m.clause) }
    ensures reflex { (sig : Signature) (ins : List SortId) (p : Clause) (i : ℕ) (m : Made) → IsNumbered p
        → IsTrue (is_sorted_clause sig ins p) → IsInferenceOfOne sig ins (reflex i) p m
        → IsTrue (is_sorted_clause sig ins m.clause) }
    ensures resolve { (sig : Signature) (ins : List SortId) (p : Clause) (i : ℕ) (q : Clause) (j : ℕ) (m : Made)
        → IsNumbered p → IsNumbered q → IsTrue (is_sorted_clause sig ins p) → IsTrue (is_sorted_clause sig ins q)
        → IsInferenceOfTwo sig ins (resolve i j) p q m → IsTrue (is_sorted_clause sig ins m.clause) }
    ensures close { (sig : Signature) (ins : List SortId) (p : Clause) (m : Made) → IsNumbered p
        → IsTrue (is_sorted_clause sig ins p) → IsClosing sig ins p m → IsTrue (is_sorted_clause sig ins m.clause) }
{}

/// A well sorted inference from earlier rows is a step.
pub fn law_of_inferences()
    ensures factor { (sig : Signature) (ins : List SortId) (sources : Sources) (rows : List Row) (k i j : ℕ)
        (p : Clause) (m : Made) → clause_at rows k ≡ Some p → IsInferenceOfOne sig ins (factor i j) p m
        → IsTrue (is_sorted_clause sig ins m.clause) → IsStep sig ins sources rows (row_of (Factor k i j) m) }
    ensures reflex { (sig : Signature) (ins : List SortId) (sources : Sources) (rows : List Row) (k i : ℕ) (p : Clause)
        (m : Made) → clause_at rows k ≡ Some p → IsInferenceOfOne sig ins (reflex i) p m
        → IsTrue (is_sorted_clause sig ins m.clause) → IsStep sig ins sources rows (row_of (Reflex k i) m) }
    ensures resolve { (sig : Signature) (ins : List SortId) (sources : Sources) (rows : List Row) (k i n j : ℕ)
        (p q : Clause) (m : Made) → clause_at rows k ≡ Some p → clause_at rows n ≡ Some q
        → IsInferenceOfTwo sig ins (resolve i j) p q m → IsTrue (is_sorted_clause sig ins m.clause)
        → IsStep sig ins sources rows (row_of (Resolve k i n j) m) }
    ensures para { (sig : Signature) (ins : List SortId) (sources : Sources) (rows : List Row) (k j : ℕ) (side : Side)
        (n i : ℕ) (path : List ℕ) (p q : Clause) (m : Made) → clause_at rows k ≡ Some p → clause_at rows n ≡ Some q
        → IsInferenceOfTwo sig ins (para j side i path) p q m → IsTrue (is_sorted_clause sig ins m.clause)
        → IsStep sig ins sources rows (row_of (Para k j side n i path) m) }
    ensures close { (sig : Signature) (ins : List SortId) (sources : Sources) (rows : List Row) (k : ℕ) (p : Clause)
        (m : Made) → clause_at rows k ≡ Some p → IsClosing sig ins p m → IsTrue (is_sorted_clause sig ins m.clause)
        → IsStep sig ins sources rows (row_of (Close k) m) }
{}

/// What the functions of the rules give of numbered, well sorted clauses: an inference, and none exactly where there is
/// none.
pub fn law_of_conclusions()
    ensures factor { (sig : Signature) (ins : List SortId) (p : Clause) (i j : ℕ) → IsNumbered p
        → IsTrue (is_sorted_clause sig ins p) → AnswersOne sig ins (factor i j) p (factored sig ins p i j) }
    ensures reflex { (sig : Signature) (ins : List SortId) (p : Clause) (i : ℕ) → IsNumbered p
        → IsTrue (is_sorted_clause sig ins p) → AnswersOne sig ins (reflex i) p (reflexed sig ins p i) }
    ensures resolve { (sig : Signature) (ins : List SortId) (p : Clause) (i : ℕ) (q : Clause) (j : ℕ) → IsNumbered p
        → IsNumbered q → IsTrue (is_sorted_clause sig ins p) → IsTrue (is_sorted_clause sig ins q)
        → AnswersTwo sig ins (resolve i j) p q (resolved sig ins p i q j) }
    ensures para { (sig : Signature) (ins : List SortId) (p : Clause) (j : ℕ) (side : Side) (q : Clause) (i : ℕ)
        (path : List ℕ) → IsNumbered p → IsNumbered q → IsTrue (is_sorted_clause sig ins p)
        → IsTrue (is_sorted_clause sig ins q)
        → AnswersSorted sig ins (para j side i path) p q (paramodulated sig ins p j side q i path) }
    ensures close { (sig : Signature) (ins : List SortId) (p : Clause) → IsNumbered p
        → AnswersClosing sig ins p (closed_off sig ins p) }
{}

/// What rewriting gives of numbered, well sorted clauses: a well sorted step by the match of the side with the part,
/// and none only where the rule doesn't suit the clauses, nothing makes the side the part, or the conclusion isn't well
/// sorted.
pub fn law_of_rewriting()
    ensures { (sig : Signature) (ins : List SortId) (p : Clause) (side : Side) (q : Clause) (i : ℕ) (path : List ℕ)
        → IsNumbered p → IsNumbered q → IsTrue (is_sorted_clause sig ins p) → IsTrue (is_sorted_clause sig ins q)
        → AnswersRewrite sig ins p side q i path (rewritten sig ins p side q i path) }
{}

/// What each rule makes of numbered, well sorted clauses is a step: it follows, is well sorted and numbered, and its
/// clause is numbered by itself.
pub fn law_of_made_steps()
    ensures factor { (sig : Signature) (ins : List SortId) (p : Clause) (i j : ℕ) (m : Made) → IsNumbered p
        → IsTrue (is_sorted_clause sig ins p) → factored sig ins p i j ≡ Some m → IsStepOfOne sig ins m (factor i j) p }
    ensures reflex { (sig : Signature) (ins : List SortId) (p : Clause) (i : ℕ) (m : Made) → IsNumbered p
        → IsTrue (is_sorted_clause sig ins p) → reflexed sig ins p i ≡ Some m → IsStepOfOne sig ins m (reflex i) p }
    ensures resolve { (sig : Signature) (ins : List SortId) (p : Clause) (i : ℕ) (q : Clause) (j : ℕ) (m : Made)
        → IsNumbered p → IsNumbered q → IsTrue (is_sorted_clause sig ins p) → IsTrue (is_sorted_clause sig ins q)
        → resolved sig ins p i q j ≡ Some m → IsStepOfTwo sig ins m (resolve i j) p q }
    ensures para { (sig : Signature) (ins : List SortId) (p : Clause) (j : ℕ) (side : Side) (q : Clause) (i : ℕ)
        (path : List ℕ) (m : Made) → IsNumbered p → IsNumbered q → IsTrue (is_sorted_clause sig ins p)
        → IsTrue (is_sorted_clause sig ins q) → paramodulated sig ins p j side q i path ≡ Some m
        → IsStepOfTwo sig ins m (para j side i path) p q }
    ensures rewrite { (sig : Signature) (ins : List SortId) (p : Clause) (side : Side) (q : Clause) (i : ℕ)
        (path : List ℕ) (m : Made) → IsNumbered p → IsNumbered q → IsTrue (is_sorted_clause sig ins p)
        → IsTrue (is_sorted_clause sig ins q) → rewritten sig ins p side q i path ≡ Some m
        → IsStepOfTwo sig ins m (rewrite 1 side i path) p q }
    ensures close { (sig : Signature) (ins : List SortId) (p : Clause) (m : Made) → IsNumbered p
        → IsTrue (is_sorted_clause sig ins p) → closed_off sig ins p ≡ Some m → IsStepOfOne sig ins m close p }
{}
