ghost use Rattle.std.specs.Prelude.{◌≡◌, ◌+◌, ◌<◌, ◌≤◌, ◌||◌, ◌⊎◌, ◌++◌, ℕ, false, IsTrue, IsFalse, List, ◌∷◌, Option, Some, is_some, length};
ghost use Rattle.am_term.specs.declared.id.SortId.{SortId};
ghost use Rattle.am_term.specs.declared.signature.Signature.{Signature};
ghost use Rattle.am_term.specs.declared.term.Term.{Term};
ghost use Rattle.am_term.specs.Instance.{instance, instances};
ghost use Rattle.am_term.specs.Place.{place, replaced, AreDisjoint};
ghost use Rattle.am_term.specs.Sorting.{sort_of, term_fits, KeepsSorts};
ghost use Rattle.am_term.specs.Sorts.{same_sort, parent, at_parent, fits_in, fits, root, akin_in, akin};
ghost use Rattle.am_term.specs.Span.{span};
ghost use Rattle.am_term.specs.Variables.{occurs, is_variable};
ghost use Rattle.am_term.specs.Weight.{nodes};

/// A sort fits itself, what its parent fits, and nothing else; so fitting is an order, in which the
/// sorts that one sort fits stand one above the other.
#[tactic(auto, using(crate::proofs::Climbs::laws_of_fits))]
pub fn law_of_fits()
    ensures rule { (sig : Signature) (s t : SortId)
        → fits sig s t ≡ (same_sort s t || at_parent (parent sig s) (λ p. fits sig p t) false) }
    ensures reflexive { (sig : Signature) (s : SortId) → IsTrue (fits sig s s) }
    ensures transitive { (sig : Signature) (s t u : SortId) → IsTrue (fits sig s t) → IsTrue (fits sig t u)
        → IsTrue (fits sig s u) }
    ensures antisymmetric { (sig : Signature) (s t : SortId) → IsTrue (fits sig s t) → IsTrue (fits sig t s) → s ≡ t }
    ensures comparable { (sig : Signature) (s t u : SortId) → IsTrue (fits sig s t) → IsTrue (fits sig s u)
        → IsTrue (fits sig t u) ⊎ IsTrue (fits sig u t) }
{}

/// Two sorts are akin exactly where some sort stands above both of them, and that is where they stand
/// below one root. The root of a sort is that of its parent, and a sort without a parent is its own. So
/// being akin is an equivalence, and a sort is akin to each that it fits.
pub fn law_of_akin()
    ensures root { (sig : Signature) (s : SortId) → root sig s ≡ at_parent (parent sig s) (root sig) s }
    ensures rooted { (sig : Signature) (s t : SortId) → akin sig s t ≡ same_sort (root sig s) (root sig t) }
    ensures joined { (sig : Signature) (s t : SortId) → IsTrue (akin sig s t) → (u : SortId) × IsTrue (fits sig s u)
        × IsTrue (fits sig t u) }
    ensures joins { (sig : Signature) (s t u : SortId) → IsTrue (fits sig s u) → IsTrue (fits sig t u)
        → IsTrue (akin sig s t) }
    ensures reflexive { (sig : Signature) (s : SortId) → IsTrue (akin sig s s) }
    ensures symmetric { (sig : Signature) (s t : SortId) → IsTrue (akin sig s t) → IsTrue (akin sig t s) }
    ensures transitive { (sig : Signature) (s t u : SortId) → IsTrue (akin sig s t) → IsTrue (akin sig t u)
        → IsTrue (akin sig s u) }
    ensures fits { (sig : Signature) (s t : SortId) → IsTrue (fits sig s t) → IsTrue (akin sig s t) }
{}

/// Where more sorts stand behind others, whatever their parents are, the others fit and are akin as before.
pub fn law_of_older_sorts()
    ensures fits { (parents more : List (Option SortId)) (s t : SortId) → s.0 < length parents
        → fits_in (parents ++ more) s t ≡ fits_in parents s t }
    ensures akin { (parents more : List (Option SortId)) (s t : SortId) → s.0 < length parents → t.0 < length parents
        → akin_in (parents ++ more) s t ≡ akin_in parents s t }
{}

/// The span of a term is the least number above those of the variables that occur in it.
#[tactic(auto, using(crate::proofs::Instances::laws_of_span))]
pub fn law_of_span()
    ensures above { (t : Term) (n : ℕ) (s : SortId) → IsTrue (occurs n s t) → n < span t }
    ensures least { (t : Term) (m : ℕ) → ((n : ℕ) (s : SortId) → IsTrue (occurs n s t) → n < m) → span t ≤ m }
{}

/// An instance of an instance is one instance, under the instances of the first list's terms. An
/// instance has as many nodes as the term at least.
#[tactic(auto, using(crate::proofs::Instances::laws_of_instances))]
pub fn law_of_instances()
    ensures composed { (first second : List Term) (t : Term) → span t ≤ length first
        → instance second (instance first t) ≡ instance (instances second first) t }
    ensures larger { (with : List Term) (t : Term) → nodes t ≤ nodes (instance with t) }
{}

/// A part can be replaced where there is one. Then the new part, with all that is in it, stands at its
/// place, the part above has it in it, and the parts at disjoint paths stay. Where the part that stands
/// there is put, the term stays.
#[tactic(auto, using(crate::proofs::Parts::laws_of_places))]
pub fn law_of_places()
    ensures there { (new t : Term) (path : List ℕ) → is_some (replaced new path t) ≡ is_some (place path t) }
    ensures new { (new t u : Term) (path : List ℕ) → replaced new path t ≡ Some u → place path u ≡ Some new }
    ensures below { (new t u : Term) (path deeper : List ℕ) → replaced new path t ≡ Some u
        → place (path ++ deeper) u ≡ place deeper new }
    ensures above { (new t part u : Term) (path deeper : List ℕ) → place path t ≡ Some part
        → replaced new (path ++ deeper) t ≡ Some u → place path u ≡ replaced new deeper part }
    ensures beside { (new t u : Term) (path other : List ℕ) → AreDisjoint path other → replaced new path t ≡ Some u
        → place other u ≡ place other t }
    ensures same { (t part : Term) (path : List ℕ) → place path t ≡ Some part → replaced part path t ≡ Some t }
{}

/// Where the sort of a new part fits that of the part that it replaces, the sort of the whole fits its
/// sort before, and is the same below the root. Where each variable of a term becomes a term whose sort
/// fits that of the variable, the sort of the instance fits that of the term, and is the same if the
/// term is no variable.
#[tactic(auto, using(crate::proofs::Kept::laws_of_sorts))]
pub fn law_of_sorts()
    ensures replaced { (sig : Signature) (ins : List SortId) (path : List ℕ) (t part new u : Term) (p s : SortId)
        → place path t ≡ Some part → replaced new path t ≡ Some u → sort_of sig ins part ≡ Some p
        → IsTrue (term_fits sig ins new p) → sort_of sig ins t ≡ Some s → IsTrue (term_fits sig ins u s) }
    ensures inside { (sig : Signature) (ins : List SortId) (k : ℕ) (path : List ℕ) (t part new u : Term) (p s : SortId)
        → place (k ∷ path) t ≡ Some part → replaced new (k ∷ path) t ≡ Some u → sort_of sig ins part ≡ Some p
        → IsTrue (term_fits sig ins new p) → sort_of sig ins t ≡ Some s → sort_of sig ins u ≡ Some s }
    ensures instance { (sig : Signature) (ins : List SortId) (with : List Term) (t : Term) (s : SortId)
        → KeepsSorts sig ins with t → sort_of sig ins t ≡ Some s → IsTrue (term_fits sig ins (instance with t) s) }
    ensures same { (sig : Signature) (ins : List SortId) (with : List Term) (t : Term) (s : SortId)
        → KeepsSorts sig ins with t → IsFalse (is_variable t) → sort_of sig ins t ≡ Some s
        → sort_of sig ins (instance with t) ≡ Some s }
{}
