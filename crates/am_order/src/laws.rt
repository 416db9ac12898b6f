ghost use Rattle.std.specs.Prelude.{◌≡◌, ◌++◌, ◌||◌, ◌≢◌, List, ◌∷◌, IsTrue, false};
ghost use Rattle.std.specs.List.{list_any};
ghost use Rattle.am_term.specs.declared.id.SymId.{SymId};
ghost use Rattle.am_term.specs.declared.signature.Signature.{Signature};
ghost use Rattle.am_term.specs.declared.term.Term.{Term};
ghost use Rattle.am_term.specs.declared.term.Term.TheVariants.{App};
ghost use Rattle.am_term.specs.Place.{args_of};
ghost use Rattle.am_term.specs.Same.{same_term};
ghost use Rattle.am_term.specs.Instance.{instance};
ghost use Rattle.am_order.specs.Parts.{is_part, inner_variable};
ghost use Rattle.am_order.specs.Order.{greater};
ghost use Rattle.am_order.specs.Cases.{by_part, by_head, by_arguments};
ghost use Rattle.am_order.specs.Closure.{IsSubstitution, Frame, placed};

/// A term is greater than another in four cases: the other is a variable that occurs in it and isn't
/// it; some argument of it is the other or greater; its head stands above that of the other and it is
/// greater than each argument of the other; or the heads are the same, it is greater than each
/// argument of the other, and at the first place where the arguments differ its own is greater.
#[tactic(auto, using(crate::proofs::Rulesets::rule))]
pub fn law_of_cases()
    ensures rule { (sig : Signature) (s t : Term)
        → greater sig s t ≡ (inner_variable t s || by_part sig s t || by_head sig s t || by_arguments sig s t) }
{}

/// The order is strict: no term is greater than itself, and what is greater than a term is greater
/// than all that the term is greater than.
#[tactic(auto, using(crate::proofs::Rulesets::strict))]
pub fn law_of_order()
    ensures irreflexive { (sig : Signature) (s : Term) → greater sig s s ≡ false }
    ensures transitive { (sig : Signature) (s t u : Term) → IsTrue (greater sig s t) → IsTrue (greater sig t u)
        → IsTrue (greater sig s u) }
{}

/// The parts of a term are the term itself and the parts of its arguments, and a term is greater than
/// each of its other parts.
#[tactic(auto, using(crate::proofs::Rulesets::parts))]
pub fn law_of_parts()
    ensures parts { (t s : Term) → is_part t s ≡ (same_term t s || list_any (is_part t) (args_of s)) }
    ensures greater { (sig : Signature) (s t : Term) → IsTrue (is_part t s) → t ≢ s → IsTrue (greater sig s t) }
{}

/// A greater term stays greater where both terms are instantiated alike, by a list of terms or by any
/// substitution.
#[tactic(auto, using(crate::proofs::Rulesets::substitutions))]
pub fn law_of_instances()
    ensures instances { (sig : Signature) (with : List Term) (s t : Term) → IsTrue (greater sig s t)
        → IsTrue (greater sig (instance with s) (instance with t)) }
    ensures substitutions { (sig : Signature) (θ : Term → Term) → IsSubstitution θ → (s t : Term)
        → IsTrue (greater sig s t) → IsTrue (greater sig (θ s) (θ t)) }
{}

/// A greater term stays greater where both terms stand at one place: as an argument of a symbol with
/// the same others, and so at any depth.
#[tactic(auto, using(crate::proofs::Rulesets::contexts))]
pub fn law_of_contexts()
    ensures arguments { (sig : Signature) (f : SymId) (before behind : List Term) (s t : Term)
        → IsTrue (greater sig s t) → IsTrue
        (greater sig (App f (before ++ s ∷ behind)) (App f (before ++ t ∷ behind))) }
    ensures places { (sig : Signature) (frames : List Frame) (s t : Term) → IsTrue (greater sig s t)
        → IsTrue (greater sig (placed frames s) (placed frames t)) }
{}
