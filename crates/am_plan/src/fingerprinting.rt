ghost use Rattle.std.specs.Prelude.{◌≡◌, map};
ghost use Rattle.am_term.specs.declared.term.Term.TheVariants.{App};
ghost use Rattle.am_plan.specs.Calls.{call_with};
ghost use Rattle.am_plan.specs.Fingerprints.{mix as mixed, fingerprint as fingerprint_of_term, fingerprint_with, call_fingerprint as fingerprint_of_call};

use crate::call::Callee;
use am_term::{SymId, Term};

const MULTIPLIER: u64 = 11_400_714_819_323_198_485;

// The fingerprint with one more number in it.
#[tactic(auto, unfolding(crate::specs::Fingerprints::mix))]
fn mix(fingerprint: u64, number: u64) -> u64
    ensures { result ≡ mixed fingerprint number }
{
    fingerprint.wrapping_add(number).wrapping_mul(MULTIPLIER)
}

/// The fingerprint of a term. Takes no memory.
#[cycle(fingerprinting)]
#[tactic(auto, using(crate::proofs::Fingerprinted::fingerprinting))]
pub fn fingerprint_of(term: &Term) -> u64
    ensures { result ≡ fingerprint_of_term term.now }
{
    match term {
        Term::Var { n, sort } => mix(mix(1, *n as u64), sort.0 as u64),
        Term::In { k } => mix(2, *k as u64),
        Term::App { f, args } => fingerprint_over(3, f.0 as u64, args.as_slice()),
    }
}

// The fingerprint of what is of this kind, has this number, and the terms below it.
#[cycle(fingerprinting)]
#[tactic(auto, using(crate::proofs::Fingerprinted::fingerprinting))]
fn fingerprint_over(kind: u64, number: u64, terms: &[Term]) -> u64
    ensures { result ≡ fingerprint_with kind number (map fingerprint_of_term terms.now) }
{
    let mut fingerprint = mix(mix(kind, number), terms.len() as u64);
    for term in terms {
        fingerprint = mix(fingerprint, fingerprint_of(term));
    }
    fingerprint
}

/// The fingerprint of a symbol at terms. Takes no memory.
#[tactic(auto, using(crate::proofs::Fingerprinted::fingerprinting))]
pub fn fingerprint_at(f: SymId, args: &[Term]) -> u64
    ensures { result ≡ fingerprint_of_term (App f args.now) }
{
    fingerprint_over(3, f.0 as u64, args)
}

/// The fingerprint of the call at these terms. Takes no memory.
pub fn call_fingerprint(callee: Callee, args: &[Term]) -> u64
    ensures { result ≡ fingerprint_of_call (call_with args.now callee) }
{
    match callee {
        Callee::Routine(k) => fingerprint_over(4, k as u64, args),
        Callee::Function(k) => fingerprint_over(5, k as u64, args),
    }
}
