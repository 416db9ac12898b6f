ghost use Rattle.std.specs.Prelude.{◌≡◌};
ghost use Rattle.std.specs.List.{list_all};
ghost use Rattle.am_clause.specs.Final.{is_computable_term, is_final_clause};

use crate::clause::Clause;
use am_term::{Ctx, Signature, Term};

/// Whether nothing is left to show and a program can compute the answer: there are no literals, and an
/// answer without variables in which all symbols are computable. Takes no memory.
#[tactic(auto, using(crate::proofs::Computing::computing))]
pub fn is_final(ctx: &Ctx, clause: &Clause) -> bool
    ensures { result ≡ is_final_clause ctx.now.sig.now clause.now }
{
    if clause.literals.len() != 0 {
        return false;
    }
    match &clause.answer {
        Some(terms) => are_computable(ctx.sig, terms.as_slice()),
        None => false,
    }
}

#[cycle(computing)]
#[tactic(auto, using(crate::proofs::Computing::computing))]
fn are_computable(signature: &Signature, terms: &[Term]) -> bool
    ensures { result ≡ list_all (is_computable_term signature.now) terms.now }
{
    for term in terms {
        if !is_computable(signature, term) {
            return false;
        }
    }
    true
}

// Whether the term has no variables, and a program can compute each of its symbols.
#[cycle(computing)]
#[tactic(auto, using(crate::proofs::Computing::computing))]
fn is_computable(signature: &Signature, term: &Term) -> bool
    ensures { result ≡ is_computable_term signature.now term.now }
{
    match term {
        Term::Var { .. } => false,
        Term::In { .. } => true,
        Term::App { f, args } => match signature.symbols.get(f.0 as usize) {
            Some(symbol) => symbol.computable() && are_computable(signature, args.as_slice()),
            None => false,
        },
    }
}
