ghost use Rattle.std.specs.Prelude.{◌≡◌, Some};
ghost use Rattle.am_term.specs.declared.term.Term.TheVariants.{App};
ghost use Rattle.am_term.specs.declared.term.Term.TheViews.{out-Term};
ghost use Rattle.am_term.specs.Same.{same_term};
ghost use Rattle.am_plan.specs.Fingerprints.{fingerprint as fingerprint_of_term};
ghost use Rattle.am_plan.specs.Plan.{head_symbol};

use crate::fingerprinting::fingerprint_at;
use am_term::{SymId, Term, same_terms};
use std::marker::Model;

/// A symbol at terms of an answer, which contracts see as the term that they make. It keeps its fingerprint.
#[derive(Drop)]
pub struct Application<'a> {
    symbol: SymId,
    args: &'a [Term],
    fingerprint: u64,
}

impl<'a> Model for Application<'a> {
    ghost use Rattle.std.specs.Prelude.{◌≡◌};
    ghost use Rattle.am_term.specs.declared.term.Term.{Term};
    ghost use Rattle.am_term.specs.declared.term.Term.TheVariants.{App};
    ghost use Rattle.am_term.specs.contracts.term.Term as term;
    ghost use Rattle.am_plan.specs.Fingerprints.{fingerprint as fingerprint_of_term};

    ghost Value = { Term };

    ghost coded = { term.the_row.coded };

    ghost view = { λ a. App a.symbol a.args.now };

    ghost invariant = { λ a. a.fingerprint ≡ fingerprint_of_term (App a.symbol a.args.now) };
}

#[tactic(auto, using(crate::proofs::Applied::applying))]
impl<'a> Application<'a> {
    /// The symbol at these terms. Takes no memory, as all of its functions.
    pub fn new(symbol: SymId, args: &'a [Term]) -> Application<'a>
        ensures { result ≡ App symbol args.now }
    {
        let fingerprint = fingerprint_at(symbol, args);
        Application {
            symbol,
            args,
            fingerprint,
        }
    }

    /// Its symbol.
    pub fn symbol(&self) -> SymId
        ensures { head_symbol (out-Term self.now) ≡ Some result }
    {
        self.symbol
    }

    /// Its fingerprint.
    pub fn fingerprint(&self) -> u64
        ensures { result ≡ fingerprint_of_term self.now }
    {
        self.fingerprint
    }

    /// Whether the two are one term.
    pub fn is_same(&self, other: &Application) -> bool
        ensures { result ≡ same_term self.now other.now }
    {
        self.symbol.0 == other.symbol.0 && same_terms(self.args, other.args)
    }

    /// Whether it is the term.
    pub fn is_term(&self, term: &Term) -> bool
        ensures { result ≡ same_term self.now term.now }
    {
        match term {
            Term::Var { .. } => false,
            Term::In { .. } => false,
            Term::App { f, args } => self.symbol.0 == f.0 && same_terms(self.args, args.as_slice()),
        }
    }
}
