ghost use Rattle.std.specs.Prelude.{◌≡◌};
ghost use Rattle.am_plan.specs.Calls.{call_with};
ghost use Rattle.am_plan.specs.Fingerprints.{call_fingerprint as fingerprint_of_call};

use crate::fingerprinting::call_fingerprint;
use am_term::Term;
use std::marker::Model;

/// What is called: a routine or a listed function, by its place in the theory, from 0.
#[derive(Clone, Copy, Debug, PartialEq, Eq)]
pub enum Callee {
    Routine(usize),
    Function(usize),
}

/// A call at terms of an answer, which contracts see as what is called and these terms. It keeps its
/// fingerprint.
#[derive(Drop)]
pub struct PlannedCall<'a> {
    callee: Callee,
    args: &'a [Term],
    fingerprint: u64,
}

impl<'a> Model for PlannedCall<'a> {
    ghost use Rattle.std.specs.Prelude.{◌≡◌};
    ghost use Rattle.std.specs.Coded.{codes};
    ghost use Rattle.am_term.specs.contracts.term.Term as term;
    ghost use Rattle.am_plan.specs.Calls.{PlannedCall as Call, call_with};
    ghost use Rattle.am_plan.specs.Fingerprints.{call_fingerprint as fingerprint_of_call};

    ghost Value = { Call };

    ghost coded = { Prim.hlevel (codes, term.the_row.coded) };

    ghost view = { λ c. call_with c.args.now c.callee };

    ghost invariant = { λ c. c.fingerprint ≡ fingerprint_of_call (call_with c.args.now c.callee) };
}

impl<'a> PlannedCall<'a> {
    /// The call at these terms. Takes no memory, as all of its functions.
    pub fn new(callee: Callee, args: &'a [Term]) -> PlannedCall<'a>
        ensures { result ≡ call_with args.now callee }
    {
        let fingerprint = call_fingerprint(callee, args);
        PlannedCall {
            callee,
            args,
            fingerprint,
        }
    }

    /// What is called.
    pub fn callee(&self) -> Callee
        ensures { result ≡ self.now.callee }
    {
        self.callee
    }

    /// The terms that its inputs stand for.
    pub fn args(&self) -> &'a [Term]
        ensures { result.now ≡ self.now.args }
    {
        self.args
    }

    /// Its fingerprint.
    pub fn fingerprint(&self) -> u64
        ensures { result ≡ fingerprint_of_call self.now }
    {
        self.fingerprint
    }
}
