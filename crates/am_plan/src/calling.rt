ghost use Rattle.std.specs.Prelude.{◌≡◌, [], ◌∷◌, IfOk, OnOk, option_map};
ghost use Rattle.am_clause.specs.Distinct.{with_new};
ghost use Rattle.am_plan.specs.Calls.{has_symbol as is_symbol_in, routine_from, function_from, callee_of as callee_with, call_with, listed_option, same_call, asks_for, calls as calls_asked};

use crate::call::{Callee, PlannedCall};
use crate::seen::{Seen, add, is_called};
use am_term::{NoMemory, SymId, Term};
use am_theory::{FortranFunction, Routine, Theory};
use sqlite_items::Items;
use std::alloc::Global;

/// What computes a symbol: the first routine that has it as an output, else the first listed function
/// of it. Takes no memory.
#[tactic(auto, unfolding(crate::specs::Calls::callee_of))]
pub fn callee_of(theory: &Theory, symbol: SymId) -> Option<Callee>
    ensures { result ≡ callee_with theory.now symbol }
{
    match routine_of(theory.routines.as_slice(), symbol) {
        Some(callee) => Some(callee),
        None => function_of(theory.functions.as_slice(), symbol),
    }
}

fn routine_of(routines: &[Routine], symbol: SymId) -> Option<Callee>
    ensures { result ≡ routine_from 0 symbol routines.now }
{
    let mut k: usize = 0;
    let mut rest = routines;
    while let [routine, behind @ ..] = rest {
        if has_symbol(symbol, routine.outputs.as_slice()) {
            return Some(Callee::Routine(k));
        }
        k += 1;
        rest = behind;
    }
    None
}

fn has_symbol(symbol: SymId, symbols: &[SymId]) -> bool
    ensures { result ≡ is_symbol_in symbol symbols.now }
{
    let mut rest = symbols;
    while let [other, behind @ ..] = rest {
        if symbol.0 == other.0 {
            return true;
        }
        rest = behind;
    }
    false
}

fn function_of(functions: &[FortranFunction], symbol: SymId) -> Option<Callee>
    ensures { result ≡ function_from 0 symbol functions.now }
{
    let mut k: usize = 0;
    let mut rest = functions;
    while let [function, behind @ ..] = rest {
        if symbol.0 == function.symbol.0 {
            return Some(Callee::Function(k));
        }
        k += 1;
        rest = behind;
    }
    None
}

/// The calls that the terms of an answer ask for, each different one once.
#[tactic(auto, using(crate::proofs::Asking::asking))]
pub fn calls<'a>(
    alloc: Global,
    theory: &Theory,
    answer: &'a [Term],
) -> Result<Items<PlannedCall<'a>>, NoMemory>
    ensures { IfOk result (λ cs. cs ≡ calls_asked theory.now answer.now) }
{
    let mut seen = Seen::new(alloc);
    collect_all(theory, answer, &mut seen)?;
    Ok(seen.into_calls())
}

// The calls of the terms in turn, each behind what was seen unless it was seen.
#[cycle(collecting)]
#[tactic(auto, using(crate::proofs::Asking::asking))]
fn collect_all<'a>(theory: &Theory, terms: &'a [Term], seen: &mut Seen<'a>) -> Result<(), NoMemory>
    ensures { OnOk result (seen.new.calls ≡ with_new same_call seen.old.calls (asks_for theory.now terms.now)) }
{
    for term in terms {
        collect(theory, term, seen)?;
    }
    Ok(())
}

// The calls of the arguments from left to right, and then the term's own.
#[cycle(collecting)]
#[tactic(auto, using(crate::proofs::Asking::asking))]
fn collect<'a>(theory: &Theory, term: &'a Term, seen: &mut Seen<'a>) -> Result<(), NoMemory>
    ensures { OnOk result (seen.new.calls ≡ with_new same_call seen.old.calls (asks_for theory.now (term.now ∷ []))) }
{
    match term {
        Term::Var { .. } => Ok(()),
        Term::In { .. } => Ok(()),
        Term::App { f, args } => {
            collect_all(theory, args.as_slice(), seen)?;
            ask(callee_of(theory, *f), args.as_slice(), seen)
        }
    }
}

// The call at these terms is behind what was seen, if there is something to call and it wasn't seen.
#[tactic(auto, using(crate::proofs::Asking::asking))]
fn ask<'a>(callee: Option<Callee>, args: &'a [Term], seen: &mut Seen<'a>) -> Result<(), NoMemory>
    ensures { OnOk result (seen.new.calls ≡ with_new same_call seen.old.calls
        (listed_option (option_map (call_with args.now) callee))) }
{
    match callee {
        None => Ok(()),
        Some(callee) => note(PlannedCall::new(callee, args), seen),
    }
}

#[tactic(auto, using(crate::proofs::Asking::asking))]
fn note<'a>(call: PlannedCall<'a>, seen: &mut Seen<'a>) -> Result<(), NoMemory>
    ensures { OnOk result (seen.new.calls ≡ with_new same_call seen.old.calls (call.entry ∷ [])) }
{
    if is_called(&call, seen) {
        return Ok(());
    }
    add(seen, call)
}
