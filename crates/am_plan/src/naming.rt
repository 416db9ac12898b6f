ghost use Rattle.std.specs.Prelude.{◌≡◌, ◌++◌, ◌<◌, ◌≤◌, List, [], map, IfOk, option_copied};
ghost use Rattle.std.specs.List.{flat_map};
ghost use Rattle.am_term.specs.declared.id.SymId.{SymId};
ghost use Rattle.am_term.specs.declared.term.Term.{Term};
ghost use Rattle.am_term.specs.declared.term.Term.TheVariants.{App};
ghost use Rattle.am_plan.specs.Calls.{made_by as terms_of_call};
ghost use Rattle.am_plan.specs.Fingerprints.{fingerprint as fingerprint_of_term};
ghost use Rattle.am_plan.specs.Names.{digit as digit_of, local_name as name_of_local, output_for as name_of_output, named_by, named_behind};
ghost use Rattle.am_plan.specs.Numbering.{named_from, next_local as local_after};

use crate::application::Application;
use crate::call::{Callee, PlannedCall};
use crate::fingerprint_index::FingerprintIndex;
use crate::fingerprinting::fingerprint_of;
use crate::places::behind;
use am_term::{Name, NoMemory, SortId, SymId, Term};
use am_theory::Theory;
use sqlite_items::Items;
use std::alloc::Global;

/// Each term that the calls make, with the name of the first output whose answer it is, else with the next
/// local's, which are numbered from 1; no memory too where a number would exceed 64 bits.
#[tactic(auto, using(crate::proofs::Numbered::numbering))]
pub fn named<'a>(
    alloc: Global,
    theory: &Theory,
    outputs: &[(Name, SortId)],
    answer: &[Term],
    calls: &[PlannedCall<'a>],
) -> Result<Items<(Name, Application<'a>)>, NoMemory>
    ensures { IfOk result (λ ns. ns ≡ named_behind outputs.now answer.now []
        (flat_map (terms_of_call theory.now) calls.now)) }
{
    let index = index_of(alloc, answer)?;
    let wanted = Wanted {
        outputs,
        answer,
        index: &index,
    };
    let mut names = Items::new(alloc);
    let mut k: usize = 1;
    let mut rest = calls;
    while let [call, behind @ ..] = rest {
        k = push_made(alloc, theory, &wanted, call, k, &mut names)?;
        rest = behind;
    }
    Ok(names)
}

// What the call makes, named from local k on, behind what is there; and the number of the next local.
fn push_made<'a>(
    alloc: Global,
    theory: &Theory,
    wanted: &Wanted,
    call: &PlannedCall<'a>,
    k: usize,
    names: &mut Items<(Name, Application<'a>)>,
) -> Result<usize, NoMemory>
    ensures { IfOk result (λ n. (ys : List Term)
        → names.new ++ named_from n wanted.now.outputs.now wanted.now.answer.now ys ≡ names.old
        ++ named_from k wanted.now.outputs.now wanted.now.answer.now (terms_of_call theory.now call.now ++ ys)) }
{
    let args = call.args();
    match call.callee() {
        Callee::Routine(j) => match theory.routines.get(j) {
            Some(routine) => push_terms(alloc, wanted, routine.outputs.as_slice(), args, k, names),
            None => Ok(k),
        },
        Callee::Function(j) => match theory.functions.get(j) {
            Some(function) => push_terms(alloc, wanted, &[function.symbol], args, k, names),
            None => Ok(k),
        },
    }
}

// The symbols at the terms, named from local k on, behind what is there; and the number of the next local.
fn push_terms<'a>(
    alloc: Global,
    wanted: &Wanted,
    symbols: &[SymId],
    args: &'a [Term],
    k: usize,
    names: &mut Items<(Name, Application<'a>)>,
) -> Result<usize, NoMemory>
    ensures { IfOk result (λ n. (ys : List Term)
        → names.new ++ named_from n wanted.now.outputs.now wanted.now.answer.now ys ≡ names.old
        ++ named_from k wanted.now.outputs.now wanted.now.answer.now (map (λ (f : SymId).
        App f args.now) symbols.now ++ ys)) }
{
    let mut next = k;
    let mut rest = symbols;
    while let [f, behind @ ..] = rest {
        let term = Application::new(*f, args);
        let output = output_for(&term, wanted);
        let further = next_local(output, next)?;
        names.push(name_by(alloc, output, next, term)?)?;
        next = further;
        rest = behind;
    }
    Ok(next)
}

// The number of the next local, where this one goes to a term for this output.
fn next_local(output: Option<&Name>, k: usize) -> Result<usize, NoMemory>
    ensures { IfOk result (λ n. n ≡ local_after (option_copied output.entry) k) }
{
    match output {
        Some(_) => Ok(k),
        None => k.checked_add(1).ok_or(NoMemory),
    }
}

// The term with the output's name, or with that of local k.
fn name_by<'a>(
    alloc: Global,
    output: Option<&Name>,
    k: usize,
    term: Application<'a>,
) -> Result<(Name, Application<'a>), NoMemory>
    ensures { IfOk result (λ e. e ≡ named_by (option_copied output.entry) k term.entry) }
{
    match output {
        Some(name) => Ok((Name::new(alloc, name.as_str())?, term)),
        None => Ok((local_name(alloc, k)?, term)),
    }
}

/// Outputs with the terms of their answers, and the index of these terms' fingerprints.
#[derive(Clone, Copy)]
pub struct Wanted<'a> {
    pub outputs: &'a [(Name, SortId)],
    pub answer: &'a [Term],
    pub index: &'a FingerprintIndex,
    ghost agrees: { index.now ≡ map fingerprint_of_term answer.now },
}

/// The index of the terms' fingerprints.
pub fn index_of(alloc: Global, terms: &[Term]) -> Result<FingerprintIndex, NoMemory>
    ensures { IfOk result (λ index. index ≡ map fingerprint_of_term terms.now) }
{
    let mut index = FingerprintIndex::new(alloc);
    let mut rest = terms;
    while let [term, behind @ ..] = rest {
        index.push(fingerprint_of(term))?;
        rest = behind;
    }
    Ok(index)
}

/// The name of the first output whose answer is the term, if there is one. Takes no memory.
#[tactic(auto, using(crate::proofs::FingerprintLaws::answering))]
pub fn output_for<'a>(term: &Application, wanted: &Wanted<'a>) -> Option<&'a Name>
    ensures { option_copied result ≡ name_of_output term.now wanted.now.outputs.now wanted.now.answer.now }
{
    match wanted.index.place(term.fingerprint()) {
        None => None,
        Some(place) => listed_output(
            term,
            behind(wanted.outputs, place),
            behind(wanted.answer, place),
        ),
    }
}

// The name of the first output whose answer is the term, by comparing it with each.
fn listed_output<'a>(
    term: &Application,
    outputs: &'a [(Name, SortId)],
    answer: &[Term],
) -> Option<&'a Name>
    ensures { option_copied result ≡ name_of_output term.now outputs.now answer.now }
{
    let mut left = outputs;
    let mut rest = answer;
    while let [output, further @ ..] = left {
        match rest {
            [] => return None,
            [wanted, behind @ ..] => {
                if term.is_term(wanted) {
                    return Some(&output.0);
                }
                left = further;
                rest = behind;
            }
        }
    }
    None
}

/// `T` and five digits, the last ones of the number.
pub fn local_name(alloc: Global, n: usize) -> Result<Name, NoMemory>
    ensures { IfOk result (λ name. name ≡ name_of_local n) }
{
    let mut name = Name::empty(alloc);
    name.push(b'T')?;
    name.push(digit(n, 10_000))?;
    name.push(digit(n, 1_000))?;
    name.push(digit(n, 100))?;
    name.push(digit(n, 10))?;
    name.push(digit(n, 1))?;
    Ok(name)
}

// The digit of a number at a power of ten.
fn digit(n: usize, power: usize) -> u8
    requires { 1 ≤ power }
    ensures value { result ≡ digit_of n power }
    ensures ascii { result < 128 }
{
    48 + (n / power % 10) as u8
}
