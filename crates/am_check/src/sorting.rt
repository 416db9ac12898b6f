ghost use Rattle.std.specs.Prelude.{◌≡◌, is_some};
ghost use Rattle.std.specs.List.{list_all};
ghost use Rattle.am_term.specs.Sorting.{fit_places, sort_of, sorts_of, is_sorted_atom as is_well_sorted_atom, is_sorted_literal};
ghost use Rattle.am_clause.specs.SortedClause.{is_sorted_answer as is_well_sorted_answer, is_sorted_clause};
ghost use Rattle.am_check.specs.Phases.{are_sorted as are_well_sorted};

use am_clause::{Clause, Row};
use am_term::{Atom, Ctx, Literal, SortId, Term, akin, fits, well_sorted};
use sqlite_items::Items;

/// Whether each row has a well sorted clause. Takes no memory.
pub fn are_sorted(ctx: &Ctx, rows: &[Row]) -> bool
    ensures { result ≡ are_well_sorted ctx.now.sig.now ctx.now.ins.now rows.now }
{
    rows.iter().all(|row| is_sorted(ctx, &row.clause))
}

fn is_sorted(ctx: &Ctx, clause: &Clause) -> bool
    ensures { result ≡ is_sorted_clause ctx.now.sig.now ctx.now.ins.now clause.now }
{
    all_sorted(ctx, clause.literals.as_slice()) && is_sorted_answer(ctx, &clause.answer)
}

fn all_sorted(ctx: &Ctx, literals: &[Literal]) -> bool
    ensures { result ≡ list_all (is_sorted_literal ctx.now.sig.now ctx.now.ins.now) literals.now }
{
    literals
        .iter()
        .all(|literal| is_sorted_atom(ctx, &literal.atom))
}

fn is_sorted_answer(ctx: &Ctx, answer: &Option<Items<Term>>) -> bool
    ensures { result ≡ is_well_sorted_answer ctx.now.sig.now ctx.now.ins.now answer.now }
{
    match answer {
        Some(terms) => have_sorts(ctx, terms.as_slice()),
        None => true,
    }
}

fn have_sorts(ctx: &Ctx, terms: &[Term]) -> bool
    ensures { result ≡ list_all (λ t. is_some (sort_of ctx.now.sig.now ctx.now.ins.now t)) terms.now }
{
    terms.iter().all(|term| well_sorted(ctx, term).is_some())
}

fn is_sorted_atom(ctx: &Ctx, atom: &Atom) -> bool
    ensures { result ≡ is_well_sorted_atom ctx.now.sig.now ctx.now.ins.now atom.now }
{
    match atom {
        Atom::Rel { r, args } => match ctx.sig.symbols.get(r.0 as usize) {
            Some(symbol) => {
                symbol.result.is_none() && fit(ctx, args.as_slice(), symbol.args.as_slice())
            }
            None => false,
        },
        Atom::Eq { left, right } => match well_sorted(ctx, left) {
            Some(first) => match well_sorted(ctx, right) {
                Some(second) => akin(ctx.sig, first, second),
                None => false,
            },
            None => false,
        },
    }
}

// Whether there are as many terms as places, and the sort of each fits its place.
#[tactic(auto, using(crate::proofs::RowTests::fitting))]
fn fit(ctx: &Ctx, terms: &[Term], places: &[SortId]) -> bool
    ensures { result ≡ fit_places ctx.now.sig.now (sorts_of ctx.now.sig.now ctx.now.ins.now terms.now) places.now }
{
    if terms.len() != places.len() {
        return false;
    }
    for i in 0..terms.len() {
        match well_sorted(ctx, &terms[i]) {
            Some(sort) => {
                if !fits(ctx.sig, sort, places[i]) {
                    return false;
                }
            }
            None => return false,
        }
    }
    true
}
