ghost use Rattle.std.specs.Prelude.{◌≡◌, IfOk};
ghost use Rattle.am_term.specs.Sorting.{fits_place};
ghost use Rattle.am_clause.specs.Numbered.{IsNumbered};
ghost use Rattle.am_clause.specs.Rules.{close as close_rule};
ghost use Rattle.am_rules.specs.Chosen.{all_chosen, closed_by as is_closed_by, closing as is_closing};
ghost use Rattle.am_rules.specs.Conclusions.{closed_off as is_closed};
ghost use Rattle.am_rules.specs.Closing.{input_for as first_input, is_constant_for, constant_for as first_constant, closing_term as chosen_term, AnswersClosing};

use crate::instancing::instance_of_answer;
use crate::numbers::numbered;
use am_clause::{Clause, Made, clause_variables};
use am_term::{Ctx, NoMemory, SortId, SymId, Symbol, Term, fits};
use sqlite_items::Items;
use std::alloc::Global;

/// The clause, which has no literals but an answer, with each variable of the answer replaced by the first input
/// whose sort fits, else by the first computable constant. None exactly where the clause isn't of that kind or a
/// variable has neither.
#[tactic(auto, using(crate::proofs::Concluded::concluding))]
pub fn close(alloc: Global, ctx: &Ctx, p: &Clause) -> Result<Option<Made>, NoMemory>
    ensures is { IfOk result (λ o. o ≡ is_closed ctx.now.sig.now ctx.now.ins.now p.now) }
    ensures inference { IsNumbered p.now → IfOk result (λ o. AnswersClosing ctx.now.sig.now ctx.now.ins.now p.now o) }
{
    let is_suited = suits_close(p);
    if !is_suited {
        return Ok(None);
    }
    closing(alloc, ctx, p)
}

fn suits_close(p: &Clause) -> bool
    ensures { result ≡ close_rule.suits p.now }
{
    p.literals.len() == 0 && p.answer.is_some()
}

fn closing(alloc: Global, ctx: &Ctx, p: &Clause) -> Result<Option<Made>, NoMemory>
    ensures { IfOk result (λ o. o ≡ is_closing ctx.now.sig.now ctx.now.ins.now p.now) }
{
    let variables = clause_variables(alloc, p)?;
    match closing_terms(alloc, ctx, variables.as_slice())? {
        Some(with) => Ok(Some(closed_by(alloc, p, with)?)),
        None => Ok(None),
    }
}

fn closed_by(alloc: Global, p: &Clause, with: Items<Term>) -> Result<Made, NoMemory>
    ensures { IfOk result (λ m. m ≡ is_closed_by p.now with) }
{
    let literals = Items::new(alloc);
    let answer = instance_of_answer(alloc, &p.answer, with.as_slice())?;
    let mut lists = Items::new(alloc);
    lists.push(with)?;
    Ok(Made {
        clause: Clause { literals, answer },
        with: lists,
    })
}

// What the variables become, if each becomes something.
#[tactic(auto, using(crate::proofs::Closings::choosing))]
fn closing_terms(
    alloc: Global,
    ctx: &Ctx,
    variables: &[(u32, SortId)],
) -> Result<Option<Items<Term>>, NoMemory>
    ensures { IfOk result (λ o. o ≡ all_chosen ctx.now.sig.now ctx.now.ins.now variables.now) }
{
    let mut made = Items::new(alloc);
    let mut rest = variables;
    'all: while let [variable, behind @ ..] = rest {
        let Some(term) = closing_term(alloc, ctx, variable.1)? else {
            return Ok(None);
        };
        made.push(term)?;
        rest = behind;
    }
    Ok(Some(made))
}

fn closing_term(alloc: Global, ctx: &Ctx, sort: SortId) -> Result<Option<Term>, NoMemory>
    ensures { IfOk result (λ o. o ≡ chosen_term ctx.now.sig.now ctx.now.ins.now sort) }
{
    match input_for(ctx, sort) {
        Some(k) => Ok(Some(Term::In { k: numbered(k)? })),
        None => match constant_for(ctx, sort) {
            Some(n) => Ok(Some(Term::App {
                f: SymId(numbered(n)?),
                args: Items::new(alloc),
            })),
            None => Ok(None),
        },
    }
}

fn input_for(ctx: &Ctx, sort: SortId) -> Option<usize>
    ensures { result ≡ first_input ctx.now.sig.now ctx.now.ins.now sort }
{
    ctx.ins.iter().position(|input| fits(ctx.sig, *input, sort))
}

fn constant_for(ctx: &Ctx, sort: SortId) -> Option<usize>
    ensures { result ≡ first_constant ctx.now.sig.now sort }
{
    ctx.sig
        .symbols
        .as_slice()
        .iter()
        .position(|symbol| is_constant(ctx, symbol, sort))
}

// Whether a program can compute it, it takes no arguments and its result fits.
fn is_constant(ctx: &Ctx, symbol: &Symbol, sort: SortId) -> bool
    ensures { result ≡ is_constant_for ctx.now.sig.now sort symbol.now }
{
    symbol.computable() && symbol.args.len() == 0 && has_result(ctx, symbol, sort)
}

fn has_result(ctx: &Ctx, symbol: &Symbol, sort: SortId) -> bool
    ensures { result ≡ fits_place ctx.now.sig.now symbol.now.result sort }
{
    match symbol.result {
        Some(result_sort) => fits(ctx.sig, result_sort, sort),
        None => false,
    }
}
