ghost use Rattle.std.specs.Prelude.{◌≡◌, ◌∷◌, [], None, Some, IfOk, IsTrue};
ghost use Rattle.am_clause.specs.Numbered.{IsNumbered};
ghost use Rattle.am_rules.specs.Alone.{kept, sides, made_alone as is_made_alone, factoring as is_factoring, reflexion as is_reflexion};
ghost use Rattle.am_rules.specs.Asked.{asked};
ghost use Rattle.am_rules.specs.Inference.{AnswersOne};
ghost use Rattle.am_clause.specs.Rules.{factor as factor_rule, reflex as reflex_rule};
ghost use Rattle.am_rules.specs.Resolution.{nth_atom};
ghost use Rattle.am_rules.specs.Row.{row};
ghost use Rattle.am_rules.specs.Conclusions.{factored, reflexed};
ghost use Rattle.am_clause.specs.SortedClause.{is_sorted_clause};
ghost use Rattle.am_clause.specs.NumberedMade.{numbered_made};

use crate::asking::{asked_apart, images_of};
use crate::instancing::{instance_of_answer, instances_without, literal_at};
use crate::kinds::{suits_factor, suits_reflex};
use crate::rows::renumber_made;
use am_clause::{Clause, Made, clause_variables, merge};
use am_term::{Atom, Ctx, NoMemory, Term, copy};
use am_unify::{Subst, unify};
use sqlite_items::Items;
use std::alloc::Global;

/// The clause by most general bindings that make the atoms of literals i and j one, places from 1. None exactly where
/// these aren't there with one sign, or no well-sorted bindings do.
#[tactic(auto, using(crate::proofs::Concluded::concluding))]
pub fn factor(
    alloc: Global,
    ctx: &Ctx,
    p: &Clause,
    i: u32,
    j: u32,
) -> Result<Option<Made>, NoMemory>
    ensures is { IfOk result (λ o. o ≡ factored ctx.now.sig.now ctx.now.ins.now p.now i j) }
    ensures inference { IsNumbered p.now → IsTrue (is_sorted_clause ctx.now.sig.now ctx.now.ins.now p.now)
        → IfOk result (λ o. AnswersOne ctx.now.sig.now ctx.now.ins.now (factor_rule i j) p.now o) }
{
    let is_suited = suits_factor(p, i, j);
    if !is_suited {
        return Ok(None);
    }
    factoring(alloc, ctx, p, i, j)
}

fn factoring(alloc: Global, ctx: &Ctx, p: &Clause, i: u32, j: u32) -> Result<Option<Made>, NoMemory>
    ensures { IfOk result (λ o. o ≡ is_factoring ctx.now.sig.now ctx.now.ins.now p.now i j) }
{
    match factor_pairs(alloc, p, i, j)? {
        Some(pairs) => match unify(alloc, ctx, pairs.as_slice())? {
            Some(found) => Ok(Some(made_alone(alloc, p, 0, &found)?)),
            None => Ok(None),
        },
        None => Ok(None),
    }
}

// The pairs of the two atoms.
#[tactic(auto, using(crate::proofs::FactorCode::factor_pairing))]
fn factor_pairs(
    alloc: Global,
    p: &Clause,
    i: u32,
    j: u32,
) -> Result<Option<Items<(Term, Term)>>, NoMemory>
    ensures { IfOk result (λ o. o ≡ asked (nth_atom i p.now) (nth_atom j p.now) None None) }
{
    match literal_at(p.literals.as_slice(), i) {
        Some(first) => match literal_at(p.literals.as_slice(), j) {
            Some(second) => asked_apart(alloc, &first.atom, &second.atom, &None, &None, 0),
            None => Ok(None),
        },
        None => Ok(None),
    }
}

/// The clause without equation i by most general bindings that make its sides one, places from 1. None exactly where
/// there is no such negative equation, or no well-sorted bindings do.
#[tactic(auto, using(crate::proofs::Concluded::concluding))]
pub fn reflex(alloc: Global, ctx: &Ctx, p: &Clause, i: u32) -> Result<Option<Made>, NoMemory>
    ensures is { IfOk result (λ o. o ≡ reflexed ctx.now.sig.now ctx.now.ins.now p.now i) }
    ensures inference { IsNumbered p.now → IsTrue (is_sorted_clause ctx.now.sig.now ctx.now.ins.now p.now)
        → IfOk result (λ o. AnswersOne ctx.now.sig.now ctx.now.ins.now (reflex_rule i) p.now o) }
{
    let is_suited = suits_reflex(p, i);
    if !is_suited {
        return Ok(None);
    }
    reflexion(alloc, ctx, p, i)
}

fn reflexion(alloc: Global, ctx: &Ctx, p: &Clause, i: u32) -> Result<Option<Made>, NoMemory>
    ensures { IfOk result (λ o. o ≡ is_reflexion ctx.now.sig.now ctx.now.ins.now p.now i) }
{
    match reflex_pairs(alloc, p, i)? {
        Some(pairs) => match unify(alloc, ctx, pairs.as_slice())? {
            Some(found) => Ok(Some(made_alone(alloc, p, i, &found)?)),
            None => Ok(None),
        },
        None => Ok(None),
    }
}

// The sides of the equation.
fn reflex_pairs(alloc: Global, p: &Clause, i: u32) -> Result<Option<Items<(Term, Term)>>, NoMemory>
    ensures { IfOk result (λ o. o ≡ sides (nth_atom i p.now)) }
{
    match literal_at(p.literals.as_slice(), i) {
        Some(literal) => sides_of(alloc, &literal.atom),
        None => Ok(None),
    }
}

fn sides_of(alloc: Global, atom: &Atom) -> Result<Option<Items<(Term, Term)>>, NoMemory>
    ensures { IfOk result (λ o. o ≡ sides (Some atom.now)) }
{
    match atom {
        Atom::Rel { .. } => Ok(None),
        Atom::Eq { left, right } => {
            let left = copy(alloc, left)?;
            let right = copy(alloc, right)?;
            let mut made = Items::new(alloc);
            made.push((left, right))?;
            Ok(Some(made))
        }
    }
}

// The row that is made of the bindings, without the i-th literal.
fn made_alone(alloc: Global, p: &Clause, i: u32, found: &Subst) -> Result<Made, NoMemory>
    ensures { IfOk result (λ m. m ≡ is_made_alone p.now (kept p.now i) found.now.0) }
{
    let variables = clause_variables(alloc, p)?;
    let with = images_of(alloc, found.0.as_slice(), 0, variables.as_slice())?;
    made_row(alloc, p, i, with)
}

fn made_row(alloc: Global, p: &Clause, i: u32, with: Items<Term>) -> Result<Made, NoMemory>
    ensures { IfOk result (λ m. m ≡ numbered_made (row (kept p.now i with) (with ∷ []))) }
{
    let literals = instances_without(alloc, p.literals.as_slice(), i, with.as_slice())?;
    let literals = merge(alloc, literals.as_slice())?;
    let answer = instance_of_answer(alloc, &p.answer, with.as_slice())?;
    let mut lists = Items::new(alloc);
    lists.push(with)?;
    renumber_made(
        alloc,
        &Made {
            clause: Clause { literals, answer },
            with: lists,
        },
    )
}
