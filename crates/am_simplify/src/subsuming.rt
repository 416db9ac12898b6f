ghost use Rattle.std.specs.Prelude.{◌≡◌, ◌↔◌, IsTrue};
ghost use Rattle.am_clause.specs.Numbered.{IsNumbered};
ghost use Rattle.am_clause.specs.SortedClause.{is_sorted_clause};
ghost use Rattle.am_unify.specs.Matching.{held as is_held};
ghost use Rattle.am_simplify.specs.Features.{clause_features};
ghost use Rattle.am_simplify.specs.Frames.{bindings, tasks};
ghost use Rattle.am_simplify.specs.Subsuming.{after_tasks, covers, match_literal, match_terms, meets, subsumed_by};
ghost use Rattle.am_simplify.specs.Subsumption.{Subsumes};

use crate::agreeing::is_input;
use crate::feature_bits::within;
use crate::frames::{Bound, Todo};
use am_clause::Clause;
use am_term::{Atom, Ctx, Literal, Term, fits, same, well_sorted};
use std::slice::from_ref;

/// Whether `d` subsumes `c`: terms of fitting sorts for the variables of `d` make each of its literals one of `c`, and
/// its answer that of `c`. Takes no memory.
pub fn subsumes(ctx: &Ctx, d: &Clause, c: &Clause) -> bool
    ensures test { result ≡ subsumed_by ctx.now.sig.now ctx.now.ins.now d.now c.now }
    ensures meaning { IsNumbered d.now → IsTrue (is_sorted_clause ctx.now.sig.now ctx.now.ins.now d.now)
        → (IsTrue result ↔ Subsumes ctx.now.sig.now ctx.now.ins.now d.now c.now) }
{
    covers_all(ctx, d, c)
}

/// Whether `d` subsumes `c`, where the features of both are known: these tell most of the clauses that don't. Takes no
/// memory.
#[tactic(auto, using(crate::proofs::Featuring::testing))]
pub fn subsumes_featured(ctx: &Ctx, own: u64, d: &Clause, other: u64, c: &Clause) -> bool
    requires own { own ≡ clause_features d.now }
    requires other { other ≡ clause_features c.now }
    ensures { result ≡ subsumed_by ctx.now.sig.now ctx.now.ins.now d.now c.now }
{
    within(own, other) && covers_all(ctx, d, c)
}

fn covers_all(ctx: &Ctx, d: &Clause, c: &Clause) -> bool
    ensures { result ≡ subsumed_by ctx.now.sig.now ctx.now.ins.now d.now c.now }
{
    if d.literals.len() > c.literals.len() {
        return false;
    }
    let literals = d.literals.as_slice();
    let all = c.literals.as_slice();
    match &d.answer {
        None => cover(ctx, literals, all, &Bound::Nothing),
        Some(ts) => match &c.answer {
            None => false,
            Some(us) => run(
                ctx,
                ts.as_slice(),
                us.as_slice(),
                &Todo::Done,
                literals,
                all,
                &Bound::Nothing,
            ),
        },
    }
}

// Whether the terms match the patterns, then those of the tasks theirs, and then each of the literals one of all.
#[cycle(subsuming)]
#[tactic(auto, using(crate::proofs::Runs::running))]
fn run(
    ctx: &Ctx,
    patterns: &[Term],
    terms: &[Term],
    todo: &Todo,
    literals: &[Literal],
    all: &[Literal],
    bound: &Bound,
) -> bool
    ensures { result ≡ meets (match_terms ctx.now.sig.now ctx.now.ins.now patterns.now terms.now (bindings bound.now))
        (after_tasks ctx.now.sig.now ctx.now.ins.now (tasks todo.now)
        (covers ctx.now.sig.now ctx.now.ins.now literals.now all.now)) }
{
    match patterns {
        [] => {
            if !terms.is_empty() {
                return false;
            }
            match todo {
                Todo::Done => cover(ctx, literals, all, bound),
                Todo::Next {
                    patterns,
                    terms,
                    behind,
                } => run(ctx, patterns, terms, behind, literals, all, bound),
            }
        }
        [pattern, patterns @ ..] => match terms {
            [] => false,
            [term, terms @ ..] => match pattern {
                Term::Var { n, sort } => match held(bound, *n, term) {
                    Some(met) => met && run(ctx, patterns, terms, todo, literals, all, bound),
                    None => {
                        let Some(own) = well_sorted(ctx, term) else {
                            return false;
                        };
                        if !fits(ctx.sig, own, *sort) {
                            return false;
                        }
                        let bound = Bound::Also {
                            n: *n,
                            term: &*term,
                            before: &*bound,
                        };
                        run(ctx, patterns, terms, todo, literals, all, &bound)
                    }
                },
                Term::In { k } => {
                    is_input(term, *k) && run(ctx, patterns, terms, todo, literals, all, bound)
                }
                Term::App { f, args } => match term {
                    Term::Var { .. } => false,
                    Term::In { .. } => false,
                    Term::App { f: g, args: others } => {
                        if f.0 != g.0 || args.len() != others.len() {
                            return false;
                        }
                        let todo = Todo::Next {
                            patterns: &*patterns,
                            terms: &*terms,
                            behind: &*todo,
                        };
                        run(
                            ctx,
                            args.as_slice(),
                            others.as_slice(),
                            &todo,
                            literals,
                            all,
                            bound,
                        )
                    }
                },
            },
        },
    }
}

// Whether each of the literals matches one of all.
#[cycle(subsuming)]
#[tactic(auto, using(crate::proofs::Runs::running))]
fn cover(ctx: &Ctx, literals: &[Literal], all: &[Literal], bound: &Bound) -> bool
    ensures { result ≡ covers ctx.now.sig.now ctx.now.ins.now literals.now all.now (bindings bound.now) }
{
    match literals {
        [] => true,
        [literal, later @ ..] => {
            let mut rest = all;
            while let [other, behind @ ..] = rest {
                if cover_by(ctx, literal, other, later, all, bound) {
                    return true;
                }
                rest = behind;
            }
            false
        }
    }
}

// Whether the literal matches another, and then each of the later ones one of all.
#[cycle(subsuming)]
#[tactic(auto, using(crate::proofs::Runs::running))]
fn cover_by(
    ctx: &Ctx,
    literal: &Literal,
    other: &Literal,
    later: &[Literal],
    all: &[Literal],
    bound: &Bound,
) -> bool
    ensures { result ≡ meets (match_literal ctx.now.sig.now ctx.now.ins.now literal.now other.now (bindings bound.now))
        (covers ctx.now.sig.now ctx.now.ins.now later.now all.now) }
{
    if literal.positive != other.positive {
        return false;
    }
    match (&literal.atom, &other.atom) {
        (Atom::Rel { r, args }, Atom::Rel { r: q, args: others }) => {
            if r.0 != q.0 {
                return false;
            }
            run(
                ctx,
                args.as_slice(),
                others.as_slice(),
                &Todo::Done,
                later,
                all,
                bound,
            )
        }
        (
            Atom::Eq { left, right },
            Atom::Eq {
                left: first,
                right: second,
            },
        ) => {
            let todo = Todo::Next {
                patterns: from_ref(right),
                terms: from_ref(second),
                behind: &Todo::Done,
            };
            run(
                ctx,
                from_ref(left),
                from_ref(first),
                &todo,
                later,
                all,
                bound,
            )
        }
        (Atom::Rel { .. }, Atom::Eq { .. }) => false,
        (Atom::Eq { .. }, Atom::Rel { .. }) => false,
    }
}

// Whether a number is bound to this term, if it is bound.
#[tactic(auto, using(crate::proofs::Runs::holding))]
fn held(bound: &Bound, n: u32, term: &Term) -> Option<bool>
    ensures { result ≡ is_held (bindings bound.now) n term.now }
{
    match bound {
        Bound::Nothing => None,
        Bound::Also {
            n: m,
            term: other,
            before,
        } => {
            if *m == n {
                return Some(same(other, term));
            }
            held(before, n, term)
        }
    }
}
