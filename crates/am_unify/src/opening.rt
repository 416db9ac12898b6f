ghost use Rattle.std.specs.Prelude.{◌≡◌, IfOk};
ghost use Rattle.std.specs.List.{zip};
ghost use Rattle.am_unify.specs.Opening.{open_bind as is_open_bind, open_term as is_open_term, open_variables as is_open_variables, opened as is_opened};

use crate::occurring::number_occurs;
use am_term::{Ctx, NoMemory, SortId, SymId, Term, fits, same, well_sorted};
use sqlite_items::Items;
use std::alloc::Global;

// What a pair asks for: other pairs in its place, a binding, or nothing that could make it one.
#[derive(Drop)]
pub enum Opened {
    More(Items<(Term, Term)>),
    Bind { n: u32, term: Term },
    Clash,
}

// What a pair of terms asks for.
#[tactic(auto, using(crate::proofs::Walks::opening), unfolding(crate::specs::Opening::opened))]
pub fn open(alloc: Global, ctx: &Ctx, left: Term, right: Term) -> Result<Opened, NoMemory>
    ensures { IfOk result (λ o. o ≡ is_opened ctx.now.sig.now ctx.now.ins.now left right) }
{
    if same(&left, &right) {
        return Ok(Opened::More(Items::new(alloc)));
    }
    match (left, right) {
        (Term::Var { n, sort }, Term::Var { n: m, sort: other }) => Ok(open_variables(
            ctx, n, sort, m, other,
        )),
        (Term::Var { n, sort }, Term::In { k }) => Ok(open_term(ctx, n, sort, Term::In { k })),
        (Term::Var { n, sort }, Term::App { f, args }) => Ok(open_term(
            ctx,
            n,
            sort,
            Term::App { f, args },
        )),
        (Term::In { k }, Term::Var { n, sort }) => Ok(open_term(ctx, n, sort, Term::In { k })),
        (Term::In { .. }, Term::In { .. }) => Ok(Opened::Clash),
        (Term::In { .. }, Term::App { .. }) => Ok(Opened::Clash),
        (Term::App { f, args }, Term::Var { n, sort }) => Ok(open_term(
            ctx,
            n,
            sort,
            Term::App { f, args },
        )),
        (Term::App { .. }, Term::In { .. }) => Ok(Opened::Clash),
        (Term::App { f, args }, Term::App { f: g, args: others }) => {
            if f.0 == g.0 && args.len() == others.len() {
                Ok(Opened::More(zipped(alloc, args, others)?))
            } else {
                Ok(Opened::Clash)
            }
        }
    }
}

// Two variables: that one is bound whose sort the other's fits, the left one if the sorts are equal.
fn open_variables(ctx: &Ctx, n: u32, sort: SortId, m: u32, other: SortId) -> Opened
    ensures { result ≡ is_open_variables ctx.now.sig.now ctx.now.ins.now n sort m other }
{
    if fits(ctx.sig, other, sort) {
        return open_bind(n, Term::Var { n: m, sort: other });
    }
    if fits(ctx.sig, sort, other) {
        return open_bind(m, Term::Var { n, sort });
    }
    Opened::Clash
}

// A variable and another term: it is bound if the term's sort fits.
fn open_term(ctx: &Ctx, n: u32, sort: SortId, term: Term) -> Opened
    ensures { result ≡ is_open_term ctx.now.sig.now ctx.now.ins.now n sort term }
{
    match well_sorted(ctx, &term) {
        Some(own) => {
            if fits(ctx.sig, own, sort) {
                return open_bind(n, term);
            }
            Opened::Clash
        }
        None => Opened::Clash,
    }
}

// A variable isn't bound to a term in which it stands.
fn open_bind(n: u32, term: Term) -> Opened
    ensures { result ≡ is_open_bind n term }
{
    if number_occurs(n, &term) {
        return Opened::Clash;
    }
    Opened::Bind { n, term }
}

// The pairs of the members of two lists.
#[tactic(auto, using(crate::proofs::Walks::zipping))]
fn zipped(
    alloc: Global,
    left: Items<Term>,
    right: Items<Term>,
) -> Result<Items<(Term, Term)>, NoMemory>
    ensures { IfOk result (λ ps. ps ≡ zip left right) }
{
    let mut made = Items::new(alloc);
    let mut left = left;
    let mut right = right;
    'pairs: while !left.is_empty() {
        if right.is_empty() {
            return Ok(made);
        }
        let first = left.remove(0);
        let second = right.remove(0);
        made.push((first, second))?;
    }
    Ok(made)
}
