ghost use Rattle.std.specs.Prelude.{◌≡◌, ◌↔◌, IsTrue, slice_get, IfOk};
ghost use Rattle.am_clause.specs.Final.{is_computable_symbol};
ghost use Rattle.am_diagram.specs.Listed.{entry_sorts};
ghost use Rattle.am_plan.specs.Answers.{is_ready as is_ready_term, IsAnswerFor};
ghost use Rattle.am_plan.specs.AnswerTests.{is_server, are_servers as are_servers_of};

use am_diagram::Diagram;
use am_term::{Ctx, Name, NoMemory, Signature, SortId, SymId, Term, fits, weight, well_sorted};
use am_theory::Theory;
use sqlite_items::Items;
use std::alloc::Global;

/// Whether `plan` can make a subroutine of the terms: there is one for each output, its sort fits there, it
/// has no variables, a program can compute it, and it isn't large.
#[tactic(auto, using(crate::proofs::Serving::answer_laws))]
pub fn is_answer(
    alloc: Global,
    theory: &Theory,
    diagram: &Diagram,
    terms: &[Term],
) -> Result<bool, NoMemory>
    ensures { IfOk result (λ b. IsTrue b ↔ IsAnswerFor theory.now diagram.now terms.now) }
{
    let sorts = input_sorts(alloc, diagram.inputs.as_slice())?;
    let ctx = Ctx {
        sig: &theory.sig,
        ins: sorts.as_slice(),
    };
    Ok(are_servers(&ctx, diagram.outputs.as_slice(), terms))
}

fn input_sorts(alloc: Global, inputs: &[(Name, SortId)]) -> Result<Items<SortId>, NoMemory>
    ensures { IfOk result (λ sorts. sorts ≡ entry_sorts inputs.now) }
{
    let mut sorts = Items::new(alloc);
    for input in inputs {
        sorts.push(input.1)?;
    }
    Ok(sorts)
}

// One term for each output.
fn are_servers(ctx: &Ctx, outputs: &[(Name, SortId)], terms: &[Term]) -> bool
    ensures { result ≡ are_servers_of ctx.now.sig.now ctx.now.ins.now outputs.now terms.now }
{
    match outputs {
        [] => terms.is_empty(),
        [output, more @ ..] => match terms {
            [] => false,
            [term, behind @ ..] => serves(ctx, output.1, term) && are_servers(ctx, more, behind),
        },
    }
}

// Whether the term's sort fits, a program can compute it, and it isn't large.
#[tactic(auto, using(crate::proofs::Serving::server_laws))]
fn serves(ctx: &Ctx, sort: SortId, term: &Term) -> bool
    ensures { result ≡ is_server ctx.now.sig.now ctx.now.ins.now sort term.now }
{
    match well_sorted(ctx, term) {
        Some(found) => {
            fits(ctx.sig, found, sort) && is_ready(ctx.sig, term) && weight(term, 400) <= 400
        }
        None => false,
    }
}

// Whether the term has no variables, and a program can compute each of its symbols.
#[tactic(auto, using(crate::proofs::Serving::ready_laws))]
fn is_ready(signature: &Signature, term: &Term) -> bool
    ensures { result ≡ is_ready_term signature.now term.now }
{
    match term {
        Term::Var { .. } => false,
        Term::In { .. } => true,
        Term::App { f, args } => {
            if !is_computable(signature, *f) {
                return false;
            }
            for arg in args.as_slice() {
                if !is_ready(signature, arg) {
                    return false;
                }
            }
            true
        }
    }
}

fn is_computable(signature: &Signature, symbol: SymId) -> bool
    ensures { result ≡ is_computable_symbol (slice_get signature.now.symbols symbol.0) }
{
    match signature.symbols.get(symbol.0 as usize) {
        Some(symbol) => symbol.computable(),
        None => false,
    }
}
