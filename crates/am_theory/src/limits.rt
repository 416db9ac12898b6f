ghost use Rattle.std.specs.Prelude.{◌≡◌, ◌||◌, ◌+◌, IfOk, length, nat_lt};
ghost use Rattle.am_syntax.specs.Scopes.{scope_of};
ghost use Rattle.am_theory.specs.AxiomScope.{scope_in};
ghost use Rattle.am_theory.specs.Contents.{contents};
ghost use Rattle.am_theory.specs.Limits.{sort_limit, argument_limit, output_limit, call_limit};
ghost use Rattle.am_theory.specs.Faults.{is_past_symbols, is_over_limit};

use crate::declaration::Declaration;
use crate::tables::Tables;
use am_clause::exceeds;
use am_syntax::{Scope, formula_meaning};
use am_term::NoMemory;
use std::alloc::Global;

const SORT_LIMIT: usize = 256;

const SYMBOL_LIMIT: usize = 4096;

const AXIOM_LIMIT: usize = 2000;

const VARIABLE_LIMIT: usize = 32;

const LITERAL_LIMIT: usize = 16;

const ARGUMENT_LIMIT: usize = 12;

const OUTPUT_LIMIT: usize = 12;

const CALL_LIMIT: usize = 18;

/// Whether a count is above its limit in the declaration, or with it.
#[tactic(auto, unfolding(crate::specs::Faults::is_over_limit), using(crate::proofs::KindSteps::limit_steps))]
pub fn is_over_limit(
    alloc: Global,
    tables: &Tables,
    scope: &Scope,
    declaration: &Declaration,
) -> Result<bool, NoMemory>
    requires { scope_of scope.now ≡ scope_in (contents tables.now.theory) declaration.now }
    ensures { IfOk result (λ over. over ≡ is_over_limit (contents tables.now.theory) declaration.now) }
{
    match declaration {
        Declaration::Sort { .. } => Ok(has_all_sorts(tables)),
        Declaration::Subsort { .. } => Ok(has_all_sorts(tables)),
        Declaration::Function { args, .. } => {
            Ok(is_past_symbols(tables, 1) || args.len() > ARGUMENT_LIMIT)
        }
        Declaration::Relation { args, .. } => {
            Ok(is_past_symbols(tables, 1) || args.len() > ARGUMENT_LIMIT)
        }
        Declaration::Literal { .. } => Ok(is_past_symbols(tables, 1)),
        Declaration::Routine {
            inputs,
            outputs,
            ..
        } => {
            Ok(is_past_symbols(tables, outputs.len()) || is_long_call(inputs.len(), outputs.len()))
        }
        Declaration::Value { args, .. } => {
            Ok(is_past_symbols(tables, 1) || args.len() > ARGUMENT_LIMIT)
        }
        Declaration::Axiom { variables, formula } => {
            if tables.theory.axioms.len() >= AXIOM_LIMIT || variables.len() > VARIABLE_LIMIT {
                return Ok(true);
            }
            let formula = formula_meaning(alloc, scope, formula)?;
            exceeds(alloc, &formula, LITERAL_LIMIT)
        }
    }
}

fn is_past_symbols(tables: &Tables, more: usize) -> bool
    ensures { result ≡ is_past_symbols (contents tables.now.theory) more }
{
    more > SYMBOL_LIMIT || tables.theory.sig.symbols.len() > SYMBOL_LIMIT - more
}

fn is_long_call(inputs: usize, outputs: usize) -> bool
    ensures { result ≡ (nat_lt argument_limit inputs || (nat_lt output_limit outputs || nat_lt call_limit
        (inputs + outputs))) }
{
    inputs > ARGUMENT_LIMIT || (outputs > OUTPUT_LIMIT || inputs + outputs > CALL_LIMIT)
}

// Whether one more sort would be too many.
fn has_all_sorts(tables: &Tables) -> bool
    ensures { result ≡ nat_lt sort_limit (length (contents tables.now.theory).sorts + 1) }
{
    tables.theory.sig.sorts.len() >= SORT_LIMIT
}
