ghost use Rattle.std.specs.Prelude.{◌≡◌, ◌++◌, IfOk, length};
ghost use Rattle.am_diagram.specs.Drafts.{inputs_from, bound_variables_from, barred, requirement_bound, given_bound};

use crate::draft::Draft;
use am_syntax::{BoundTable, Standing};
use am_term::{Name, NoMemory, SortId};
use std::alloc::Global;

/// What names stand for in a requirement, beside symbols; no memory too where a number would exceed
/// 32 bits.
pub fn requirement_bound(alloc: Global, draft: &Draft) -> Result<BoundTable, NoMemory>
    ensures { IfOk result (λ bs. bs.entries ≡ requirement_bound draft.now) }
{
    let bound = with_inputs(alloc, draft.inputs.as_slice())?;
    with_objects(
        alloc,
        bound,
        draft.objects.as_slice(),
        draft.outputs.as_slice(),
    )
}

// The variables of the objects, and then those of the outputs.
fn with_objects(
    alloc: Global,
    bound: BoundTable,
    objects: &[(Name, SortId)],
    outputs: &[(Name, SortId)],
) -> Result<BoundTable, NoMemory>
    ensures { IfOk result (λ bs. bs.entries ≡ bound.entries ++ bound_variables_from 0 objects.now
        ++ bound_variables_from
        (length objects.now) outputs.now) }
{
    let Ok(count) = u32::try_from(objects.len()) else {
        return Err(NoMemory);
    };
    let bound = with_variables(alloc, bound, 0, objects)?;
    with_variables(alloc, bound, count, outputs)
}

/// What names stand for in a given, beside symbols; no memory too where a number would exceed 32 bits.
pub fn given_bound(alloc: Global, draft: &Draft) -> Result<BoundTable, NoMemory>
    ensures { IfOk result (λ bs. bs.entries ≡ given_bound draft.now) }
{
    let bound = with_inputs(alloc, draft.inputs.as_slice())?;
    let bound = with_barred(alloc, bound, draft.objects.as_slice())?;
    with_barred(alloc, bound, draft.outputs.as_slice())
}

fn with_inputs(alloc: Global, inputs: &[(Name, SortId)]) -> Result<BoundTable, NoMemory>
    ensures { IfOk result (λ bs. bs.entries ≡ inputs_from 0 inputs.now) }
{
    let mut bound = BoundTable::new(alloc);
    let mut number = 0u32;
    let mut rest = inputs;
    while let [(name, sort), behind @ ..] = rest {
        let standing = Standing::Input {
            k: number,
            sort: *sort,
        };
        bound = bound.with(alloc, name, standing)?;
        number = number.checked_add(1).ok_or(NoMemory)?;
        rest = behind;
    }
    Ok(bound)
}

fn with_variables(
    alloc: Global,
    bound: BoundTable,
    first: u32,
    variables: &[(Name, SortId)],
) -> Result<BoundTable, NoMemory>
    ensures { IfOk result (λ bs. bs.entries ≡ bound.entries ++ bound_variables_from first variables.now) }
{
    let mut bound = bound;
    let mut number = first;
    let mut rest = variables;
    while let [(name, sort), behind @ ..] = rest {
        let standing = Standing::Variable {
            n: number,
            sort: *sort,
        };
        bound = bound.with(alloc, name, standing)?;
        number = number.checked_add(1).ok_or(NoMemory)?;
        rest = behind;
    }
    Ok(bound)
}

fn with_barred(
    alloc: Global,
    bound: BoundTable,
    names: &[(Name, SortId)],
) -> Result<BoundTable, NoMemory>
    ensures { IfOk result (λ bs. bs.entries ≡ bound.entries ++ barred names.now) }
{
    let mut bound = bound;
    let mut rest = names;
    while let [(name, _), behind @ ..] = rest {
        bound = bound.with(alloc, name, Standing::Barred)?;
        rest = behind;
    }
    Ok(bound)
}
