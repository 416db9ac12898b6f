ghost use Rattle.std.specs.Prelude.{◌≡◌, ◌++◌, ◌∷◌, [], map, slice_index_or, IfOk, OnOk};
ghost use Rattle.std.specs.List.{flat_map};
ghost use Rattle.am_term.specs.declared.id.SymId.{SymId};
ghost use Rattle.am_term.specs.declared.term.Term.{Term};
ghost use Rattle.am_term.specs.declared.term.Term.TheVariants.{App};
ghost use Rattle.am_fortran.specs.declared.statement.Operand.TheVariants as operand;
ghost use Rattle.am_theory.specs.Lookups.{copy_of as copy_at};
ghost use Rattle.am_diagram.specs.Listed.{entry_names};
ghost use Rattle.am_plan.specs.Calls.{listed_option, made_by};
ghost use Rattle.am_plan.specs.Names.{name_of_term as name_under};
ghost use Rattle.am_plan.specs.Plan.{written_value as written, operand_for as operand_of, routine_call as call_of_routine, function_call as call_of_function, statement_of as statement_for, copy_name, copy_to as copied_to, is_set as is_name_set, copies as copies_of};

use crate::application::Application;
use crate::call::{Callee, PlannedCall};
use crate::lookups::is_array;
use crate::named_terms::{NamedTerms, name_at, name_of};
use am_diagram::Diagram;
use am_fortran::{Operand, Statement};
use am_term::{Name, NoMemory, SortId, SymId, Term};
use am_theory::{FortranFunction, LitValue, Routine, Theory, copy_of, literal_of};
use sqlite_items::Items;
use std::alloc::Global;

/// What stands for a term: an input's name, a literal's value, or the name that holds the term.
#[tactic(auto, using(crate::proofs::Operands::stating))]
pub fn operand_for(
    alloc: Global,
    theory: &Theory,
    diagram: &Diagram,
    names: &NamedTerms,
    term: &Term,
) -> Result<Operand, NoMemory>
    ensures { IfOk result (λ o. o ≡ operand_of theory.now diagram.now names.now.entries term.now) }
{
    match term {
        Term::Var { .. } => held(alloc, names, term),
        Term::In { k } => {
            let name = input_name(alloc, diagram.inputs.as_slice(), *k as usize)?;
            Ok(Operand::Name(name))
        }
        Term::App { f, .. } => match literal_of(theory, *f) {
            Some(literal) => written_value(alloc, &literal.value),
            None => held(alloc, names, term),
        },
    }
}

// The name that holds a term.
fn held(alloc: Global, names: &NamedTerms, term: &Term) -> Result<Operand, NoMemory>
    ensures { IfOk result (λ o. o ≡ operand.Name (name_under names.now.entries term.now)) }
{
    Ok(Operand::Name(Name::new(alloc, name_of(names, term))?))
}

fn written_value(alloc: Global, value: &LitValue) -> Result<Operand, NoMemory>
    ensures { IfOk result (λ o. o ≡ written value.now) }
{
    match value {
        LitValue::Int(number) => Ok(Operand::Int(*number)),
        LitValue::Text(text) => Ok(Operand::Text(Name::new(alloc, text.as_str())?)),
    }
}

// The name of an input; the empty name where there is none of that number.
#[tactic(auto, using(crate::proofs::Operands::stating))]
fn input_name(alloc: Global, inputs: &[(Name, SortId)], at: usize) -> Result<Name, NoMemory>
    ensures { IfOk result (λ n. n ≡ slice_index_or (entry_names inputs.now) at []) }
{
    if at >= inputs.len() {
        return Ok(Name::empty(alloc));
    }
    Name::new(alloc, inputs[at].0.as_str())
}

/// What stands for each of the terms.
pub fn operands_for(
    alloc: Global,
    theory: &Theory,
    diagram: &Diagram,
    names: &NamedTerms,
    terms: &[Term],
) -> Result<Items<Operand>, NoMemory>
    ensures { IfOk result (λ os. os ≡ map (operand_of theory.now diagram.now names.now.entries) terms.now) }
{
    let mut made = Items::new(alloc);
    let mut rest = terms;
    while let [term, behind @ ..] = rest {
        made.push(operand_for(alloc, theory, diagram, names, term)?)?;
        rest = behind;
    }
    Ok(made)
}

// The names that hold the symbols at the terms, behind what is there.
fn push_names(
    alloc: Global,
    names: &NamedTerms,
    symbols: &[SymId],
    args: &[Term],
    made: &mut Items<Operand>,
) -> Result<(), NoMemory>
    ensures { OnOk result (made.new ≡ made.old ++ map (λ (x : Term).
        operand.Name (name_under names.now.entries x)) (map (λ (f : SymId). App f args.now) symbols.now)) }
{
    let mut rest = symbols;
    while let [f, behind @ ..] = rest {
        let name = Name::new(alloc, name_at(names, &Application::new(*f, args)))?;
        made.push(Operand::Name(name))?;
        rest = behind;
    }
    Ok(())
}

/// The statement of a call: its inputs' operands, and the names of what it makes. None where the theory
/// has nothing to call.
pub fn statement_of(
    alloc: Global,
    theory: &Theory,
    diagram: &Diagram,
    names: &NamedTerms,
    call: &PlannedCall,
) -> Result<Option<Statement>, NoMemory>
    ensures { IfOk result (λ s. listed_option s ≡ statement_for theory.now diagram.now names.now.entries call.now) }
{
    match call.callee() {
        Callee::Routine(k) => match theory.routines.get(k) {
            Some(routine) => Ok(Some(routine_call(alloc, theory, diagram, names, call, routine)?)),
            None => Ok(None),
        },
        Callee::Function(k) => match theory.functions.get(k) {
            Some(function) => Ok(Some(function_call(
                alloc, theory, diagram, names, call, function,
            )?)),
            None => Ok(None),
        },
    }
}

fn routine_call(
    alloc: Global,
    theory: &Theory,
    diagram: &Diagram,
    names: &NamedTerms,
    call: &PlannedCall,
    routine: &Routine,
) -> Result<Statement, NoMemory>
    requires { made_by theory.now call.now ≡ map (λ (f : SymId). App f call.now.args) routine.now.outputs }
    ensures { IfOk result (λ s. s ∷ [] ≡ call_of_routine theory.now diagram.now names.now.entries call.now
        (Some routine.now)) }
{
    let inputs = call.args();
    let mut args = operands_for(alloc, theory, diagram, names, inputs)?;
    push_names(alloc, names, routine.outputs.as_slice(), inputs, &mut args)?;
    let routine = Name::new(alloc, routine.name.as_str())?;
    Ok(Statement::Call { routine, args })
}

fn function_call(
    alloc: Global,
    theory: &Theory,
    diagram: &Diagram,
    names: &NamedTerms,
    call: &PlannedCall,
    function: &FortranFunction,
) -> Result<Statement, NoMemory>
    requires { made_by theory.now call.now ≡ App function.now.symbol call.now.args ∷ [] }
    ensures { IfOk result (λ s. s ∷ [] ≡ call_of_function theory.now diagram.now names.now.entries call.now
        (Some function.now)) }
{
    let inputs = call.args();
    let value = Application::new(function.symbol, inputs);
    let target = Name::new(alloc, name_at(names, &value))?;
    let args = operands_for(alloc, theory, diagram, names, inputs)?;
    let function = Name::new(alloc, function.name.as_str())?;
    Ok(Statement::Apply {
        target,
        function,
        args,
    })
}

/// The statements of the calls, in order.
#[tactic(auto, using(crate::proofs::Operands::stating))]
pub fn statements(
    alloc: Global,
    theory: &Theory,
    diagram: &Diagram,
    names: &NamedTerms,
    calls: &[PlannedCall],
) -> Result<Items<Statement>, NoMemory>
    ensures { IfOk result (λ ss. ss ≡ flat_map (statement_for theory.now diagram.now names.now.entries) calls.now) }
{
    let mut made = Items::new(alloc);
    let mut rest = calls;
    while let [call, behind @ ..] = rest {
        if let Some(statement) = statement_of(alloc, theory, diagram, names, call)? {
            made.push(statement)?;
        }
        rest = behind;
    }
    Ok(made)
}

/// The copies into the outputs that no call has set, in order, behind what is there.
#[tactic(auto, using(crate::proofs::Operands::stating))]
pub fn push_copies(
    alloc: Global,
    theory: &Theory,
    diagram: &Diagram,
    names: &NamedTerms,
    answer: &[Term],
    made: &mut Items<Statement>,
) -> Result<(), NoMemory>
    ensures { OnOk result (made.new ≡ made.old
        ++ copies_of theory.now diagram.now names.now.entries diagram.now.outputs answer.now) }
{
    let mut left = diagram.outputs.as_slice();
    let mut rest = answer;
    while let [output, further @ ..] = left {
        match rest {
            [] => return Ok(()),
            [term, behind @ ..] => {
                if !is_set(names.entries.as_slice(), &output.0) {
                    let from = operand_for(alloc, theory, diagram, names, term)?;
                    made.push(copy_to(alloc, theory, &output.0, output.1, from)?)?;
                }
                left = further;
                rest = behind;
            }
        }
    }
    Ok(())
}

// Whether a call sets the name. Takes no memory.
fn is_set(names: &[(Name, Application)], name: &Name) -> bool
    ensures { result ≡ is_name_set names.now name.now }
{
    let mut rest = names;
    while let [entry, behind @ ..] = rest {
        if name.as_str() == entry.0.as_str() {
            return true;
        }
        rest = behind;
    }
    false
}

// A scalar is assigned, an array goes through the copy routine of its sort.
fn copy_to(
    alloc: Global,
    theory: &Theory,
    name: &Name,
    sort: SortId,
    from: Operand,
) -> Result<Statement, NoMemory>
    ensures { IfOk result (λ s. s ≡ copied_to theory.now (name.now, sort) from) }
{
    let target = Name::new(alloc, name.as_str())?;
    if !is_array(theory, sort) {
        return Ok(Statement::Assign { target, from });
    }
    let routine = copy_routine(alloc, theory, sort)?;
    let mut args = Items::new(alloc);
    args.push(from)?;
    args.push(Operand::Name(target))?;
    Ok(Statement::Call { routine, args })
}

// The name of a sort's copy routine; the empty name where it has none.
fn copy_routine(alloc: Global, theory: &Theory, sort: SortId) -> Result<Name, NoMemory>
    ensures { IfOk result (λ n. n ≡ copy_name (copy_at theory.now sort)) }
{
    match copy_of(theory, sort) {
        Some(name) => Name::new(alloc, name.as_str()),
        None => Ok(Name::empty(alloc)),
    }
}
