ghost use Rattle.std.specs.Prelude.{◌≡◌, ◌||◌, ◌++◌, ◌∷◌, ◌<◌, ◌^◌, [], List, ℕ, false, None, IfOk, IfSome, OnOk, OnErr, map, length, option_map};
ghost use Rattle.am_term.specs.NameLists.{is_among};
ghost use Rattle.am_syntax.specs.Meaning.{formula_meaning};
ghost use Rattle.am_syntax.specs.Scopes.{profile};
ghost use Rattle.am_theory.specs.declared.fault.TheoryKind.{TheoryKind};
ghost use Rattle.am_theory.specs.declared.declaration.Typed.{Typed};
ghost use Rattle.am_theory.specs.Contents.{contents, axiom_scope, sort_numbers, next_symbol, with_symbol, output_profile, numbers_from, variable_of, extent, rep_meaning, with_decl};
ghost use Rattle.am_theory.specs.Faults.{names_in, axiom_names, is_bad_rep, is_unknown_sort, first_kind};
ghost use Rattle.am_theory.specs.Additions.{with_named_sort, with_copy, with_outputs, with_listed, with_called, with_law};

use crate::declaration::{Declaration, Typed, WrittenRep};
use crate::kinds::bound_from;
use crate::tables::Tables;
use crate::theory::{Axiom, FortranFunction, LitValue, LiteralDecl, Rep, Routine};
use am_syntax::{NameTable, Scope, WrittenFormula, formula_meaning};
use am_term::{Formula, Name, NoMemory, SortId, SymId, SymKind, Symbol};
use sqlite_items::Items;
use std::alloc::Global;
use std::mem;

/// Adds a declaration that has no fault. No memory too where a number would exceed 32 bits; then the tables may have
/// lost anything.
pub fn add_declaration(
    alloc: Global,
    tables: &mut Tables,
    declaration: Declaration,
) -> Result<(), NoMemory>
    requires { first_kind (contents tables.now.theory) declaration ≡ None }
    ensures { OnOk result (contents tables.new.theory ≡ with_decl (contents tables.old.theory) declaration) }
{
    match declaration {
        Declaration::Sort { name, rep, copy } => add_sort(alloc, tables, name, rep, copy),
        Declaration::Subsort { name, sort } => add_subsort(alloc, tables, name, &sort),
        Declaration::Function { name, args, result } => {
            add_function(alloc, tables, name, args.as_slice(), &result)
        }
        Declaration::Relation { name, args } => add_relation(alloc, tables, name, args.as_slice()),
        Declaration::Literal { name, sort, value } => add_literal(
            alloc, tables, name, &sort, value,
        ),
        Declaration::Routine {
            name,
            inputs,
            outputs,
        } => add_routine(alloc, tables, name, inputs.as_slice(), outputs.as_slice()),
        Declaration::Value {
            function,
            name,
            args,
            result,
        } => add_value(alloc, tables, function, name, args.as_slice(), &result),
        Declaration::Axiom { variables, formula } => {
            add_axiom(alloc, tables, variables.as_slice(), &formula)
        }
    }
}

// An item and its name behind the others. Without memory neither items nor names are left.
fn push_named<T: Drop>(
    alloc: Global,
    names: &mut NameTable,
    items: &mut Items<T>,
    name: &Name,
    item: T,
) -> Result<(), NoMemory>
    ensures named { OnOk result (names.new.names ≡ names.old.names ++ name.now ∷ []) }
    ensures listed { OnOk result (items.new ≡ items.old ++ item ∷ []) }
    ensures nameless { OnErr result (names.new.names ≡ []) }
    ensures empty { OnErr result (items.new ≡ []) }
{
    let table = mem::replace(names, NameTable::new(alloc));
    let mut list = mem::replace(items, Items::new(alloc));
    let table = table.appending(alloc, name)?;
    list.push(item)?;
    *names = table;
    *items = list;
    Ok(())
}

fn extent(number: i64) -> u32
    requires { extent number < 2 ^ 32 }
    ensures { result ≡ extent number }
{
    u32::try_from(number).unwrap_or(0)
}

#[tactic(auto, using(crate::proofs::AddSteps::extent_steps))]
fn rep_meaning(rep: WrittenRep) -> Rep
    requires { is_bad_rep rep ≡ false }
    ensures { result ≡ rep_meaning rep }
{
    match rep {
        WrittenRep::Double => Rep::Double,
        WrittenRep::Integer => Rep::Integer,
        WrittenRep::Logical => Rep::Logical,
        WrittenRep::Char(length) => Rep::Char(extent(length)),
        WrittenRep::DoubleVec(count) => Rep::DoubleVec(extent(count)),
        WrittenRep::DoubleMat(rows, columns) => Rep::DoubleMat(extent(rows), extent(columns)),
        WrittenRep::IntegerVec(count) => Rep::IntegerVec(extent(count)),
    }
}

#[tactic(auto, using(crate::proofs::AddSteps::extent_steps))]
fn sort_rep(rep: Option<WrittenRep>) -> Option<Rep>
    requires { IfSome rep (λ r. is_bad_rep r ≡ false) }
    ensures { result ≡ option_map rep_meaning rep }
{
    match rep {
        Some(rep) => Some(rep_meaning(rep)),
        None => None,
    }
}

// A sort with its parent behind the others. Without memory neither sorts nor names are left.
fn push_sort(
    alloc: Global,
    names: &mut NameTable,
    sorts: &mut Items<Name>,
    parents: &mut Items<Option<SortId>>,
    sort: Name,
    parent: Option<SortId>,
) -> Result<(), NoMemory>
    ensures named { OnOk result (names.new.names ≡ names.old.names ++ sort ∷ []) }
    ensures listed { OnOk result (sorts.new ≡ sorts.old ++ sort ∷ []) }
    ensures placed { OnOk result (parents.new ≡ parents.old ++ parent ∷ []) }
    ensures nameless { OnErr result (names.new.names ≡ []) }
    ensures empty { OnErr result (sorts.new ≡ []) }
    ensures unrelated { OnErr result (parents.new ≡ []) }
{
    let table = mem::replace(names, NameTable::new(alloc));
    let mut list = mem::replace(sorts, Items::new(alloc));
    let mut above = mem::replace(parents, Items::new(alloc));
    let table = table.appending(alloc, &sort)?;
    list.push(sort)?;
    above.push(parent)?;
    *names = table;
    *sorts = list;
    *parents = above;
    Ok(())
}

fn add_named_sort(
    alloc: Global,
    tables: &mut Tables,
    name: Name,
    parent: Option<SortId>,
) -> Result<(), NoMemory>
    requires { IfSome parent (λ p. p.0 < length (contents tables.now.theory).sorts) }
    ensures { OnOk result (contents tables.new.theory ≡ with_named_sort (contents tables.old.theory) name parent) }
{
    push_sort(
        alloc,
        &mut tables.sorts,
        &mut tables.theory.sig.sorts,
        &mut tables.theory.sig.parents,
        name,
        parent,
    )
}

fn add_copy(alloc: Global, tables: &mut Tables, copy: Option<Name>) -> Result<(), NoMemory>
    ensures { OnOk result (contents tables.new.theory ≡ with_copy (contents tables.old.theory) copy) }
{
    let Some(routine) = &copy else {
        tables.theory.copies.push(None)?;
        return Ok(());
    };
    let name = Name::new(alloc, routine.as_str())?;
    push_named(
        alloc,
        &mut tables.copies,
        &mut tables.theory.copies,
        &name,
        copy,
    )
}

#[tactic(auto, unfolding(crate::specs::Contents::with_decl))]
fn add_sort(
    alloc: Global,
    tables: &mut Tables,
    name: Name,
    rep: Option<WrittenRep>,
    copy: Option<Name>,
) -> Result<(), NoMemory>
    requires { IfSome rep (λ r. is_bad_rep r ≡ false) }
    ensures { OnOk result (contents tables.new.theory ≡ with_decl (contents tables.old.theory)
        (Declaration.Sort name rep copy)) }
{
    tables.theory.reps.push(sort_rep(rep))?;
    add_copy(alloc, tables, copy)?;
    add_named_sort(alloc, tables, name, None)
}

#[tactic(auto, unfolding(crate::specs::Contents::with_decl))]
fn add_subsort(alloc: Global, tables: &mut Tables, name: Name, sort: &Name) -> Result<(), NoMemory>
    requires { is_unknown_sort (contents tables.now.theory) sort.now ≡ false }
    ensures { OnOk result (contents tables.new.theory ≡ with_decl (contents tables.old.theory)
        (Declaration.Subsort name sort.now)) }
{
    let parent = tables.sort_number(sort);
    let rep = tables.rep_named(sort);
    let copy = match tables.copy_named(sort) {
        Some(routine) => Some(Name::new(alloc, routine.as_str())?),
        None => None,
    };
    tables.theory.reps.push(rep)?;
    add_copy(alloc, tables, copy)?;
    add_named_sort(alloc, tables, name, Some(parent))
}

fn sort_numbers(alloc: Global, tables: &Tables, names: &[Name]) -> Result<Items<SortId>, NoMemory>
    ensures { IfOk result (λ ids. ids ≡ sort_numbers (contents tables.now.theory) names.now) }
{
    let mut made = Items::new(alloc);
    for name in names {
        made.push(tables.sort_number(name))?;
    }
    Ok(made)
}

// A symbol more.
fn add_symbol(alloc: Global, tables: &mut Tables, symbol: Symbol) -> Result<(), NoMemory>
    ensures { OnOk result (contents tables.new.theory ≡ with_symbol (contents tables.old.theory) (profile symbol)) }
{
    let name = Name::new(alloc, symbol.name.as_str())?;
    push_named(
        alloc,
        &mut tables.symbols,
        &mut tables.theory.sig.symbols,
        &name,
        symbol,
    )
}

// The number that the next symbol gets.
fn next_symbol(tables: &Tables) -> Result<SymId, NoMemory>
    ensures { IfOk result (λ id. id ≡ next_symbol (contents tables.now.theory)) }
{
    match u32::try_from(tables.theory.sig.symbols.len()) {
        Ok(number) => Ok(SymId(number)),
        Err(_) => Err(NoMemory),
    }
}

#[tactic(auto, unfolding(crate::specs::Contents::with_decl))]
fn add_function(
    alloc: Global,
    tables: &mut Tables,
    name: Name,
    args: &[Name],
    sort: &Name,
) -> Result<(), NoMemory>
    ensures { OnOk result (contents tables.new.theory ≡ with_decl (contents tables.old.theory)
        (Declaration.Function name args.now sort.now)) }
{
    let symbol = Symbol {
        name,
        args: sort_numbers(alloc, tables, args)?,
        result: Some(tables.sort_number(sort)),
        kind: SymKind::Function,
    };
    add_symbol(alloc, tables, symbol)
}

#[tactic(auto, unfolding(crate::specs::Contents::with_decl))]
fn add_relation(
    alloc: Global,
    tables: &mut Tables,
    name: Name,
    args: &[Name],
) -> Result<(), NoMemory>
    ensures { OnOk result (contents tables.new.theory ≡ with_decl (contents tables.old.theory)
        (Declaration.Relation name args.now)) }
{
    let symbol = Symbol {
        name,
        args: sort_numbers(alloc, tables, args)?,
        result: None,
        kind: SymKind::Relation,
    };
    add_symbol(alloc, tables, symbol)
}

#[tactic(auto, unfolding(crate::specs::Contents::with_decl))]
fn add_literal(
    alloc: Global,
    tables: &mut Tables,
    name: Name,
    sort: &Name,
    value: LitValue,
) -> Result<(), NoMemory>
    ensures { OnOk result (contents tables.new.theory ≡ with_decl (contents tables.old.theory)
        (Declaration.Literal name sort.now value)) }
{
    let number = next_symbol(tables)?;
    let symbol = Symbol {
        name,
        args: Items::new(alloc),
        result: Some(tables.sort_number(sort)),
        kind: SymKind::Literal,
    };
    add_symbol(alloc, tables, symbol)?;
    tables.theory.literals.push(LiteralDecl {
        symbol: number,
        value,
    })?;
    Ok(())
}

// As many numbers as there are outputs, from that of the next symbol.
fn output_numbers(
    alloc: Global,
    tables: &Tables,
    outputs: &[Typed],
) -> Result<Items<SymId>, NoMemory>
    ensures { IfOk result (λ ids. ids ≡ numbers_from (length (contents tables.now.theory).symbols) outputs.now) }
{
    let mut made = Items::new(alloc);
    let SymId(mut number) = next_symbol(tables)?;
    let mut rest = outputs;
    while let [_, behind @ ..] = rest {
        made.push(SymId(number))?;
        number = number.checked_add(1).ok_or(NoMemory)?;
        rest = behind;
    }
    Ok(made)
}

fn add_output(
    alloc: Global,
    tables: &mut Tables,
    inputs: &[Name],
    output: &Typed,
) -> Result<(), NoMemory>
    ensures { OnOk result (contents tables.new.theory ≡ with_symbol (contents tables.old.theory)
        (output_profile (contents tables.old.theory) inputs.now output.now)) }
{
    let symbol = Symbol {
        name: Name::new(alloc, output.name.as_str())?,
        args: sort_numbers(alloc, tables, inputs)?,
        result: Some(tables.sort_number(&output.sort)),
        kind: SymKind::Output,
    };
    add_symbol(alloc, tables, symbol)
}

fn add_outputs(
    alloc: Global,
    tables: &mut Tables,
    inputs: &[Name],
    outputs: &[Typed],
) -> Result<(), NoMemory>
    ensures { OnOk result (contents tables.new.theory ≡ with_outputs
        (contents tables.old.theory) inputs.now outputs.now) }
{
    let mut rest = outputs;
    while let [output, behind @ ..] = rest {
        add_output(alloc, tables, inputs, output)?;
        rest = behind;
    }
    Ok(())
}

fn call_routine(alloc: Global, tables: &mut Tables, routine: Routine) -> Result<(), NoMemory>
    ensures { OnOk result (contents tables.new.theory ≡ with_called (contents tables.old.theory) routine) }
{
    let name = Name::new(alloc, routine.name.as_str())?;
    push_named(
        alloc,
        &mut tables.routines,
        &mut tables.theory.routines,
        &name,
        routine,
    )
}

fn add_routine(
    alloc: Global,
    tables: &mut Tables,
    name: Name,
    inputs: &[Name],
    outputs: &[Typed],
) -> Result<(), NoMemory>
    ensures { OnOk result (contents tables.new.theory ≡ with_decl (contents tables.old.theory)
        (Declaration.Routine name inputs.now outputs.now)) }
{
    let routine = Routine {
        name,
        inputs: sort_numbers(alloc, tables, inputs)?,
        outputs: output_numbers(alloc, tables, outputs)?,
    };
    add_outputs(alloc, tables, inputs, outputs)?;
    call_routine(alloc, tables, routine)
}

fn list_function(
    alloc: Global,
    tables: &mut Tables,
    function: FortranFunction,
) -> Result<(), NoMemory>
    ensures { OnOk result (contents tables.new.theory ≡ with_listed (contents tables.old.theory) function) }
{
    let name = Name::new(alloc, function.name.as_str())?;
    push_named(
        alloc,
        &mut tables.functions,
        &mut tables.theory.functions,
        &name,
        function,
    )
}

#[tactic(auto, unfolding(crate::specs::Contents::with_decl))]
fn add_value(
    alloc: Global,
    tables: &mut Tables,
    function: Name,
    name: Name,
    args: &[Name],
    sort: &Name,
) -> Result<(), NoMemory>
    ensures { OnOk result (contents tables.new.theory ≡ with_decl (contents tables.old.theory)
        (Declaration.Value function name args.now sort.now)) }
{
    let listed = FortranFunction {
        name: function,
        symbol: next_symbol(tables)?,
    };
    let symbol = Symbol {
        name,
        args: sort_numbers(alloc, tables, args)?,
        result: Some(tables.sort_number(sort)),
        kind: SymKind::Value,
    };
    add_symbol(alloc, tables, symbol)?;
    list_function(alloc, tables, listed)
}

fn typed_numbers(
    alloc: Global,
    tables: &Tables,
    typed: &[Typed],
) -> Result<Items<(Name, SortId)>, NoMemory>
    ensures { IfOk result (λ vs. vs ≡ map (variable_of (contents tables.now.theory)) typed.now) }
{
    let mut made = Items::new(alloc);
    for one in typed {
        let name = Name::new(alloc, one.name.as_str())?;
        made.push((name, tables.sort_number(&one.sort)))?;
    }
    Ok(made)
}

// The names of these variables in the table too.
fn with_variables(
    alloc: Global,
    variables: NameTable,
    typed: &[Typed],
) -> Result<NameTable, NoMemory>
    ensures { IfOk result (λ t. (q : List ℕ)
        → is_among q t.names ≡ (is_among q (names_in typed.now) || is_among q variables.names)) }
{
    let mut variables = variables;
    for one in typed {
        variables = variables.including(alloc, &one.name)?;
    }
    Ok(variables)
}

// An axiom behind the others, and the names of its variables. Without memory neither axioms nor names are left.
fn push_axiom(
    alloc: Global,
    names: &mut NameTable,
    axioms: &mut Items<Axiom>,
    typed: &[Typed],
    added: Axiom,
) -> Result<(), NoMemory>
    ensures named { OnOk result ((q : List ℕ)
        → is_among q names.new.names ≡ (is_among q (names_in typed.now) || is_among q names.old.names)) }
    ensures listed { OnOk result (axioms.new ≡ axioms.old ++ added ∷ []) }
    ensures nameless { OnErr result (names.new.names ≡ []) }
    ensures empty { OnErr result (axioms.new ≡ []) }
{
    let table = mem::replace(names, NameTable::new(alloc));
    let mut list = mem::replace(axioms, Items::new(alloc));
    let table = with_variables(alloc, table, typed)?;
    list.push(added)?;
    *names = table;
    *axioms = list;
    Ok(())
}

fn add_law(
    alloc: Global,
    tables: &mut Tables,
    typed: &[Typed],
    added: Axiom,
) -> Result<(), NoMemory>
    requires { axiom_names added ≡ names_in typed.now }
    ensures { OnOk result (contents tables.new.theory ≡ with_law (contents tables.old.theory) added) }
{
    push_axiom(
        alloc,
        &mut tables.variables,
        &mut tables.theory.axioms,
        typed,
        added,
    )
}

#[tactic(auto, unfolding(crate::specs::Contents::with_decl))]
fn add_axiom(
    alloc: Global,
    tables: &mut Tables,
    typed: &[Typed],
    formula: &WrittenFormula,
) -> Result<(), NoMemory>
    ensures { OnOk result (contents tables.new.theory ≡ with_decl (contents tables.old.theory)
        (Declaration.Axiom typed.now formula.now)) }
{
    let vars = typed_numbers(alloc, tables, typed)?;
    let formula = axiom_meaning(alloc, tables, typed, formula)?;
    add_law(alloc, tables, typed, Axiom { vars, formula })
}

// The formula that the written one stands for, where these are its variables.
fn axiom_meaning(
    alloc: Global,
    tables: &Tables,
    typed: &[Typed],
    formula: &WrittenFormula,
) -> Result<Formula, NoMemory>
    ensures { IfOk result (λ f. f ≡ formula_meaning (axiom_scope (contents tables.now.theory) typed.now) formula.now) }
{
    let bound = bound_from(alloc, tables, typed)?;
    let scope = Scope {
        sig: &tables.theory.sig,
        numbers: &tables.symbols,
        bound: &bound,
    };
    formula_meaning(alloc, &scope, formula)
}
