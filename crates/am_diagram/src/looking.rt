ghost use Rattle.std.specs.Prelude.{◌≡◌, ◌++◌, IfOk, map};
ghost use Rattle.std.specs.List.{flat_map};
ghost use Rattle.am_term.specs.NameLists.{is_among};
ghost use Rattle.am_term.specs.declared.symbol.Symbol.{Symbol};
ghost use Rattle.am_syntax.specs.Scopes.{scope_of};
ghost use Rattle.am_theory.specs.declared.theory.Routine.{Routine};
ghost use Rattle.am_theory.specs.declared.theory.FortranFunction.{FortranFunction};
ghost use Rattle.am_theory.specs.Contents.{contents, sort_number};
ghost use Rattle.am_theory.specs.Faults.{is_unknown_sort, is_abstract};
ghost use Rattle.am_theory.specs.Lookups.{listed_name, fortran_names};
ghost use Rattle.am_diagram.specs.Faults.{is_reserved_in};

use crate::tables::Tables;
use am_syntax::NameTable;
use am_term::{Name, NoMemory, SortId, Symbol, is_local_name};
use am_theory::{FortranFunction, Routine, Theory};
use std::alloc::Global;

/// The theory with its names in maps; no memory too where a number would exceed 32 bits.
pub fn tables_of<'a>(alloc: Global, theory: &'a Theory) -> Result<Tables<'a>, NoMemory>
    ensures { IfOk result (λ t. t.theory.now ≡ theory.now) }
{
    let sorts = sort_names(alloc, theory.sig.sorts.as_slice())?;
    let symbols = symbol_names(alloc, theory.sig.symbols.as_slice())?;
    let called = fortran_names(alloc, theory)?;
    Ok(Tables {
        theory,
        sorts,
        symbols,
        called,
    })
}

fn sort_names(alloc: Global, sorts: &[Name]) -> Result<NameTable, NoMemory>
    ensures { IfOk result (λ t. t.names ≡ sorts.now) }
{
    let mut table = NameTable::new(alloc);
    let mut rest = sorts;
    while let [sort, behind @ ..] = rest {
        table = table.appending(alloc, sort)?;
        rest = behind;
    }
    Ok(table)
}

fn symbol_names(alloc: Global, symbols: &[Symbol]) -> Result<NameTable, NoMemory>
    ensures { IfOk result (λ t. t.names ≡ map (λ (y : Symbol). y.name) symbols.now) }
{
    let mut table = NameTable::new(alloc);
    let mut rest = symbols;
    while let [symbol, behind @ ..] = rest {
        table = table.appending(alloc, &symbol.name)?;
        rest = behind;
    }
    Ok(table)
}

fn fortran_names(alloc: Global, theory: &Theory) -> Result<NameTable, NoMemory>
    ensures { IfOk result (λ t. t.names ≡ fortran_names theory.now) }
{
    let table = NameTable::new(alloc);
    let table = with_routines(alloc, table, theory.routines.as_slice())?;
    let table = with_functions(alloc, table, theory.functions.as_slice())?;
    let table = with_copies(alloc, table, theory.copies.as_slice())?;
    Ok(table)
}

fn with_routines(
    alloc: Global,
    table: NameTable,
    routines: &[Routine],
) -> Result<NameTable, NoMemory>
    ensures { IfOk result (λ t. t.names ≡ table.names ++ map (λ (r : Routine). r.name) routines.now) }
{
    let mut table = table;
    let mut rest = routines;
    while let [routine, behind @ ..] = rest {
        table = table.appending(alloc, &routine.name)?;
        rest = behind;
    }
    Ok(table)
}

fn with_functions(
    alloc: Global,
    table: NameTable,
    functions: &[FortranFunction],
) -> Result<NameTable, NoMemory>
    ensures { IfOk result (λ t. t.names ≡ table.names ++ map (λ (f : FortranFunction). f.name) functions.now) }
{
    let mut table = table;
    let mut rest = functions;
    while let [function, behind @ ..] = rest {
        table = table.appending(alloc, &function.name)?;
        rest = behind;
    }
    Ok(table)
}

fn with_copy(alloc: Global, table: NameTable, copy: &Option<Name>) -> Result<NameTable, NoMemory>
    ensures { IfOk result (λ t. t.names ≡ table.names ++ listed_name copy.now) }
{
    match copy {
        Some(name) => table.appending(alloc, name),
        None => Ok(table),
    }
}

fn with_copies(
    alloc: Global,
    table: NameTable,
    copies: &[Option<Name>],
) -> Result<NameTable, NoMemory>
    ensures { IfOk result (λ t. t.names ≡ table.names ++ flat_map listed_name copies.now) }
{
    let mut table = table;
    let mut rest = copies;
    while let [copy, behind @ ..] = rest {
        table = with_copy(alloc, table, copy)?;
        rest = behind;
    }
    Ok(table)
}

/// Whether the name is no sort's.
pub fn is_unknown_sort(tables: &Tables, name: &Name) -> bool
    ensures { result ≡ is_unknown_sort (contents tables.now.theory.now) name.now }
{
    !tables.sorts.contains(name)
}

/// The number of the sort of this name, and 0 where there is none.
pub fn sort_number(tables: &Tables, name: &Name) -> SortId
    ensures { result ≡ sort_number (contents tables.now.theory.now) name.now }
{
    match tables.sorts.position(name) {
        Some(number) => SortId(number),
        None => SortId(0),
    }
}

/// Whether the sort of this name has no representation, or there is no such sort.
pub fn is_abstract(tables: &Tables, name: &Name) -> bool
    ensures { result ≡ is_abstract (contents tables.now.theory.now) name.now }
{
    let Some(number) = tables.sorts.position(name) else {
        return true;
    };
    match tables.theory.reps.get(number as usize) {
        Some(Some(_)) => false,
        Some(None) => true,
        None => true,
    }
}

/// Whether the name is a symbol's.
pub fn is_symbol_name(tables: &Tables, name: &Name) -> bool
    ensures { result ≡ is_among name.now (map (λ (y : Symbol). y.name) tables.now.theory.now.sig.symbols) }
{
    tables.symbols.contains(name)
}

/// Whether a unit may give the name to a local of its own, or the theory calls something by it.
pub fn is_reserved(tables: &Tables, name: &Name) -> bool
    ensures { result ≡ is_reserved_in tables.now.theory.now name.now }
{
    is_local_name(name.as_str().as_bytes()) || tables.called.contains(name)
}
