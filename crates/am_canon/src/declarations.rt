ghost use Rattle.std.specs.Prelude.{◌≡◌, ◌==◌, ◌++◌, [], ◌∷◌, Some, IfOk, OnOk, map, find, option_copied};
ghost use Rattle.am_syntax.specs.Scopes.{profile};
ghost use Rattle.am_theory.specs.Contents.{contents};
ghost use Rattle.am_canon.specs.CanonicalText.{sort_name, sort_names, result_name, written_rep, rep_as_written, declared_sort, sort_decls, typed_output, is_first, declared_routine, declared_literal, declared_value, symbol_decl, symbol_decls, typed_at, typed_variable, axiom_naming, written_axiom, declarations};
ghost use Rattle.am_syntax.specs.Naming.{named_formula};

use am_syntax::{Naming, WrittenFormula, named_formula};
use am_term::{Name, NoMemory, SortId, SymId, SymKind, Symbol};
use am_theory::{
    Axiom, Declaration, FortranFunction, LitValue, LiteralDecl, Rep, Routine, Theory, Typed,
    WrittenRep,
};
use sqlite_items::Items;
use std::alloc::Global;

/// The declarations of a theory in their canonical order: the sorts, the symbols and the axioms, each
/// in order, and one for all outputs of a routine.
#[tactic(auto, unfolding(crate::specs::CanonicalText::declarations))]
pub fn declarations(alloc: Global, theory: &Theory) -> Result<Items<Declaration>, NoMemory>
    ensures { IfOk result (λ ds. ds ≡ declarations (contents theory.now)) }
{
    let mut all = sort_decls(alloc, theory)?;
    push_symbols(alloc, theory, &mut all)?;
    push_axioms(alloc, theory, &mut all)?;
    Ok(all)
}

#[tactic(auto, using(crate::proofs::DeclarationSteps::sort_steps))]
fn sort_decls(alloc: Global, theory: &Theory) -> Result<Items<Declaration>, NoMemory>
    ensures { IfOk result (λ ds. ds ≡ sort_decls
        (contents theory.now) theory.now.sig.sorts theory.now.sig.parents theory.now.reps theory.now.copies) }
{
    let mut made = Items::new(alloc);
    let mut names = theory.sig.sorts.as_slice();
    let mut parents = theory.sig.parents.as_slice();
    let mut reps = theory.reps.as_slice();
    let mut copies = theory.copies.as_slice();
    while let [name, later_names @ ..] = names {
        let [parent, later_parents @ ..] = parents else {
            return Ok(made);
        };
        let [rep, later_reps @ ..] = reps else {
            return Ok(made);
        };
        let [copy, later_copies @ ..] = copies else {
            return Ok(made);
        };
        push_sort(alloc, theory, name, *parent, *rep, copy, &mut made)?;
        names = later_names;
        parents = later_parents;
        reps = later_reps;
        copies = later_copies;
    }
    Ok(made)
}

// The declaration of a sort.
fn push_sort(
    alloc: Global,
    theory: &Theory,
    name: &Name,
    parent: Option<SortId>,
    rep: Option<Rep>,
    copy: &Option<Name>,
    out: &mut Items<Declaration>,
) -> Result<(), NoMemory>
    ensures { OnOk result (out.new ≡ out.old ++ declared_sort (contents theory.now) name.now parent rep copy.now ∷ []) }
{
    out.push(sort_decl(alloc, theory, name, parent, rep, copy)?)?;
    Ok(())
}

fn sort_decl(
    alloc: Global,
    theory: &Theory,
    name: &Name,
    parent: Option<SortId>,
    rep: Option<Rep>,
    copy: &Option<Name>,
) -> Result<Declaration, NoMemory>
    ensures { IfOk result (λ d. d ≡ declared_sort (contents theory.now) name.now parent rep copy.now) }
{
    match parent {
        None => root_decl(alloc, name, rep, copy),
        Some(parent) => subsort_decl(alloc, theory, name, parent),
    }
}

// The declaration of a sort that is under no other.
fn root_decl(
    alloc: Global,
    name: &Name,
    rep: Option<Rep>,
    copy: &Option<Name>,
) -> Result<Declaration, NoMemory>
    ensures { IfOk result (λ d. d ≡ Declaration.Sort name.now (rep_as_written rep) copy.now) }
{
    let name = Name::new(alloc, name.as_str())?;
    let copy = copy_name(alloc, copy)?;
    let rep = match rep {
        Some(rep) => Some(written_rep(rep)),
        None => None,
    };
    Ok(Declaration::Sort { name, rep, copy })
}

fn subsort_decl(
    alloc: Global,
    theory: &Theory,
    name: &Name,
    parent: SortId,
) -> Result<Declaration, NoMemory>
    ensures { IfOk result (λ d. d ≡ Declaration.Subsort name.now (sort_name (contents theory.now) parent)) }
{
    let name = Name::new(alloc, name.as_str())?;
    let sort = sort_name(alloc, theory, parent)?;
    Ok(Declaration::Subsort { name, sort })
}

fn copy_name(alloc: Global, name: &Option<Name>) -> Result<Option<Name>, NoMemory>
    ensures { IfOk result (λ n. n ≡ name.now) }
{
    match name {
        Some(name) => Ok(Some(Name::new(alloc, name.as_str())?)),
        None => Ok(None),
    }
}

fn written_rep(rep: Rep) -> WrittenRep
    ensures { result ≡ written_rep rep }
{
    match rep {
        Rep::Double => WrittenRep::Double,
        Rep::Integer => WrittenRep::Integer,
        Rep::Logical => WrittenRep::Logical,
        Rep::Char(length) => WrittenRep::Char(i64::from(length)),
        Rep::DoubleVec(extent) => WrittenRep::DoubleVec(i64::from(extent)),
        Rep::DoubleMat(rows, columns) => {
            WrittenRep::DoubleMat(i64::from(rows), i64::from(columns))
        }
        Rep::IntegerVec(extent) => WrittenRep::IntegerVec(i64::from(extent)),
    }
}

#[tactic(auto, using(crate::proofs::DeclarationSteps::symbol_steps))]
fn push_symbols(
    alloc: Global,
    theory: &Theory,
    out: &mut Items<Declaration>,
) -> Result<(), NoMemory>
    ensures { OnOk result (out.new ≡ out.old ++ symbol_decls (contents theory.now) 0 (contents theory.now).symbols) }
{
    for (number, symbol) in theory.sig.symbols.as_slice().iter().enumerate() {
        push_symbol(alloc, theory, number, symbol, out)?;
    }
    Ok(())
}

// The declaration of a symbol, if it has one of its own.
fn push_symbol(
    alloc: Global,
    theory: &Theory,
    number: usize,
    symbol: &Symbol,
    out: &mut Items<Declaration>,
) -> Result<(), NoMemory>
    ensures { OnOk result (out.new ≡ out.old ++ symbol_decl (contents theory.now) number
        (profile symbol.now) symbol.now.kind) }
{
    match symbol.kind {
        SymKind::Function => push_function(alloc, theory, symbol, out),
        SymKind::Relation => push_relation(alloc, theory, symbol, out),
        SymKind::Literal => {
            let literal = literal_of(theory.literals.as_slice(), number);
            push_literal(alloc, theory, symbol, literal, out)
        }
        SymKind::Output => {
            let routine = routine_of(theory.routines.as_slice(), number);
            push_routine(alloc, theory, routine, out)
        }
        SymKind::Value => {
            let function = function_of(theory.functions.as_slice(), number);
            push_value(alloc, theory, symbol, function, out)
        }
    }
}

fn push_function(
    alloc: Global,
    theory: &Theory,
    symbol: &Symbol,
    out: &mut Items<Declaration>,
) -> Result<(), NoMemory>
    ensures { OnOk result (out.new ≡ out.old ++ Declaration.Function symbol.now.name
        (sort_names (contents theory.now) symbol.now.args) (result_name (contents theory.now) symbol.now.result) ∷ []) }
{
    out.push(function_decl(alloc, theory, symbol)?)?;
    Ok(())
}

fn push_relation(
    alloc: Global,
    theory: &Theory,
    symbol: &Symbol,
    out: &mut Items<Declaration>,
) -> Result<(), NoMemory>
    ensures { OnOk result (out.new ≡ out.old ++ Declaration.Relation symbol.now.name
        (sort_names (contents theory.now) symbol.now.args) ∷ []) }
{
    out.push(relation_decl(alloc, theory, symbol)?)?;
    Ok(())
}

fn push_literal(
    alloc: Global,
    theory: &Theory,
    symbol: &Symbol,
    literal: Option<&LiteralDecl>,
    out: &mut Items<Declaration>,
) -> Result<(), NoMemory>
    ensures { OnOk result (out.new ≡ out.old ++ declared_literal (contents theory.now) (profile symbol.now)
        (option_copied literal.entry)) }
{
    if let Some(literal) = literal {
        out.push(literal_decl(alloc, theory, symbol, literal)?)?;
    }
    Ok(())
}

fn push_routine(
    alloc: Global,
    theory: &Theory,
    routine: Option<&Routine>,
    out: &mut Items<Declaration>,
) -> Result<(), NoMemory>
    ensures { OnOk result (out.new ≡ out.old ++ declared_routine (contents theory.now) (option_copied routine.entry)) }
{
    if let Some(routine) = routine {
        out.push(routine_decl(alloc, theory, routine)?)?;
    }
    Ok(())
}

fn push_value(
    alloc: Global,
    theory: &Theory,
    symbol: &Symbol,
    function: Option<&FortranFunction>,
    out: &mut Items<Declaration>,
) -> Result<(), NoMemory>
    ensures { OnOk result (out.new ≡ out.old ++ declared_value (contents theory.now) (profile symbol.now)
        (option_copied function.entry)) }
{
    if let Some(function) = function {
        out.push(value_decl(alloc, theory, symbol, function)?)?;
    }
    Ok(())
}

fn function_decl(alloc: Global, theory: &Theory, symbol: &Symbol) -> Result<Declaration, NoMemory>
    ensures { IfOk result (λ d. d ≡ Declaration.Function symbol.now.name
        (sort_names (contents theory.now) symbol.now.args) (result_name (contents theory.now) symbol.now.result)) }
{
    let name = Name::new(alloc, symbol.name.as_str())?;
    let args = sort_names(alloc, theory, symbol.args.as_slice())?;
    let result = result_name(alloc, theory, symbol.result)?;
    Ok(Declaration::Function { name, args, result })
}

fn relation_decl(alloc: Global, theory: &Theory, symbol: &Symbol) -> Result<Declaration, NoMemory>
    ensures { IfOk result (λ d. d ≡ Declaration.Relation symbol.now.name
        (sort_names (contents theory.now) symbol.now.args)) }
{
    let name = Name::new(alloc, symbol.name.as_str())?;
    let args = sort_names(alloc, theory, symbol.args.as_slice())?;
    Ok(Declaration::Relation { name, args })
}

fn literal_decl(
    alloc: Global,
    theory: &Theory,
    symbol: &Symbol,
    literal: &LiteralDecl,
) -> Result<Declaration, NoMemory>
    ensures { IfOk result (λ d. declared_literal (contents theory.now) (profile symbol.now)
        (Some literal.now) ≡ d ∷ []) }
{
    let name = Name::new(alloc, symbol.name.as_str())?;
    let sort = result_name(alloc, theory, symbol.result)?;
    let value = copy_value(alloc, &literal.value)?;
    Ok(Declaration::Literal { name, sort, value })
}

fn routine_decl(alloc: Global, theory: &Theory, routine: &Routine) -> Result<Declaration, NoMemory>
    ensures { IfOk result (λ d. declared_routine (contents theory.now) (Some routine.now) ≡ d ∷ []) }
{
    let name = Name::new(alloc, routine.name.as_str())?;
    let inputs = sort_names(alloc, theory, routine.inputs.as_slice())?;
    let outputs = typed_outputs(alloc, theory, routine.outputs.as_slice())?;
    Ok(Declaration::Routine {
        name,
        inputs,
        outputs,
    })
}

fn value_decl(
    alloc: Global,
    theory: &Theory,
    symbol: &Symbol,
    function: &FortranFunction,
) -> Result<Declaration, NoMemory>
    ensures { IfOk result (λ d. declared_value (contents theory.now) (profile symbol.now)
        (Some function.now) ≡ d ∷ []) }
{
    let args = sort_names(alloc, theory, symbol.args.as_slice())?;
    let result = result_name(alloc, theory, symbol.result)?;
    named_value(alloc, &function.name, &symbol.name, args, result)
}

// The declaration of a function's value, with these sorts.
fn named_value(
    alloc: Global,
    function: &Name,
    name: &Name,
    args: Items<Name>,
    sort: Name,
) -> Result<Declaration, NoMemory>
    ensures { IfOk result (λ d. d ≡ Declaration.Value function.now name.now args sort) }
{
    let function = Name::new(alloc, function.as_str())?;
    let name = Name::new(alloc, name.as_str())?;
    Ok(Declaration::Value {
        function,
        name,
        args,
        result: sort,
    })
}

// The literal of this symbol.
fn literal_of(literals: &[LiteralDecl], number: usize) -> Option<&LiteralDecl>
    ensures { option_copied result ≡ find (λ l. l.symbol.0 == number) literals.now }
{
    literals
        .iter()
        .find(|literal| literal.symbol.0 as usize == number)
}

// The routine whose first output is this symbol.
fn routine_of(routines: &[Routine], number: usize) -> Option<&Routine>
    ensures { option_copied result ≡ find (λ r. is_first number r.outputs) routines.now }
{
    routines
        .iter()
        .find(|routine| is_first(number, routine.outputs.as_slice()))
}

fn is_first(number: usize, outputs: &[SymId]) -> bool
    ensures { result ≡ is_first number outputs.now }
{
    match outputs {
        [] => false,
        [first, ..] => first.0 as usize == number,
    }
}

// The listed function of this symbol.
fn function_of(functions: &[FortranFunction], number: usize) -> Option<&FortranFunction>
    ensures { option_copied result ≡ find (λ f. f.symbol.0 == number) functions.now }
{
    functions
        .iter()
        .find(|function| function.symbol.0 as usize == number)
}

fn copy_value(alloc: Global, value: &LitValue) -> Result<LitValue, NoMemory>
    ensures { IfOk result (λ v. v ≡ value.now) }
{
    match value {
        LitValue::Int(number) => Ok(LitValue::Int(*number)),
        LitValue::Text(text) => Ok(LitValue::Text(Name::new(alloc, text.as_str())?)),
    }
}

#[tactic(auto, using(crate::proofs::DeclarationSteps::name_steps))]
fn sort_name(alloc: Global, theory: &Theory, sort: SortId) -> Result<Name, NoMemory>
    ensures { IfOk result (λ n. n ≡ sort_name (contents theory.now) sort) }
{
    match sqlite_items::at(theory.sig.sorts.as_slice(), sort.0 as usize) {
        Some(name) => Name::new(alloc, name.as_str()),
        None => Ok(Name::empty(alloc)),
    }
}

#[tactic(auto, using(crate::proofs::FormSteps::map_laws))]
fn sort_names(alloc: Global, theory: &Theory, sorts: &[SortId]) -> Result<Items<Name>, NoMemory>
    ensures { IfOk result (λ ns. ns ≡ sort_names (contents theory.now) sorts.now) }
{
    let mut names = Items::new(alloc);
    for sort in sorts {
        names.push(sort_name(alloc, theory, *sort)?)?;
    }
    Ok(names)
}

fn result_name(alloc: Global, theory: &Theory, sort: Option<SortId>) -> Result<Name, NoMemory>
    ensures { IfOk result (λ n. n ≡ result_name (contents theory.now) sort) }
{
    match sort {
        Some(sort) => sort_name(alloc, theory, sort),
        None => Ok(Name::empty(alloc)),
    }
}

#[tactic(auto, using(crate::proofs::FormSteps::map_laws))]
fn typed_outputs(
    alloc: Global,
    theory: &Theory,
    outputs: &[SymId],
) -> Result<Items<Typed>, NoMemory>
    ensures { IfOk result (λ ts. ts ≡ map (typed_output (contents theory.now)) outputs.now) }
{
    let mut all = Items::new(alloc);
    for output in outputs {
        all.push(typed_output(alloc, theory, *output)?)?;
    }
    Ok(all)
}

#[tactic(auto, using(crate::proofs::DeclarationSteps::name_steps))]
fn typed_output(alloc: Global, theory: &Theory, output: SymId) -> Result<Typed, NoMemory>
    ensures { IfOk result (λ t. t ≡ typed_output (contents theory.now) output) }
{
    match sqlite_items::at(theory.sig.symbols.as_slice(), output.0 as usize) {
        Some(symbol) => typed_symbol(alloc, theory, symbol),
        None => Ok(Typed {
            name: Name::empty(alloc),
            sort: Name::empty(alloc),
        }),
    }
}

// The name of a symbol with its result sort.
fn typed_symbol(alloc: Global, theory: &Theory, symbol: &Symbol) -> Result<Typed, NoMemory>
    ensures { IfOk result (λ t. t ≡ typed_at (contents theory.now) (Some (profile symbol.now))) }
{
    let name = Name::new(alloc, symbol.name.as_str())?;
    let sort = result_name(alloc, theory, symbol.result)?;
    Ok(Typed { name, sort })
}

#[tactic(auto, using(crate::proofs::FormSteps::map_laws))]
fn push_axioms(alloc: Global, theory: &Theory, out: &mut Items<Declaration>) -> Result<(), NoMemory>
    ensures { OnOk result (out.new ≡ out.old ++ map (written_axiom (contents theory.now)) theory.now.axioms) }
{
    for axiom in theory.axioms.as_slice() {
        out.push(written_axiom(alloc, theory, axiom)?)?;
    }
    Ok(())
}

fn written_axiom(alloc: Global, theory: &Theory, stated: &Axiom) -> Result<Declaration, NoMemory>
    ensures { IfOk result (λ d. d ≡ written_axiom (contents theory.now) stated.now) }
{
    let formula = axiom_formula(alloc, theory, stated)?;
    let variables = typed_variables(alloc, theory, stated.vars.as_slice())?;
    Ok(Declaration::Axiom { variables, formula })
}

// The formula of an axiom by the names of its variables and of the symbols.
#[tactic(auto, using(crate::proofs::DeclarationSteps::naming_steps))]
fn axiom_formula(alloc: Global, theory: &Theory, stated: &Axiom) -> Result<WrittenFormula, NoMemory>
    ensures { IfOk result (λ f. f ≡ named_formula (axiom_naming (contents theory.now) stated.now) stated.now.formula) }
{
    let naming = Naming {
        variables: stated.vars.as_slice(),
        inputs: &[],
        symbols: theory.sig.symbols.as_slice(),
    };
    named_formula(alloc, &naming, &stated.formula)
}

#[tactic(auto, using(crate::proofs::FormSteps::map_laws))]
fn typed_variables(
    alloc: Global,
    theory: &Theory,
    variables: &[(Name, SortId)],
) -> Result<Items<Typed>, NoMemory>
    ensures { IfOk result (λ ts. ts ≡ map (typed_variable (contents theory.now)) variables.now) }
{
    let mut all = Items::new(alloc);
    for variable in variables {
        all.push(typed_variable(alloc, theory, variable)?)?;
    }
    Ok(all)
}

fn typed_variable(
    alloc: Global,
    theory: &Theory,
    variable: &(Name, SortId),
) -> Result<Typed, NoMemory>
    ensures { IfOk result (λ t. t ≡ typed_variable (contents theory.now) variable.now) }
{
    let name = Name::new(alloc, variable.0.as_str())?;
    let sort = sort_name(alloc, theory, variable.1)?;
    Ok(Typed { name, sort })
}
