use crate::fault::CaseFault;
use am_diagram::Diagram;
use am_syntax::{
    BoundTable, NameTable, Naming, Scope, Standing, Words, named_term, term_form, term_meaning,
    term_of,
};
use am_term::{NoMemory, Term, weight};
use am_text::{Form, TextLimits, read_forms, write_form};
use am_theory::Theory;
use sqlite_items::Items;
use std::alloc::Global;

/// The terms of a text over a theory and a diagram, whose outputs are variables.
pub fn terms_of(
    alloc: Global,
    theory: &Theory,
    diagram: &Diagram,
    text: &str,
) -> Result<Items<Term>, CaseFault> {
    let numbers = numbers(alloc, theory)?;
    let bound = bound(alloc, diagram)?;
    let scope = Scope {
        sig: &theory.sig,
        numbers: &numbers,
        bound: &bound,
    };
    let limits = TextLimits {
        bytes: 1048576,
        depth: 1000,
    };
    match read_forms(alloc, text.as_bytes(), limits) {
        Ok(forms) => meanings(alloc, &scope, forms.as_slice()),
        Err(_) => Err(CaseFault::said(alloc, "bad terms")),
    }
}

fn numbers(alloc: Global, theory: &Theory) -> Result<NameTable, NoMemory> {
    let mut names = NameTable::new(alloc);
    for symbol in theory.sig.symbols.as_slice() {
        names = names.appending(alloc, &symbol.name)?;
    }
    Ok(names)
}

fn bound(alloc: Global, diagram: &Diagram) -> Result<BoundTable, NoMemory> {
    let mut bound = BoundTable::new(alloc);
    let mut k = 0u32;
    for (name, sort) in diagram.inputs.as_slice() {
        bound = bound.with(alloc, name, Standing::Input { k, sort: *sort })?;
        k = k.saturating_add(1);
    }
    for (name, sort) in diagram.outputs.as_slice() {
        bound = bound.with(alloc, name, Standing::Variable { n: 0, sort: *sort })?;
    }
    Ok(bound)
}

fn meanings(alloc: Global, scope: &Scope, forms: &[Form]) -> Result<Items<Term>, CaseFault> {
    let mut terms = Items::new(alloc);
    for form in forms {
        let Some(written) = term_of(alloc, Words::Any, form)? else {
            return Err(CaseFault::said(alloc, "no term"));
        };
        terms.push(term_meaning(alloc, scope, &written)?)?;
    }
    Ok(terms)
}

/// The terms with a comma between them; of a large one the number of its nodes.
pub fn terms_text(
    alloc: Global,
    theory: &Theory,
    diagram: &Diagram,
    terms: &[Term],
) -> Result<String, NoMemory> {
    let naming = Naming {
        variables: diagram.outputs.as_slice(),
        inputs: diagram.inputs.as_slice(),
        symbols: theory.sig.symbols.as_slice(),
    };
    let mut out = String::new(alloc);
    for term in terms {
        out.push_str(if out.is_empty() { "" } else { ", " })?;
        match weight(term, 20000) {
            0..=100 => push_term(alloc, &naming, term, &mut out)?,
            nodes => write!(out, "{nodes} nodes")?,
        }
    }
    Ok(out)
}

fn push_term(
    alloc: Global,
    naming: &Naming,
    term: &Term,
    out: &mut String,
) -> Result<(), NoMemory> {
    let form = term_form(alloc, &named_term(alloc, naming, term)?)?;
    let bytes = write_form(alloc, &form)?;
    out.push_str(str::from_utf8(bytes.as_slice()).unwrap_or("?"))?;
    Ok(())
}
