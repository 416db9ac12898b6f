ghost use Rattle.std.specs.Prelude.{◌≡◌, ◌∷◌, [], IfOk, codes, map};
ghost use Rattle.am_syntax.specs.Forms.{word_form as word_spelled, headed_form as headed_spelled, relation_form as relation_spelled, term_form as term_spelled, atom_form as atom_spelled, formula_form as formula_spelled};

use crate::form_lists::{first_word, list_form, pair_form, single_form, with_form, word_form};
use crate::written::{WrittenAtom, WrittenFormula, WrittenTerm};
use am_term::NoMemory;
use am_text::Form;
use std::alloc::Global;

/// The form that a term is, with all places 0.
#[cycle(term_forms)]
#[tactic(auto, using(crate::proofs::FormEquations::term_form_laws))]
pub fn term_form(alloc: Global, term: &WrittenTerm) -> Result<Form, NoMemory>
    ensures { IfOk result (λ f. f ≡ term_spelled term.now) }
{
    match term {
        WrittenTerm::Alone(word) => word_form(alloc, word.as_str()),
        WrittenTerm::Headed { head, args } => headed_form(alloc, head.as_str(), args.as_slice()),
    }
}

/// The form of a list of a word and, behind it, the terms.
#[cycle(term_forms)]
#[tactic(auto, using(crate::proofs::FormEquations::term_form_laws))]
fn headed_form(alloc: Global, head: &str, terms: &[WrittenTerm]) -> Result<Form, NoMemory>
    ensures { IfOk result (λ f. f ≡ headed_spelled head.now (map term_spelled terms.now)) }
{
    let mut forms = first_word(alloc, head)?;
    for term in terms {
        let form = term_form(alloc, term)?;
        forms = with_form(forms, form)?;
    }
    Ok(list_form(forms))
}

/// The form that an atom is, with all places 0.
pub fn atom_form(alloc: Global, atom: &WrittenAtom) -> Result<Form, NoMemory>
    ensures { IfOk result (λ f. f ≡ atom_spelled atom.now) }
{
    match atom {
        WrittenAtom::Equation { left, right } => equation_form(alloc, left, right),
        WrittenAtom::Relation { name, args } => {
            relation_form(alloc, name.as_str(), args.as_slice())
        }
    }
}

fn equation_form(alloc: Global, left: &WrittenTerm, right: &WrittenTerm) -> Result<Form, NoMemory>
    ensures { IfOk result (λ f. f ≡ headed_spelled (codes "=") (term_spelled left.now ∷ term_spelled right.now ∷ [])) }
{
    let left = term_form(alloc, left)?;
    let right = term_form(alloc, right)?;
    pair_form(alloc, "=", left, right)
}

fn relation_form(alloc: Global, name: &str, args: &[WrittenTerm]) -> Result<Form, NoMemory>
    ensures { IfOk result (λ f. f ≡ relation_spelled name.now (map term_spelled args.now)) }
{
    match args {
        [] => word_form(alloc, name),
        [_, ..] => headed_form(alloc, name, args),
    }
}

/// The form that a formula is, with all places 0; that of a quantifier is `(all)`.
#[cycle(formula_forms)]
#[tactic(auto, using(crate::proofs::FormEquations::formula_form_laws))]
pub fn formula_form(alloc: Global, formula: &WrittenFormula) -> Result<Form, NoMemory>
    ensures { IfOk result (λ f. f ≡ formula_spelled formula.now) }
{
    match formula {
        WrittenFormula::Atom(atom) => atom_form(alloc, atom),
        WrittenFormula::Not(inner) => negation_form(alloc, inner.get()),
        WrittenFormula::And(members) => joined_form(alloc, "and", members.as_slice()),
        WrittenFormula::Or(members) => joined_form(alloc, "or", members.as_slice()),
        WrittenFormula::Implies(left, right) => {
            let left = formula_form(alloc, left.get())?;
            linked_form(alloc, right.get(), "=>", left)
        }
        WrittenFormula::Iff(left, right) => {
            let left = formula_form(alloc, left.get())?;
            linked_form(alloc, right.get(), "<=>", left)
        }
        WrittenFormula::Quantified => quantified_form(alloc),
    }
}

/// The form of a list of `not` and the formula.
#[cycle(formula_forms)]
fn negation_form(alloc: Global, inner: &WrittenFormula) -> Result<Form, NoMemory>
    ensures { IfOk result (λ f. f ≡ headed_spelled (codes "not") (formula_spelled inner.now ∷ [])) }
{
    let inner = formula_form(alloc, inner)?;
    single_form(alloc, "not", inner)
}

/// The form of a list of a word and two forms, the second that of the formula.
#[cycle(formula_forms)]
fn linked_form(
    alloc: Global,
    right: &WrittenFormula,
    head: &str,
    left: Form,
) -> Result<Form, NoMemory>
    ensures { IfOk result (λ f. f ≡ headed_spelled head.now (left ∷ formula_spelled right.now ∷ [])) }
{
    let right = formula_form(alloc, right)?;
    pair_form(alloc, head, left, right)
}

/// The form of a list of a word and, behind it, the formulas.
#[cycle(formula_forms)]
#[tactic(auto, using(crate::proofs::FormEquations::formula_form_laws))]
fn joined_form(alloc: Global, head: &str, formulas: &[WrittenFormula]) -> Result<Form, NoMemory>
    ensures { IfOk result (λ f. f ≡ headed_spelled head.now (map formula_spelled formulas.now)) }
{
    let mut forms = first_word(alloc, head)?;
    for formula in formulas {
        let form = formula_form(alloc, formula)?;
        forms = with_form(forms, form)?;
    }
    Ok(list_form(forms))
}

fn quantified_form(alloc: Global) -> Result<Form, NoMemory>
    ensures { IfOk result (λ f. f ≡ headed_spelled (codes "all") []) }
{
    let members = first_word(alloc, "all")?;
    Ok(list_form(members))
}
