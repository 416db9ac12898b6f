ghost use Rattle.std.specs.Prelude.{◌≡◌, IfOk, map, option_map};
ghost use Rattle.std.specs.Option.{option_copied};
ghost use Rattle.am_syntax.specs.declared.written.WrittenTerm.TheVariants.{Headed};
ghost use Rattle.am_syntax.specs.declared.written.WrittenFormula.TheViews.{out-WrittenFormula};
ghost use Rattle.am_syntax.specs.Shapes.{term_of as spelled_term, formula_of as spelled_formula, literal_of as spelled_literal, all_of, literal_at, may_stand};
ghost use Rattle.am_syntax.specs.Heads.{word_of, name_of, head_of as head_kind, kind_of as head_kind_of, some_in, only_in, two_in, joined, equation_from, relation_from, word_as_term, word_as_formula};

use crate::written::{Words, WrittenAtom, WrittenFormula, WrittenLiteral, WrittenTerm};
use am_term::{Name, NoMemory, is_name};
use am_text::{Form, FormNode};
use sqlite_items::{Boxed, Items};
use std::alloc::Global;

#[derive(Clone, Copy)]
enum Connective {
    Not,
    And,
    Or,
    Implies,
    Iff,
}

/// What the head of a list says of the formula that the list is.
#[derive(Clone, Copy)]
enum Head {
    Joined(Connective),
    Equals,
    Quantifier,
    Related,
    Other,
}

/// The term that a form is: a word that may stand alone, or a list of a name and one or more terms.
/// The format is this project's own.
#[cycle(terms)]
#[tactic(auto, using(crate::proofs::ShapeEquations::term_laws))]
pub fn term_of(alloc: Global, words: Words, form: &Form) -> Result<Option<WrittenTerm>, NoMemory>
    ensures { IfOk result (λ t. t ≡ spelled_term words form.now) }
{
    match &form.node {
        FormNode::Word(word) => lone_term(alloc, words, word),
        FormNode::Number(_) => Ok(None),
        FormNode::Text(_) => Ok(None),
        FormNode::List(members) => match members.as_slice() {
            [] => Ok(None),
            [head, args @ ..] => {
                let Some(name) = name_in(head) else {
                    return Ok(None);
                };
                let args = all_terms(alloc, words, args)?;
                headed_term(alloc, name, args)
            }
        },
    }
}

/// The terms that the forms are, where each is a term.
#[cycle(terms)]
#[tactic(auto, using(crate::proofs::ShapeEquations::term_laws))]
fn all_terms(
    alloc: Global,
    words: Words,
    forms: &[Form],
) -> Result<Option<Items<WrittenTerm>>, NoMemory>
    ensures { IfOk result (λ ts. ts ≡ all_of (map (spelled_term words) forms.now)) }
{
    let mut terms = Items::new(alloc);
    for form in forms {
        let Some(term) = term_of(alloc, words, form)? else {
            return Ok(None);
        };
        terms.push(term)?;
    }
    Ok(Some(terms))
}

/// The term with this head and these arguments, where there are any.
#[tactic(auto, using(crate::proofs::ShapeEquations::term_laws))]
fn headed_term(
    alloc: Global,
    head: &Name,
    args: Option<Items<WrittenTerm>>,
) -> Result<Option<WrittenTerm>, NoMemory>
    ensures { IfOk result (λ t. t ≡ option_map (Headed head.now) (some_in args)) }
{
    let Some(args) = args else {
        return Ok(None);
    };
    if args.is_empty() {
        return Ok(None);
    }
    let head = Name::new(alloc, head.as_str())?;
    Ok(Some(WrittenTerm::Headed { head, args }))
}

#[tactic(auto, using(crate::proofs::ShapeEquations::term_laws))]
fn lone_term(alloc: Global, words: Words, word: &Name) -> Result<Option<WrittenTerm>, NoMemory>
    ensures { IfOk result (λ t. t ≡ word_as_term words word.now) }
{
    if !stands_alone(words, word) {
        return Ok(None);
    }
    let word = Name::new(alloc, word.as_str())?;
    Ok(Some(WrittenTerm::Alone(word)))
}

/// The word that the form is, where that is a name.
#[tactic(auto, using(crate::proofs::ShapeEquations::term_laws))]
fn name_in(form: &Form) -> Option<&Name>
    ensures { option_copied result ≡ name_of (word_of form.now.node) }
{
    match &form.node {
        FormNode::Word(word) => {
            if is_name(word.as_str().as_bytes()) {
                Some(word)
            } else {
                None
            }
        }
        FormNode::Number(_) => None,
        FormNode::Text(_) => None,
        FormNode::List(_) => None,
    }
}

/// The formula that a form is: a name, `(not F)`, `(and F ..)`, `(or F ..)`, `(=> F G)`, `(<=> F G)`,
/// `(= TERM TERM)`, a list whose head is `all` or `exists`, or `(NAME TERM ..)`. The format is this
/// project's own.
#[cycle(formulas)]
#[tactic(auto, using(crate::proofs::FormulaEquations::formula_laws))]
pub fn formula_of(
    alloc: Global,
    words: Words,
    form: &Form,
) -> Result<Option<WrittenFormula>, NoMemory>
    ensures { IfOk result (λ f. f ≡ spelled_formula words form.now) }
{
    match &form.node {
        FormNode::Word(word) => lone_formula(alloc, word),
        FormNode::Number(_) => Ok(None),
        FormNode::Text(_) => Ok(None),
        FormNode::List(members) => match members.as_slice() {
            [] => Ok(None),
            [head, rest @ ..] => match head_of(head) {
                Head::Joined(connective) => {
                    let members = all_formulas(alloc, words, rest)?;
                    join(alloc, connective, members)
                }
                Head::Equals => Ok(equation(all_terms(alloc, words, rest)?)),
                Head::Quantifier => Ok(Some(WrittenFormula::Quantified)),
                Head::Related => {
                    let args = all_terms(alloc, words, rest)?;
                    relation(alloc, head, args)
                }
                Head::Other => Ok(None),
            },
        },
    }
}

/// The formulas that the forms are, where each is a formula.
#[cycle(formulas)]
#[tactic(auto, using(crate::proofs::FormulaEquations::formula_laws))]
fn all_formulas(
    alloc: Global,
    words: Words,
    forms: &[Form],
) -> Result<Option<Items<WrittenFormula>>, NoMemory>
    ensures { IfOk result (λ fs. fs ≡ all_of (map (spelled_formula words) forms.now)) }
{
    let mut formulas = Items::new(alloc);
    for form in forms {
        let Some(formula) = formula_of(alloc, words, form)? else {
            return Ok(None);
        };
        formulas.push(formula)?;
    }
    Ok(Some(formulas))
}

#[tactic(auto, using(crate::proofs::ShapeEquations::term_laws))]
fn head_of(form: &Form) -> Head
    ensures { result ≡ head_kind (word_of form.now.node) }
{
    match &form.node {
        FormNode::Word(word) => kind_of(word),
        FormNode::Number(_) => Head::Other,
        FormNode::Text(_) => Head::Other,
        FormNode::List(_) => Head::Other,
    }
}

fn kind_of(word: &Name) -> Head
    ensures { result ≡ head_kind_of word.now }
{
    let word = word.as_str();
    if word == "not" {
        Head::Joined(Connective::Not)
    } else if word == "and" {
        Head::Joined(Connective::And)
    } else if word == "or" {
        Head::Joined(Connective::Or)
    } else if word == "=>" {
        Head::Joined(Connective::Implies)
    } else if word == "<=>" {
        Head::Joined(Connective::Iff)
    } else if word == "=" {
        Head::Equals
    } else if word == "all" || word == "exists" {
        Head::Quantifier
    } else if is_name(word.as_bytes()) {
        Head::Related
    } else {
        Head::Other
    }
}

/// The formula that the connective makes of these members, where they are as many as it takes.
#[tactic(auto, using(crate::proofs::FormulaEquations::formula_laws))]
fn join(
    alloc: Global,
    connective: Connective,
    members: Option<Items<WrittenFormula>>,
) -> Result<Option<WrittenFormula>, NoMemory>
    ensures { IfOk result (λ f. f ≡ joined connective members) }
{
    let Some(members) = members else {
        return Ok(None);
    };
    match connective {
        Connective::Not => negation(alloc, members),
        Connective::And => Ok(conjunction(members)),
        Connective::Or => Ok(disjunction(members)),
        Connective::Implies => implication(alloc, members),
        Connective::Iff => equivalence(alloc, members),
    }
}

#[tactic(auto, using(crate::proofs::FormulaEquations::formula_laws))]
fn negation(
    alloc: Global,
    members: Items<WrittenFormula>,
) -> Result<Option<WrittenFormula>, NoMemory>
    ensures { IfOk result (λ f. f ≡ joined Connective.Not (Some members)) }
{
    let Some(formula) = only(members) else {
        return Ok(None);
    };
    let formula = Boxed::new(alloc, formula)?;
    Ok(Some(WrittenFormula::Not(formula)))
}

#[tactic(auto, using(crate::proofs::FormulaEquations::formula_laws))]
fn conjunction(members: Items<WrittenFormula>) -> Option<WrittenFormula>
    ensures { result ≡ joined Connective.And (Some members) }
{
    if members.is_empty() {
        None
    } else {
        Some(WrittenFormula::And(members))
    }
}

#[tactic(auto, using(crate::proofs::FormulaEquations::formula_laws))]
fn disjunction(members: Items<WrittenFormula>) -> Option<WrittenFormula>
    ensures { result ≡ joined Connective.Or (Some members) }
{
    if members.is_empty() {
        None
    } else {
        Some(WrittenFormula::Or(members))
    }
}

#[tactic(auto, using(crate::proofs::FormulaEquations::formula_laws))]
fn implication(
    alloc: Global,
    members: Items<WrittenFormula>,
) -> Result<Option<WrittenFormula>, NoMemory>
    ensures { IfOk result (λ f. f ≡ joined Connective.Implies (Some members)) }
{
    match two_boxed(alloc, members)? {
        Some((left, right)) => Ok(Some(WrittenFormula::Implies(left, right))),
        None => Ok(None),
    }
}

#[tactic(auto, using(crate::proofs::FormulaEquations::formula_laws))]
fn equivalence(
    alloc: Global,
    members: Items<WrittenFormula>,
) -> Result<Option<WrittenFormula>, NoMemory>
    ensures { IfOk result (λ f. f ≡ joined Connective.Iff (Some members)) }
{
    match two_boxed(alloc, members)? {
        Some((left, right)) => Ok(Some(WrittenFormula::Iff(left, right))),
        None => Ok(None),
    }
}

/// The equation of these terms, where they are two.
#[tactic(auto, using(crate::proofs::FormulaEquations::formula_laws))]
fn equation(sides: Option<Items<WrittenTerm>>) -> Option<WrittenFormula>
    ensures { result ≡ equation_from sides }
{
    let Some(sides) = sides else {
        return None;
    };
    let Some((left, right)) = two(sides) else {
        return None;
    };
    Some(WrittenFormula::Atom(WrittenAtom::Equation { left, right }))
}

/// The atom of the name at the head and these arguments, where there are any.
#[tactic(auto, using(crate::proofs::FormulaEquations::formula_laws))]
fn relation(
    alloc: Global,
    head: &Form,
    args: Option<Items<WrittenTerm>>,
) -> Result<Option<WrittenFormula>, NoMemory>
    ensures { IfOk result (λ f. f ≡ relation_from (name_of (word_of head.now.node)) args) }
{
    let Some(name) = name_in(head) else {
        return Ok(None);
    };
    let Some(args) = args else {
        return Ok(None);
    };
    if args.is_empty() {
        return Ok(None);
    }
    let name = Name::new(alloc, name.as_str())?;
    Ok(Some(WrittenFormula::Atom(WrittenAtom::Relation { name, args })))
}

fn lone_formula(alloc: Global, word: &Name) -> Result<Option<WrittenFormula>, NoMemory>
    ensures { IfOk result (λ f. f ≡ word_as_formula word.now) }
{
    if !is_name(word.as_str().as_bytes()) {
        return Ok(None);
    }
    let name = Name::new(alloc, word.as_str())?;
    let args = Items::new(alloc);
    Ok(Some(WrittenFormula::Atom(WrittenAtom::Relation { name, args })))
}

/// The literal that a form is: an atom, or `(not A)`.
#[tactic(auto, unfolding(crate::specs::Shapes::literal_of))]
pub fn literal_of(
    alloc: Global,
    words: Words,
    form: &Form,
) -> Result<Option<WrittenLiteral>, NoMemory>
    ensures { IfOk result (λ l. l ≡ spelled_literal words form.now) }
{
    let Some(formula) = formula_of(alloc, words, form)? else {
        return Ok(None);
    };
    Ok(as_literal(formula))
}

#[tactic(auto, using(crate::proofs::FormulaEquations::formula_laws))]
fn as_literal(formula: WrittenFormula) -> Option<WrittenLiteral>
    ensures { result ≡ literal_at (out-WrittenFormula formula) }
{
    match formula {
        WrittenFormula::Atom(atom) => Some(WrittenLiteral {
            positive: true,
            atom,
        }),
        WrittenFormula::Not(inner) => match inner.into_inner() {
            WrittenFormula::Atom(atom) => Some(WrittenLiteral {
                positive: false,
                atom,
            }),
            _ => None,
        },
        _ => None,
    }
}

/// The only item.
#[tactic(auto, using(crate::proofs::FormulaEquations::member_laws))]
fn only<T: Drop>(items: Items<T>) -> Option<T>
    ensures { result ≡ only_in items }
{
    let mut items = items;
    let Some(last) = items.pop() else {
        return None;
    };
    if items.is_empty() { Some(last) } else { None }
}

/// The two items, where they are two.
#[tactic(auto, using(crate::proofs::FormulaEquations::member_laws))]
fn two<T: Drop>(items: Items<T>) -> Option<(T, T)>
    ensures { result ≡ two_in items }
{
    let mut items = items;
    let Some(right) = items.pop() else {
        return None;
    };
    let Some(left) = items.pop() else {
        return None;
    };
    if items.is_empty() {
        Some((left, right))
    } else {
        None
    }
}

/// The two items, each in a box, where they are two.
fn two_boxed<T: Drop>(
    alloc: Global,
    items: Items<T>,
) -> Result<Option<(Boxed<T>, Boxed<T>)>, NoMemory>
    ensures { IfOk result (λ pair. pair ≡ two_in items) }
{
    let Some((left, right)) = two(items) else {
        return Ok(None);
    };
    let left = Boxed::new(alloc, left)?;
    let right = Boxed::new(alloc, right)?;
    Ok(Some((left, right)))
}

fn stands_alone(words: Words, word: &Name) -> bool
    ensures { result ≡ may_stand words word.now }
{
    match words {
        Words::Names => is_name(word.as_str().as_bytes()),
        Words::Any => true,
    }
}
