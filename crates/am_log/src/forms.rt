ghost use Rattle.std.specs.Prelude.{◌≡◌, ◌∷◌, [], ◌++◌, IfOk, codes, map, slice_index};
ghost use Rattle.am_syntax.specs.Forms.{word_form as word_spelled, list_form as list_spelled, relation_form as relation_spelled};
ghost use Rattle.am_log.specs.Spelled.{variable_word as variable_spelled, number_form as number_spelled, term_form as term_spelled, atom_form as atom_spelled, signed_form as signed_spelled, literal_form as literal_spelled, bindings_form as with_spelled, side_form as side_spelled, path_form as path_spelled, rule_word, rule_members as members_spelled, rule_form as rule_spelled, clause_form as clause_spelled, answer_forms as answer_spelled, row_form as row_spelled};

use crate::named::{NamedAtom, NamedLiteral, NamedTerm};
use am_clause::{Rule, Side};
use am_term::{Name, NoMemory};
use am_text::{Form, FormNode};
use sqlite_items::Items;
use std::alloc::Global;

/// The form of the row with these parts, with all places 0.
#[tactic(auto, using(crate::proofs::FormSteps::form_laws))]
pub fn row_form(
    alloc: Global,
    number: u32,
    rule: &Rule,
    with: &[Items<NamedTerm>],
    literals: &[NamedLiteral],
    answer: &Option<Items<NamedTerm>>,
) -> Result<Form, NoMemory>
    ensures { IfOk result (λ f. f ≡ row_spelled
        (record { number = number; rule = rule.now; with = with.now; literals = literals.now; answer = answer.now })) }
{
    let mut members = Items::new(alloc);
    members.push(number_form(number))?;
    let rule = rule_form(alloc, rule, with)?;
    members.push(rule)?;
    let clause = clause_form(alloc, literals)?;
    members.push(clause)?;
    if let Some(terms) = answer {
        let answer = terms_under(alloc, "answer", terms.as_slice())?;
        members.push(list_form(answer))?;
    }
    Ok(list_form(members))
}

#[tactic(auto, using(crate::proofs::FormSteps::form_laws))]
fn clause_form(alloc: Global, literals: &[NamedLiteral]) -> Result<Form, NoMemory>
    ensures { IfOk result (λ f. f ≡ clause_spelled literals.now) }
{
    let mut members = Items::new(alloc);
    members.push(word_form(alloc, "or")?)?;
    for literal in literals {
        members.push(literal_form(alloc, literal)?)?;
    }
    Ok(list_form(members))
}

#[tactic(auto, using(crate::proofs::FormSteps::form_laws))]
fn rule_form(alloc: Global, rule: &Rule, withs: &[Items<NamedTerm>]) -> Result<Form, NoMemory>
    ensures { IfOk result (λ f. f ≡ rule_spelled rule.now withs.now) }
{
    let mut members = rule_members(alloc, rule)?;
    for terms in withs {
        let bound = terms_under(alloc, "with", terms.as_slice())?;
        members.push(list_form(bound))?;
    }
    Ok(list_form(members))
}

/// The word of a rule, and its numbers, its side and its path.
#[tactic(auto, using(crate::proofs::FormSteps::form_laws))]
fn rule_members(alloc: Global, rule: &Rule) -> Result<Items<Form>, NoMemory>
    ensures { IfOk result (λ fs. fs ≡ word_spelled (rule_word rule.now) ∷ members_spelled rule.now) }
{
    match rule {
        Rule::Axiom { axiom, clause } => headed_numbers(alloc, "axiom", &[*axiom, *clause]),
        Rule::Goal => headed_numbers(alloc, "goal", &[]),
        Rule::Given { k } => headed_numbers(alloc, "given", &[*k]),
        Rule::Factor { p, i, j } => headed_numbers(alloc, "factor", &[*p, *i, *j]),
        Rule::Reflex { p, i } => headed_numbers(alloc, "reflex", &[*p, *i]),
        Rule::Resolve { p, i, q, j } => headed_numbers(alloc, "resolve", &[*p, *i, *q, *j]),
        Rule::Para {
            p,
            j,
            side,
            q,
            i,
            path,
        } => replacing(alloc, "para", [*p, *j, *q, *i], *side, path.as_slice()),
        Rule::Rewrite {
            p,
            j,
            side,
            q,
            i,
            path,
        } => replacing(alloc, "rewrite", [*p, *j, *q, *i], *side, path.as_slice()),
        Rule::Close { p } => headed_numbers(alloc, "close", &[*p]),
    }
}

#[tactic(auto, using(crate::proofs::FormSteps::form_laws))]
fn headed_numbers(alloc: Global, word: &str, numbers: &[u32]) -> Result<Items<Form>, NoMemory>
    ensures { IfOk result (λ fs. fs ≡ word_spelled word.now ∷ map number_spelled numbers.now) }
{
    let mut members = Items::new(alloc);
    members.push(word_form(alloc, word)?)?;
    for number in numbers {
        members.push(number_form(*number))?;
    }
    Ok(members)
}

#[tactic(auto, using(crate::proofs::FormSteps::form_laws))]
fn path_form(alloc: Global, path: &[u32]) -> Result<Form, NoMemory>
    ensures { IfOk result (λ f. f ≡ path_spelled path.now) }
{
    let mut members = Items::new(alloc);
    for number in path {
        members.push(number_form(*number))?;
    }
    Ok(list_form(members))
}

fn side_form(alloc: Global, side: Side) -> Result<Form, NoMemory>
    ensures { IfOk result (λ f. f ≡ side_spelled side) }
{
    match side {
        Side::Left => word_form(alloc, "left"),
        Side::Right => word_form(alloc, "right"),
    }
}

#[tactic(auto, using(crate::proofs::FormSteps::form_laws))]
fn replacing(
    alloc: Global,
    word: &str,
    numbers: [u32; 4],
    side: Side,
    path: &[u32],
) -> Result<Items<Form>, NoMemory>
    ensures { IfOk result (λ fs. fs ≡ word_spelled word.now ∷ number_spelled (slice_index numbers 0) ∷ number_spelled
        (slice_index numbers 1) ∷ side_spelled side ∷ number_spelled (slice_index numbers 2) ∷ number_spelled
        (slice_index numbers 3) ∷ path_spelled path.now ∷ []) }
{
    let mut members = Items::new(alloc);
    members.push(word_form(alloc, word)?)?;
    members.push(number_form(numbers[0]))?;
    members.push(number_form(numbers[1]))?;
    members.push(side_form(alloc, side)?)?;
    members.push(number_form(numbers[2]))?;
    members.push(number_form(numbers[3]))?;
    members.push(path_form(alloc, path)?)?;
    Ok(members)
}

#[tactic(auto, using(crate::proofs::FormSteps::form_laws))]
fn literal_form(alloc: Global, literal: &NamedLiteral) -> Result<Form, NoMemory>
    ensures { IfOk result (λ f. f ≡ literal_spelled literal.now) }
{
    let atom = atom_form(alloc, &literal.atom)?;
    signed_form(alloc, literal.positive, atom)
}

#[tactic(auto, using(crate::proofs::FormSteps::form_laws))]
fn signed_form(alloc: Global, positive: bool, atom: Form) -> Result<Form, NoMemory>
    ensures { IfOk result (λ f. f ≡ signed_spelled positive atom) }
{
    if positive {
        return Ok(atom);
    }
    let mut members = Items::new(alloc);
    members.push(word_form(alloc, "not")?)?;
    members.push(atom)?;
    Ok(list_form(members))
}

#[tactic(auto, using(crate::proofs::FormSteps::form_laws))]
fn atom_form(alloc: Global, atom: &NamedAtom) -> Result<Form, NoMemory>
    ensures { IfOk result (λ f. f ≡ atom_spelled atom.now) }
{
    match atom {
        NamedAtom::Equation { left, right } => equation_form(alloc, left, right),
        NamedAtom::Relation { name, args } => relation_form(alloc, name.as_str(), args.as_slice()),
    }
}

#[tactic(auto, using(crate::proofs::FormSteps::form_laws))]
fn equation_form(alloc: Global, left: &NamedTerm, right: &NamedTerm) -> Result<Form, NoMemory>
    ensures { IfOk result (λ f. f ≡ list_spelled
        (word_spelled (codes "=") ∷ term_spelled left.now ∷ term_spelled right.now ∷ [])) }
{
    let mut members = Items::new(alloc);
    members.push(word_form(alloc, "=")?)?;
    members.push(term_form(alloc, left)?)?;
    members.push(term_form(alloc, right)?)?;
    Ok(list_form(members))
}

#[tactic(auto, using(crate::proofs::FormSteps::form_laws))]
fn relation_form(alloc: Global, name: &str, args: &[NamedTerm]) -> Result<Form, NoMemory>
    ensures { IfOk result (λ f. f ≡ relation_spelled name.now (map term_spelled args.now)) }
{
    match args {
        [] => word_form(alloc, name),
        [_, ..] => {
            let members = terms_under(alloc, name, args)?;
            Ok(list_form(members))
        }
    }
}

/// The form of a term, with all places 0.
#[cycle(term_forms)]
#[tactic(auto, using(crate::proofs::FormSteps::form_laws))]
fn term_form(alloc: Global, term: &NamedTerm) -> Result<Form, NoMemory>
    ensures { IfOk result (λ f. f ≡ term_spelled term.now) }
{
    match term {
        NamedTerm::Variable { sort, number } => variable_form(alloc, sort, *number),
        NamedTerm::Alone(name) => word_form(alloc, name.as_str()),
        NamedTerm::Headed { head, args } => {
            let members = terms_under(alloc, head.as_str(), args.as_slice())?;
            Ok(list_form(members))
        }
    }
}

/// A word, and behind it the forms of the terms.
#[cycle(term_forms)]
#[tactic(auto, using(crate::proofs::FormSteps::form_laws))]
fn terms_under(alloc: Global, head: &str, terms: &[NamedTerm]) -> Result<Items<Form>, NoMemory>
    ensures { IfOk result (λ fs. fs ≡ word_spelled head.now ∷ map term_spelled terms.now) }
{
    let mut forms = Items::new(alloc);
    forms.push(word_form(alloc, head)?)?;
    for term in terms {
        forms.push(term_form(alloc, term)?)?;
    }
    Ok(forms)
}

fn variable_form(alloc: Global, sort: &Name, number: u32) -> Result<Form, NoMemory>
    ensures { IfOk result (λ f. f ≡ word_spelled (variable_spelled sort.now number)) }
{
    let mut word = String::new(alloc);
    word.push_str(sort.as_str())?;
    word.push_str("?")?;
    word.push_str(number.to_string(alloc)?.as_str())?;
    word_form(alloc, word.as_str())
}

fn number_form(number: u32) -> Form
    ensures { result ≡ number_spelled number }
{
    Form {
        place: 0,
        node: FormNode::Number(number as i64),
    }
}

fn list_form(members: Items<Form>) -> Form
    ensures { result ≡ list_spelled members }
{
    Form {
        place: 0,
        node: FormNode::List(members),
    }
}

fn word_form(alloc: Global, word: &str) -> Result<Form, NoMemory>
    ensures { IfOk result (λ f. f ≡ word_spelled word.now) }
{
    let word = Name::new(alloc, word)?;
    Ok(Form {
        place: 0,
        node: FormNode::Word(word),
    })
}
