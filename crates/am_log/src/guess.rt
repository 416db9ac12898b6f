ghost use Rattle.std.specs.Prelude.{◌≡◌, IfOk, map, drop, slice_get, []};
ghost use Rattle.std.specs.Option.{option_copied};
ghost use Rattle.am_log.specs.Guess.{word_in, number_in, members_in, word_guess as word_guessed, guess_term as term_guessed, equation_guess as equation_guessed, guess_atom as atom_guessed, guess_literal as literal_guessed, number_nth as nth_number, members_nth as nth_members, word_nth as nth_word, side_guess as side_guessed, path_guess as path_guessed, rule_guess as rule_guessed, replacing_guess as replacing_guessed, own_members as members_own, guess_terms as terms_guessed, guess_answer as answer_guessed, row_from as row_made, guess_row as row_guessed};

use crate::named::{NamedAtom, NamedLiteral, NamedRow, NamedTerm};
use crate::numbers::{parsed, small};
use am_clause::{Rule, Side};
use am_term::{Name, NoMemory};
use am_text::{Form, FormNode};
use sqlite_items::Items;
use std::alloc::Global;

/// The row by names that the form may spell. Whether it does shows when its text is written and compared.
#[tactic(auto, unfolding(crate::specs::Guess::guess_row))]
pub fn guess_row(alloc: Global, form: &Form) -> Result<NamedRow, NoMemory>
    ensures { IfOk result (λ r. r ≡ row_guessed form.now) }
{
    let forms = members(form);
    let rule = members_nth(forms, 1);
    row_from(alloc, forms, rule)
}

#[tactic(auto, unfolding(crate::specs::Guess::row_from))]
fn row_from(alloc: Global, forms: &[Form], rule: &[Form]) -> Result<NamedRow, NoMemory>
    ensures { IfOk result (λ r. r ≡ row_made (nth_number forms.now 0)
        (rule_guessed (nth_word rule.now 0) (drop 1 rule.now)) (drop 1 rule.now) (drop 1 (nth_members forms.now 2))
        (slice_get forms.now 3)) }
{
    let number = number_nth(forms, 0);
    let behind = from(rule, 1);
    let rule = rule_guess(alloc, word_nth(rule, 0), behind)?;
    let with = lists(alloc, from(behind, own_members(&rule)))?;
    let literals = literals(alloc, from(members_nth(forms, 2), 1))?;
    let answer = answer(alloc, sqlite_items::at(forms, 3))?;
    Ok(NamedRow {
        number,
        rule,
        with,
        literals,
        answer,
    })
}

fn answer(alloc: Global, form: Option<&Form>) -> Result<Option<Items<NamedTerm>>, NoMemory>
    ensures { IfOk result (λ a. a ≡ answer_guessed (option_copied form.entry)) }
{
    match form {
        None => Ok(None),
        Some(form) => {
            let terms = terms_under(alloc, form)?;
            Ok(Some(terms))
        }
    }
}

#[tactic(auto, using(crate::proofs::GuessSteps::guess_laws))]
fn lists(alloc: Global, forms: &[Form]) -> Result<Items<Items<NamedTerm>>, NoMemory>
    ensures { IfOk result (λ ls. ls ≡ map terms_guessed forms.now) }
{
    let mut made = Items::new(alloc);
    for form in forms {
        made.push(terms_under(alloc, form)?)?;
    }
    Ok(made)
}

#[tactic(auto, using(crate::proofs::GuessSteps::guess_laws))]
fn literals(alloc: Global, forms: &[Form]) -> Result<Items<NamedLiteral>, NoMemory>
    ensures { IfOk result (λ ls. ls ≡ map literal_guessed forms.now) }
{
    let mut made = Items::new(alloc);
    for form in forms {
        made.push(guess_literal(alloc, form)?)?;
    }
    Ok(made)
}

/// The rule of this word, by what stands behind that.
#[tactic(auto, unfolding(crate::specs::Guess::rule_guess))]
fn rule_guess(alloc: Global, word: &str, forms: &[Form]) -> Result<Rule, NoMemory>
    ensures { IfOk result (λ r. r ≡ rule_guessed word.now forms.now) }
{
    let first = number_nth(forms, 0);
    let second = number_nth(forms, 1);
    if word == "axiom" {
        Ok(Rule::Axiom {
            axiom: first,
            clause: second,
        })
    } else if word == "given" {
        Ok(Rule::Given { k: first })
    } else if word == "factor" {
        Ok(Rule::Factor {
            p: first,
            i: second,
            j: number_nth(forms, 2),
        })
    } else if word == "reflex" {
        Ok(Rule::Reflex {
            p: first,
            i: second,
        })
    } else if word == "resolve" {
        Ok(Rule::Resolve {
            p: first,
            i: second,
            q: number_nth(forms, 2),
            j: number_nth(forms, 3),
        })
    } else {
        replacing_guess(alloc, word, forms)
    }
}

// The rule of this word, if it is one that replaces a part, or one of the last two.
fn replacing_guess(alloc: Global, word: &str, forms: &[Form]) -> Result<Rule, NoMemory>
    ensures { IfOk result (λ r. r ≡ replacing_guessed word.now forms.now) }
{
    let first = number_nth(forms, 0);
    let second = number_nth(forms, 1);
    let side = side_guess(word_nth(forms, 2));
    let path = path_guess(alloc, members_nth(forms, 5))?;
    if word == "para" {
        Ok(Rule::Para {
            p: first,
            j: second,
            side,
            q: number_nth(forms, 3),
            i: number_nth(forms, 4),
            path,
        })
    } else if word == "rewrite" {
        Ok(Rule::Rewrite {
            p: first,
            j: second,
            side,
            q: number_nth(forms, 3),
            i: number_nth(forms, 4),
            path,
        })
    } else if word == "close" {
        Ok(Rule::Close { p: first })
    } else {
        Ok(Rule::Goal)
    }
}

fn side_guess(word: &str) -> Side
    ensures { result ≡ side_guessed word.now }
{
    if word == "left" {
        Side::Left
    } else {
        Side::Right
    }
}

#[tactic(auto, using(crate::proofs::GuessSteps::guess_laws), unfolding(crate::specs::Guess::path_guess))]
fn path_guess(alloc: Global, forms: &[Form]) -> Result<Items<u32>, NoMemory>
    ensures { IfOk result (λ p. p ≡ path_guessed forms.now) }
{
    let mut made = Items::new(alloc);
    for form in forms {
        made.push(number(form))?;
    }
    Ok(made)
}

fn own_members(rule: &Rule) -> usize
    ensures { result ≡ members_own rule.now }
{
    match rule {
        Rule::Axiom { .. } => 2,
        Rule::Goal => 0,
        Rule::Given { .. } => 1,
        Rule::Factor { .. } => 3,
        Rule::Reflex { .. } => 2,
        Rule::Resolve { .. } => 4,
        Rule::Para { .. } => 6,
        Rule::Rewrite { .. } => 6,
        Rule::Close { .. } => 1,
    }
}

#[tactic(auto, unfolding(crate::specs::Guess::number_nth))]
fn number_nth(forms: &[Form], k: usize) -> u32
    ensures { result ≡ nth_number forms.now k }
{
    match sqlite_items::at(forms, k) {
        Some(form) => number(form),
        None => 0,
    }
}

#[tactic(auto, unfolding(crate::specs::Guess::members_nth))]
fn members_nth(forms: &[Form], k: usize) -> &[Form]
    ensures { result.now ≡ nth_members forms.now k }
{
    match sqlite_items::at(forms, k) {
        Some(form) => members(form),
        None => &[],
    }
}

#[tactic(auto, unfolding(crate::specs::Guess::word_nth))]
fn word_nth(forms: &[Form], k: usize) -> &str
    ensures { result.now ≡ nth_word forms.now k }
{
    match sqlite_items::at(forms, k) {
        Some(form) => word(form),
        None => "",
    }
}

/// What stands from this place on.
fn from(forms: &[Form], n: usize) -> &[Form]
    ensures { result.now ≡ drop n forms.now }
{
    if n <= forms.len() { &forms[n..] } else { &[] }
}

/// The literal that the form may spell.
#[tactic(auto, unfolding(crate::specs::Guess::guess_literal))]
fn guess_literal(alloc: Global, form: &Form) -> Result<NamedLiteral, NoMemory>
    ensures { IfOk result (λ l. l ≡ literal_guessed form.now) }
{
    match members(form) {
        [head, atom, ..] => {
            if word(head) == "not" {
                signed(false, guess_atom(alloc, atom)?)
            } else {
                signed(true, guess_atom(alloc, form)?)
            }
        }
        [_] => signed(true, guess_atom(alloc, form)?),
        [] => signed(true, guess_atom(alloc, form)?),
    }
}

fn signed(positive: bool, atom: NamedAtom) -> Result<NamedLiteral, NoMemory>
    ensures { IfOk result (λ l. l ≡ record { positive = positive; atom = atom }) }
{
    Ok(NamedLiteral { positive, atom })
}

/// The atom that the form may spell.
#[tactic(auto, unfolding(crate::specs::Guess::guess_atom))]
fn guess_atom(alloc: Global, form: &Form) -> Result<NamedAtom, NoMemory>
    ensures { IfOk result (λ a. a ≡ atom_guessed form.now) }
{
    match members(form) {
        [] => {
            let name = Name::new(alloc, word(form))?;
            let args = Items::new(alloc);
            Ok(NamedAtom::Relation { name, args })
        }
        [head, behind @ ..] => {
            if word(head) == "=" {
                return equation(alloc, behind);
            }
            let name = Name::new(alloc, word(head))?;
            let args = guess_all(alloc, behind)?;
            Ok(NamedAtom::Relation { name, args })
        }
    }
}

fn equation(alloc: Global, sides: &[Form]) -> Result<NamedAtom, NoMemory>
    ensures { IfOk result (λ a. a ≡ equation_guessed sides.now) }
{
    match sides {
        [left, right, ..] => {
            let left = guess_term(alloc, left)?;
            let right = guess_term(alloc, right)?;
            Ok(NamedAtom::Equation { left, right })
        }
        [_] => Ok(no_atom(alloc)),
        [] => Ok(no_atom(alloc)),
    }
}

fn no_atom(alloc: Global) -> NamedAtom
    ensures { result ≡ equation_guessed [] }
{
    NamedAtom::Relation {
        name: Name::empty(alloc),
        args: Items::new(alloc),
    }
}

/// The terms behind the head of a list.
#[tactic(auto, unfolding(crate::specs::Guess::guess_terms))]
fn terms_under(alloc: Global, form: &Form) -> Result<Items<NamedTerm>, NoMemory>
    ensures { IfOk result (λ ts. ts ≡ terms_guessed form.now) }
{
    guess_all(alloc, from(members(form), 1))
}

/// The term that the form may spell.
#[cycle(guessing_terms)]
#[tactic(auto, using(crate::proofs::GuessSteps::guess_laws))]
fn guess_term(alloc: Global, form: &Form) -> Result<NamedTerm, NoMemory>
    ensures { IfOk result (λ t. t ≡ term_guessed form.now) }
{
    match &form.node {
        FormNode::Word(word) => guess_word(alloc, word),
        FormNode::Number(_) => Ok(NamedTerm::Alone(Name::empty(alloc))),
        FormNode::Text(_) => Ok(NamedTerm::Alone(Name::empty(alloc))),
        FormNode::List(members) => match members.as_slice() {
            [] => Ok(NamedTerm::Alone(Name::empty(alloc))),
            [head, args @ ..] => {
                let args = guess_all(alloc, args)?;
                let head = Name::new(alloc, word(head))?;
                Ok(NamedTerm::Headed { head, args })
            }
        },
    }
}

#[cycle(guessing_terms)]
#[tactic(auto, using(crate::proofs::GuessSteps::guess_laws))]
fn guess_all(alloc: Global, forms: &[Form]) -> Result<Items<NamedTerm>, NoMemory>
    ensures { IfOk result (λ ts. ts ≡ map term_guessed forms.now) }
{
    let mut made = Items::new(alloc);
    for form in forms {
        made.push(guess_term(alloc, form)?)?;
    }
    Ok(made)
}

fn guess_word(alloc: Global, word: &Name) -> Result<NamedTerm, NoMemory>
    ensures { IfOk result (λ t. t ≡ word_guessed word.now) }
{
    match word.as_str().split_once('?') {
        Some((sort, digits)) => {
            let number = parsed(digits);
            let sort = Name::new(alloc, sort)?;
            Ok(NamedTerm::Variable { sort, number })
        }
        None => Ok(NamedTerm::Alone(Name::new(alloc, word.as_str())?)),
    }
}

/// The word that the form is; empty where it is something else.
#[tactic(auto, using(crate::proofs::GuessSteps::form_laws))]
fn word(form: &Form) -> &str
    ensures { result.now ≡ word_in form.now }
{
    match &form.node {
        FormNode::Word(word) => word.as_str(),
        FormNode::Number(_) => "",
        FormNode::Text(_) => "",
        FormNode::List(_) => "",
    }
}

/// The number below 2^32 that the form is; 0 where it is something else.
#[tactic(auto, using(crate::proofs::GuessSteps::form_laws))]
fn number(form: &Form) -> u32
    ensures { result ≡ number_in form.now }
{
    match &form.node {
        FormNode::Word(_) => 0,
        FormNode::Number(number) => small(*number),
        FormNode::Text(_) => 0,
        FormNode::List(_) => 0,
    }
}

/// The members of the list that the form is; none where it is something else.
#[tactic(auto, using(crate::proofs::GuessSteps::form_laws))]
fn members(form: &Form) -> &[Form]
    ensures { result.now ≡ members_in form.now }
{
    match &form.node {
        FormNode::Word(_) => &[],
        FormNode::Number(_) => &[],
        FormNode::Text(_) => &[],
        FormNode::List(members) => members.as_slice(),
    }
}
