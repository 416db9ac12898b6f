ghost use Rattle.std.specs.Prelude.{◌≡◌, ◌<◌, ◌++◌, [], ◌∷◌, IfOk, OnOk, length, map, option_copied, set, if◌then◌else◌};
ghost use Rattle.am_term.specs.Place.{member, replaced, with_member as is_with_member};
ghost use Rattle.am_rules.specs.Parts.{literal_under};
ghost use Rattle.am_rules.specs.Replacing.{other_of as is_other_of, with_term as is_with_term, with_put as is_with_part, put_part as is_put_part, changed, put_instance, put_instances};
ghost use Rattle.am_term.specs.Parts.{parts_of, place_in as is_part_of};
ghost use Rattle.am_clause.specs.Rules.{side_of as is_side_of};

use crate::instancing::instance_of_literal;
use am_clause::Side;
use am_term::{Atom, Literal, NoMemory, Term, at, copies, copy, copy_atom};
use sqlite_items::Items;
use std::alloc::Global;

/// A side of an equation.
pub fn side_of(atom: &Atom, side: Side) -> Option<&Term>
    ensures { option_copied result ≡ is_side_of side atom.now }
{
    match atom {
        Atom::Rel { .. } => None,
        Atom::Eq { left, right } => match side {
            Side::Left => Some(left),
            Side::Right => Some(right),
        },
    }
}

/// The other side.
pub fn other_of(atom: &Atom, side: Side) -> Option<&Term>
    ensures { option_copied result ≡ is_other_of side atom.now }
{
    match atom {
        Atom::Rel { .. } => None,
        Atom::Eq { left, right } => match side {
            Side::Left => Some(right),
            Side::Right => Some(left),
        },
    }
}

// The k-th term of an atom, from 1.
#[tactic(auto, using(crate::proofs::Walks::replacing))]
fn term_of(atom: &Atom, k: u32) -> Option<&Term>
    ensures { option_copied result ≡ member (parts_of atom.now) k }
{
    match atom {
        Atom::Rel { args, .. } => {
            if k == 0 {
                return None;
            }
            args.get(k as usize - 1)
        }
        Atom::Eq { left, right } => {
            if k == 1 {
                return Some(left);
            }
            if k == 2 {
                return Some(right);
            }
            None
        }
    }
}

/// The part at a path, whose first number names an argument or a side.
#[tactic(auto, using(crate::proofs::Walks::replacing))]
pub fn part_of<'a>(atom: &'a Atom, path: &[u32]) -> Option<&'a Term>
    ensures { option_copied result ≡ is_part_of path.now atom.now }
{
    match path {
        [] => None,
        [k, rest @ ..] => match term_of(atom, *k) {
            Some(term) => at(term, rest),
            None => None,
        },
    }
}

// The atom with its k-th term replaced.
#[tactic(auto, using(crate::proofs::Walks::replacing))]
fn with_term(alloc: Global, atom: &Atom, k: u32, term: Term) -> Result<Atom, NoMemory>
    ensures { IfOk result (λ a. a ≡ is_with_term atom.now k term) }
{
    match atom {
        Atom::Rel { r, args } => {
            let args = with_member(alloc, args.as_slice(), k, term)?;
            Ok(Atom::Rel { r: *r, args })
        }
        Atom::Eq { left, right } => {
            if k == 1 {
                let right = copy(alloc, right)?;
                return Ok(Atom::Eq { left: term, right });
            }
            let left = copy(alloc, left)?;
            Ok(Atom::Eq { left, right: term })
        }
    }
}

#[tactic(auto, using(crate::proofs::Walks::replacing))]
fn with_member(alloc: Global, terms: &[Term], k: u32, term: Term) -> Result<Items<Term>, NoMemory>
    ensures { IfOk result (λ ts. ts ≡ is_with_member terms.now k term) }
{
    if k == 0 || k as usize > terms.len() {
        return copies(alloc, terms);
    }
    copies_around(alloc, terms, k as usize - 1, term)
}

// The terms with the one at a place, from 0, replaced. Only the others are copied.
#[tactic(auto, using(crate::proofs::Around::splitting))]
fn copies_around(
    alloc: Global,
    terms: &[Term],
    i: usize,
    term: Term,
) -> Result<Items<Term>, NoMemory>
    requires { i < length terms.now }
    ensures { IfOk result (λ ts. ts ≡ set terms.now i term) }
{
    let mut made = copies(alloc, &terms[..i])?;
    made.push(term)?;
    let behind = copies(alloc, &terms[i + 1..])?;
    made.append(behind)?;
    Ok(made)
}

// The term with another one at a path, and none where the path leaves the term. Only what stays is copied.
#[tactic(auto, using(am_term::proofs::Walks::places))]
fn put_below(alloc: Global, term: &Term, path: &[u32], new: &Term) -> Result<Option<Term>, NoMemory>
    ensures { IfOk result (λ t. t ≡ replaced new.now path.now term.now) }
{
    let Some((step, rest)) = path.split_first() else {
        return Ok(Some(copy(alloc, new)?));
    };
    match term {
        Term::Var { .. } => Ok(None),
        Term::In { .. } => Ok(None),
        Term::App { f, args } => {
            if *step == 0 || *step as usize > args.len() {
                return Ok(None);
            }
            let i = *step as usize - 1;
            let Some(inner) = put_below(alloc, &args.as_slice()[i], rest, new)? else {
                return Ok(None);
            };
            let args = copies_around(alloc, args.as_slice(), i, inner)?;
            Ok(Some(Term::App { f: *f, args }))
        }
    }
}

#[tactic(auto, using(crate::proofs::Walks::replacing))]
fn with_part(alloc: Global, atom: &Atom, path: &[u32], new: &Term) -> Result<Atom, NoMemory>
    ensures { IfOk result (λ a. a ≡ is_with_part new.now path.now atom.now) }
{
    match path {
        [] => copy_atom(alloc, atom),
        [k, rest @ ..] => match term_of(atom, *k) {
            Some(term) => match put_below(alloc, term, rest, new)? {
                Some(put) => with_term(alloc, atom, *k, put),
                None => copy_atom(alloc, atom),
            },
            None => copy_atom(alloc, atom),
        },
    }
}

// The literal with another part, if there is one to put.
fn put_part(
    alloc: Global,
    literal: Literal,
    path: &[u32],
    new: &Option<Term>,
) -> Result<Literal, NoMemory>
    ensures { IfOk result (λ l. l ≡ is_put_part new.now path.now literal) }
{
    match new {
        Some(new) => {
            let atom = with_part(alloc, &literal.atom, path, new)?;
            Ok(Literal {
                positive: literal.positive,
                atom,
            })
        }
        None => Ok(literal),
    }
}

fn put_part_if(
    alloc: Global,
    is_there: bool,
    literal: Literal,
    path: &[u32],
    new: &Option<Term>,
) -> Result<Literal, NoMemory>
    ensures { IfOk result (λ l. l ≡ (if is_there then is_put_part new.now path.now literal else literal)) }
{
    if is_there {
        return put_part(alloc, literal, path, new);
    }
    Ok(literal)
}

// One more literal's instance, with another part if it is there.
#[tactic(auto, unfolding(crate::specs::Replacing::put_instance))]
fn add_changed(
    alloc: Global,
    made: &mut Items<Literal>,
    is_there: bool,
    literal: &Literal,
    with: &[Term],
    path: &[u32],
    new: &Option<Term>,
) -> Result<(), NoMemory>
    ensures { OnOk result (made.new ≡ made.old ++ put_instance is_there new.now path.now with.now literal.now ∷ []) }
{
    let instance = instance_of_literal(alloc, literal, with)?;
    made.push(put_part_if(alloc, is_there, instance, path, new)?)?;
    Ok(())
}

/// The instances of the literals, the i-th with another part at the path.
#[tactic(auto, unfolding(crate::specs::Replacing::put_instances))]
pub fn instances_changed(
    alloc: Global,
    literals: &[Literal],
    with: &[Term],
    i: u32,
    path: &[u32],
    new: &Option<Term>,
) -> Result<Items<Literal>, NoMemory>
    ensures { IfOk result (λ ls. ls ≡ changed i (is_put_part new.now path.now)
        (map (literal_under with.now) literals.now)) }
{
    instances_put(alloc, literals, with, i, path, new)
}

// The same, as the loop goes.
#[tactic(auto, using(crate::proofs::Walks::changing))]
fn instances_put(
    alloc: Global,
    literals: &[Literal],
    with: &[Term],
    i: u32,
    path: &[u32],
    new: &Option<Term>,
) -> Result<Items<Literal>, NoMemory>
    ensures { IfOk result (λ ls. ls ≡ put_instances i new.now path.now with.now literals.now) }
{
    let mut made = Items::new(alloc);
    let mut rest = literals;
    let mut left = i;
    'all: while let [literal, behind @ ..] = rest {
        let is_there = left == 1;
        add_changed(alloc, &mut made, is_there, literal, with, path, new)?;
        left = left.saturating_sub(1);
        rest = behind;
    }
    Ok(made)
}
