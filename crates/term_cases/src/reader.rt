//! Terms, literals, formulas and clauses of forms. What is no form of one is read as something anyway.

use crate::signature::{sort_named, symbol_named};
use crate::spelling::{members, number, word};
use am_clause::Clause;
use am_term::{Atom, Formula, Literal, NoMemory, Signature, Term, copy};
use am_text::{Form, FormNode};
use sqlite_items::{Boxed, Items};
use std::alloc::Global;

/// The symbols' names, and where memory comes from.
#[derive(Clone, Copy)]
pub struct Reader<'a> {
    pub alloc: Global,
    pub sig: &'a Signature,
}

impl Reader<'_> {
    /// A variable `SORT?N`, an input `in?N`, a constant `c`, or a symbol at its arguments `(f t ..)`;
    /// `(twice f N t)` is `(f s s)` with `(twice f N-1 t)` as `s`, and the term where N is 0.
    #[cycle(terms)]
    pub fn term(&self, form: &Form) -> Result<Term, NoMemory> {
        match &form.node {
            FormNode::List(members) => match members.as_slice() {
                [] => Ok(self.leaf("")),
                [head, rest @ ..] => {
                    let args = self.terms(rest)?;
                    self.applied(word(head), rest, args)
                }
            },
            FormNode::Word(word) => Ok(self.leaf(word.as_str())),
            _ => Ok(self.leaf("")),
        }
    }

    /// Each of the terms.
    #[cycle(terms)]
    pub fn terms(&self, forms: &[Form]) -> Result<Items<Term>, NoMemory> {
        let mut terms = Items::new(self.alloc);
        for form in forms {
            terms.push(self.term(form)?)?;
        }
        Ok(terms)
    }

    fn leaf(&self, word: &str) -> Term {
        let Some((sort, number)) = word.split_once('?') else {
            return Term::App {
                f: symbol_named(self.sig, word),
                args: Items::new(self.alloc),
            };
        };
        let n = number.parse::<u32>().unwrap_or(0);
        if sort == "in" {
            return Term::In { k: n };
        }
        let sort = sort_named(sort);
        Term::Var { n, sort }
    }

    fn applied(&self, head: &str, rest: &[Form], args: Items<Term>) -> Result<Term, NoMemory> {
        if let ("twice", [f, count, _]) = (head, rest) {
            return self.doubled(word(f), number(count), args);
        }
        let f = symbol_named(self.sig, head);
        Ok(Term::App { f, args })
    }

    // The last of the terms in a symbol's two places, so many times.
    fn doubled(&self, f: &str, count: u32, terms: Items<Term>) -> Result<Term, NoMemory> {
        let mut rest = terms;
        let mut term = rest.pop().unwrap_or(Term::In { k: 0 });
        for _ in 0..count {
            let mut args = Items::new(self.alloc);
            args.push(copy(self.alloc, &term)?)?;
            args.push(term)?;
            let f = symbol_named(self.sig, f);
            term = Term::App { f, args };
        }
        Ok(term)
    }

    /// An equation `(= s t)`, or a relation at its arguments, `(r t ..)` or `r`.
    pub fn atom(&self, form: &Form) -> Result<Atom, NoMemory> {
        match members(form) {
            [head, left, right] if word(head) == "=" => {
                let left = self.term(left)?;
                let right = self.term(right)?;
                Ok(Atom::Eq { left, right })
            }
            [] => self.relation(form, &[]),
            [head, args @ ..] => self.relation(head, args),
        }
    }

    fn relation(&self, head: &Form, args: &[Form]) -> Result<Atom, NoMemory> {
        let r = symbol_named(self.sig, word(head));
        let args = self.terms(args)?;
        Ok(Atom::Rel { r, args })
    }

    /// An atom, or `(not ATOM)`.
    pub fn literal(&self, form: &Form) -> Result<Literal, NoMemory> {
        let (positive, atom) = match members(form) {
            [head, inner] if word(head) == "not" => (false, inner),
            _ => (true, form),
        };
        let atom = self.atom(atom)?;
        Ok(Literal { positive, atom })
    }

    /// Each of the literals.
    pub fn literals(&self, forms: &[Form]) -> Result<Items<Literal>, NoMemory> {
        let mut literals = Items::new(self.alloc);
        for form in forms {
            literals.push(self.literal(form)?)?;
        }
        Ok(literals)
    }

    /// A list of literals, and behind it the list of an answer's terms, if there is one.
    pub fn clause(&self, forms: &[Form]) -> Result<Clause, NoMemory> {
        let (literals, answer) = match forms {
            [literals, answer, ..] => (members(literals), Some(self.terms(members(answer))?)),
            [literals] => (members(literals), None),
            [] => (forms, None),
        };
        let literals = self.literals(literals)?;
        Ok(Clause { literals, answer })
    }

    /// An atom, or `not`, `and`, `or`, `=>` or `<=>` at formulas.
    #[cycle(formulas)]
    pub fn formula(&self, form: &Form) -> Result<Formula, NoMemory> {
        match &form.node {
            FormNode::List(members) => match members.as_slice() {
                [head, parts @ ..] if is_connective(word(head)) => {
                    let parts = self.formulas(parts)?;
                    self.joined(word(head), parts)
                }
                _ => Ok(Formula::Atom(self.atom(form)?)),
            },
            _ => Ok(Formula::Atom(self.atom(form)?)),
        }
    }

    #[cycle(formulas)]
    fn formulas(&self, forms: &[Form]) -> Result<Items<Formula>, NoMemory> {
        let mut formulas = Items::new(self.alloc);
        for form in forms {
            formulas.push(self.formula(form)?)?;
        }
        Ok(formulas)
    }

    // The formula of a connective at the parts, at the last ones where it takes one or two.
    fn joined(&self, head: &str, parts: Items<Formula>) -> Result<Formula, NoMemory> {
        match head {
            "and" => Ok(Formula::And(parts)),
            "or" => Ok(Formula::Or(parts)),
            "not" => self.negated(parts),
            _ => self.paired(head, parts),
        }
    }

    fn negated(&self, parts: Items<Formula>) -> Result<Formula, NoMemory> {
        let mut rest = parts;
        let inner = self.last(&mut rest);
        Ok(Formula::Not(Boxed::new(self.alloc, inner)?))
    }

    fn paired(&self, head: &str, parts: Items<Formula>) -> Result<Formula, NoMemory> {
        let mut rest = parts;
        let right = self.last(&mut rest);
        let left = self.last(&mut rest);
        let right = Boxed::new(self.alloc, right)?;
        let left = Boxed::new(self.alloc, left)?;
        if head == "=>" {
            return Ok(Formula::Implies(left, right));
        }
        Ok(Formula::Iff(left, right))
    }

    fn last(&self, parts: &mut Items<Formula>) -> Formula {
        match parts.pop() {
            Some(formula) => formula,
            None => Formula::Or(Items::new(self.alloc)),
        }
    }
}

fn is_connective(word: &str) -> bool {
    word == "and" || word == "or" || word == "not" || word == "=>" || word == "<=>"
}
