//! Terms, literals and clauses of forms. What is no form of one is read as something anyway.

use crate::signature::{sort_named, symbol_named};
use crate::spelling::{members, word};
use am_clause::Clause;
use am_term::{Atom, Literal, NoMemory, Signature, Term};
use am_text::{Form, FormNode};
use sqlite_items::Items;
use std::alloc::Global;

/// The symbols' names, and where memory comes from.
#[derive(Clone, Copy)]
pub struct Reader<'a> {
    pub alloc: Global,
    pub sig: &'a Signature,
}

impl Reader<'_> {
    /// A variable `SORT?N`, an input `in?N`, a constant `c`, or a symbol at its arguments `(f t ..)`.
    #[cycle(terms)]
    pub fn term(&self, form: &Form) -> Result<Term, NoMemory> {
        match &form.node {
            FormNode::List(members) => match members.as_slice() {
                [] => Ok(self.leaf("")),
                [head, rest @ ..] => {
                    let args = self.terms(rest)?;
                    let f = symbol_named(self.sig, word(head));
                    Ok(Term::App { f, args })
                }
            },
            FormNode::Word(word) => Ok(self.leaf(word.as_str())),
            _ => Ok(self.leaf("")),
        }
    }

    /// Each of the terms.
    #[cycle(terms)]
    pub fn terms(&self, forms: &[Form]) -> Result<Items<Term>, NoMemory> {
        let mut terms = Items::new(self.alloc);
        for form in forms {
            terms.push(self.term(form)?)?;
        }
        Ok(terms)
    }

    fn leaf(&self, word: &str) -> Term {
        let Some((sort, number)) = word.split_once('?') else {
            return Term::App {
                f: symbol_named(self.sig, word),
                args: Items::new(self.alloc),
            };
        };
        let n = number.parse::<u32>().unwrap_or(0);
        if sort == "in" {
            return Term::In { k: n };
        }
        let sort = sort_named(sort);
        Term::Var { n, sort }
    }

    /// An equation `(= s t)`, or a relation at its arguments, `(r t ..)` or `r`.
    pub fn atom(&self, form: &Form) -> Result<Atom, NoMemory> {
        match members(form) {
            [head, left, right] if word(head) == "=" => {
                let left = self.term(left)?;
                let right = self.term(right)?;
                Ok(Atom::Eq { left, right })
            }
            [] => self.relation(form, &[]),
            [head, args @ ..] => self.relation(head, args),
        }
    }

    fn relation(&self, head: &Form, args: &[Form]) -> Result<Atom, NoMemory> {
        let r = symbol_named(self.sig, word(head));
        let args = self.terms(args)?;
        Ok(Atom::Rel { r, args })
    }

    /// An atom, or `(not ATOM)`.
    pub fn literal(&self, form: &Form) -> Result<Literal, NoMemory> {
        let (positive, atom) = match members(form) {
            [head, inner] if word(head) == "not" => (false, inner),
            _ => (true, form),
        };
        let atom = self.atom(atom)?;
        Ok(Literal { positive, atom })
    }

    /// Each of the literals.
    pub fn literals(&self, forms: &[Form]) -> Result<Items<Literal>, NoMemory> {
        let mut literals = Items::new(self.alloc);
        for form in forms {
            literals.push(self.literal(form)?)?;
        }
        Ok(literals)
    }

    /// A list of literals, and behind it the list of an answer's terms, if there is one.
    pub fn clause(&self, forms: &[Form]) -> Result<Clause, NoMemory> {
        let (literals, answer) = match forms {
            [literals, answer, ..] => (members(literals), Some(self.terms(members(answer))?)),
            [literals] => (members(literals), None),
            [] => (forms, None),
        };
        let literals = self.literals(literals)?;
        Ok(Clause { literals, answer })
    }
}
