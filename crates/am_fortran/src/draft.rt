ghost use Rattle.std.specs.Prelude.{◌≡◌, ◌∷◌, ◌++◌, [], IfOk, MatchOption, true, false};
ghost use Rattle.std.specs.List.{list_all};
ghost use Rattle.am_fortran.specs.Items.{is_item};
ghost use Rattle.am_fortran.specs.Drafts.{draft_items, is_out, no_statements, is_head, declaration_item, executable_item, end_item};
ghost use Rattle.am_fortran.specs.Units.{IsUnit, unit_items};

use crate::item::Item;
use crate::statement::{Decl, Statement};
use crate::unit::Unit;
use am_term::{Name, NoMemory};
use sqlite_items::Items;
use std::alloc::Global;

/// What was read of a unit: its head, its declarations and statements so far, and whether its end
/// has come.
#[derive(Drop)]
pub struct Draft {
    pub name: Name,
    pub dummies: Items<Name>,
    pub declarations: Items<Decl>,
    pub statements: Items<Statement>,
    pub ended: bool,
}

/// An item that the first group of some bytes spells, and how many bytes and lines the group has.
#[derive(Drop)]
pub struct Found {
    pub item: Item,
    pub end: usize,
    pub lines: usize,
}

/// What was read of a unit, up to a place in its text, and the line that begins there.
#[derive(Drop)]
pub struct Progress {
    pub draft: Draft,
    pub at: usize,
    pub line: u32,
}

impl Draft {
    /// The draft of a head alone, or `None` where the item is no head.
    #[tactic(auto, unfolding(crate::specs::Drafts::draft_items))]
    pub fn first(alloc: Global, item: Item) -> Option<Draft>
        ensures { MatchOption result (is_head item ≡ false) (λ draft. draft_items draft ≡ item ∷ []) }
    {
        match item {
            Item::Head { name, dummies } => Some(Draft {
                name,
                dummies,
                declarations: Items::new(alloc),
                statements: Items::new(alloc),
                ended: false,
            }),
            Item::Declaration(_) => None,
            Item::Executable(_) => None,
            Item::End => None,
        }
    }

    /// The draft with one more item, or `None` where the item can't stand there.
    pub fn with_item(self, item: Item) -> Result<Option<Draft>, NoMemory>
        ensures { IfOk result (λ next. MatchOption next (is_out self item ≡ true) (λ draft.
            draft_items draft ≡ draft_items self ++ item ∷ [])) }
    {
        if self.ended {
            return Ok(None);
        }
        match item {
            Item::Head { .. } => Ok(None),
            Item::Declaration(declaration) => self.with_declaration(declaration),
            Item::Executable(statement) => Ok(Some(self.with_statement(statement)?)),
            Item::End => Ok(Some(self.with_end())),
        }
    }

    fn with_declaration(self, declaration: Decl) -> Result<Option<Draft>, NoMemory>
        requires { self.ended ≡ false }
        ensures { IfOk result (λ next. MatchOption next (no_statements self.statements ≡ false) (λ draft.
            draft_items draft ≡ draft_items self ++ declaration_item declaration ∷ [])) }
    {
        let mut draft = self;
        if !draft.statements.is_empty() {
            return Ok(None);
        }
        draft.declarations.push(declaration)?;
        Ok(Some(draft))
    }

    fn with_statement(self, statement: Statement) -> Result<Draft, NoMemory>
        requires { self.ended ≡ false }
        ensures { IfOk result (λ draft. draft_items draft ≡ draft_items self ++ executable_item statement ∷ []) }
    {
        let mut draft = self;
        draft.statements.push(statement)?;
        Ok(draft)
    }

    fn with_end(self) -> Draft
        requires { self.ended ≡ false }
        ensures { draft_items result ≡ draft_items self ++ end_item ∷ [] }
    {
        let mut draft = self;
        draft.ended = true;
        draft
    }

    /// The unit, or `None` where its end hasn't come.
    pub fn finish(self) -> Option<Unit>
        requires { list_all is_item (draft_items self) ≡ true }
        ensures { MatchOption result (self.ended ≡ false) (λ unit. IsUnit unit × (unit_items unit ≡ draft_items self)) }
    {
        if !self.ended {
            return None;
        }
        let Draft {
            name,
            dummies,
            declarations,
            statements,
            ..
        } = self;
        Some(Unit {
            name,
            dummies,
            declarations,
            statements,
        })
    }
}
