//! Small banks, and one of 100,000 nodes.

use crate::{Bank, Node, TermId};
use am_term::{NoMemory, SortId, SymId, Term, same};
use sqlite_items::Items;
use std::alloc::Global;
use std::test::Fail;

// A symbol at an input and the same input again.
fn doubled(alloc: Global, f: u32, k: u32) -> Result<Term, NoMemory> {
    let mut args = Items::new(alloc);
    args.push(Term::In { k })?;
    args.push(Term::In { k })?;
    Ok(Term::App { f: SymId(f), args })
}

// The ids of two terms in one bank, and how many nodes it has then.
fn ids(alloc: Global, first: &Term, second: &Term) -> Result<(TermId, TermId, u64), NoMemory> {
    let mut bank = Bank::new(alloc);
    let first = bank.build(alloc, first)?;
    let second = bank.build(alloc, second)?;
    Ok((first, second, bank.len()))
}

// Whether a term is the same once it was built and read.
fn is_read(alloc: Global, term: &Term) -> Result<bool, NoMemory> {
    let mut bank = Bank::new(alloc);
    let id = bank.build(alloc, term)?;
    let read = bank.term(alloc, id)?;
    Ok(same(&read, term))
}

// The number of the input that was made a node.
fn input_made(alloc: Global, k: u32) -> Result<Option<u32>, NoMemory> {
    let mut bank = Bank::new(alloc);
    let id = bank.intern(Node::In { k })?;
    match bank.node(id) {
        Node::In { k } => Ok(Some(*k)),
        Node::Var { .. } => Ok(None),
        Node::App { .. } => Ok(None),
    }
}

// How many nodes a bank has in which so many symbols at two equal inputs are built twice.
fn length_of_many(alloc: Global, count: u32) -> Result<u64, NoMemory> {
    let mut bank = Bank::new(alloc);
    for _ in 0..2 {
        for k in 0..count {
            let term = doubled(alloc, 7, k)?;
            bank.build(alloc, &term)?;
        }
    }
    Ok(bank.len())
}

#[test]
fn one_id_for_one_term(rt: HostRuntime) -> Result<(), Fail> {
    let term = doubled(rt.alloc(), 7, 3)?;
    let (first, second, len) = ids(rt.alloc(), &term, &term)?;
    assert!(rt; first == second);
    assert!(rt; len == 2);
    Ok(())
}

#[test]
fn sorts_differ(rt: HostRuntime) -> Result<(), Fail> {
    let one = Term::Var {
        n: 0,
        sort: SortId(0),
    };
    let other = Term::Var {
        n: 0,
        sort: SortId(1),
    };
    let (first, second, len) = ids(rt.alloc(), &one, &other)?;
    assert!(rt; first != second);
    assert!(rt; len == 2);
    Ok(())
}

#[test]
fn read_back(rt: HostRuntime) -> Result<(), Fail> {
    let term = doubled(rt.alloc(), 7, 3)?;
    assert!(rt; is_read(rt.alloc(), &term)?);
    Ok(())
}

#[test]
fn node_read(rt: HostRuntime) -> Result<(), Fail> {
    assert!(rt; input_made(rt.alloc(), 5)? == Some(5));
    Ok(())
}

#[test]
fn many(rt: HostRuntime) -> Result<(), Fail> {
    assert!(rt; length_of_many(rt.alloc(), 50_000)? == 100_000);
    Ok(())
}
