ghost use Rattle.std.specs.Prelude.{◌≡◌, ◌<◌, ◌≤◌, ◌++◌, ◌⊎◌, [], ◌∷◌, Some, IfOk, OnErr, length, map, slice_get};
ghost use Rattle.am_bank.specs.Node.{node_shared, numbers};
ghost use Rattle.am_bank.specs.Bank.{ArgsBelow, IsBank, Grows};
ghost use Rattle.am_bank.specs.Trees.{tree};

use crate::id::TermId;
use crate::node::Node;
use am_term::{NoMemory, Term};
use indexmap::IndexSet;
use sqlite_items::Items;
use std::alloc::Global;
use std::marker::Model;

/// Distinct terms, each held once: a list of nodes of which none stands twice, and each has smaller ids
/// as arguments. Contracts see the list of the nodes.
#[derive(Drop)]
pub struct Bank {
    nodes: IndexSet<Node>,
}

impl Model for Bank {
    ghost use Rattle.std.specs.Prelude.{List, map};
    ghost use Rattle.am_bank.specs.Node.{Shared, node_shared};
    ghost use Rattle.am_bank.specs.Bank.{IsBank};

    ghost Value = { List Shared };

    ghost view = { λ b. map node_shared b.nodes.keys };

    ghost invariant = { λ b. IsBank (map node_shared b.nodes.keys) };
}

impl Bank {
    /// A bank without nodes. Takes no memory.
    pub fn new(alloc: Global) -> Bank
        ensures { result ≡ [] }
    {
        Bank {
            nodes: IndexSet::new(alloc),
        }
    }

    /// How many nodes the bank has: their ids are the numbers below it.
    pub fn len(&self) -> u64
        ensures count { result ≡ length self.now }
        ensures bank { IsBank self.now }
    {
        self.nodes.len() as u64
    }

    /// The node of an id.
    pub fn node(&self, id: TermId) -> &Node
        requires { id.0 < length self.now }
        ensures node { slice_get self.now id.0 ≡ Some (node_shared result.now) }
        ensures bank { IsBank self.now }
    {
        &self.nodes[id.0 as usize]
    }

    /// The id of a node: that of the node that the bank has, or else that of a new one behind all
    /// others. After a refusal the bank is as it was.
    #[tactic(auto, using(crate::proofs::Built::interned))]
    pub fn intern(&mut self, node: Node) -> Result<TermId, NoMemory>
        requires { ArgsBelow (length self.old) (node_shared node) }
        ensures there { IfOk result (λ id. slice_get self.new id.0 ≡ Some (node_shared node)) }
        ensures within { IfOk result (λ id. id.0 < length self.new) }
        ensures nodes { IfOk result (λ id. (self.new ≡ self.old) ⊎ ((self.new ≡ self.old ++ node_shared node ∷ [])
            × (id.0 ≡ length self.old))) }
        ensures err { OnErr result (self.new ≡ self.old) }
        ensures grows { Grows self.old self.new }
        ensures longer { length self.old ≤ length self.new }
        ensures bank { IsBank self.new }
    {
        let (index, _) = self.nodes.insert_full(node)?;
        Ok(TermId(index as u64))
    }

    /// The id of a term: each of its parts that the bank doesn't have becomes a new node behind all
    /// others, arguments before the part. After a refusal old ids stand for what they stood for.
    #[cycle(building)]
    #[tactic(auto, using(crate::proofs::Built::built))]
    pub fn build(&mut self, alloc: Global, term: &Term) -> Result<TermId, NoMemory>
        ensures tree { IfOk result (λ id. tree self.new id.0 ≡ Some term.now) }
        ensures within { IfOk result (λ id. id.0 < length self.new) }
        ensures grows { Grows self.old self.new }
        ensures longer { length self.old ≤ length self.new }
    {
        match term {
            Term::Var { n, sort } => {
                let id = self.intern(Node::Var { n: *n, sort: *sort })?;
                Ok(id)
            }
            Term::In { k } => {
                let id = self.intern(Node::In { k: *k })?;
                Ok(id)
            }
            Term::App { f, args } => {
                let args = self.build_all(alloc, args.as_slice())?;
                let id = self.intern(Node::App { f: *f, args })?;
                Ok(id)
            }
        }
    }

    // The ids of some terms.
    #[cycle(building)]
    #[tactic(auto, using(crate::proofs::Built::built))]
    fn build_all(&mut self, alloc: Global, terms: &[Term]) -> Result<Vec<TermId>, NoMemory>
        ensures trees { IfOk result (λ ids. map (tree self.new) (numbers ids.items) ≡ map Some terms.now) }
        ensures grows { Grows self.old self.new }
        ensures longer { length self.old ≤ length self.new }
    {
        let mut ids = Vec::new(alloc);
        for term in terms {
            let id = self.build(alloc, term)?;
            ids.push(id)?;
        }
        Ok(ids)
    }

    /// The term that an id stands for.
    #[tactic(auto, using(crate::proofs::Built::read))]
    pub fn term(&self, alloc: Global, id: TermId) -> Result<Term, NoMemory>
        requires { id.0 < length self.now }
        ensures { IfOk result (λ t. tree self.now id.0 ≡ Some t) }
    {
        match self.node(id) {
            Node::Var { n, sort } => Ok(Term::Var { n: *n, sort: *sort }),
            Node::In { k } => Ok(Term::In { k: *k }),
            Node::App { f, args } => {
                let mut made = Items::new(alloc);
                for arg in args {
                    made.push(self.term(alloc, *arg)?)?;
                }
                Ok(Term::App { f: *f, args: made })
            }
        }
    }
}
