use crate::id::TermId;
use am_term::{SortId, SymId};
use std::hash::{Hash, Hasher};

/// The head of a term, with the ids of its arguments.
#[derive(Debug, PartialEq, Eq, Drop)]
pub enum Node {
    Var { n: u32, sort: SortId },
    In { k: u32 },
    App { f: SymId, args: Vec<TermId> },
}

impl Hash for Node {
    ghost use Rattle.am_bank.specs.Input.{hashed};
    ghost use Rattle.am_bank.specs.Equal.{same_written};

    ghost hash_input = { hashed };

    ghost respects_eq = { same_written };

    fn hash<H: Hasher>(&self, state: &mut H) {
        match self {
            Node::Var { n, sort } => {
                state.write_u8(0);
                n.hash(state);
                sort.0.hash(state);
            }
            Node::In { k } => {
                state.write_u8(1);
                k.hash(state);
            }
            Node::App { f, args } => {
                state.write_u8(2);
                f.0.hash(state);
                args.hash(state);
            }
        }
    }
}
