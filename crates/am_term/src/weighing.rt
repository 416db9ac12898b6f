ghost use Rattle.std.specs.Prelude.{◌≡◌, ◌+◌, ◌≤◌, min};
ghost use Rattle.am_term.specs.Weight.{nodes};

use crate::term::Term;

/// The number of nodes of a term, or `cap + 1` where there are more than `cap`. Takes no memory.
#[tactic(auto, using(crate::proofs::Walks::weights))]
pub fn weight(term: &Term, cap: u32) -> u32
    requires { cap ≤ 1000000 }
    ensures { result ≡ min (nodes term.now) (cap + 1) }
{
    match term {
        Term::Var { .. } => 1,
        Term::In { .. } => 1,
        Term::App { args, .. } => {
            let mut total: u32 = 1;
            for arg in args.as_slice() {
                total = (total + weight(arg, cap)).min(cap + 1);
            }
            total
        }
    }
}
