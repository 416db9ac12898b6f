ghost use Rattle.std.specs.Prelude.{◌≡◌};
ghost use Rattle.am_unify.specs.Occurrence.{number_occurs as is_standing};

use am_term::Term;

// Whether a variable of this number occurs in the term.
#[tactic(auto, using(crate::proofs::Walks::occurring))]
pub fn number_occurs(n: u32, term: &Term) -> bool
    ensures { result ≡ is_standing n term.now }
{
    match term {
        Term::Var { n: m, .. } => n == *m,
        Term::In { .. } => false,
        Term::App { args, .. } => {
            for arg in args.as_slice() {
                if number_occurs(n, arg) {
                    return true;
                }
            }
            false
        }
    }
}
