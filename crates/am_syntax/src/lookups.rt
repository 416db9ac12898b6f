ghost use Rattle.std.specs.Prelude.{◌≡◌, option_map};
ghost use Rattle.std.specs.Option.{option_copied};
ghost use Rattle.am_syntax.specs.Scopes.{scope_of, profile, standing_of, symbol_of, result_of, alone_sort};
ghost use Rattle.am_syntax.specs.Flaws.{written_sort};

use crate::scope::{Scope, Standing};
use crate::written::WrittenTerm;
use am_term::{Name, SortId, Symbol};

// What the first of this name stands for.
#[tactic(auto, using(crate::proofs::Looking::standings))]
pub fn standing(scope: &Scope, name: &Name) -> Option<Standing>
    ensures { result ≡ standing_of name.now (scope_of scope.now).bound }
{
    match scope.bound.position(name) {
        Some(k) => match scope.bound.entries.get(k as usize) {
            Some(bound) => Some(bound.standing),
            None => None,
        },
        None => None,
    }
}

// The symbol of this name.
#[tactic(auto, using(crate::proofs::Looking::symbols))]
pub fn symbol<'a>(scope: &Scope<'a>, name: &Name) -> Option<&'a Symbol>
    ensures { option_map profile (option_copied result) ≡ symbol_of (scope_of scope.now) name.now }
{
    let k = scope.numbers.position(name)?;
    scope.sig.symbols.get(k as usize)
}

// The sort of a name alone.
#[tactic(auto, using(crate::proofs::Looking::symbols))]
pub fn alone_sort(scope: &Scope, name: &Name) -> Option<SortId>
    ensures { result ≡ alone_sort (scope_of scope.now) name.now }
{
    match standing(scope, name) {
        Some(Standing::Variable { sort, .. }) => Some(sort),
        Some(Standing::Input { sort, .. }) => Some(sort),
        Some(Standing::Barred) => None,
        None => result_sort(scope, name),
    }
}

// The result sort of the symbol of this name.
#[tactic(auto, using(crate::proofs::Looking::symbols))]
fn result_sort(scope: &Scope, name: &Name) -> Option<SortId>
    ensures { result ≡ result_of (symbol_of (scope_of scope.now) name.now) }
{
    match symbol(scope, name) {
        Some(symbol) => symbol.result,
        None => None,
    }
}

/// The sort of a term: that of its name or of its head, whatever its arguments are. Takes no memory.
#[tactic(auto, using(crate::proofs::Looking::sorts))]
pub fn written_sort(scope: &Scope, term: &WrittenTerm) -> Option<SortId>
    ensures { result ≡ written_sort (scope_of scope.now) term.now }
{
    match term {
        WrittenTerm::Alone(name) => alone_sort(scope, name),
        WrittenTerm::Headed { head, .. } => result_sort(scope, head),
    }
}
