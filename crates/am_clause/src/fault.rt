use am_term::NoMemory;

/// Why a formula's clauses aren't given: there are more than 64, with their number, or no memory is
/// left.
#[derive(Clone, Copy, Debug, PartialEq, Eq)]
pub enum ClauseFault {
    TooManyClauses(u64),
    NoMemory,
}

impl From<NoMemory> for ClauseFault {
    ghost use Rattle.std.specs.Prelude.{◌≡◌};
    ghost use Rattle.am_clause.specs.declared.fault.ClauseFault.TheVariants.{NoMemory};

    ghost from_gives = { λ _ e. e ≡ NoMemory };

    fn from(_error: NoMemory) -> ClauseFault {
        ClauseFault::NoMemory
    }
}
