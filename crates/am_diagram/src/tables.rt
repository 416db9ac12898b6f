ghost use Rattle.std.specs.Prelude.{◌≡◌, map};
ghost use Rattle.am_term.specs.declared.symbol.Symbol.{Symbol};
ghost use Rattle.am_theory.specs.Lookups.{fortran_names};

use am_syntax::NameTable;
use am_theory::Theory;

/// A theory with its names in maps: the sorts and the symbols by their numbers, and its FORTRAN names.
#[derive(Drop)]
pub struct Tables<'a> {
    pub theory: &'a Theory,
    pub sorts: NameTable,
    pub symbols: NameTable,
    pub called: NameTable,
    ghost sorts_agree: { sorts.names ≡ theory.now.sig.sorts },
    ghost symbols_agree: { symbols.names ≡ map (λ (y : Symbol). y.name) theory.now.sig.symbols },
    ghost called_agree: { called.names ≡ fortran_names theory.now },
}
