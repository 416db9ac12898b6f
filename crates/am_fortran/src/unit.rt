ghost use Rattle.std.specs.Prelude.{◌≡◌, ◌≤◌, true, length};
ghost use Rattle.std.specs.List.{list_all};
ghost use Rattle.am_term.specs.Names.{is_fortran_name};
ghost use Rattle.am_fortran.specs.Well.{is_declaration, is_statement};

use crate::statement::{Decl, Statement};
use am_term::Name;
use sqlite_items::Items;

/// A subroutine: its name, its dummy arguments, its declarations and its executable statements, each
/// in order. Names are FORTRAN names, and there are 1 to 18 dummies.
#[derive(Debug, Drop)]
pub struct Unit {
    pub name: Name,
    pub dummies: Items<Name>,
    pub declarations: Items<Decl>,
    pub statements: Items<Statement>,
    ghost named: { is_fortran_name name ≡ true },
    ghost dummies_named: { list_all is_fortran_name dummies ≡ true },
    ghost some_dummy: { 1 ≤ length dummies },
    ghost few_dummies: { length dummies ≤ 18 },
    ghost declared: { list_all is_declaration declarations ≡ true },
    ghost stated: { list_all is_statement statements ≡ true },
}
