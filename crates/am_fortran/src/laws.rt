ghost use Rattle.am_fortran.specs.Columns.{OneText, EachFitsCard};
ghost use Rattle.am_fortran.specs.Units.{IsUnit};

use crate::unit::Unit;
use crate::well::numbers_fit;

/// Two units that have one text are equal.
pub fn law_of_one_text()
    ensures { OneText }
{}

/// No line of a unit's text is longer than 72 columns or begins with `C`, and no statement has more
/// than 18 continuation lines.
pub fn law_of_columns()
    ensures { EachFitsCard }
{}

/// The numbers of a unit in memory are those of 64 bits, so each such unit is one of which the other
/// laws speak.
pub fn law_of_numbers(unit: &Unit)
    ensures { IsUnit unit.now }
{
    numbers_fit(unit.statements.as_slice());
}
