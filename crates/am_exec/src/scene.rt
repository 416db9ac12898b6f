ghost use Rattle.std.specs.Prelude.{◌≡◌};
ghost use Rattle.am_exec.specs.Lawful.{further as declared_behind};
ghost use Rattle.am_exec.specs.ItemFaults.{declared_names};

use crate::name_index::NameIndex;
use am_diagram::Diagram;
use am_fortran::Unit;
use am_term::{Ctx, SortId};
use am_theory::Theory;

/// What a statement is run in: the theory, the diagram, the unit, the sorts of the inputs, and the names that
/// the unit declares, at all and behind its dummies.
#[derive(Clone, Copy)]
pub struct Scene<'a> {
    pub theory: &'a Theory,
    pub diagram: &'a Diagram,
    pub unit: &'a Unit,
    pub ins: &'a [SortId],
    pub declared: &'a NameIndex,
    pub behind: &'a NameIndex,
    ghost names: { declared.now ≡ declared_names unit.now.declarations },
    ghost names_behind: { behind.now ≡ declared_names (declared_behind unit.now) },
}
