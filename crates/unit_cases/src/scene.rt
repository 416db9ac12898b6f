ghost use Rattle.std.specs.Prelude.{IfOk};
ghost use Rattle.am_theory.specs.Facts.{WellFormed as TheoryFacts};
ghost use Rattle.am_diagram.specs.Facts.{WellFormed as DiagramFacts};

use crate::fault::CaseFault;
use am_diagram::{Diagram, read_diagram};
use am_theory::{Theory, read_theory};
use std::alloc::Global;

/// What the cases are about: the files of a theory and of a diagram, and the lines before those of a case.
#[derive(Clone, Copy)]
pub struct Scene<'a> {
    pub theory: &'a str,
    pub diagram: &'a str,
    pub front: &'a str,
}

impl Scene<'_> {
    /// The theory of the file.
    pub fn theory(&self, alloc: Global) -> Result<Theory, CaseFault>
        ensures { IfOk result TheoryFacts }
    {
        match read_theory(alloc, self.theory.as_bytes()) {
            Ok(theory) => Ok(theory),
            Err(_) => Err(CaseFault::said(alloc, "bad theory")),
        }
    }

    /// The diagram of the file.
    pub fn diagram(&self, alloc: Global, theory: &Theory) -> Result<Diagram, CaseFault>
        requires { TheoryFacts theory.now }
        ensures { IfOk result (λ d. DiagramFacts theory.now d) }
    {
        match read_diagram(alloc, theory, self.diagram.as_bytes()) {
            Ok(diagram) => Ok(diagram),
            Err(_) => Err(CaseFault::said(alloc, "bad diagram")),
        }
    }
}
