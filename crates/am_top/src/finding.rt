ghost use Rattle.std.specs.Prelude.{◌≡◌, ℕ, List, MatchResult};
ghost use Rattle.am_theory.specs.Facts.{WellFormed as WellFormedTheory};
ghost use Rattle.am_theory.specs.Contents.{contents};
ghost use Rattle.am_diagram.specs.Facts.{WellFormed};
ghost use Rattle.am_top.specs.Answers.{IsUnread, CountsFaults};
ghost use Rattle.am_top.specs.Commands.{IsTheory, IsDiagram};
ghost use Rattle.am_top.specs.Steps.{FoundTheory, FoundDiagram, FoundFiles, NoTheory, NoDiagram, NoFiles, TellsTheoryFault, TellsDiagramFault};

use crate::answer::{Answer, File, Refusal};
use crate::loading::load;
use crate::messages::{diagram_message, theory_message};
use am_diagram::{
    Diagram, DiagramFault, DiagramKind, diagrams_that_were_read_are_well_formed, read_diagram,
};
use am_outside::Library;
use am_term::Name;
use am_theory::{
    Theory, TheoryFault, TheoryKind, read_theory, theories_that_were_read_are_well_formed,
};
use std::alloc::Global;

/// A theory, and a diagram over it.
#[derive(Drop)]
pub struct Files {
    pub theory: Theory,
    pub diagram: Diagram,
}

const FILE_LIMIT: usize = 1_048_576;

/// The theory and over it the diagram of two files, or why they aren't there.
#[tactic(auto, using(crate::proofs::Chains::answering))]
pub fn find_files<L: Library>(
    alloc: Global,
    library: &mut L,
    first: &Name,
    second: &Name,
) -> Result<Files, Answer>
    ensures found { MatchResult result (λ files.
        FoundFiles (L.told library.old) first.now second.now files.theory files.diagram)
        (NoFiles (L.told library.old) (L.sure library.old) first.now second.now) }
    ensures faults { MatchResult result (λ _. L.faults library.new ≡ L.faults library.old) (λ answer.
        CountsFaults (IsUnread answer) (L.faults library.old) (L.faults library.new)) }
    ensures told { L.told library.new ≡ L.told library.old }
    ensures sure { (n : List ℕ) → L.sure library.old n → L.sure library.new n }
{
    let theory = find_theory(alloc, library, first)?;
    let diagram = match find_diagram(alloc, library, &theory, second) {
        Ok(diagram) => diagram,
        Err(answer) => return Err(answer),
    };
    Ok(Files { theory, diagram })
}

/// The theory of a file, or why there is none.
#[tactic(auto, using(crate::proofs::Chains::answering))]
pub fn find_theory<L: Library>(
    alloc: Global,
    library: &mut L,
    name: &Name,
) -> Result<Theory, Answer>
    ensures found { MatchResult result (FoundTheory (L.told library.old name.now))
        (NoTheory (L.told library.old name.now) (L.sure library.old name.now)) }
    ensures faults { MatchResult result (λ _. L.faults library.new ≡ L.faults library.old) (λ answer.
        CountsFaults (IsUnread answer) (L.faults library.old) (L.faults library.new)) }
    ensures told { L.told library.new ≡ L.told library.old }
    ensures sure { (n : List ℕ) → L.sure library.old n → L.sure library.new n }
{
    theories_that_were_read_are_well_formed();
    let bytes = load(alloc, library, File::Theory, FILE_LIMIT, name)?;
    match read_theory(alloc, bytes.as_slice()) {
        Ok(theory) => Ok(theory),
        Err(fault) => Err(refuse_theory(alloc, &fault)),
    }
}

// The diagram of a file over a theory, or why there is none.
#[tactic(auto, using(crate::proofs::Chains::answering))]
fn find_diagram<L: Library>(
    alloc: Global,
    library: &mut L,
    theory: &Theory,
    name: &Name,
) -> Result<Diagram, Answer>
    requires { WellFormedTheory theory.now }
    ensures found { MatchResult result (FoundDiagram theory.now (L.told library.old name.now))
        (NoDiagram theory.now (L.told library.old name.now) (L.sure library.old name.now)) }
    ensures faults { MatchResult result (λ _. L.faults library.new ≡ L.faults library.old) (λ answer.
        CountsFaults (IsUnread answer) (L.faults library.old) (L.faults library.new)) }
    ensures told { L.told library.new ≡ L.told library.old }
    ensures sure { (n : List ℕ) → L.sure library.old n → L.sure library.new n }
{
    diagrams_that_were_read_are_well_formed();
    let bytes = load(alloc, library, File::Diagram, FILE_LIMIT, name)?;
    match read_diagram(alloc, theory, bytes.as_slice()) {
        Ok(diagram) => Ok(diagram),
        Err(fault) => Err(refuse_diagram(alloc, &fault)),
    }
}

/// The answer to a fault of a theory file.
pub fn refuse_theory(alloc: Global, fault: &TheoryFault) -> Answer
    ensures { TellsTheoryFault fault.now result }
{
    if matches!(fault.kind, TheoryKind::NoMemory) {
        return Answer::NoMemory;
    }
    match theory_message(alloc, fault) {
        Ok(message) => Answer::Refused(Refusal::File, message),
        Err(_) => Answer::NoMemory,
    }
}

/// The answer to a fault of a diagram file.
pub fn refuse_diagram(alloc: Global, fault: &DiagramFault) -> Answer
    ensures { TellsDiagramFault fault.now result }
{
    if matches!(fault.kind, DiagramKind::NoMemory) {
        return Answer::NoMemory;
    }
    match diagram_message(alloc, fault) {
        Ok(message) => Answer::Refused(Refusal::File, message),
        Err(_) => Answer::NoMemory,
    }
}
