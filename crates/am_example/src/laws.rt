ghost use Rattle.am_example.specs.Laws.{IsTelling, SpeaksOfSymbols, HasTheory, IsExampleWorld, ModelsExample, HasLines, GivesEight};

/// The example world is an interpretation of the example theory, in which all its axioms are true. The subroutine for
/// the nearest point of an ellipsoid, run in it on 5, 7, 2, 0, 3, 0, 0, gives 8.
pub fn law_of_example_world()
    ensures telling { IsTelling }
    ensures named { SpeaksOfSymbols }
    ensures there { HasTheory }
    ensures world { IsExampleWorld }
    ensures models { ModelsExample }
    ensures printed { HasLines }
    ensures run { GivesEight }
{}
