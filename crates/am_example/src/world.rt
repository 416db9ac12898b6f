ghost use Rattle.am_example.specs.ExampleWorld.{example_world};

use am_world::World;

/// The world whose members are all whole numbers, in which the axioms of the example theory are true. Its table of
/// values is this project's own.
#[derive(Clone, Copy, Debug)]
pub struct ExampleWorld;

impl World for ExampleWorld {
    ghost meaning = { λ _. example_world };
}
