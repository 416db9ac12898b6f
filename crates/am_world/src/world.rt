ghost use Rattle.am_world.specs.Interpretation.{Interpretation, trivial};

/// Something that stands for an interpretation in contracts. It has no function that runs.
pub trait World {
    ghost meaning: { Self → Interpretation };
}

/// The world in which each sort has the one member 0, each function gives 0, and each relation holds.
#[derive(Clone, Copy, Debug)]
pub struct TrivialWorld;

impl World for TrivialWorld {
    ghost meaning = { λ _. trivial };
}
