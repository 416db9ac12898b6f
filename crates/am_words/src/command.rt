use am_term::Name;

/// What the words ask for.
#[derive(Debug, Drop)]
pub enum Command {
    /// The program for a diagram: at most `budget` inferences (1 to 100,000), no clause heavier than
    /// `weight` (10 to 400), and the chooser at the place `choose` among weight, age and mixed, from 0.
    Make {
        theory: Name,
        diagram: Name,
        budget: u32,
        weight: u32,
        choose: u8,
    },
    /// Whether a text is the program for a diagram.
    Check {
        theory: Name,
        diagram: Name,
        text: Name,
    },
    /// A theory in its canonical form.
    Theory {
        theory: Name,
    },
    /// The demonstration of size k, 1 to 300.
    Demo {
        k: u32,
    },
}
