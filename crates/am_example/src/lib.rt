//! An example theory, of places and directions in the solar system, and a world in which its axioms are true.
//!
//! `specs/ExampleTheory.antt` says what the theory has, `ExampleWorld` what its symbols give at whole numbers, `Whole`
//! which natural number tells which whole number, `NearestPoint` which subroutine is run. `Laws` states what holds. The
//! crate rests on `am_term`, `am_syntax`, `am_world`, `am_theory`, `am_diagram`, `am_fortran` and `am_exec`, and its
//! test on `am_canon`.
#![tactic(auto)]

mod axioms;
mod calls;
mod laws;
mod numbers;
mod sorts;
mod symbols;
mod terms;
#[cfg(test)]
mod tests;
mod theory;
mod world;

pub use laws::law_of_example_world;
pub use theory::example_theory;
pub use world::ExampleWorld;
