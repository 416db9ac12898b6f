//! The texts of small demonstrations, byte for byte.

use crate::{diagram_file, summary, theory_file};
use std::test::Fail;

const THEORY: &str =
    "(theory 1)\n(sort q double)\n(routine C00001 (q) (c1 q))\n(routine C00002 (q) (c2 q))\n(function a1 (q) q)\n(function a2 (q) q)\n(axiom (all ((x q)) (= (a1 x) (c1 x))))\n(axiom (all ((x q)) (= (a2 x) (c2 (a1 x)))))\n";

const DIAGRAM: &str = "(diagram DEMO)\n(input X q)\n(output Y q)\n(require (= Y (a300 X)))\n";

const SUMMARY: &str = "demo 300: found, 301 inferences, 300 calls, 602 proof rows\n";

#[test]
fn theory(rt: HostRuntime) -> Result<(), Fail> {
    let text = theory_file(rt.alloc(), 2)?;
    assert!(rt; text.as_slice() == THEORY.as_bytes());
    Ok(())
}

#[test]
fn diagram(rt: HostRuntime) -> Result<(), Fail> {
    let text = diagram_file(rt.alloc(), 300)?;
    assert!(rt; text.as_slice() == DIAGRAM.as_bytes());
    Ok(())
}

#[test]
fn summed_up(rt: HostRuntime) -> Result<(), Fail> {
    let line = summary(rt.alloc(), 300, 301, 300, 602)?;
    assert!(rt; line.as_slice() == SUMMARY.as_bytes());
    Ok(())
}
