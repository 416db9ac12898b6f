//! The text of the example theory, byte for byte.

use crate::example_theory;
use am_canon::write_theory;
use std::test::Fail;

const LINES: [&str; 37] = [
    "(theory 1)",
    "(sort time)",
    "(sort point)",
    "(sort surface)",
    "(sort utc (char 32))",
    "(sort et double)",
    "(sort km double)",
    "(sort angle double)",
    "(sort body integer)",
    "(sort frame (char 32))",
    "(sort abcorr (char 5))",
    "(sort vector (double 3) VEQU)",
    "(sort matrix (double 3 3) MEQU)",
    "(literal none abcorr \"NONE\")",
    "(literal j2000 frame \"J2000\")",
    "(literal sun body 10)",
    "(routine UTC2ET (utc) (utc2et et))",
    "(routine SPKEZP (body et frame abcorr body) (spkezp-pos vector) (spkezp-lt et))",
    "(routine PXFORM (frame frame et) (pxform matrix))",
    "(routine MXV (matrix vector) (mxv vector))",
    "(routine VSUB (vector vector) (vsub vector))",
    "(routine NEARPT (vector km km km) (nearpt-point vector) (nearpt-alt km))",
    "(routine RECLAT (vector) (reclat-radius km) (reclat-lon angle) (reclat-lat angle))",
    "(value VNORM vnorm (vector) km)",
    "(function time-of (et) time)",
    "(function utc-time (utc) time)",
    "(function body-place (body time) point)",
    "(function ellipsoid (frame body time km km km) surface)",
    "(function nearest (surface point) point)",
    "(function coords (frame body time point) vector)",
    "(function longitude (frame body time point) angle)",
    "(function latitude (frame body time point) angle)",
    "(axiom (all ((x utc)) (= (utc-time x) (time-of (utc2et x)))))",
    "(axiom (all ((f frame) (c body) (e et) (b body)) (= (coords f c (time-of e) (body-place b (time-of e))) (spkezp-pos b e f none c))))",
    "(axiom (all ((f frame) (c body) (t time) (p km) (q km) (r km) (x point)) (= (coords f c t (nearest (ellipsoid f c t p q r) x)) (nearpt-point (coords f c t x) p q r))))",
    "(axiom (all ((f frame) (c body) (t time) (x point)) (= (longitude f c t x) (reclat-lon (coords f c t x)))))",
    "(axiom (all ((f frame) (c body) (t time) (x point)) (= (latitude f c t x) (reclat-lat (coords f c t x)))))",
];

#[test]
fn text(rt: HostRuntime) -> Result<(), Fail> {
    let theory = example_theory(rt.alloc())?;
    let text = write_theory(rt.alloc(), &theory)?;
    let mut wanted = Vec::new(rt.alloc());
    for line in LINES {
        wanted.extend_from_slice(line.as_bytes())?;
        wanted.push(b'\n')?;
    }
    assert!(rt; text.as_slice() == wanted.as_slice());
    Ok(())
}
