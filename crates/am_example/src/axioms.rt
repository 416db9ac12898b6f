ghost use Rattle.std.specs.Prelude.{◌≡◌, IfOk};
ghost use Rattle.am_example.specs.ExampleTheory.{te_axioms, equation, time_axiom, place_axiom, nearest_axiom, angle_axiom, body_coords, body_position, nearest_coords, nearest_position};

use crate::numbers::{
    BODY, BODY_PLACE, COORDS, ELLIPSOID, ET, FRAME, KM, LATITUDE, LONGITUDE, NEAREST, NEARPT_POINT,
    NONE, POINT, RECLAT_LAT, RECLAT_LON, SPKEZP_POS, TIME, TIME_OF, UTC, UTC_TIME, UTC2ET,
};
use crate::terms::{at_first, at_last, at_variables, named, variables};
use am_term::{Atom, Formula, NoMemory, SymId, Term};
use am_theory::Axiom;
use sqlite_items::Items;
use std::alloc::Global;

/// The axioms.
pub fn axioms(alloc: Global) -> Result<Items<Axiom>, NoMemory>
    ensures { IfOk result (λ axioms. axioms ≡ te_axioms) }
{
    let mut axioms = Items::new(alloc);
    axioms.push(time_axiom(alloc)?)?;
    axioms.push(place_axiom(alloc)?)?;
    axioms.push(nearest_axiom(alloc)?)?;
    axioms.push(angle_axiom(alloc, LONGITUDE, RECLAT_LON)?)?;
    axioms.push(angle_axiom(alloc, LATITUDE, RECLAT_LAT)?)?;
    Ok(axioms)
}

// An equation as a formula.
fn equation(left: Term, right: Term) -> Formula
    ensures { result ≡ equation left right }
{
    Formula::Atom(Atom::Eq { left, right })
}

// The time that a text names.
fn time_axiom(alloc: Global) -> Result<Axiom, NoMemory>
    ensures { IfOk result (λ made. made ≡ time_axiom) }
{
    let left = at_variables(alloc, UTC_TIME, &[(0, UTC)])?;
    let made = at_variables(alloc, UTC2ET, &[(0, UTC)])?;
    let right = at_last(alloc, TIME_OF, &[], made)?;
    Ok(Axiom {
        vars: named(alloc, &[("x", UTC)])?,
        formula: equation(left, right),
    })
}

// The coordinates of a body seen from another.
fn place_axiom(alloc: Global) -> Result<Axiom, NoMemory>
    ensures { IfOk result (λ made. made ≡ place_axiom) }
{
    let left = body_coords(alloc)?;
    let right = body_position(alloc)?;
    Ok(Axiom {
        vars: named(alloc, &[("f", FRAME), ("c", BODY), ("e", ET), ("b", BODY)])?,
        formula: equation(left, right),
    })
}

// The coordinates of the place of body 3 at time 2, in frame 0 centred on body 1.
fn body_coords(alloc: Global) -> Result<Term, NoMemory>
    ensures { IfOk result (λ term. term ≡ body_coords) }
{
    let time = at_variables(alloc, TIME_OF, &[(2, ET)])?;
    let place = at_last(alloc, BODY_PLACE, &[(3, BODY)], time)?;
    let mut args = variables(alloc, &[(0, FRAME), (1, BODY)])?;
    args.push(at_variables(alloc, TIME_OF, &[(2, ET)])?)?;
    args.push(place)?;
    Ok(Term::App { f: COORDS, args })
}

// The position of body 3 at time 2, in frame 0, seen from body 1.
fn body_position(alloc: Global) -> Result<Term, NoMemory>
    ensures { IfOk result (λ term. term ≡ body_position) }
{
    let mut args = variables(alloc, &[(3, BODY), (2, ET), (0, FRAME)])?;
    args.push(at_variables(alloc, NONE, &[])?)?;
    args.append(variables(alloc, &[(1, BODY)])?)?;
    Ok(Term::App {
        f: SPKEZP_POS,
        args,
    })
}

// The nearest point of an ellipsoid.
fn nearest_axiom(alloc: Global) -> Result<Axiom, NoMemory>
    ensures { IfOk result (λ made. made ≡ nearest_axiom) }
{
    let left = nearest_coords(alloc)?;
    let right = nearest_position(alloc)?;
    Ok(Axiom {
        vars: named(
            alloc,
            &[
                ("f", FRAME),
                ("c", BODY),
                ("t", TIME),
                ("p", KM),
                ("q", KM),
                ("r", KM),
                ("x", POINT),
            ],
        )?,
        formula: equation(left, right),
    })
}

// The coordinates of the point of an ellipsoid that is nearest to point 6.
fn nearest_coords(alloc: Global) -> Result<Term, NoMemory>
    ensures { IfOk result (λ term. term ≡ nearest_coords) }
{
    let ellipsoid = at_variables(
        alloc,
        ELLIPSOID,
        &[(0, FRAME), (1, BODY), (2, TIME), (3, KM), (4, KM), (5, KM)],
    )?;
    let near = at_first(alloc, NEAREST, ellipsoid, &[(6, POINT)])?;
    at_last(alloc, COORDS, &[(0, FRAME), (1, BODY), (2, TIME)], near)
}

// The point nearest to the coordinates of point 6.
fn nearest_position(alloc: Global) -> Result<Term, NoMemory>
    ensures { IfOk result (λ term. term ≡ nearest_position) }
{
    let coords = at_variables(
        alloc,
        COORDS,
        &[(0, FRAME), (1, BODY), (2, TIME), (6, POINT)],
    )?;
    at_first(alloc, NEARPT_POINT, coords, &[(3, KM), (4, KM), (5, KM)])
}

// An angle of a point.
fn angle_axiom(alloc: Global, angle: SymId, output: SymId) -> Result<Axiom, NoMemory>
    ensures { IfOk result (λ made. made ≡ angle_axiom angle output) }
{
    let of = [(0, FRAME), (1, BODY), (2, TIME), (3, POINT)];
    let left = at_variables(alloc, angle, &of)?;
    let coords = at_variables(alloc, COORDS, &of)?;
    let right = at_last(alloc, output, &[], coords)?;
    Ok(Axiom {
        vars: named(
            alloc,
            &[("f", FRAME), ("c", BODY), ("t", TIME), ("x", POINT)],
        )?,
        formula: equation(left, right),
    })
}
