ghost use Rattle.std.specs.Prelude.{◌≡◌, IfOk, map};
ghost use Rattle.am_example.specs.ExampleTheory.{te_routines, te_functions, te_literals, calling};

use crate::numbers::{
    ABCORR, BODY, ET, FRAME, J2000, KM, MATRIX, MXV, NEARPT_ALT, NEARPT_POINT, NONE, PXFORM,
    RECLAT_LAT, RECLAT_LON, RECLAT_RADIUS, SPKEZP_LT, SPKEZP_POS, SUN, UTC, UTC2ET, VECTOR, VNORM,
    VSUB,
};
use am_term::{Name, NoMemory, SortId, SymId};
use am_theory::{FortranFunction, LitValue, LiteralDecl, Routine};
use sqlite_items::Items;
use std::alloc::Global;

// A routine as a row: its name, the sorts of its inputs, the symbols of its outputs.
type Row = (&'static str, &'static [SortId], &'static [SymId]);

const ROWS: [Row; 7] = [
    ("UTC2ET", &[UTC], &[UTC2ET]),
    (
        "SPKEZP",
        &[BODY, ET, FRAME, ABCORR, BODY],
        &[SPKEZP_POS, SPKEZP_LT],
    ),
    ("PXFORM", &[FRAME, FRAME, ET], &[PXFORM]),
    ("MXV", &[MATRIX, VECTOR], &[MXV]),
    ("VSUB", &[VECTOR, VECTOR], &[VSUB]),
    ("NEARPT", &[VECTOR, KM, KM, KM], &[NEARPT_POINT, NEARPT_ALT]),
    (
        "RECLAT",
        &[VECTOR],
        &[RECLAT_RADIUS, RECLAT_LON, RECLAT_LAT],
    ),
];

/// The routines.
pub fn routines(alloc: Global) -> Result<Items<Routine>, NoMemory>
    ensures { IfOk result (λ routines. routines ≡ te_routines) }
{
    called(alloc, &ROWS)
}

// The routines of these rows.
fn called(alloc: Global, rows: &[Row]) -> Result<Items<Routine>, NoMemory>
    ensures { IfOk result (λ routines. routines ≡ map (λ row. calling row.0.now row.1.now row.2.now) rows.now) }
{
    let mut routines = Items::new(alloc);
    for row in rows {
        routines.push(routine(alloc, row)?)?;
    }
    Ok(routines)
}

// The routine of a row.
fn routine(alloc: Global, row: &Row) -> Result<Routine, NoMemory>
    ensures { IfOk result (λ routine. routine ≡ calling row.now.0.now row.now.1.now row.now.2.now) }
{
    let (name, inputs, outputs) = *row;
    Ok(Routine {
        name: Name::new(alloc, name)?,
        inputs: Items::from_slice(alloc, inputs)?,
        outputs: Items::from_slice(alloc, outputs)?,
    })
}

/// The listed functions.
pub fn functions(alloc: Global) -> Result<Items<FortranFunction>, NoMemory>
    ensures { IfOk result (λ functions. functions ≡ te_functions) }
{
    let mut functions = Items::new(alloc);
    functions.push(FortranFunction {
        name: Name::new(alloc, "VNORM")?,
        symbol: VNORM,
    })?;
    Ok(functions)
}

/// The literals.
pub fn literals(alloc: Global) -> Result<Items<LiteralDecl>, NoMemory>
    ensures { IfOk result (λ literals. literals ≡ te_literals) }
{
    let mut literals = Items::new(alloc);
    literals.push(LiteralDecl {
        symbol: NONE,
        value: LitValue::Text(Name::new(alloc, "NONE")?),
    })?;
    literals.push(LiteralDecl {
        symbol: J2000,
        value: LitValue::Text(Name::new(alloc, "J2000")?),
    })?;
    literals.push(LiteralDecl {
        symbol: SUN,
        value: LitValue::Int(10),
    })?;
    Ok(literals)
}
