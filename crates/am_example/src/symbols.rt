ghost use Rattle.std.specs.Prelude.{◌≡◌, ◌++◌, true, IfOk, OnOk, map};
ghost use Rattle.am_term.specs.Symbols.{has_result};
ghost use Rattle.am_syntax.specs.Scopes.{profile};
ghost use Rattle.am_example.specs.ExampleTheory.{te_symbols, giving};

use crate::numbers::{
    ABCORR, ANGLE, BODY, ET, FRAME, KM, MATRIX, POINT, SURFACE, TIME, UTC, VECTOR,
};
use am_term::{Name, NoMemory, SortId, SymKind, Symbol};
use sqlite_items::Items;
use std::alloc::Global;

// A symbol as a row: its name, the sorts of its arguments and that of its result.
type Row = (&'static str, &'static [SortId], SortId);

const LITERALS: [Row; 3] = [
    ("none", &[], ABCORR),
    ("j2000", &[], FRAME),
    ("sun", &[], BODY),
];

const OUTPUTS: [Row; 11] = [
    ("utc2et", &[UTC], ET),
    ("spkezp-pos", &[BODY, ET, FRAME, ABCORR, BODY], VECTOR),
    ("spkezp-lt", &[BODY, ET, FRAME, ABCORR, BODY], ET),
    ("pxform", &[FRAME, FRAME, ET], MATRIX),
    ("mxv", &[MATRIX, VECTOR], VECTOR),
    ("vsub", &[VECTOR, VECTOR], VECTOR),
    ("nearpt-point", &[VECTOR, KM, KM, KM], VECTOR),
    ("nearpt-alt", &[VECTOR, KM, KM, KM], KM),
    ("reclat-radius", &[VECTOR], KM),
    ("reclat-lon", &[VECTOR], ANGLE),
    ("reclat-lat", &[VECTOR], ANGLE),
];

const VALUES: [Row; 1] = [("vnorm", &[VECTOR], KM)];

const FUNCTIONS: [Row; 8] = [
    ("time-of", &[ET], TIME),
    ("utc-time", &[UTC], TIME),
    ("body-place", &[BODY, TIME], POINT),
    ("ellipsoid", &[FRAME, BODY, TIME, KM, KM, KM], SURFACE),
    ("nearest", &[SURFACE, POINT], POINT),
    ("coords", &[FRAME, BODY, TIME, POINT], VECTOR),
    ("longitude", &[FRAME, BODY, TIME, POINT], ANGLE),
    ("latitude", &[FRAME, BODY, TIME, POINT], ANGLE),
];

/// The symbols.
pub fn symbols(alloc: Global) -> Result<Items<Symbol>, NoMemory>
    ensures { IfOk result (λ symbols. map profile symbols ≡ te_symbols) }
{
    let mut symbols = Items::new(alloc);
    declare(alloc, &mut symbols, SymKind::Literal, &LITERALS)?;
    declare(alloc, &mut symbols, SymKind::Output, &OUTPUTS)?;
    declare(alloc, &mut symbols, SymKind::Value, &VALUES)?;
    declare(alloc, &mut symbols, SymKind::Function, &FUNCTIONS)?;
    Ok(symbols)
}

// The symbols of these rows more, of one kind.
fn declare(
    alloc: Global,
    symbols: &mut Items<Symbol>,
    kind: SymKind,
    rows: &[Row],
) -> Result<(), NoMemory>
    requires { has_result kind ≡ true }
    ensures { OnOk result (map profile symbols.new
        ≡ map profile symbols.old ++ map (λ row. giving row.0.now kind row.1.now row.2) rows.now) }
{
    for row in rows {
        symbols.push(symbol(alloc, kind, row)?)?;
    }
    Ok(())
}

// The symbol of a row.
fn symbol(alloc: Global, kind: SymKind, row: &Row) -> Result<Symbol, NoMemory>
    requires { has_result kind ≡ true }
    ensures { IfOk result (λ symbol. profile symbol ≡ giving row.now.0.now kind row.now.1.now row.now.2) }
{
    let (name, args, sort) = *row;
    Ok(Symbol {
        name: Name::new(alloc, name)?,
        args: Items::from_slice(alloc, args)?,
        result: Some(sort),
        kind,
    })
}
