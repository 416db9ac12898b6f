//! Rows that are picked out of all by their flags.
ghost use Rattle.std.specs.Prelude.{IfOk, ◌≡◌, map};
ghost use Rattle.am_search.specs.Members.{clause_rows, kept_rows};
ghost use Rattle.am_search.specs.Weights.{row_features};
ghost use Rattle.am_simplify.specs.Features.{clause_features};
ghost use Rattle.am_simplify.specs.Reasons.{subsumer};

use crate::fates::Fates;
use crate::rows::number_after;
use crate::setting::Setting;
use crate::weighed_rows::WeighedRows;
use am_clause::{Clause, Row};
use am_simplify::{features, subsumes_featured};
use am_term::NoMemory;

/// The number of the first of the axiom rows and the kept rows that subsumes a clause.
pub fn first_subsumer(
    setting: &Setting,
    rows: &WeighedRows,
    fates: &Fates,
    clause: &Clause,
) -> Result<Option<u32>, NoMemory>
    ensures { IfOk result (λ o. let t = setting.now in o ≡ subsumer t.ctx.sig.now t.ctx.ins.now
        (clause_rows (kept_rows t.axioms rows.now fates.now)) clause.now) }
{
    first_among(
        setting,
        rows.as_slice(),
        rows.features(),
        fates,
        clause,
        features(clause),
    )
}

// The same, with the features of all clauses.
fn first_among(
    setting: &Setting,
    rows: &[Row],
    features: &[u64],
    fates: &Fates,
    clause: &Clause,
    own: u64,
) -> Result<Option<u32>, NoMemory>
    requires rows { features.now ≡ map row_features rows.now }
    requires own { own ≡ clause_features clause.now }
    ensures { IfOk result (λ o. let t = setting.now in o ≡ subsumer t.ctx.sig.now t.ctx.ins.now
        (clause_rows (kept_rows t.axioms rows.now fates.now)) clause.now) }
{
    let mut number: u32 = 0;
    let mut rest = rows;
    let mut others = features;
    while let [row, behind @ ..] = rest {
        let [other, later @ ..] = others else {
            unreachable!()
        };
        number = number_after(number as usize)?;
        if (number <= setting.axioms || fates.keeps(number))
            && subsumes_featured(&setting.ctx, *other, &row.clause, own, clause)
        {
            return Ok(Some(number));
        }
        rest = behind;
        others = later;
    }
    Ok(None)
}
