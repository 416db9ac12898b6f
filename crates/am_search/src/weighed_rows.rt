ghost use Rattle.std.specs.Prelude.{◌≡◌, [], OnOk, IfOk, ◌++◌, ◌∷◌, ◌<◌, length, map, MatchOption, slice_get, option_map};
ghost use Rattle.std.specs.Option.{option_copied};
ghost use Rattle.am_search.specs.Weights.{cap, row_features, row_weight};

use am_clause::{Row, weight_of};
use am_simplify::features;
use am_term::NoMemory;
use std::alloc::Global;
use std::marker::Model;

/// Rows, which contracts see as their list, with the weight and the features of each one's clause.
#[derive(Drop)]
pub struct WeighedRows {
    rows: Vec<Row>,
    weights: Vec<u32>,
    features: Vec<u64>,
}

impl Model for WeighedRows {
    ghost use Rattle.std.specs.Prelude.{◌≡◌, List, map};
    ghost use Rattle.std.specs.Coded.{codes};
    ghost use Rattle.am_clause.specs.contracts.row.Row as rowed;
    ghost use Rattle.am_clause.specs.declared.row.Row.{Row};
    ghost use Rattle.am_search.specs.Weights.{row_features, row_weight};

    ghost Value = { List Row };

    ghost coded = { Prim.hlevel (codes, rowed.the_row.coded) };

    ghost view = { λ s. s.rows.items };

    ghost invariant = { λ s. (s.weights.items ≡ map row_weight s.rows.items)
        × (s.features.items ≡ map row_features s.rows.items) };
}

impl WeighedRows {
    /// The rows, each weighed and looked over once.
    pub fn new(alloc: Global, rows: Vec<Row>) -> Result<WeighedRows, NoMemory>
        ensures { IfOk result (λ s. s ≡ rows.items) }
    {
        let weights = weights(alloc, rows.as_slice())?;
        let features = all_features(alloc, rows.as_slice())?;
        Ok(WeighedRows {
            rows,
            weights,
            features,
        })
    }

    /// One row more, behind the others.
    #[tactic(auto, using(crate::proofs::Weighing::weighing))]
    pub fn push(&mut self, row: Row) -> Result<(), NoMemory>
        ensures { OnOk result (self.new ≡ self.old ++ row ∷ []) }
    {
        let weight = weight(&row);
        let features = features(&row.clause);
        self.weights.push(weight)?;
        if self.features.push(features).is_err() {
            self.weights.pop();
            return Err(NoMemory);
        }
        if self.rows.push(row).is_err() {
            self.weights.pop();
            self.features.pop();
            return Err(NoMemory);
        }
        Ok(())
    }

    /// How many rows there are.
    pub fn len(&self) -> usize
        ensures { result ≡ length self.now }
    {
        self.rows.len()
    }

    /// The rows.
    pub fn as_slice(&self) -> &[Row]
        ensures { result.now ≡ self.now }
    {
        self.rows.as_slice()
    }

    /// The weights of the rows, in the same order.
    pub fn weights(&self) -> &[u32]
        ensures { result.now ≡ map row_weight self.now }
    {
        self.weights.as_slice()
    }

    /// The features of the rows, in the same order.
    pub fn features(&self) -> &[u64]
        ensures { result.now ≡ map row_features self.now }
    {
        self.features.as_slice()
    }

    /// The rows.
    pub fn into_rows(self) -> Vec<Row>
        ensures { result.items ≡ self }
    {
        let WeighedRows {
            rows,
            weights: _,
            features: _,
        } = self;
        rows
    }
}

fn weight(row: &Row) -> u32
    ensures { result ≡ row_weight row.now }
{
    weight_of(&row.clause, 1_000_000)
}

fn weights(alloc: Global, rows: &[Row]) -> Result<Vec<u32>, NoMemory>
    ensures { IfOk result (λ ws. ws.items ≡ map row_weight rows.now) }
{
    let mut found = Vec::new(alloc);
    let mut rest = rows;
    while let [row, behind @ ..] = rest {
        found.push(weight(row))?;
        rest = behind;
    }
    Ok(found)
}

fn all_features(alloc: Global, rows: &[Row]) -> Result<Vec<u64>, NoMemory>
    ensures { IfOk result (λ fs. fs.items ≡ map row_features rows.now) }
{
    let mut found = Vec::new(alloc);
    let mut rest = rows;
    while let [row, behind @ ..] = rest {
        found.push(features(&row.clause))?;
        rest = behind;
    }
    Ok(found)
}
