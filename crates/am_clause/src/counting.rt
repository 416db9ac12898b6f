ghost use Rattle.std.specs.Prelude.{◌≡◌, ◌+◌, ◌*◌, map, sum};
ghost use Rattle.am_clause.specs.Count.{count, count_negated, multiplied};
ghost use Rattle.am_clause.specs.Forms.{capped};

use am_term::Formula;

// How many clauses, for the truth of something and for its negation.
#[derive(Clone, Copy)]
pub struct Count {
    pub pos: u64,
    pub neg: u64,
}

// The numbers of clauses of a formula and of its negation, each once over the formula.
#[cycle(counting)]
#[tactic(auto, using(crate::proofs::Tallies::counting))]
pub fn count_clauses(formula: &Formula) -> Count
    ensures pos { result.pos ≡ capped (count formula.now) }
    ensures neg { result.neg ≡ capped (count_negated formula.now) }
{
    match formula {
        Formula::Atom(_) => Count { pos: 1, neg: 1 },
        Formula::Not(inner) => {
            let inner = count_clauses(inner.get());
            Count {
                pos: inner.neg,
                neg: inner.pos,
            }
        }
        Formula::And(parts) => {
            let (sums, multiples) = count_parts(parts.as_slice());
            Count {
                pos: sums.pos,
                neg: multiples.neg,
            }
        }
        Formula::Or(parts) => {
            let (sums, multiples) = count_parts(parts.as_slice());
            Count {
                pos: multiples.pos,
                neg: sums.neg,
            }
        }
        Formula::Implies(left, right) => {
            let left = count_clauses(left.get());
            let right = count_clauses(right.get());
            Count {
                pos: times(left.neg, right.pos),
                neg: plus(left.pos, right.neg),
            }
        }
        Formula::Iff(left, right) => {
            let left = count_clauses(left.get());
            let right = count_clauses(right.get());
            Count {
                pos: plus(times(left.neg, right.pos), times(right.neg, left.pos)),
                neg: plus(times(left.pos, right.pos), times(left.neg, right.neg)),
            }
        }
    }
}

// The sums of the parts' numbers, and their products.
#[cycle(counting)]
#[tactic(auto, using(crate::proofs::Tallies::counting))]
fn count_parts(parts: &[Formula]) -> (Count, Count)
    ensures sum_pos { result.0.pos ≡ capped (sum (map count parts.now)) }
    ensures sum_neg { result.0.neg ≡ capped (sum (map count_negated parts.now)) }
    ensures multiple_pos { result.1.pos ≡ capped (multiplied (map count parts.now)) }
    ensures multiple_neg { result.1.neg ≡ capped (multiplied (map count_negated parts.now)) }
{
    let mut sums = Count { pos: 0, neg: 0 };
    let mut multiples = Count { pos: 1, neg: 1 };
    for part in parts {
        let one = count_clauses(part);
        sums = Count {
            pos: plus(sums.pos, one.pos),
            neg: plus(sums.neg, one.neg),
        };
        multiples = Count {
            pos: times(multiples.pos, one.pos),
            neg: times(multiples.neg, one.neg),
        };
    }
    (sums, multiples)
}

#[tactic(auto, unfolding(crate::specs::Forms::capped))]
fn plus(a: u64, b: u64) -> u64
    ensures { result ≡ capped (a + b) }
{
    a.saturating_add(b)
}

#[tactic(auto, unfolding(crate::specs::Forms::capped))]
fn times(a: u64, b: u64) -> u64
    ensures { result ≡ capped (a * b) }
{
    a.saturating_mul(b)
}
