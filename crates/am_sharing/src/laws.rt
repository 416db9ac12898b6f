ghost use Rattle.std.specs.Prelude.{List, [], Option};
ghost use Rattle.am_term.specs.declared.id.SortId.{SortId};
ghost use Rattle.am_term.specs.declared.signature.Signature.{Signature};
ghost use Rattle.am_bank.specs.Node.{Shared};
ghost use Rattle.am_bank.specs.Bank.{Grows};
ghost use Rattle.am_sharing.specs.SortTable.{IsSortTable};

/// The empty table is one of the sorts of any bank's first ids, and a table stays one where the bank grows.
pub fn law_of_sort_tables()
    ensures empty { (sig : Signature) (ins : List SortId) (ns : List Shared) → IsSortTable sig ins ns [] }
    ensures growth { (sig : Signature) (ins : List SortId) (old new : List Shared) → Grows old new
        → (table : List (Option SortId)) → IsSortTable sig ins old table → IsSortTable sig ins new table }
{}
