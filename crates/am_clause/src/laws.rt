ghost use Rattle.std.specs.Prelude.{◌≡◌, ◌≤◌, List, [], Some, IsTrue, length, map};
ghost use Rattle.am_term.specs.declared.term.Formula.{Formula};
ghost use Rattle.am_clause.specs.declared.clause.Clause.{Clause};
ghost use Rattle.am_clause.specs.ClauseForm.{cnf};
ghost use Rattle.am_clause.specs.Count.{count};
ghost use Rattle.am_term.specs.declared.id.SortId.{SortId};
ghost use Rattle.am_term.specs.declared.term.Term.{Term};
ghost use Rattle.am_term.specs.Span.{span};
ghost use Rattle.am_clause.specs.declared.row.Made.{Made};
ghost use Rattle.am_clause.specs.declared.row.Row.{Row};
ghost use Rattle.am_clause.specs.Distinct.{among, distinct};
ghost use Rattle.am_clause.specs.NumberedMade.{made_occurrences, numbered_made, without_lists, AreAlikeMade};
ghost use Rattle.am_clause.specs.Variables.{Variable, same_variable, occurrences, in_clause, variables};
ghost use Rattle.am_clause.specs.Walks.{walk};
ghost use Rattle.am_clause.specs.Renaming.{places_in, renamed_clause, renumbered};
ghost use Rattle.am_clause.specs.Numbered.{IsBijection, IsNumbered, IsNumberedRow, AreNumbered, AreAlike, sorts_in};

/// Numbering by first occurrence renames a clause by a bijection of its variables onto the first whole
/// numbers, and keeps their sorts. What it gives is numbered, and it leaves a numbered clause as it is;
/// so numbering twice is numbering once. Clauses that are alike but for a bijection of variables that
/// keeps sorts have one numbering.
pub fn law_of_numbering()
    ensures renames { (c : Clause) → renumbered c ≡ renamed_clause (places_in (variables c)) c }
    ensures bijection { (c : Clause) → IsBijection c (places_in (variables c)) (length (variables c)) }
    ensures sorts { (c : Clause) → sorts_in (renumbered c) ≡ sorts_in c }
    ensures numbered { (c : Clause) → IsNumbered (renumbered c) }
    ensures fixed { (c : Clause) → IsNumbered c → renumbered c ≡ c }
    ensures again { (c : Clause) → renumbered (renumbered c) ≡ renumbered c }
    ensures alike { (c d : Clause) → AreAlike c d → renumbered d ≡ renumbered c }
{}

/// The count of a formula's clauses, for which none is built, is the length of its clause form.
pub fn law_of_count()
    ensures { (f : Formula) → count f ≡ length (cnf f) }
{}

/// A conclusion with its lists, numbered by first occurrence, is numbered; one that is numbered stays as
/// it is; and those that are alike but for a bijection of variables that keeps sorts are numbered alike.
/// Without lists it is the numbering of the clause.
pub fn law_of_made()
    ensures numbered { (m : Made) → AreNumbered (made_occurrences (numbered_made m)) }
    ensures fixed { (m : Made) → AreNumbered (made_occurrences m) → numbered_made m ≡ m }
    ensures alike { (m n : Made) → AreAlikeMade m n → numbered_made n ≡ numbered_made m }
    ensures clause { (c : Clause) → numbered_made (without_lists c) ≡ without_lists (renumbered c) }
{}

/// A numbered row has a numbered clause.
pub fn law_of_rows()
    ensures { (row : Row) → IsNumberedRow row → IsNumbered row.clause }
{}

/// Variables are numbered by first occurrence exactly where the walk over them ends, and then it tells
/// the sorts of the different ones in order.
pub fn law_of_walks()
    ensures told { (vs : List Variable) (ss : List SortId) → walk [] vs ≡ Some ss → AreNumbered vs
        × (ss ≡ map (λ (v : Variable). v.1) (distinct same_variable vs)) }
    ensures ends { (vs : List Variable) → AreNumbered vs
        → walk [] vs ≡ Some (map (λ (v : Variable). v.1) (distinct same_variable vs)) }
{}

/// Where a clause is numbered, a list with a term for each of its variables covers each of its terms.
pub fn law_of_covers()
    ensures { (c : Clause) → IsNumbered c → (t : Term)
        → ((v : Variable) → IsTrue (among same_variable v (occurrences t))
        → IsTrue (among same_variable v (in_clause c))) → span t ≤ length (variables c) }
{}
