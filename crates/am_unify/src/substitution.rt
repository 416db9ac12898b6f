use am_term::Term;
use sqlite_items::Items;

/// Terms for variables, by the numbers of these, in order of the numbers.
#[derive(Drop)]
pub struct Subst(pub Items<(u32, Term)>);
