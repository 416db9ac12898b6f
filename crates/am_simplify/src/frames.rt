use am_term::Term;

/// Terms that variables were bound to, the latest first.
#[derive(Drop)]
pub enum Bound<'a> {
    Nothing,
    Also {
        n: u32,
        term: &'a Term,
        before: &'a Bound<'a>,
    },
}

/// Patterns that are still to be matched with terms, the next list first.
#[derive(Drop)]
pub enum Todo<'a> {
    Done,
    Next {
        patterns: &'a [Term],
        terms: &'a [Term],
        behind: &'a Todo<'a>,
    },
}

/// Where a part stands: the number of each argument on the way to it, the last one first.
#[derive(Drop)]
pub enum Path<'a> {
    Root,
    Below { k: u32, above: &'a Path<'a> },
}
