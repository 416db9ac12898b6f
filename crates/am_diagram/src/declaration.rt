use am_syntax::WrittenLiteral;
use am_term::Name;

/// A declaration of a diagram file as it is written, without its place.
#[derive(Drop)]
pub enum Declaration {
    Input { name: Name, sort: Name },
    Object { name: Name, sort: Name },
    Output { name: Name, sort: Name },
    Given(WrittenLiteral),
    Require(WrittenLiteral),
}
