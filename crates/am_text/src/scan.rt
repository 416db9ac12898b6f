ghost use Rattle.std.specs.Prelude.{◌≡◌, Ok};
ghost use Rattle.am_text.specs.Answers.{Gives};
ghost use Rattle.am_text.specs.Scan.{lists_held, with_form};

use crate::fault::ReadError;
use crate::form::{Form, FormNode};
use am_term::Name;
use sqlite_items::Items;

/// What the next byte continues.
#[derive(Drop)]
pub enum Mode {
    Between,
    Word { place: u32, bytes: Name },
    Text { place: u32, bytes: Name },
    Comment,
}

/// An open list: its place, and the forms before it in the list around it.
#[derive(Drop)]
pub struct Open {
    pub place: u32,
    pub before: Items<Form>,
}

/// The open lists, the innermost last, and the forms of the innermost.
#[derive(Drop)]
pub struct Lists {
    pub outer: Items<Open>,
    pub forms: Items<Form>,
}

impl Lists {
    /// The lists with one more form.
    #[tactic(auto, using(crate::proofs::Steps::scan_laws))]
    pub fn with_form(self, place: u32, node: FormNode) -> Result<Lists, ReadError>
        ensures { Gives lists_held result (Ok (with_form place node (lists_held self))) }
    {
        let Lists { outer, mut forms } = self;
        forms.push(Form { place, node })?;
        Ok(Lists { outer, forms })
    }
}

/// What the bytes so far have left open and made.
#[derive(Drop)]
pub struct Scan {
    pub mode: Mode,
    pub lists: Lists,
}

impl Scan {
    /// The scan with these parts.
    pub fn new(mode: Mode, lists: Lists) -> Scan
        ensures { result ≡ record { mode = mode; lists = lists } }
    {
        Scan { mode, lists }
    }
}
