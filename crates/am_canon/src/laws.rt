ghost use Rattle.am_canon.specs.DeclarationLaws.{PlacesAside, SpelledDeclarationIsRead, SpelledDeclarationCanBeWritten, ReadDeclarationIsSpellable, ReadDeclarationIsNoHigher};
ghost use Rattle.am_canon.specs.RoundTrip.{CanonicalTextIsRead};

/// Forms that differ in their places alone are the same declaration, and name the same version.
pub fn places_do_not_count()
    ensures { PlacesAside }
{}

/// A declaration that can be a form is read from its form.
pub fn spelled_declarations_are_read()
    ensures { SpelledDeclarationIsRead }
{}

/// The form of a declaration that can be a form can be written.
pub fn spelled_declarations_can_be_written()
    ensures { SpelledDeclarationCanBeWritten }
{}

/// A declaration that stood in a file can be a form, where no quantifier stands inside its formula.
pub fn read_declarations_can_be_spelled()
    ensures { ReadDeclarationIsSpellable }
{}

/// The form of a declaration that was read opens no more lists than the form that it was read from.
pub fn read_declarations_are_no_higher()
    ensures { ReadDeclarationIsNoHigher }
{}

/// The canonical text of a theory that was read is read as this theory, where it is no longer than a
/// file may be.
pub fn canonical_text_is_read()
    ensures { CanonicalTextIsRead }
{}
