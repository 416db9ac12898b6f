ghost use Rattle.am_syntax.specs.ShapeLaws.{PlacesAside, SpelledTermIsRead, SpelledFormulaIsRead, ReadTermIsSpellable, ReadFormulaIsSpellable, ReadTermIsItsForm, ReadTermIsNoHigher, ReadFormulaIsNoHigher, SpelledTermCanBeWritten, SpelledFormulaCanBeWritten, ReadTermCanBeWritten, ReadFormulaCanBeWritten};

/// Forms that differ in their places alone are the same term and the same formula.
pub fn places_do_not_count()
    ensures { PlacesAside }
{}

/// A term that can be a form is read from its form.
pub fn spelled_terms_are_read()
    ensures { SpelledTermIsRead }
{}

/// A formula that can be a form, with no quantifier inside, is read from its form.
pub fn spelled_formulas_are_read()
    ensures { SpelledFormulaIsRead }
{}

/// A term that was read can be a form.
pub fn read_terms_can_be_spelled()
    ensures { ReadTermIsSpellable }
{}

/// A formula that was read can be a form.
pub fn read_formulas_can_be_spelled()
    ensures { ReadFormulaIsSpellable }
{}

/// The form of a term that was read is the form that it was read from, places aside.
pub fn read_terms_are_their_forms()
    ensures { ReadTermIsItsForm }
{}

/// The form of a term that was read opens no more lists than the form that it was read from.
pub fn read_terms_are_no_higher()
    ensures { ReadTermIsNoHigher }
{}

/// The form of a formula that was read opens no more lists than the form that it was read from.
pub fn read_formulas_are_no_higher()
    ensures { ReadFormulaIsNoHigher }
{}

/// The form of a term whose words are names can be written.
pub fn spelled_terms_can_be_written()
    ensures { SpelledTermCanBeWritten }
{}

/// The form of a formula whose words are names can be written.
pub fn spelled_formulas_can_be_written()
    ensures { SpelledFormulaCanBeWritten }
{}

/// The form of a term that was read can be written where the form that it was read from can.
pub fn read_terms_can_be_written()
    ensures { ReadTermCanBeWritten }
{}

/// The form of a formula that was read can be written where the form that it was read from can.
pub fn read_formulas_can_be_written()
    ensures { ReadFormulaCanBeWritten }
{}
