ghost use Rattle.std.specs.Prelude.{◌≡◌, ◌++◌, codes, IfOk, OnOk};
ghost use Rattle.std.specs.Fmt.{decimal};
ghost use Rattle.am_top.specs.Messages.{text_words as words_of_text, theory_words as words_of_theory, diagram_words as words_of_diagram, word_for as word_of_file, at_byte as message_at_byte, longer as message_of_length, theory_message as message_of_theory, diagram_message as message_of_diagram, spent_message as message_of_spent, exhausted_message as message_of_exhausted, contradiction_message as message_of_contradiction, long_message as message_of_long, refused_message as message_of_refusal, accepted_text as text_of_acceptance, reason_words as words_of_reason, log_words as words_of_log, unit_words as words_of_unit, exec_words as words_of_exec};

use crate::answer::File;
use am_check::Reason;
use am_diagram::{DiagramFault, DiagramKind};
use am_exec::ExecKind;
use am_fortran::UnitKind;
use am_log::LogKind;
use am_term::NoMemory;
use am_text::TextKind;
use am_theory::{TheoryFault, TheoryKind};
use std::alloc::Global;

/// What is said of a theory file that has this fault.
#[tactic(auto, unfolding(crate::specs::Messages::theory_message))]
pub fn theory_message(alloc: Global, fault: &TheoryFault) -> Result<Vec<u8>, NoMemory>
    ensures { IfOk result (λ m. m.items ≡ message_of_theory fault.now) }
{
    at_byte(alloc, File::Theory, fault.place, theory_words(fault.kind))
}

/// What is said of a diagram file that has this fault.
#[tactic(auto, unfolding(crate::specs::Messages::diagram_message))]
pub fn diagram_message(alloc: Global, fault: &DiagramFault) -> Result<Vec<u8>, NoMemory>
    ensures { IfOk result (λ m. m.items ≡ message_of_diagram fault.now) }
{
    at_byte(alloc, File::Diagram, fault.place, diagram_words(fault.kind))
}

/// What is said of a file that has more bytes than it may have.
pub fn longer(alloc: Global, file: File, limit: usize) -> Result<Vec<u8>, NoMemory>
    ensures { IfOk result (λ m. m.items ≡ message_of_length file limit) }
{
    let mut message = started(alloc, file)?;
    message.extend_from_slice(b": longer than ")?;
    message.extend_from_slice(limit.to_string(alloc)?.as_bytes())?;
    message.extend_from_slice(b" bytes\n")?;
    Ok(message)
}

/// What is printed of a text that is accepted.
pub fn accepted_text(alloc: Global) -> Result<Vec<u8>, NoMemory>
    ensures { IfOk result (λ m. m.items ≡ text_of_acceptance) }
{
    let mut text = Vec::new(alloc);
    text.extend_from_slice(b"accepted\n")?;
    Ok(text)
}

/// What is said of a search that used its budget up.
pub fn spent_message(alloc: Global, budget: u32) -> Result<Vec<u8>, NoMemory>
    ensures { IfOk result (λ m. m.items ≡ message_of_spent budget) }
{
    let mut message = Vec::from_slice(alloc, b"amphion: budget of ")?;
    message.extend_from_slice(budget.to_string(alloc)?.as_bytes())?;
    message.extend_from_slice(b" inferences used up")?;
    message.extend_from_slice(b"\n")?;
    Ok(message)
}

/// What is said of a search that has nothing left to try, after so many inferences.
pub fn exhausted_message(alloc: Global, made: usize) -> Result<Vec<u8>, NoMemory>
    ensures { IfOk result (λ m. m.items ≡ message_of_exhausted made) }
{
    let mut message = Vec::from_slice(alloc, b"amphion: nothing left after ")?;
    message.extend_from_slice(made.to_string(alloc)?.as_bytes())?;
    message.extend_from_slice(b" inferences\n")?;
    Ok(message)
}

/// What is said where givens and axioms contradict each other, after so many inferences.
pub fn contradiction_message(alloc: Global, made: usize) -> Result<Vec<u8>, NoMemory>
    ensures { IfOk result (λ m. m.items ≡ message_of_contradiction made) }
{
    let mut message = Vec::from_slice(alloc, b"amphion: givens and axioms contradict after ")?;
    message.extend_from_slice(made.to_string(alloc)?.as_bytes())?;
    message.extend_from_slice(b" inferences\n")?;
    Ok(message)
}

/// What is said of a text that is longer than may be printed.
pub fn long_message(alloc: Global, limit: usize) -> Result<Vec<u8>, NoMemory>
    ensures { IfOk result (λ m. m.items ≡ message_of_long limit) }
{
    let mut message = Vec::from_slice(alloc, b"amphion: printed text longer than ")?;
    message.extend_from_slice(limit.to_string(alloc)?.as_bytes())?;
    message.extend_from_slice(b" bytes\n")?;
    Ok(message)
}

/// What is said of a text that isn't accepted: the line of its first fault, and why.
#[tactic(auto, unfolding(crate::specs::Messages::refused_message))]
pub fn refused_message(alloc: Global, line: u32, why: &Reason) -> Result<Vec<u8>, NoMemory>
    ensures { IfOk result (λ m. m.items ≡ message_of_refusal line why.now) }
{
    let mut message = Vec::from_slice(alloc, b"amphion: refused at line ")?;
    message.extend_from_slice(line.to_string(alloc)?.as_bytes())?;
    message.extend_from_slice(b": ")?;
    push_reason(&mut message, why)?;
    message.extend_from_slice(b"\n")?;
    Ok(message)
}

fn push_reason(message: &mut Vec<u8>, why: &Reason) -> Result<(), NoMemory>
    ensures { OnOk result (message.new.items ≡ message.old.items ++ words_of_reason why.now) }
{
    match why {
        Reason::Log(kind) => push_words(message, log_words(*kind)),
        Reason::NoSuchParent => push_words(message, b"no such parent"),
        Reason::BadPlace => push_words(message, b"bad place"),
        Reason::BadBindings => push_words(message, b"bad bindings"),
        Reason::NotEqual => push_words(message, b"parts differ"),
        Reason::AnswersDiffer => push_words(message, b"answers differ"),
        Reason::WrongConclusion => push_words(message, b"wrong conclusion"),
        Reason::NotFinal => push_words(message, b"proof is not finished"),
        Reason::Unit(kind) => push_words(message, unit_words(*kind)),
        Reason::Exec(kind) => push_exec(message, kind),
        Reason::Differs => push_words(message, b"program differs from proof"),
    }
}

fn push_exec(message: &mut Vec<u8>, kind: &ExecKind) -> Result<(), NoMemory>
    ensures { OnOk result (message.new.items ≡ message.old.items ++ words_of_exec kind.now) }
{
    match kind {
        ExecKind::NotSet(name) => {
            push_words(message, name.as_str().as_bytes())?;
            push_words(message, b" is not set")
        }
        ExecKind::UnknownRoutine => push_words(message, b"unknown routine"),
        ExecKind::WrongCount => push_words(message, b"wrong number of arguments"),
        ExecKind::WrongSort => push_words(message, b"wrong sort"),
        ExecKind::SetTwice => push_words(message, b"variable set twice"),
        ExecKind::BadDeclaration => push_words(message, b"bad declaration"),
        ExecKind::OutputNotSet => push_words(message, b"output not set"),
        ExecKind::TooLarge => push_words(message, b"term too large"),
        ExecKind::NoMemory => push_words(message, b"no memory"),
    }
}

fn push_words(message: &mut Vec<u8>, words: &[u8]) -> Result<(), NoMemory>
    ensures { OnOk result (message.new.items ≡ message.old.items ++ words.now) }
{
    message.extend_from_slice(words)?;
    Ok(())
}

// The word by which a message names a file.
fn word_of(file: File) -> &'static [u8]
    ensures { result.now ≡ word_of_file file }
{
    match file {
        File::Theory => b"theory",
        File::Diagram => b"diagram",
        File::Text => b"text",
    }
}

fn at_byte(alloc: Global, file: File, place: u32, words: &[u8]) -> Result<Vec<u8>, NoMemory>
    ensures { IfOk result (λ m. m.items ≡ message_at_byte file place words.now) }
{
    let mut message = started(alloc, file)?;
    push_place(alloc, &mut message, place)?;
    message.extend_from_slice(words)?;
    message.extend_from_slice(b"\n")?;
    Ok(message)
}

fn started(alloc: Global, file: File) -> Result<Vec<u8>, NoMemory>
    ensures { IfOk result (λ m. m.items ≡ codes "amphion: " ++ word_of_file file) }
{
    let mut message = Vec::new(alloc);
    message.extend_from_slice(b"amphion: ")?;
    message.extend_from_slice(word_of(file))?;
    Ok(message)
}

fn push_place(alloc: Global, message: &mut Vec<u8>, place: u32) -> Result<(), NoMemory>
    ensures { OnOk result (message.new.items ≡ message.old.items ++ codes ": byte " ++ decimal place ++ codes ": ") }
{
    message.extend_from_slice(b": byte ")?;
    message.extend_from_slice(place.to_string(alloc)?.as_bytes())?;
    message.extend_from_slice(b": ")?;
    Ok(())
}

fn text_words(kind: TextKind) -> &'static [u8]
    ensures { result.now ≡ words_of_text kind }
{
    match kind {
        TextKind::BadByte => b"bad byte",
        TextKind::Unclosed => b"unclosed form",
        TextKind::Unopened => b"unopened parenthesis",
        TextKind::TooDeep => b"nested too deep",
        TextKind::BadAtom => b"bad atom",
        TextKind::TooLong => b"too long",
        TextKind::NoMemory => b"no memory",
    }
}

fn theory_words(kind: TheoryKind) -> &'static [u8]
    ensures { result.now ≡ words_of_theory kind }
{
    match kind {
        TheoryKind::Text(kind) => text_words(kind),
        TheoryKind::BadHead => b"bad form",
        TheoryKind::Version => b"unknown version",
        TheoryKind::UnknownName => b"unknown name",
        TheoryKind::Twice => b"declared twice",
        TheoryKind::BadSort => b"bad sort",
        TheoryKind::BadArity => b"bad number of arguments",
        TheoryKind::BadRep => b"bad representation",
        TheoryKind::NoCopy => b"no copy routine",
        TheoryKind::BadFortranName => b"bad FORTRAN name",
        TheoryKind::NameClash => b"FORTRAN name used twice",
        TheoryKind::Unbound => b"unbound name",
        TheoryKind::Quantifier => b"quantifier inside a formula",
        TheoryKind::Limit => b"over a limit",
        TheoryKind::NoMemory => b"no memory",
    }
}

fn diagram_words(kind: DiagramKind) -> &'static [u8]
    ensures { result.now ≡ words_of_diagram kind }
{
    match kind {
        DiagramKind::Text(kind) => text_words(kind),
        DiagramKind::BadHead => b"bad form",
        DiagramKind::UnknownName => b"unknown name",
        DiagramKind::Twice => b"declared twice",
        DiagramKind::BadSort => b"bad sort",
        DiagramKind::BadArity => b"bad number of arguments",
        DiagramKind::NotConcrete => b"sort has no representation",
        DiagramKind::BadFortranName => b"bad FORTRAN name",
        DiagramKind::ReservedName => b"reserved name",
        DiagramKind::Unbound => b"unbound name",
        DiagramKind::Limit => b"over a limit",
        DiagramKind::NoOutput => b"no output",
        DiagramKind::NoRequire => b"no requirement",
        DiagramKind::NoMemory => b"no memory",
    }
}

fn log_words(kind: LogKind) -> &'static [u8]
    ensures { result.now ≡ words_of_log kind }
{
    match kind {
        LogKind::NotProof => b"not a proof",
        LogKind::BadWrap => b"bad line",
        LogKind::BadRow => b"bad row",
        LogKind::BadNumber => b"bad row number",
        LogKind::UnknownName => b"unknown name",
        LogKind::BadSort => b"bad sort",
        LogKind::NoMemory => b"no memory",
    }
}

fn unit_words(kind: UnitKind) -> &'static [u8]
    ensures { result.now ≡ words_of_unit kind }
{
    match kind {
        UnitKind::Cut => b"text is cut",
        UnitKind::BadStatement => b"bad statement",
        UnitKind::Order => b"statement out of order",
        UnitKind::NoMemory => b"no memory",
    }
}
