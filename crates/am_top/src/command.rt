ghost use Rattle.std.specs.Prelude.{◌≡◌, ◌≢◌, ◌⊎◌, ◌<◌, ◌≤◌, ℕ, None, Ok, List, length, map};
ghost use Rattle.am_outside.specs.Causes.{Rose};
ghost use Rattle.am_outside.specs.Growth.{Grows};
ghost use Rattle.am_world.specs.Truth.{Models};
ghost use Rattle.am_theory.specs.declared.theory.Theory.{Theory};
ghost use Rattle.am_theory.specs.Contents.{Contents};
ghost use Rattle.am_canon.specs.CanonicalText.{canon};
ghost use Rattle.am_theory.specs.Reading.{theory as theory_of};
ghost use Rattle.am_diagram.specs.Steps.{formulas_of};
ghost use Rattle.am_diagram.specs.declared.diagram.Diagram.{Diagram};
ghost use Rattle.am_exec.specs.Right.{Right};
ghost use Rattle.am_clause.specs.declared.row.Log.{Log};
ghost use Rattle.am_product.specs.Product.{IsProduct};
ghost use Rattle.am_search.specs.Plain.{History};
ghost use Rattle.am_search.specs.declared.fate.End.{End};
ghost use Rattle.am_log.specs.Text.{byte_limit as text_limit};
ghost use Rattle.am_check.specs.Accepted.{Accepted};
ghost use Rattle.am_top.specs.declared.answer.Answer.{Answer};
ghost use Rattle.am_top.specs.Answers.{text_of, message_of, status_of, page, Failed};
ghost use Rattle.am_top.specs.Commands.{AllSure, HasAnswer};
ghost use Rattle.am_top.specs.Messages.{accepted_text, spent_message, exhausted_message, contradiction_message, long_message};
ghost use Rattle.am_top.specs.Clauses.{command_in, WhereNoneRose, WhereMade, WhereChecked, WhereShown, WhereDemonstrated, WhereSearched, IsSearch, IsMake, IsCheck, AreRead, IsMade, IsTooLong, IsDemonstrated, IsSpent, HasEnded, IsContradiction, IsFound, IsHistoryOf, Comes, IsAccepted, IsRefused, SaysFileFault, SaysTheoryFault, SaysDiagramFault, SaysDemoFault};
ghost use Rattle.am_search.specs.declared.fate.End.TheVariants as end;

use crate::answering::answer_words;
use crate::printing::print;
use crate::status::Status;
use am_agenda::Chooser;
use am_check::{law_of_acceptance, law_of_refusal};
use am_diagram::diagrams_that_were_read_are_well_formed;
use am_lineage::law_of_ancestry;
use am_outside::{Library, Sink};
use am_product::law_of_one_product;
use am_search::{law_of_entries, law_of_history};
use am_theory::theories_that_were_read_are_well_formed;
use am_world::World;
use std::alloc::Global;

/// Carries out the command that the words are. `make THEORY DIAGRAM` searches for a proof of the diagram's theorem
/// over the theory, with options for the budget of inferences, the limit of weight and the chooser, and prints the
/// proof and the subroutine that it stands for on `out`; `check THEORY DIAGRAM TEXT` examines such a text; `theory
/// THEORY` prints the theory's canonical text; `demo K` sums a search of size K up. Messages go to `err`. The answer is
/// the exit status. The choosers are, in order, those for `weight`, `age` and `mixed`; all are dropped. `world` is any
/// interpretation: it is in the contract alone.
pub fn run<L: Library, O: Sink, E: Sink, W: World>(
    alloc: Global,
    words: &[String],
    library: &mut L,
    out: &mut O,
    err: &mut E,
    choosers: Vec<Box<dyn Chooser>>,
    world: &W,
) -> Status
    requires { length choosers.items ≡ 3 }
    // Status, text and message are those of the one answer that the words and the files have.
    ensures answered { result ≢ Status.Write → (answer : Answer)
        × HasAnswer (L.told library.old) (L.sure library.old) (map pick_after choosers.items)
        (command_in words.now) answer
        × (result ≡ status_of answer) × Grows (O.held out.old) (O.held out.new) (text_of answer)
        × Grows (E.held err.old) (E.held err.new) (message_of answer) }
    // Where a put failed, a part of them was put.
    ensures at_fault { result ≡ Status.Write → (answer : Answer)
        × HasAnswer (L.told library.old) (L.sure library.old) (map pick_after choosers.items)
        (command_in words.now) answer
        × Failed answer (page (O.held out.old) (O.faults out.old)) (page (O.held out.new) (O.faults out.new))
        (page (E.held err.old) (E.faults err.old)) (page (E.held err.new) (E.faults err.new)) }
    // What `make` printed is the product of the one history of the plain search; it is accepted, and its subroutine is
    // right in every model of the axioms, so in the interpretation that is handed in.
    ensures printed { result ≡ Status.Ok
        → WhereMade (command_in words.now) (L.told library.old) (map pick_after choosers.items) (λ a b limits pick.
        (text : List ℕ) × IsMade a b limits pick text × Grows (O.held out.old) (O.held out.new) text) }
    ensures right { result ≡ Status.Ok
        → WhereMade (command_in words.now) (L.told library.old) (map pick_after choosers.items) (λ a b limits pick.
        (text : List ℕ) (made : IsMade a b limits pick text)
        → Models made.t.sig (formulas_of made.t) (W.meaning world.now)
        → Right (W.meaning world.now) made.t made.d made.printed.2.unit) }
    // The budget is used up where the plain search made as many inferences and another is due.
    ensures spent { result ≡ Status.Spent
        → WhereSearched (command_in words.now) (L.told library.old) (map pick_after choosers.items) (λ a b limits pick.
        IsSpent a b limits pick × Grows (E.held err.old) (E.held err.new) (spent_message limits.budget)) }
    // Nothing is left to try where the plain search ends so.
    ensures exhausted { result ≡ Status.Exhausted
        → WhereSearched (command_in words.now) (L.told library.old) (map pick_after choosers.items) (λ a b limits pick.
        (made : ℕ) × HasEnded a b limits pick end.Exhausted made
        × Grows (E.held err.old) (E.held err.new) (exhausted_message made)) }
    // Givens and axioms contradict each other where it ends so; then no inputs meet the givens in any model of the
    // axioms.
    ensures contradiction { result ≡ Status.Contradiction
        → WhereSearched (command_in words.now) (L.told library.old) (map pick_after choosers.items) (λ a b limits pick.
        (made : ℕ) × IsContradiction a b limits pick made
        × Grows (E.held err.old) (E.held err.new) (contradiction_message made)) }
    ensures searched_by { (result ≡ Status.Spent) ⊎ (result ≡ Status.Exhausted) ⊎ (result ≡ Status.Contradiction)
        → IsSearch (command_in words.now) }
    // The product of what `make` found is longer than a text may be.
    ensures long { result ≡ Status.Long
        → WhereMade (command_in words.now) (L.told library.old) (map pick_after choosers.items) (λ a b limits pick.
        IsTooLong a b limits pick × Grows (E.held err.old) (E.held err.new) (long_message text_limit)) }
    ensures long_by { result ≡ Status.Long → IsMake (command_in words.now) }
    // What `demo` printed sums up what the plain search of its files found.
    ensures demonstrated { result ≡ Status.Ok
        → WhereDemonstrated (command_in words.now) (map pick_after choosers.items) (λ k pick.
        (text : List ℕ) × IsDemonstrated k pick text × Grows (O.held out.old) (O.held out.new) text) }
    // What `check` accepted is a proof and the unit of its answer, and that unit is right in every model of the axioms.
    ensures accepted { result ≡ Status.Ok
        → WhereChecked (command_in words.now) (L.told library.old) (λ a b x.
        IsAccepted a b x × Grows (O.held out.old) (O.held out.new) accepted_text) }
    // What it refused isn't accepted, and the message tells the first fault; only `check` is refused so.
    ensures refused { result ≡ Status.Refused
        → WhereChecked (command_in words.now) (L.told library.old) (λ a b x.
        (message : List ℕ) × IsRefused a b x message × Grows (E.held err.old) (E.held err.new) message) }
    ensures refused_by { result ≡ Status.Refused → IsCheck (command_in words.now) }
    // What `theory` printed is the canonical text of the theory that the file is.
    ensures shown { result ≡ Status.Ok
        → WhereShown (command_in words.now) (L.told library.old) (λ a.
        (c : Contents) × (theory_of a ≡ Ok c) × Grows (O.held out.old) (O.held out.new) (canon c)) }
    ensures usage { result ≡ Status.Usage → command_in words.now ≡ None }
    ensures no_reading { command_in words.now ≡ None → (result ≡ Status.Usage) ⊎ (result ≡ Status.Write)
        ⊎ (result ≡ Status.NoMemory) }
    // A file of `make` is too long or has a fault, of which the message tells.
    ensures file_of_make { result ≡ Status.File
        → WhereMade (command_in words.now) (L.told library.old) (map pick_after choosers.items) (λ a b limits pick.
        (message : List ℕ) × (SaysTheoryFault a message ⊎ SaysDiagramFault a b message)
        × Grows (E.held err.old) (E.held err.new) message) }
    // So is the file of `theory`.
    ensures file_of_theory { result ≡ Status.File
        → WhereShown (command_in words.now) (L.told library.old) (λ a.
        (message : List ℕ) × SaysTheoryFault a message × Grows (E.held err.old) (E.held err.new) message) }
    // So is a file of `check`.
    ensures file_of_check { result ≡ Status.File
        → WhereChecked (command_in words.now) (L.told library.old) (λ a b x.
        (message : List ℕ) × SaysFileFault a b x message × Grows (E.held err.old) (E.held err.new) message) }
    // A file of `demo` would have a fault, of which the message tells.
    ensures file_of_demo { result ≡ Status.File
        → WhereDemonstrated (command_in words.now) (map pick_after choosers.items) (λ k pick.
        (message : List ℕ) × SaysDemoFault k message × Grows (E.held err.old) (E.held err.new) message) }
    ensures read { result ≡ Status.Read → Rose (L.faults library.old) (L.faults library.new) }
    ensures not_read { result ≢ Status.Read → result ≢ Status.Write → L.faults library.new ≡ L.faults library.old }
    // Where all files that the words name are sure, the library has no fault, whatever the status.
    ensures sure { AllSure (command_in words.now) (L.sure library.old) → result ≢ Status.Read }
    ensures calm { AllSure (command_in words.now) (L.sure library.old) → L.faults library.new ≡ L.faults library.old }
    ensures write { result ≡ Status.Write → Rose (O.faults out.old) (O.faults out.new)
        ⊎ Rose (E.faults err.old) (E.faults err.new) }
    ensures not_write { result ≢ Status.Write → (O.faults out.new ≡ O.faults out.old)
        × (E.faults err.new ≡ E.faults err.old) }
    ensures nothing { result ≢ Status.Ok → result ≢ Status.Write → O.held out.new ≡ O.held out.old }
    // Without a cause nothing is refused: a search ends as the plain search does.
    ensures complete { WhereSearched (command_in words.now) (L.told library.old) (map pick_after choosers.items)
        (λ a b limits pick. (t : Theory) (d : Diagram) (h : History) (e : End) → AreRead a b t d
        → IsHistoryOf t d limits pick h e
        → WhereNoneRose (L.faults library.old) (L.faults library.new) (O.faults out.old) (O.faults out.new)
        (E.faults err.old) (E.faults err.new) (Comes e result)) }
    // What it finds is printed, or too long, as its product is.
    ensures complete_product { WhereMade (command_in words.now) (L.told library.old) (map pick_after choosers.items)
        (λ a b limits pick. (t : Theory) (d : Diagram) (h : History) (log : Log) (text : List ℕ)
        → IsFound a b limits pick t d h log
        → IsProduct t d log text → length text ≤ text_limit
        → WhereNoneRose (L.faults library.old) (L.faults library.new) (O.faults out.old) (O.faults out.new)
        (E.faults err.old) (E.faults err.new) ((result ≡ Status.Ok) ⊎ (result ≡ Status.NoMemory))) }
    ensures complete_long { WhereMade (command_in words.now) (L.told library.old) (map pick_after choosers.items)
        (λ a b limits pick. (t : Theory) (d : Diagram) (h : History) (log : Log) (text : List ℕ)
        → IsFound a b limits pick t d h log
        → IsProduct t d log text → text_limit < length text
        → WhereNoneRose (L.faults library.old) (L.faults library.new) (O.faults out.old) (O.faults out.new)
        (E.faults err.old) (E.faults err.new) ((result ≡ Status.Long) ⊎ (result ≡ Status.NoMemory))) }
    ensures complete_check { WhereChecked (command_in words.now) (L.told library.old)
        (λ a b x. (t : Theory) (d : Diagram) → AreRead a b t d → length x ≤ text_limit → Accepted t d x
        → WhereNoneRose (L.faults library.old) (L.faults library.new) (O.faults out.old) (O.faults out.new)
        (E.faults err.old) (E.faults err.new) ((result ≡ Status.Ok) ⊎ (result ≡ Status.NoMemory))) }
    ensures complete_refusal { WhereChecked (command_in words.now) (L.told library.old)
        (λ a b x. (t : Theory) (d : Diagram) → AreRead a b t d → length x ≤ text_limit → (Accepted t d x → ⊥)
        → WhereNoneRose (L.faults library.old) (L.faults library.new) (O.faults out.old) (O.faults out.new)
        (E.faults err.old) (E.faults err.new) ((result ≡ Status.Refused) ⊎ (result ≡ Status.NoMemory))) }
    ensures complete_theory { WhereShown (command_in words.now) (L.told library.old) (λ a. (c : Contents)
        → theory_of a ≡ Ok c
        → WhereNoneRose (L.faults library.old) (L.faults library.new) (O.faults out.old) (O.faults out.new)
        (E.faults err.old) (E.faults err.new) ((result ≡ Status.Ok) ⊎ (result ≡ Status.NoMemory))) }
    // No other status comes.
    ensures only { (result ≡ Status.Ok) ⊎ (result ≡ Status.Usage) ⊎ (result ≡ Status.File) ⊎ (result ≡ Status.Spent)
        ⊎ (result ≡ Status.Exhausted) ⊎ (result ≡ Status.Refused)
        ⊎ (result ≡ Status.Read) ⊎ (result ≡ Status.Write) ⊎ (result ≡ Status.NoMemory)
        ⊎ (result ≡ Status.Contradiction) ⊎ (result ≡ Status.Long) }
{
    theories_that_were_read_are_well_formed();
    diagrams_that_were_read_are_well_formed();
    law_of_acceptance();
    law_of_refusal();
    law_of_history();
    law_of_entries();
    law_of_ancestry();
    law_of_one_product();
    let answer = answer_words(alloc, words, library, choosers);
    print(out, err, &answer)
}
