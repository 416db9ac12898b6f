ghost use Rattle.std.specs.Prelude.{◌≡◌, ◌≢◌, ◌⊎◌, ◌++◌, ◌-◌, ◌<◌, ◌≤◌, [], ◌∷◌, true, length, take, slice_index, codes};
ghost use Rattle.am_outside.specs.Causes.{Rose};
ghost use Rattle.am_outside.specs.Growth.{Grows, GrowsByPart};
ghost use Rattle.am_top.specs.Words.{inline};
ghost use Rattle.am_top.specs.Answers.{text_of, message_of, status_of, status_at as status_of_refusal, page, Failed};
ghost use Rattle.am_top.specs.Messages.{cannot_read, cannot_write};

use crate::answer::{Answer, File, Refusal};
use crate::status::Status;
use am_outside::{Put, Sink};

/// Puts an answer: its text on `out` line by line, or its message on `err`. The status is that of the
/// answer, or `Write` where a put failed.
#[tactic(auto, using(crate::proofs::Growth::print_laws))]
pub fn print<O: Sink, E: Sink>(out: &mut O, err: &mut E, answer: &Answer) -> Status
    ensures status { (result ≡ status_of answer.now) ⊎ (result ≡ Status.Write) }
    ensures text { result ≢ Status.Write → Grows (O.held out.old) (O.held out.new) (text_of answer.now) }
    ensures message { result ≢ Status.Write → Grows (E.held err.old) (E.held err.new) (message_of answer.now) }
    ensures out_kept { result ≢ Status.Write → O.faults out.new ≡ O.faults out.old }
    ensures err_kept { result ≢ Status.Write → E.faults err.new ≡ E.faults err.old }
    ensures failed { result ≡ Status.Write
        → Failed answer.now (page (O.held out.old) (O.faults out.old)) (page (O.held out.new) (O.faults out.new))
        (page (E.held err.old) (E.faults err.old)) (page (E.held err.new) (E.faults err.new)) }
{
    match answer {
        Answer::Text(text) => print_text(out, err, text.as_slice()),
        Answer::Usage => refuse(
            err,
            b"usage: amphion make THEORY DIAGRAM [--budget N] [--weight W] [--choose weight|age|mixed]\n       amphion check THEORY DIAGRAM TEXT\n       amphion theory THEORY\n       amphion demo K\n",
            Status::Usage,
        ),
        Answer::Refused(refusal, message) => refuse(err, message.as_slice(), status_at(*refusal)),
        Answer::Unread(file) => refuse(err, not_read(*file), Status::Read),
        Answer::NoMemory => refuse(err, b"amphion: no memory\n", Status::NoMemory),
    }
}

// The status of a refusal, which is never that of a failed put.
fn status_at(refusal: Refusal) -> Status
    ensures is { result ≡ status_of_refusal refusal }
    ensures other { result ≢ Status.Write }
{
    match refusal {
        Refusal::File => Status::File,
        Refusal::Text => Status::Refused,
        Refusal::Spent => Status::Spent,
        Refusal::Exhausted => Status::Exhausted,
        Refusal::Contradiction => Status::Contradiction,
        Refusal::Long => Status::Long,
    }
}

fn not_read(file: File) -> &'static [u8]
    ensures { result.now ≡ cannot_read file }
{
    match file {
        File::Theory => b"amphion: cannot read theory\n",
        File::Diagram => b"amphion: cannot read diagram\n",
        File::Text => b"amphion: cannot read text\n",
    }
}

// Puts a message. The status is `Write` where the put failed.
fn refuse<E: Sink>(err: &mut E, message: &[u8], status: Status) -> Status
    requires { status ≢ Status.Write }
    ensures status { (result ≡ status) ⊎ (result ≡ Status.Write) }
    ensures told { result ≢ Status.Write → Grows (E.held err.old) (E.held err.new) message.now }
    ensures part { result ≡ Status.Write → GrowsByPart (E.held err.old) (E.held err.new) message.now }
    ensures failed { result ≡ Status.Write → Rose (E.faults err.old) (E.faults err.new) }
    ensures kept { result ≢ Status.Write → E.faults err.new ≡ E.faults err.old }
{
    match err.put(message) {
        Put::Done => status,
        Put::Failed => Status::Write,
    }
}

// Puts a text line by line, or says that it can't be written.
#[tactic(auto, using(crate::proofs::Growth::print_laws))]
fn print_text<O: Sink, E: Sink>(out: &mut O, err: &mut E, text: &[u8]) -> Status
    ensures status { (result ≡ Status.Ok) ⊎ (result ≡ Status.Write) }
    ensures text { result ≢ Status.Write → Grows (O.held out.old) (O.held out.new) text.now }
    ensures message { result ≢ Status.Write → Grows (E.held err.old) (E.held err.new) [] }
    ensures text_part { result ≡ Status.Write → GrowsByPart (O.held out.old) (O.held out.new) text.now }
    ensures message_part { result ≡ Status.Write → GrowsByPart (E.held err.old) (E.held err.new) cannot_write }
    ensures message_whole { result ≡ Status.Write → (Rose (E.faults err.old) (E.faults err.new) → ⊥)
        → Grows (E.held err.old) (E.held err.new) cannot_write }
    ensures write { result ≡ Status.Write → Rose (O.faults out.old) (O.faults out.new) }
    ensures out_kept { result ≢ Status.Write → O.faults out.new ≡ O.faults out.old }
    ensures err_kept { result ≢ Status.Write → E.faults err.new ≡ E.faults err.old }
{
    match put_lines(out, text) {
        Put::Done => Status::Ok,
        Put::Failed => {
            complain(err);
            Status::Write
        }
    }
}

// Says that a text can't be written, as far as that can be said.
#[tactic(auto, using(crate::proofs::Growth::grows_by_all))]
fn complain<E: Sink>(err: &mut E)
    ensures part { GrowsByPart (E.held err.old) (E.held err.new) cannot_write }
    ensures whole { (Rose (E.faults err.old) (E.faults err.new) → ⊥)
        → Grows (E.held err.old) (E.held err.new) cannot_write }
{
    let _put = err.put(b"amphion: cannot write\n");
}

// Puts a text line by line, one line a put, up to the first that fails.
fn put_lines<O: Sink>(out: &mut O, text: &[u8]) -> Put
    ensures done { result ≡ Put.Done → Grows (O.held out.old) (O.held out.new) text.now }
    ensures part { result ≡ Put.Failed → GrowsByPart (O.held out.old) (O.held out.new) text.now }
    ensures failed { result ≡ Put.Failed → Rose (O.faults out.old) (O.faults out.new) }
    ensures kept { result ≡ Put.Done → O.faults out.new ≡ O.faults out.old }
{
    let mut at = 0;
    while at < text.len() {
        let end = at + line_length(&text[at..]);
        match out.put(&text[at..end]) {
            Put::Done => at = end,
            Put::Failed => return Put::Failed,
        }
    }
    Put::Done
}

// How many bytes the first line has, with the byte that ends it.
#[tactic(auto, using(crate::proofs::Growth::line_laws))]
fn line_length(text: &[u8]) -> usize
    requires { 0 < length text.now }
    ensures some { 0 < result }
    ensures within { result ≤ length text.now }
    ensures inline { inline (take (result - 1) text.now) ≡ true }
    ensures ended { result < length text.now → slice_index text.now (result - 1) ≡ 10 }
{
    let mut count = 1;
    while count < text.len() && text[count - 1] != b'\n' {
        count += 1;
    }
    count
}
