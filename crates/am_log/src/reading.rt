ghost use Rattle.std.specs.Prelude.{◌≡◌, ◌≢◌, ◌≤◌, ◌⊎◌, ℕ, IfOk, IfErr, MatchResult, length, Err, Ok};
ghost use Rattle.am_diagram.specs.Listed.{entry_sorts};
ghost use Rattle.am_theory.specs.Facts.{WellFormed};
ghost use Rattle.am_diagram.specs.Facts.{WellFormed as WellDrawn};
ghost use Rattle.am_clause.specs.declared.row.Log.{Log};
ghost use Rattle.am_log.specs.declared.fault.LogKind.{LogKind};
ghost use Rattle.am_log.specs.declared.fault.LogKind.TheVariants.{NoMemory as OutOfMemory};
ghost use Rattle.am_log.specs.Tables.{table_names};
ghost use Rattle.am_log.specs.Naming.{known_names};
ghost use Rattle.am_log.specs.Text.{byte_limit, proof_line, log_text, HasText};
ghost use Rattle.std.specs.Str.{bytes_eq};
ghost use Rattle.am_log.specs.Groups.{groups, is_inside};
ghost use Rattle.std.specs.List.{prefix_len};
ghost use Rattle.am_log.specs.Answers.{group_row as row_answered, row_of_named as row_by_names, rows_in as rows_answered, head_fault as fault_of_head, begins_proof as head_is, log_answer};
ghost use Rattle.am_log.specs.Faults.{lines_in as lines_ended, IsFault};

use crate::fault::{LogFault, LogKind};
use crate::groups::{is_wrapped, split_group, unwrapped};
use crate::named::NamedRow;
use crate::resolving::{has_unknown_row, resolved_row};
use crate::sorting::is_sorted_row;
use crate::spelled::row_of;
use crate::tables::{Tables, tables_of};
use am_clause::{Log, Row};
use am_diagram::Diagram;
use am_term::{Ctx, NoMemory};
use am_theory::Theory;
use sqlite_items::Items;
use std::alloc::Global;

/// The log whose text the bytes are, else the first fault: the first line of the first bad group and
/// the first kind that holds there. The text is this project's own. `NoMemory`, with line 0, where no
/// memory is left.
pub fn read_log(
    alloc: Global,
    theory: &Theory,
    diagram: &Diagram,
    bytes: &[u8],
) -> Result<Log, LogFault>
    requires small { length bytes.now ≤ byte_limit }
    requires theory { WellFormed theory.now }
    requires diagram { WellDrawn theory.now diagram.now }
    // What is read is the log of this text.
    ensures found { IfOk result (λ log. HasText theory.now diagram.now log
        × (bytes.now ≡ log_text theory.now diagram.now log)) }
    // The text of a log is read, unless memory runs out.
    ensures again { (log : Log) → HasText theory.now diagram.now log → bytes.now ≡ log_text theory.now diagram.now log
        → MatchResult result (λ read. read ≡ log) (λ fault. fault.kind ≡ OutOfMemory) }
    // A fault is the first.
    ensures fault { IfErr result (λ fault. fault.kind ≢ OutOfMemory
        → IsFault theory.now diagram.now bytes.now fault.line fault.kind) }
    // The first fault is answered, unless memory runs out.
    ensures first { (line : ℕ) (kind : LogKind) → IsFault theory.now diagram.now bytes.now line kind
        → MatchResult result (λ _. ⊥) (λ fault. (fault.kind ≡ OutOfMemory)
        ⊎ ((fault.line ≡ line) × (fault.kind ≡ kind))) }
{
    match answer(alloc, theory, diagram, bytes) {
        Ok(Ok(rows)) => Ok(Log { rows }),
        Ok(Err((line, kind))) => Err(LogFault { line, kind }),
        Err(NoMemory) => Err(LogFault {
            line: 0,
            kind: LogKind::NoMemory,
        }),
    }
}

fn answer(
    alloc: Global,
    theory: &Theory,
    diagram: &Diagram,
    bytes: &[u8],
) -> Result<Result<Items<Row>, (u32, LogKind)>, NoMemory>
    requires { length bytes.now ≤ byte_limit }
    ensures { IfOk result (λ r. r ≡ log_answer (known_names theory.now diagram.now) theory.now.sig
        (entry_sorts diagram.now.inputs) bytes.now) }
{
    let tables = tables_of(alloc, theory, diagram)?;
    let ctx = Ctx {
        sig: &theory.sig,
        ins: tables.ins.as_slice(),
    };
    table_answer(alloc, &ctx, &tables, bytes)
}

#[tactic(auto, using(crate::proofs::ReadSteps::answer_laws))]
fn table_answer(
    alloc: Global,
    ctx: &Ctx,
    tables: &Tables,
    bytes: &[u8],
) -> Result<Result<Items<Row>, (u32, LogKind)>, NoMemory>
    requires { length bytes.now ≤ byte_limit }
    ensures { IfOk result (λ r. r ≡ log_answer (table_names tables.now) ctx.now.sig.now ctx.now.ins.now bytes.now) }
{
    if bytes.is_empty() {
        return Ok(Err((1, LogKind::NotProof)));
    }
    let (head, behind) = split_group(bytes);
    if is_first(head) {
        let read = rows(alloc, ctx, tables, behind)?;
        return Ok(read);
    }
    let kind = head_fault(alloc, head)?;
    Ok(Err((1, kind)))
}

#[tactic(auto, unfolding(crate::specs::Unwrapped::unwrapped_text))]
fn head_fault(alloc: Global, head: &[u8]) -> Result<LogKind, NoMemory>
    ensures { IfOk result (λ kind. kind ≡ fault_of_head head.now) }
{
    if !is_headed(head) {
        return Ok(LogKind::NotProof);
    }
    let text = unwrapped(alloc, head)?;
    if is_wrapped(alloc, text.as_slice(), head)? {
        Ok(LogKind::BadRow)
    } else {
        Ok(LogKind::BadWrap)
    }
}

fn is_first(head: &[u8]) -> bool
    ensures { result ≡ bytes_eq head.now proof_line }
{
    head == b"C (proof 1)\n".as_slice()
}

fn is_headed(head: &[u8]) -> bool
    ensures { result ≡ head_is head.now }
{
    let line = &head[..line_length(head)];
    line == b"C (proof 1)".as_slice()
}

/// How many bytes the first line has without the one that ends it.
fn line_length(bytes: &[u8]) -> usize
    ensures value { result ≡ prefix_len is_inside bytes.now }
    ensures within { result ≤ length bytes.now }
{
    let mut rest = bytes;
    let mut count: usize = 0;
    while let [byte, behind @ ..] = rest {
        if *byte == b'\n' {
            return count;
        }
        count += 1;
        rest = behind;
    }
    count
}

/// The rows that the groups are, or the first fault.
#[tactic(auto, using(crate::proofs::ReadSteps::row_laws))]
fn rows(
    alloc: Global,
    ctx: &Ctx,
    tables: &Tables,
    bytes: &[u8],
) -> Result<Result<Items<Row>, (u32, LogKind)>, NoMemory>
    requires { length bytes.now ≤ byte_limit }
    ensures { IfOk result (λ r. r ≡ rows_answered (table_names tables.now) ctx.now.sig.now ctx.now.ins.now 1 2
        (groups bytes.now)) }
{
    let mut made = Items::new(alloc);
    let mut rest = bytes;
    let mut number: u32 = 1;
    let mut line: u32 = 2;
    while rest.len() > 0 {
        let (group, behind) = split_group(rest);
        match group_row(alloc, ctx, tables, number, group)? {
            Ok(row) => made.push(row)?,
            Err(kind) => return Ok(Err((line, kind))),
        }
        number += 1;
        line += lines_in(group) as u32;
        rest = behind;
    }
    Ok(Ok(made))
}

fn lines_in(group: &[u8]) -> usize
    ensures value { result ≡ lines_ended group.now }
    ensures within { result ≤ length group.now }
{
    let mut rest = group;
    let mut count: usize = 0;
    while let [byte, behind @ ..] = rest {
        if *byte == b'\n' {
            count += 1;
        }
        rest = behind;
    }
    count
}

/// The row of this number that the group is, or the first kind of fault that holds of it.
#[tactic(auto, unfolding(crate::specs::Answers::group_row, crate::specs::Unwrapped::unwrapped_text))]
fn group_row(
    alloc: Global,
    ctx: &Ctx,
    tables: &Tables,
    number: u32,
    group: &[u8],
) -> Result<Result<Row, LogKind>, NoMemory>
    ensures { IfOk result (λ r. r ≡ row_answered
        (table_names tables.now) ctx.now.sig.now ctx.now.ins.now number group.now) }
{
    let text = unwrapped(alloc, group)?;
    if !is_wrapped(alloc, text.as_slice(), group)? {
        return Ok(Err(LogKind::BadWrap));
    }
    let Some(row) = row_of(alloc, text.as_slice())? else {
        return Ok(Err(LogKind::BadRow));
    };
    row_of_named(alloc, ctx, tables, number, row)
}

fn row_of_named(
    alloc: Global,
    ctx: &Ctx,
    tables: &Tables,
    number: u32,
    row: NamedRow,
) -> Result<Result<Row, LogKind>, NoMemory>
    ensures { IfOk result (λ r. r ≡ row_by_names (table_names tables.now) ctx.now.sig.now ctx.now.ins.now number row) }
{
    if row.number != number {
        return Ok(Err(LogKind::BadNumber));
    }
    if has_unknown_row(tables, &row) {
        return Ok(Err(LogKind::UnknownName));
    }
    let row = resolved_row(alloc, tables, row)?;
    if is_sorted_row(ctx, &row) {
        Ok(Ok(row))
    } else {
        Ok(Err(LogKind::BadSort))
    }
}
