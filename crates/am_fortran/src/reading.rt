ghost use Rattle.std.specs.Prelude.{◌≡◌, ◌≢◌, ◌<◌, ◌≤◌, ◌⊎◌, ℕ, length, IfOk, IfErr, MatchResult};
ghost use Rattle.am_fortran.specs.Text.{unit_text};
ghost use Rattle.am_fortran.specs.Units.{IsUnit};
ghost use Rattle.am_fortran.specs.Faults.{IsFault};
ghost use Rattle.am_fortran.specs.Drafts.{IsFirstItem, Unread, ReadsTo, TellsFault};
ghost use Rattle.am_fortran.specs.declared.unit.Unit.{Unit as Subroutine};
ghost use Rattle.am_fortran.specs.declared.fault.ReadError.TheVariants.{Fault};
ghost use Rattle.am_fortran.specs.declared.fault.UnitKind.{UnitKind};
ghost use Rattle.am_fortran.specs.declared.fault.UnitKind.TheVariants.{NoMemory};

use crate::draft::{Draft, Found, Progress};
use crate::fault::{ReadError, UnitFault, UnitKind};
use crate::lines::{ended, first_group};
use crate::spelled::item_of;
use crate::unit::Unit;
use std::alloc::Global;

/// The unit whose text the bytes are, else the first fault: the first line of the first bad group
/// and the first kind that holds there. The layout is this project's own. `NoMemory`, with line 0,
/// where no memory is left.
pub fn read_unit(alloc: Global, bytes: &[u8]) -> Result<Unit, UnitFault>
    requires { length bytes.now ≤ 16777216 }
    // What is read is the unit of this text.
    ensures found { IfOk result (λ unit. IsUnit unit × (bytes.now ≡ unit_text unit)) }
    // The text of a unit is read, unless memory runs out.
    ensures again { (u : Subroutine) → IsUnit u → bytes.now ≡ unit_text u
        → MatchResult result (λ unit. unit ≡ u) (λ fault. fault.kind ≡ NoMemory) }
    // A fault is the first.
    ensures fault { IfErr result (λ fault. fault.kind ≢ NoMemory → IsFault bytes.now fault.line fault.kind) }
    // The first fault is answered, unless memory runs out.
    ensures first { (line : ℕ) (kind : UnitKind) → IsFault bytes.now line kind
        → MatchResult result (λ _. ⊥) (λ fault. (fault.kind ≡ NoMemory) ⊎ ((fault.line ≡ line) × (fault.kind ≡ kind))) }
{
    match read(alloc, bytes) {
        Ok(unit) => Ok(unit),
        Err(ReadError::Memory) => Err(UnitFault {
            line: 0,
            kind: UnitKind::NoMemory,
        }),
        Err(ReadError::Fault(fault)) => Err(fault),
    }
}

fn read(alloc: Global, bytes: &[u8]) -> Result<Unit, ReadError>
    requires { length bytes.now ≤ 16777216 }
    ensures ok { IfOk result (λ unit. IsUnit unit × (bytes.now ≡ unit_text unit)) }
    ensures err { IfErr result (λ e. TellsFault bytes.now e) }
{
    let mut progress = start(alloc, bytes)?;
    while progress.at < bytes.len() {
        progress = next(alloc, progress, bytes)?;
    }
    let line = progress.line;
    match progress.draft.finish() {
        Some(unit) => Ok(unit),
        None => Err(fault(line, UnitKind::Cut)),
    }
}

/// Reads the head.
fn start(alloc: Global, bytes: &[u8]) -> Result<Progress, ReadError>
    requires { length bytes.now ≤ 16777216 }
    ensures ok { IfOk result (λ progress. ReadsTo bytes.now progress) }
    ensures err { IfErr result (λ e. TellsFault bytes.now e) }
{
    if bytes.is_empty() {
        return Err(fault(1, UnitKind::Cut));
    }
    let Found { item, end, lines } = item_at(alloc, bytes, 1)?;
    match Draft::first(alloc, item) {
        Some(draft) => Ok(Progress {
            draft,
            at: end,
            line: 1 + lines as u32,
        }),
        None => Err(fault(1, UnitKind::Order)),
    }
}

/// Reads one more item.
fn next(alloc: Global, progress: Progress, bytes: &[u8]) -> Result<Progress, ReadError>
    requires small { length bytes.now ≤ 16777216 }
    requires more { progress.at < length bytes.now }
    requires reads { ReadsTo bytes.now progress }
    ensures ok { IfOk result (λ next. ReadsTo bytes.now next × (progress.at < next.at)) }
    ensures err { IfErr result (λ e. TellsFault bytes.now e) }
{
    let Progress { draft, at, line } = progress;
    let Found { item, end, lines } = item_at(alloc, &bytes[at..], line)?;
    match draft.with_item(item)? {
        Some(draft) => Ok(Progress {
            draft,
            at: at + end,
            line: line + lines as u32,
        }),
        None => Err(fault(line, UnitKind::Order)),
    }
}

/// The item that the first group spells.
fn item_at(alloc: Global, bytes: &[u8], line: u32) -> Result<Found, ReadError>
    requires { 0 < length bytes.now }
    ensures ok { IfOk result (λ found. IsFirstItem bytes.now found) }
    ensures err { IfErr result (λ e. Unread bytes.now line e) }
{
    let (end, lines) = first_group(bytes);
    let group = &bytes[..end];
    if !ended(group) {
        return Err(fault(line, UnitKind::Cut));
    }
    match item_of(alloc, group)? {
        Some(item) => Ok(Found { item, end, lines }),
        None => Err(fault(line, UnitKind::BadStatement)),
    }
}

fn fault(line: u32, kind: UnitKind) -> ReadError
    ensures { result ≡ Fault (record { line = line; kind = kind }) }
{
    ReadError::Fault(UnitFault { line, kind })
}
