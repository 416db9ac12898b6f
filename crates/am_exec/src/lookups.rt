ghost use Rattle.std.specs.Prelude.{◌≡◌};
ghost use Rattle.am_term.specs.NameLists.{is_among};
ghost use Rattle.am_diagram.specs.Listed.{entry_names};
ghost use Rattle.am_exec.specs.Literals.{literal_written as literal_with, sort_fits as is_sort_fitting, writes as is_written};
ghost use Rattle.am_exec.specs.Run.{sort_listed as sort_under};

use am_fortran::Operand;
use am_term::{Name, SortId, SymId, fits};
use am_theory::{LitValue, Theory, result_sort};

/// The literal symbol that has the value which an operand writes, and whose sort fits the place. Takes no memory, as
/// all in this file.
pub fn literal_at(theory: &Theory, place: SortId, operand: &Operand) -> Option<SymId>
    ensures { result ≡ literal_with theory.now place operand.now }
{
    let mut rest = theory.literals.as_slice();
    while let [literal, behind @ ..] = rest {
        if writes(operand, &literal.value)
            && sort_fits(theory, result_sort(theory, literal.symbol), place)
        {
            return Some(literal.symbol);
        }
        rest = behind;
    }
    None
}

fn writes(operand: &Operand, value: &LitValue) -> bool
    ensures { result ≡ is_written operand.now value.now }
{
    match (operand, value) {
        (Operand::Int(written), LitValue::Int(number)) => *written == *number,
        (Operand::Text(written), LitValue::Text(text)) => written.as_str() == text.as_str(),
        (Operand::Int(_), LitValue::Text(_)) => false,
        (Operand::Text(_), LitValue::Int(_)) => false,
        (Operand::Name(_), LitValue::Int(_)) => false,
        (Operand::Name(_), LitValue::Text(_)) => false,
    }
}

fn sort_fits(theory: &Theory, sort: Option<SortId>, place: SortId) -> bool
    ensures { result ≡ is_sort_fitting theory.now sort place }
{
    match sort {
        Some(sort) => fits(&theory.sig, sort, place),
        None => false,
    }
}

/// The sort that is listed with a name.
pub fn sort_listed(name: &Name, list: &[(Name, SortId)]) -> Option<SortId>
    ensures { result ≡ sort_under name.now list.now }
{
    let mut rest = list;
    while let [entry, behind @ ..] = rest {
        if entry.0.as_str() == name.as_str() {
            return Some(entry.1);
        }
        rest = behind;
    }
    None
}

/// Whether the name is listed with a sort.
pub fn is_listed(name: &Name, list: &[(Name, SortId)]) -> bool
    ensures { result ≡ is_among name.now (entry_names list.now) }
{
    let mut rest = list;
    while let [entry, behind @ ..] = rest {
        if name.as_str() == entry.0.as_str() {
            return true;
        }
        rest = behind;
    }
    false
}

/// Whether the name is one of these.
pub fn is_one_of(name: &Name, names: &[Name]) -> bool
    ensures { result ≡ is_among name.now names.now }
{
    let mut rest = names;
    while let [entry, behind @ ..] = rest {
        if name.as_str() == entry.as_str() {
            return true;
        }
        rest = behind;
    }
    false
}
