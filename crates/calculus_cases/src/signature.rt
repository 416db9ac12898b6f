//! The sorts of all cases, and the symbols that a line declares.

ghost use Rattle.std.specs.Prelude.{◌≡◌, IfOk, length};

use crate::spelling::{members, word};
use am_term::{Name, NoMemory, Signature, SortId, SymId, SymKind, Symbol};
use am_text::Form;
use sqlite_items::Items;
use std::alloc::Global;

/// The sorts: planets are bodies, bodies are places, and the others stand apart.
pub const SORTS: [&str; 6] = ["place", "body", "planet", "time", "utc", "et"];

/// The sorts of the inputs: a planet, a moment in UTC, a body, a place, another body, and three of `et`.
pub const INS: [SortId; 8] = [
    SortId(2),
    SortId(4),
    SortId(1),
    SortId(0),
    SortId(1),
    SortId(5),
    SortId(5),
    SortId(5),
];

/// The sort of this name; any other name is a sort that isn't there.
pub fn sort_named(word: &str) -> SortId {
    for (n, name) in [0, 1, 2, 3, 4, 5].iter().zip(SORTS) {
        if name == word {
            return SortId(*n);
        }
    }
    SortId(6)
}

/// The name of a sort.
pub fn sort_name(sort: SortId) -> &'static str {
    SORTS.get(sort.0 as usize).copied().unwrap_or("none")
}

/// The symbol of this name; any other name is a symbol that isn't there.
pub fn symbol_named(sig: &Signature, word: &str) -> SymId {
    let mut n: u32 = 0;
    for symbol in sig.symbols.as_slice() {
        if symbol.name.as_str() == word {
            break;
        }
        n = n.saturating_add(1);
    }
    SymId(n)
}

/// The name of a symbol.
pub fn symbol_name(sig: &Signature, symbol: SymId) -> &str {
    match sig.symbols.get(symbol.0 as usize) {
        Some(symbol) => symbol.name.as_str(),
        None => "none",
    }
}

fn sort_names(alloc: Global) -> Result<Items<Name>, NoMemory>
    ensures { IfOk result (λ names. length names ≡ 6) }
{
    let mut names = Items::new(alloc);
    names.push(Name::new(alloc, "place")?)?;
    names.push(Name::new(alloc, "body")?)?;
    names.push(Name::new(alloc, "planet")?)?;
    names.push(Name::new(alloc, "time")?)?;
    names.push(Name::new(alloc, "utc")?)?;
    names.push(Name::new(alloc, "et")?)?;
    Ok(names)
}

/// The signature with the symbols that the lists among the forms declare: `(function f (SORT ..) SORT)`,
/// and likewise `literal`, `output`, `value`, `relation`, the last without a sort of its own.
pub fn signature_of(alloc: Global, forms: &[Form]) -> Result<Signature, NoMemory> {
    let mut symbols = Items::new(alloc);
    for form in forms {
        if let [kind, name, args, rest @ ..] = members(form) {
            symbols.push(symbol_of(alloc, word(kind), word(name), members(args), rest)?)?;
        }
    }
    with_symbols(alloc, symbols)
}

fn with_symbols(alloc: Global, symbols: Items<Symbol>) -> Result<Signature, NoMemory> {
    let sorts = sort_names(alloc)?;
    let parents = Items::from_slice(
        alloc,
        &[None, Some(SortId(0)), Some(SortId(1)), None, None, None],
    )?;
    Ok(Signature {
        sorts,
        parents,
        symbols,
    })
}

fn symbol_of(
    alloc: Global,
    kind: &str,
    name: &str,
    sorts: &[Form],
    rest: &[Form],
) -> Result<Symbol, NoMemory> {
    let mut args = Items::new(alloc);
    for sort in sorts {
        args.push(sort_named(word(sort)))?;
    }
    let name = Name::new(alloc, name)?;
    let sort = match rest {
        [sort, ..] => sort_named(word(sort)),
        [] => SortId(6),
    };
    Ok(made(name, args, kind, sort))
}

fn made(name: Name, args: Items<SortId>, kind: &str, sort: SortId) -> Symbol {
    let (kind, result) = match kind {
        "relation" => (SymKind::Relation, None),
        "literal" => (SymKind::Literal, Some(sort)),
        "output" => (SymKind::Output, Some(sort)),
        "value" => (SymKind::Value, Some(sort)),
        _ => (SymKind::Function, Some(sort)),
    };
    Symbol {
        name,
        args,
        result,
        kind,
    }
}
