ghost use Rattle.std.specs.Prelude.{◌≡◌};
ghost use Rattle.am_order.specs.Precedence.{computed as is_computed, above as is_above};

use am_term::{Signature, SymId};

// Whether the signature declares the symbol as computable.
fn computed(sig: &Signature, f: SymId) -> bool
    ensures { result ≡ is_computed sig.now f }
{
    match sig.symbols.get(f.0 as usize) {
        Some(symbol) => symbol.computable(),
        None => false,
    }
}

// Whether one symbol stands above another.
pub fn above(sig: &Signature, f: SymId, g: SymId) -> bool
    ensures { result ≡ is_above sig.now f g }
{
    let (f_computed, g_computed) = (computed(sig, f), computed(sig, g));
    if f_computed != g_computed {
        return g_computed;
    }
    g.0 < f.0
}
