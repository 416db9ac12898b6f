ghost use Rattle.std.specs.Prelude.{◌≡◌, ◌&&◌, IfOk, MatchOption, true};
ghost use Rattle.am_fortran.specs.Items.{is_item as is_kept_item, item_text};
ghost use Rattle.std.specs.Str.{bytes_eq};
ghost use Rattle.am_fortran.specs.Drafts.{SpellsNone};
ghost use Rattle.am_fortran.specs.Guess.{guessed};
ghost use Rattle.am_fortran.specs.Words.{words as words_of};

use crate::guess::guess;
use crate::item::Item;
use crate::well::is_item;
use crate::words::words;
use crate::writing::push_item;
use am_term::NoMemory;
use std::alloc::Global;

/// The item that the group spells, or `None` where it spells none: the item that its words may
/// spell is written, and the text compared.
pub fn item_of(alloc: Global, group: &[u8]) -> Result<Option<Item>, NoMemory>
    ensures { IfOk result (λ found. MatchOption found (SpellsNone group.now) (λ item. (is_kept_item item ≡ true)
        × (group.now ≡ item_text item))) }
{
    let item = guess_of(alloc, group)?;
    if is_spelled(alloc, &item, group)? {
        Ok(Some(item))
    } else {
        Ok(None)
    }
}

fn guess_of(alloc: Global, group: &[u8]) -> Result<Item, NoMemory>
    ensures { IfOk result (λ item. item ≡ guessed (words_of group.now)) }
{
    let words = words(alloc, group)?;
    guess(alloc, words.as_slice())
}

fn is_spelled(alloc: Global, item: &Item, group: &[u8]) -> Result<bool, NoMemory>
    ensures { IfOk result (λ spelled. spelled ≡ (is_kept_item item.now && bytes_eq (item_text item.now) group.now)) }
{
    if !is_item(item) {
        return Ok(false);
    }
    let mut text = Vec::new(alloc);
    push_item(alloc, &mut text, item)?;
    Ok(text.as_slice() == group)
}
