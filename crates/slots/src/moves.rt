// The moves of a span's slots: one becomes a table, all move down for one, one goes.
ghost use Rattle.std.specs.Prelude.{◌≡◌, ◌+◌, ◌*◌, ◌≤◌, length};
ghost use Rattle.slots.specs.Slots.{slot_words, put_slot, dropped_slot, pushed};
ghost use Rattle.slots.specs.Tables.{words_of};

use crate::SLOT_WORDS;
use crate::table::Table;

// Slot p becomes the table.
pub fn put_at(span: &mut [u32], p: usize, table: Table)
    requires { slot_words * p + slot_words ≤ length span.old }
    ensures { span.new ≡ put_slot slot_words p (words_of table.entry) span.old }
{
    let at = SLOT_WORDS * p;
    let end = at + SLOT_WORDS;
    table.put_into(&mut span[at..end]);
}

// Every slot moves down by one, and the table is the last.
pub fn push(span: &mut [u32], table: Table)
    requires { slot_words ≤ length span.old }
    ensures { span.new ≡ pushed slot_words (words_of table.entry) span.old }
{
    span.copy_within(SLOT_WORDS.., 0);
    let last = span.len() - SLOT_WORDS;
    table.put_into(&mut span[last..]);
}

// The slots after p move down by one, and the last becomes zeros.
pub fn drop_slot(span: &mut [u32], p: usize)
    requires { slot_words * p + slot_words ≤ length span.old }
    ensures { span.new ≡ dropped_slot slot_words p span.old }
{
    let at = SLOT_WORDS * p;
    // Lent from there on: to the front of a slice this is one move of memory, to a place within it a loop that takes a forget half as long again.
    span[at..].copy_within(SLOT_WORDS.., 0);
    let last = span.len() - SLOT_WORDS;
    span[last..].fill(0);
}
