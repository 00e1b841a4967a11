// A table as the words of a slot: its head, its values, its multipliers.
ghost use Rattle.std.specs.Prelude.{◌≡◌, ◌≤◌, length};
ghost use Rattle.slots.specs.Slots.{most_cells, most_links, low_word, high_word, padded};

use crate::{HEAD, SLOT_WORDS, VALUES_END};

// What a slot keeps: a job's number, F and G of its accepted check, and its values and multipliers.
#[derive(Clone, Copy)]
pub struct Table<'a> {
    pub job: u32,
    pub loss: u64,
    pub gap: u64,
    pub values: &'a [u32],
    pub multipliers: &'a [u32],
    pub ghost values_few: { length values.now ≤ most_cells },
    pub ghost multipliers_few: { length multipliers.now ≤ most_links },
}

// A number's low and high word.
fn low(x: u64) -> u32
    ensures { result ≡ low_word x }
{
    (x % 4294967296) as u32
}

fn high(x: u64) -> u32
    ensures { result ≡ high_word x }
{
    (x / 4294967296) as u32
}

// The words, and zeros after them.
fn put_padded(part: &mut [u32], words: &[u32])
    requires { length words.now ≤ length part.old }
    ensures { part.new ≡ padded (length part.old) words.now }
{
    let n = words.len();
    part[..n].copy_from_slice(words);
    part[n..].fill(0);
}

impl Table<'_> {
    ghost use Rattle.std.specs.Prelude.{◌≡◌, length};
    ghost use Rattle.slots.specs.Slots.{head_size, head_of, slot_words};
    ghost use Rattle.slots.specs.Tables.{words_of};

    // A slot's head: n, job, F low and high, G low and high, the link count.
    fn put_head(self, head: &mut [u32])
        requires { length head.old ≡ head_size }
        ensures { head.new ≡ head_of (length self.entry.values.now) self.entry.job self.entry.loss self.entry.gap (length self.entry.multipliers.now) }
    {
        let Table { job, loss, gap, .. } = self;
        let n = self.values.len() as u32;
        let links = self.multipliers.len() as u32;
        head.copy_from_slice(&[n, job, low(loss), high(loss), low(gap), high(gap), links]);
    }

    // The slot becomes the table: its head, the values, the multipliers, zeros after each.
    pub fn put_into(self, slot: &mut [u32])
        requires { length slot.old ≡ slot_words }
        ensures { slot.new ≡ words_of self.entry }
    {
        self.put_head(&mut slot[..HEAD]);
        put_padded(&mut slot[HEAD..VALUES_END], self.values);
        put_padded(&mut slot[VALUES_END..SLOT_WORDS], self.multipliers);
    }
}
