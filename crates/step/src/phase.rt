// What a data phase is for, and the place of each of its words.
ghost use Rattle.std.specs.Prelude.{◌≡◌, cond, ◌*◌, ◌<◌, eqb, length};
ghost use Rattle.tape.specs.declared.script.Reading.TheVariants as Reading;
ghost use Rattle.step.specs.Next.{Lent, Handed};
ghost use Rattle.step.specs.Transfer.{blocks_of, transfer_of, sends_of, top_of, place_of, words_by, put_at, kept_by};

use bus::transfer::Transfer;

// What a data phase reads: the SCR, a switch status (asked about, or switched), the SD status, or blocks from an address on. The last
// is of blocks that are sent.
#[derive(Clone, Copy)]
pub enum Phase {
    Scr,
    Check,
    Switch,
    Status,
    Blocks(u32, u16),
    Sends(u32, u16),
}

// Sixteen words with another one at this place.
fn put(held: [u32; 16], place: u16, word: u32) -> [u32; 16]
    ensures set { result ≡ put_at held place word }
    ensures long { length held ≡ 16 }
{
    let mut words = held;
    let k = place as usize;
    if k < 16 {
        words[k] = word;
    }
    words
}

// 1 to 511 blocks.
fn blocks(n: u16) -> u16
    ensures { result ≡ blocks_of n }
{
    if n == 0 {
        return 1;
    }
    if n > 511 { 511 } else { n }
}

// One command for one block, another for more.
fn move_blocks(one: u8, more: u8, address: u32, n: u16) -> Transfer
    ensures { result ≡ record { index = cond (eqb (blocks_of n) 1) one more; argument = address; block_size = 9; words = 128 * blocks_of n } }
{
    let count = blocks(n);
    if count == 1 {
        Transfer {
            index: one,
            argument: address,
            block_size: 9,
            words: 128,
        }
    } else {
        Transfer {
            index: more,
            argument: address,
            block_size: 9,
            words: 128 * count,
        }
    }
}

impl Phase {
    // What it asks for.
    pub fn transfer(self) -> Transfer
        ensures { result ≡ transfer_of self }
    {
        match self {
            Phase::Scr => Transfer {
                index: 51,
                argument: 0,
                block_size: 3,
                words: 2,
            },
            Phase::Check => Transfer {
                index: 6,
                argument: 0x00ff_fff1,
                block_size: 6,
                words: 16,
            },
            Phase::Switch => Transfer {
                index: 6,
                argument: 0x80ff_fff1,
                block_size: 6,
                words: 16,
            },
            Phase::Status => Transfer {
                index: 13,
                argument: 0,
                block_size: 6,
                words: 16,
            },
            Phase::Blocks(address, n) => move_blocks(17, 18, address, n),
            Phase::Sends(address, n) => move_blocks(24, 25, address, n),
        }
    }

    // Whether its words go to the card.
    pub fn sends(self) -> bool
        ensures { result ≡ sends_of self }
    {
        match self {
            Phase::Scr => false,
            Phase::Check => false,
            Phase::Switch => false,
            Phase::Status => false,
            Phase::Blocks(_, _) => false,
            Phase::Sends(_, _) => true,
        }
    }

    // The last place of a data word.
    pub fn top(self) -> u16
        ensures { result ≡ top_of self }
    {
        let transfer = self.transfer();
        let words = transfer.words;
        if words == 0 { 0 } else { words - 1 }
    }

    // The place of the data word with so many after it.
    pub fn place(self, after: u16) -> u16
        ensures { result ≡ place_of self after }
    {
        let top = self.top();
        if after < top { top - after } else { 0 }
    }

    // The words that a call keeps, with the one at this place; a read's are not kept.
    pub fn kept(self, place: u16, held: [u32; 16], word: u32) -> [u32; 16]
        ensures set { result ≡ kept_by self place held word }
        ensures more { (g g' : Lent) → place < (transfer_of self).words → Handed (Reading.Data place) word g g' → Handed (Reading.Data place) word (words_by self held g) (words_by self (kept_by self place held word) g') }
    {
        match self {
            Phase::Scr => put(held, place, word),
            Phase::Check => put(held, place, word),
            Phase::Switch => put(held, place, word),
            Phase::Status => put(held, place, word),
            Phase::Blocks(_, _) => held,
            Phase::Sends(_, _) => held,
        }
    }
}
