// A reader keeps a lent script of readings beside its place in it.
#![tactic(auto)]

ghost use Rattle.std.specs.Prelude.{◌≡◌};
ghost use Rattle.reader.specs.Place.{reader_at, word_at, left_at};

#[derive(Clone, Copy)]
pub struct Reader<'a> {
    pub script: &'a [u32],
    pub place: usize,
}

impl<'a> Reader<'a> {
    // At the script's start.
    pub fn new(script: &'a [u32]) -> Reader<'a>
        ensures { result ≡ reader_at script.entry 0 }
    {
        Reader { script, place: 0 }
    }

    // The same script, at another place.
    pub fn moved(self, place: usize) -> Reader<'a>
        ensures { result ≡ reader_at self.entry.script place }
    {
        Reader {
            script: self.script,
            place,
        }
    }

    // The word at the reader's place.
    pub fn here(self) -> Option<u32>
        ensures { result ≡ word_at self.entry.script.now self.entry.place }
    {
        // not `get`: the module that is compiled for a 32-bit processor too has no option of a reference as a result
        if self.place < self.script.len() {
            Some(self.script[self.place])
        } else {
            None
        }
    }

    // How many words are left from its place on.
    pub fn left(self) -> usize
        ensures { result ≡ left_at self.entry.script.now self.entry.place }
    {
        self.script.len().saturating_sub(self.place)
    }
}

// What a reader of this script finds at this place: none at the script's end. Whoever calls this function or the next holds
// no reader.
pub fn word(script: &[u32], place: usize) -> Option<u32>
    ensures { result ≡ word_at script.now place }
{
    Reader::new(script).moved(place).here()
}

// How many words a reader of this script has left from this place on, none past the end.
pub fn left_from(script: &[u32], place: usize) -> usize
    ensures { result ≡ left_at script.now place }
{
    Reader::new(script).moved(place).left()
}
