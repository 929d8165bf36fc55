// A reader of a file, held to one section at a time.
ghost use Rattle.std.specs.Prelude.{◌≡◌, ◌+◌, ◌-◌, ◌≤◌, length, take, drop};

use crate::pairs::{section_end, section_start};
use crate::section::Section;

// Where the reader stands and where it ends. A rule of the project asks for this form: plain numbers, which a guard borrows,
// narrows and restores; the bytes come with each call.
#[derive(Drop)]
pub struct Reader {
    pub(crate) at: usize,
    pub(crate) end: usize,
}

// A reader whose end is that of a section. Letting it go restores the end, whichever way a function is left.
pub struct Narrowed<'r> {
    reader: &'r mut Reader,
    whole: usize,
}

impl Drop for Narrowed<'_> {
    fn drop(self)
        ensures { self.exit.0.now.end ≡ self.entry.whole }
    {
        self.reader.end = self.whole;
        let Narrowed {
            reader: _,
            whole: _,
        } = self;
    }
}

impl Reader {
    // Stands at the section's start, and ends where it ends, for as long as the answer is held.
    pub(crate) fn narrow(&mut self, pair: (u32, u32)) -> Narrowed<'_>
        ensures whole { result.whole ≡ self.old.end }
        ensures start { result.reader.now.at ≡ pair.0 }
        ensures len { result.reader.now.end - result.reader.now.at ≡ pair.1 }
        ensures end { result.reader.now.end ≡ pair.0 + pair.1 }
        ensures same { result.reader.ghost_name ≡ self.entry.ghost_name }
    {
        let whole = self.end;
        self.at = section_start(pair);
        self.end = section_end(pair);
        Narrowed {
            reader: self,
            whole,
        }
    }
}

impl Narrowed<'_> {
    // What is still to be read.
    pub(crate) fn section<'f>(&self, file: &'f [u8]) -> Section<'f>
        requires within { (self.now.reader.now.at ≤ self.now.reader.now.end) × (self.now.reader.now.end ≤ length file.now) }
        ensures start { result.start ≡ self.now.reader.now.at }
        ensures bytes { result.bytes.now ≡ take (self.now.reader.now.end - self.now.reader.now.at) (drop self.now.reader.now.at file.now) }
    {
        let start = self.reader.at;
        Section {
            bytes: &file[start..self.reader.end],
            start,
        }
    }
}
