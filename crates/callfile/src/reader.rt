// A reader carries a call file and its place in it.
ghost use Rattle.std.specs.Prelude.{◌≡◌};
ghost use Rattle.callfile.specs.Format.{entry_at_of};

use super::{Entry, entry_at};

#[derive(Clone, Copy)]
pub struct Reader<'a> {
    pub file: &'a [u8],
    pub place: usize,
}

impl<'a> Reader<'a> {
    // A reader at the first byte.
    pub fn new(file: &'a [u8]) -> Reader<'a>
        ensures { (result.file ≡ file.entry) × (result.place ≡ 0) }
    {
        Reader { file, place: 0 }
    }

    // The reader at another place of its file.
    pub fn moved(self, place: usize) -> Reader<'a>
        ensures { (result.file ≡ self.entry.file) × (result.place ≡ place) }
    {
        Reader { place, ..self }
    }

    // What stands at its place.
    pub fn entry(self) -> Entry
        ensures { result ≡ entry_at_of self.entry.file.now self.entry.place }
    {
        entry_at(self.file, self.place)
    }
}
