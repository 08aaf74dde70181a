ghost use Rattle.std.specs.Prelude.{◌≡◌, ◌≢◌, ◌⊎◌, ℕ, List, None, Some, OnOk, OnErr, string_bytes};
ghost use Rattle.std.specs.Option.{option_copied};
ghost use Rattle.std.specs.BTreeMap.{get_by_text};
ghost use Rattle.sl_io.specs.Gets.{Gets};
ghost use Rattle.sl_io.specs.Puts.{Puts};
ghost use Rattle.sl_io.specs.MemoryShelves.{held, counted, shelf_state, no_counts, got_count, put_count, Later, IsAnswer, ChangesOnly};

use crate::faults::{GetFault, PutFault};
use crate::shelf::Shelf;
use plain_data::Bytes;
use std::alloc::{AllocError, Global};
use std::collections::BTreeMap;

/// What a shelf in memory counts: one number of each kind for all names.
#[derive(Clone, Copy, Debug, PartialEq, Eq)]
pub struct ShelfCounts {
    /// The bytes that gets took. A get of a file that is too long takes one more than its limit.
    pub taken: u64,
    /// The gets that failed.
    pub get_faults: u64,
    /// The puts that failed.
    pub put_faults: u64,
    /// The gets of files that were too long.
    pub long_reads: u64,
}

impl ShelfCounts {
    fn count_get(&mut self, limit: usize, answer: &Result<Bytes, GetFault>)
        ensures counts { self.new ≡ got_count self.old limit answer.now }
        ensures later { Later self.old self.new }
    {
        match answer {
            Ok(bytes) => self.taken = self.taken.saturating_add(bytes.len() as u64),
            Err(GetFault::Failed) => self.get_faults = self.get_faults.saturating_add(1),
            Err(GetFault::TooLong) => {
                self.taken = self.taken.saturating_add(limit as u64).saturating_add(1);
                self.long_reads = self.long_reads.saturating_add(1);
            }
            Err(GetFault::Memory) => {}
        }
    }

    fn count_put(&mut self, answer: &Result<(), PutFault>)
        ensures counts { self.new ≡ put_count self.old answer.now }
        ensures later { Later self.old self.new }
    {
        if let Err(PutFault::Failed) = answer {
            self.put_faults = self.put_faults.saturating_add(1);
        }
    }
}

/// A shelf in memory. A get fails only at a name that is not held, and a put never.
pub struct MemShelf {
    files: BTreeMap<String, Bytes>,
    counts: ShelfCounts,
}

/// By hand, so that a call stands in place of all its parts wherever a value is let go.
impl Drop for MemShelf {
    fn drop(self) {
        let MemShelf { files, counts } = self;
    }
}

impl MemShelf {
    /// A shelf that holds no file. It takes no memory before the first file comes.
    pub fn new(alloc: Global) -> MemShelf
        ensures empty { (name : List ℕ) → held result name ≡ None }
        ensures counts { counted result ≡ no_counts }
    {
        MemShelf {
            files: BTreeMap::new(alloc),
            counts: ShelfCounts {
                taken: 0,
                get_faults: 0,
                put_faults: 0,
                long_reads: 0,
            },
        }
    }

    /// Makes the named file hold these bytes. It fails for want of memory alone.
    pub fn add_file(&mut self, alloc: Global, name: &str, bytes: &[u8]) -> Result<(), AllocError>
        ensures ok { OnOk result (ChangesOnly self.old self.new name.now bytes.now) }
        ensures err { OnErr result (held self.new ≡ held self.old) }
        ensures counts { counted self.new ≡ counted self.old }
    {
        let name = String::from_str(alloc, name)?;
        let bytes = Bytes::from_slice(alloc, bytes)?;
        set_file(&mut self.files, name, bytes)
    }

    /// The bytes of the named file, where it is held.
    pub fn file(&self, name: &str) -> Option<&[u8]>
        ensures { option_copied result ≡ held self.now name.now }
    {
        match self.files.get(name) {
            Some(bytes) => Some(bytes.as_slice()),
            None => None,
        }
    }

    /// What was counted so far.
    pub fn counts(&self) -> ShelfCounts
        ensures { result ≡ counted self.now }
    {
        self.counts
    }

    /// Counts a get that fails, and changes nothing else.
    pub(crate) fn fail_get(&mut self)
        ensures counts { counted self.new ≡ got_count (counted self.old) 0 (Err GetFault.Failed) }
        ensures later { Later (counted self.old) (counted self.new) }
        ensures files { held self.new ≡ held self.old }
    {
        self.counts.count_get(0, &Err(GetFault::Failed));
    }

    /// Counts a put that fails, and changes nothing else.
    pub(crate) fn fail_put(&mut self)
        ensures counts { counted self.new ≡ put_count (counted self.old) (Err PutFault.Failed) }
        ensures later { Later (counted self.old) (counted self.new) }
        ensures files { held self.new ≡ held self.old }
    {
        self.counts.count_put(&Err(PutFault::Failed));
    }
}

impl Shelf for MemShelf {
    ghost state = { shelf_state };

    fn get(&mut self, alloc: Global, name: &str, limit: usize) -> Result<Bytes, GetFault>
        ensures meets { Gets (shelf_state self.old) (shelf_state self.new) name.now limit result }
        ensures answer { IsAnswer (held self.old name.now) limit result }
        ensures counts { counted self.new ≡ got_count (counted self.old) limit result }
    {
        let answer = copy_within(alloc, self.file(name), limit);
        self.counts.count_get(limit, &answer);
        answer
    }

    fn put(&mut self, alloc: Global, name: &str, bytes: &[u8]) -> Result<(), PutFault>
        ensures meets { Puts (shelf_state self.old) (shelf_state self.new) name.now bytes.now result }
        ensures answer { result ≢ Err PutFault.Failed }
        ensures counts { counted self.new ≡ counted self.old }
    {
        match self.add_file(alloc, name, bytes) {
            Ok(()) => Ok(()),
            Err(_) => Err(PutFault::Memory),
        }
    }
}

/// A copy of a file that has at most `limit` bytes.
fn copy_within(alloc: Global, file: Option<&[u8]>, limit: usize) -> Result<Bytes, GetFault>
    ensures { IsAnswer (option_copied file.entry) limit result }
{
    let Some(bytes) = file else {
        return Err(GetFault::Failed);
    };
    if bytes.len() > limit {
        return Err(GetFault::TooLong);
    }
    match Bytes::from_slice(alloc, bytes) {
        Ok(copy) => Ok(copy),
        Err(_) => Err(GetFault::Memory),
    }
}

fn set_file(
    files: &mut BTreeMap<String, Bytes>,
    name: String,
    bytes: Bytes,
) -> Result<(), AllocError>
    ensures stored { OnOk result (get_by_text files.new (string_bytes name) ≡ Some bytes) }
    ensures others { OnOk result ((other : List ℕ) → other ≢ string_bytes name → get_by_text files.new other ≡ get_by_text files.old other) }
    ensures err { OnErr result (files.new.entries ≡ files.old.entries) }
{
    files.insert(name, bytes)?;
    Ok(())
}
