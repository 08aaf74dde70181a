//! The shelf of the program: the files of the system.
ghost use Rattle.std.specs.Prelude.{◌≡◌, ◌≤◌, ◌+◌, None, IfOk, Err, length};
ghost use Rattle.sl_io.specs.Counts.{RoseBy, capped_sum};

use crate::faults::{GetFault, PutFault};
use crate::shelf::Shelf;
use crate::streams::write_piece;
use plain_data::Bytes;
use std::alloc::Global;
use std::fs;
use std::io::Read;
use std::rt::Files;

/// A shelf over the file system. It tells no files, and keeps one number of each kind for all names.
#[derive(Drop)]
pub struct FileShelf<'r, R> {
    rt: &'r R,
    taken: u64,
    get_faults: u64,
    put_faults: u64,
    long_reads: u64,
}

impl<'r, R: Files> FileShelf<'r, R> {
    /// A shelf on which nothing was counted yet.
    pub fn new(rt: &'r R) -> FileShelf<'r, R> {
        FileShelf {
            rt,
            taken: 0,
            get_faults: 0,
            put_faults: 0,
            long_reads: 0,
        }
    }

    fn fail_get(&mut self) -> GetFault
        ensures fault { result ≡ GetFault.Failed }
        ensures counted { self.new ≡ record self.old { get_faults = capped_sum self.old.get_faults 1 } }
        ensures later { self.old.get_faults ≤ self.new.get_faults }
    {
        self.get_faults = self.get_faults.saturating_add(1);
        GetFault::Failed
    }

    fn fail_put(&mut self) -> PutFault
        ensures fault { result ≡ PutFault.Failed }
        ensures counted { self.new ≡ record self.old { put_faults = capped_sum self.old.put_faults 1 } }
        ensures later { self.old.put_faults ≤ self.new.put_faults }
    {
        self.put_faults = self.put_faults.saturating_add(1);
        PutFault::Failed
    }
}

/// Reads to the end, or until more than `limit` bytes were taken. A read that gives nothing ends the file.
fn read_within<F: Read>(
    alloc: Global,
    file: &mut F,
    limit: usize,
    taken: &mut u64,
) -> Result<Bytes, GetFault>
    ensures later { taken.old ≤ taken.new }
    ensures within { IfOk result (λ bytes. length bytes ≤ limit) }
    ensures taken { IfOk result (λ bytes. RoseBy (length bytes) taken.old taken.new) }
    ensures long { result ≡ Err GetFault.TooLong → RoseBy (limit + 1) taken.old taken.new }
{
    let mut bytes = Bytes::new(alloc);
    let mut chunk = [0u8; 4096];
    'chunks: for _ in 0..u64::MAX {
        match file.read(&mut chunk) {
            Err(_) => return Err(GetFault::Failed),
            Ok(0) => return Ok(bytes),
            Ok(count) => {
                *taken = taken.saturating_add(count as u64);
                if count > limit - bytes.len() {
                    return Err(GetFault::TooLong);
                }
                if bytes.extend_from_slice(&chunk[..count]).is_err() {
                    return Err(GetFault::Memory);
                }
            }
        }
    }
    Err(GetFault::Failed)
}

impl<'r, R: Files> Shelf for FileShelf<'r, R> {
    ghost state = { λ s. record {
      files = None;
      taken = s.taken;
      get_faults = λ _. s.get_faults;
      put_faults = λ _. s.put_faults;
      long_reads = λ _ _. s.long_reads;
    } };

    fn get(&mut self, alloc: Global, name: &str, limit: usize) -> Result<Bytes, GetFault> {
        let Ok(mut file) = fs::open(self.rt, name) else {
            return Err(self.fail_get());
        };
        match read_within(alloc, &mut file, limit, &mut self.taken) {
            Ok(bytes) => Ok(bytes),
            Err(GetFault::Failed) => Err(self.fail_get()),
            Err(GetFault::TooLong) => {
                self.long_reads = self.long_reads.saturating_add(1);
                Err(GetFault::TooLong)
            }
            Err(GetFault::Memory) => Err(GetFault::Memory),
        }
    }

    fn put(&mut self, _alloc: Global, name: &str, bytes: &[u8]) -> Result<(), PutFault> {
        let Ok(mut file) = fs::create(self.rt, name) else {
            return Err(self.fail_put());
        };
        match write_piece(&mut file, bytes) {
            Ok(()) => Ok(()),
            Err(_) => Err(self.fail_put()),
        }
    }
}
