//! How many objects a file lists, read before a store is opened over it. A store compares each object with each other.
ghost use Rattle.std.specs.Prelude.{◌≡◌, IsTrue, IfSome};
ghost use Rattle.sqlite.specs.Files.{image_of};
ghost use Rattle.sqlite.specs.WalFiles.{image_at};
ghost use Rattle.sqlite_store.specs.Unopened.{AreUsable, image, state_of};
ghost use Rattle.rtgs_book_file.specs.Counting.{Counts, IsReadIn};

use crate::object_count::ObjectCount;
use sqlite::{FileFrom, Files, Options, Start};
use sqlite_disk::Disk;
use sqlite_pager::Pager;
use sqlite_pool::probe_blank;
use sqlite_store::{OpenError, Unopened};
use sqlite_wal::{PageSize, probe_first_page, probe_page_size};
use std::alloc::Global;

// What a header says in its bytes 20 to 23 where each page ends in a checksum.
const WITH_SUMS: u32 = 0x0840_2020;

// The page size of a file whose making was cut short.
const NEW_SIZE: usize = 4096;

// How many pages are kept in memory. Each page of the list is read once, so more would only be made and thrown away.
const KEPT_PAGES: usize = 16;

/// What was read of how many objects a file lists. Only `listed` gives one, and what the store read, only `counted`.
#[derive(Clone, Copy, Debug)]
pub(crate) struct SchemaSize {
    listed: ObjectCount,
}

impl SchemaSize {
    /// How many objects the file lists, where that could be read.
    pub(crate) fn listed(self) -> ObjectCount
        ensures { result ≡ self.listed }
    {
        self.listed
    }

    // That nothing was read.
    fn unknown() -> SchemaSize
        ensures { result.listed ≡ ObjectCount.Unknown }
    {
        SchemaSize {
            listed: ObjectCount::Unknown,
        }
    }
}

/// What the file at this path lists, which held what `S` says. The files are released again.
pub(crate) fn listed<S: Start>(rt: &HostRuntime, path: &str, start: S) -> SchemaSize
    ensures { IsReadIn ⟦<FileFrom<S> as Disk>⟧ (image_at S.Start) result.listed }
{
    match sqlite_std_file::open(rt, path, start) {
        Ok(files) => listed_in(rt.alloc(), files),
        Err(_) => SchemaSize::unknown(),
    }
}

fn listed_in<D: Disk + Drop>(alloc: Global, files: Files<D>) -> SchemaSize
    ensures { IsReadIn D.Disk (image_of D.Disk files) result.listed }
{
    match unopened(alloc, files) {
        Some((mut unopened, has_sums)) => counted(&mut unopened, has_sums),
        None => SchemaSize::unknown(),
    }
}

// How many objects files list that a store would open so.
fn counted<D: Disk>(files: &mut Unopened<D>, has_sums: bool) -> SchemaSize
    requires { AreUsable files.old }
    ensures { IsTrue (state_of files.new).is_clean → Counts files.old files.new has_sums result.listed }
{
    let listed = match files.read_catalog() {
        Ok(rows) => ObjectCount::Objects(rows.len()),
        Err(OpenError::Refused) if has_sums => ObjectCount::WithoutSums,
        Err(_) => ObjectCount::Unknown,
    };
    SchemaSize { listed }
}

// The files, where a store would read their list, and whether their pages are to end in sums.
fn unopened<D: Disk + Drop>(alloc: Global, mut files: Files<D>) -> Option<(Unopened<D>, bool)>
    ensures usable { IfSome result (λ found. AreUsable found.0) }
    ensures same { IfSome result (λ found. image found.0 ≡ image_of D.Disk files) }
{
    if is_blank(alloc, &mut files, false)?
        || is_blank(alloc, &mut files, true)?
        || !files.may_be_used()
    {
        return None;
    }
    let size = probe_page_size(&mut files).ok()??;
    let (_, reserved) = probe_first_page(alloc, &mut files, size).ok()?;
    if !files.may_be_used() {
        return None;
    }
    let has_sums = reserved == WITH_SUMS;
    match over(alloc, files, size, has_sums) {
        Some(unopened) => Some((unopened, has_sums)),
        None => None,
    }
}

// Whether an opening would make a new database of the files.
fn is_blank<D: Disk>(alloc: Global, files: &mut Files<D>, has_sums: bool) -> Option<bool>
    ensures { image_of D.Disk files.new ≡ image_of D.Disk files.old }
{
    if !files.may_be_used() {
        return None;
    }
    let size = PageSize::new(NEW_SIZE)?;
    probe_blank(alloc, files, size, has_sums).ok()
}

/// The files with pages of this size.
pub(crate) fn over<D: Disk + Drop>(
    alloc: Global,
    files: Files<D>,
    size: PageSize,
    has_sums: bool,
) -> Option<Unopened<D>>
    requires log { IsTrue (D.Disk.is_usable files.log) }
    requires db { IsTrue (D.Disk.is_usable files.db) }
    ensures usable { IfSome result AreUsable }
    ensures same { IfSome result (λ found. image found ≡ image_of D.Disk files) }
{
    let options = Options {
        cache_pages: KEPT_PAGES,
        ..Options::new(0)
    };
    let pager = match Pager::new(alloc, files, size, options) {
        Ok(pager) => pager,
        Err(_) => return None,
    };
    match Unopened::with_sums(alloc, pager, &[], has_sums) {
        Ok(unopened) => Some(unopened),
        Err(_) => None,
    }
}
