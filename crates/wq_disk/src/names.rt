//! The names in one directory on disk. Another module looks at their files.
ghost use Rattle.std.specs.Prelude.{◌≡◌, ◌<◌, ◌++◌, ◌∷◌, [], All, IfErr, IfNone, IfOk, IfSome, IsTrue};
ghost use Rattle.std.specs.Prelude.{None, Some, false, filter, length, not};
ghost use Rattle.std.specs.Option.{option_map};
ghost use Rattle.std.specs.List.{Contains};
ghost use Rattle.wq_disk.specs.Entries.{AreDistinct, has_no_slash, is_entry, names_of_text};
ghost use Rattle.wq_disk.specs.Names.{AreAllEntries, AreOfEntries, HaveHeads, name_at, name_head, names_at, place_cmp};
ghost use Rattle.std.proofs.Props.{props};
ghost use Rattle.std.specs.Ordering.{is_lt};
ghost use Rattle.wq_patch.specs.Tree.{is_of_device};
ghost use Rattle.wq_disk.specs.FileSystem.{FailsBy, HasBy};
ghost use Rattle.wq_disk.specs.Told.{IsFailureAt};
ghost use Rattle.wq_disk.specs.Unseen.{error_fault};

use crate::asked::AskedPath;
use crate::file_system::FileSystem;
use crate::new_names::MOST_SHARED;
use crate::unseen::walk_fault;
use crate::way::Way;
use memchr::memchr;
use std::alloc::{AllocError, Global};
use std::cmp::Ordering;
use std::io::{Error, ErrorKind};
use std::str;
use std::sync::ArcSlice;
use wq_patch::TreeFault;
use wq_view::{MAX_LISTING_ROWS, MAX_NAME};

/// The number of bytes of names that one call asks for.
const BLOCK: usize = 32_768;

/// The number of bytes of a head.
const HEAD: usize = 16;

/// Memory for names that the system gives, and the walk that reads them. All directories of a walk use it in turn.
#[derive(Drop)]
pub struct Block<'p> {
    bytes: Vec<u8>,
    way: Way<'p>,
    ghost room: { 0 < length bytes.items },
}

impl<'p> Block<'p> {
    /// Memory for a walk that goes on or gives way.
    pub fn new(alloc: Global, way: Way<'p>) -> Result<Block<'p>, AllocError> {
        Ok(Block {
            bytes: vec![in alloc; 0; BLOCK]?,
            way,
        })
    }

    /// The allocator of its memory.
    pub fn allocator(&self) -> Global {
        *self.bytes.allocator()
    }
}

/// The place of one of a directory's names.
#[derive(Clone, Copy)]
pub struct Place {
    /// The first bytes of the name as a number, so that most names are compared in one step.
    head: u128,
    start: usize,
    end: usize,
}

/// The names of the entries of a directory, in the text that the system gave.
#[derive(Drop)]
pub struct Names {
    /// The text, in which byte 0 ends each name. The directory itself and the one above it may be there too.
    bytes: Vec<u8>,
    /// The places of the names that were not taken yet, in falling order.
    places: Vec<Place>,
    ghost entries: { AreOfEntries bytes.items places.items },
    ghost distinct: { AreDistinct (names_at bytes.items places.items) } by { Prim.hlevel props },
}

impl Names {
    ghost use Rattle.wq_disk.specs.HeldNames.{names_left, text_of_names};

    /// No names. It takes no memory.
    pub fn new(alloc: Global) -> Names
        ensures { names_left result ≡ [] }
    {
        Names {
            bytes: Vec::new(alloc),
            places: Vec::new(alloc),
        }
    }

    /// The names of the entries in a text, in which byte 0 ends each name.
    fn of_text(text: Vec<u8>) -> Result<Names, AllocError>
        ensures text { IfOk result (λ names. names.bytes ≡ text) }
        ensures entries { IfOk result (λ names.
            AreAllEntries names.bytes.items names.places.items) }
    {
        let places = places_in(*text.allocator(), &text)?;
        let places = each_once(&text, places);
        Ok(Names {
            bytes: text,
            places,
        })
    }

    /// The number of names that were not taken yet.
    #[tactic(auto, using(crate::proofs::Entries::count_at))]
    pub fn len(&self) -> usize
        ensures { result ≡ length (names_left self.now) }
    {
        self.places.len()
    }

    /// The places of the names that were not taken yet, in falling order.
    pub(crate) fn places(&self) -> &[Place] {
        &self.places
    }

    /// Whether all names are in UTF-8.
    pub(crate) fn are_text(&self) -> bool {
        str::from_utf8(&self.bytes).is_ok()
    }

    /// The first name that was not taken yet.
    #[tactic(auto, using(crate::proofs::Entries::none_at))]
    pub(crate) fn first(&self) -> Option<&[u8]>
        ensures none { IfNone result (names_left self.now ≡ []) }
        ensures some { IfSome result (λ _. names_left self.now ≡ [] → ⊥) }
    {
        Some(self.at(*self.places.last()?))
    }

    /// Takes the first name.
    #[tactic(auto, using(crate::proofs::Entries::taken))]
    pub fn take(&mut self) -> Option<Place>
        ensures text { text_of_names self.new ≡ text_of_names self.old }
        ensures none { IfNone result ((names_left self.old ≡ []) × (names_left self.new ≡ [])) }
        ensures taken { IfSome result (λ place. names_left self.old
            ≡ names_left self.new ++ (name_at (text_of_names self.new) place ∷ [])) }
    {
        self.places.pop()
    }

    /// A block of this name, which was taken from the directory, and of the names that were not taken yet. Before each
    /// of them comes the directory's name with a slash, or nothing at the root. The block ends before the name with
    /// which it would be too long.
    pub(crate) fn block_from(
        &self,
        alloc: Global,
        directory: &[u8],
        name: &[u8],
    ) -> Result<ArcSlice<u8>, AllocError> {
        let mut block = Vec::from_slice(alloc, name)?;
        for place in self.places.iter().rev() {
            let entry = text_at(&self.bytes, *place);
            let len = block
                .len()
                .saturating_add(directory.len())
                .saturating_add(entry.len());
            if len > MOST_SHARED {
                break;
            }
            block.extend_from_slice(directory)?;
            block.extend_from_slice(entry)?;
        }
        ArcSlice::from_vec(block)
    }

    /// The name at a place, even if it was taken.
    pub fn at(&self, place: Place) -> &[u8]
        ensures { result.now ≡ name_at (text_of_names self.now) place }
    {
        text_at(&self.bytes, place)
    }
}

/// The names in the directory of a path, or nothing if it cannot be read. If a path ends in a slash, the system may
/// follow a link there. A path without that slash is not read if it ends in a link.
pub(crate) fn names_in<S: FileSystem>(
    system: &S,
    block: &mut Block<'_>,
    asked: &AskedPath<'_>,
) -> Result<Option<Names>, TreeFault>
    ensures told { IfOk result (λ names. HasBy (S.holds system.now) (S.missed system.now)
        asked.now.path (option_map (λ names. names_of_text names.bytes.items) names)) }
    ensures entries { IfOk result (λ names. IfSome names (λ names.
        AreAllEntries names.bytes.items names.places.items)) }
    ensures fault { IfErr result
        (IsFailureAt (FailsBy (S.missed system.now)) asked.now.path) }
{
    match system.open(asked) {
        Ok(mut directory) => names_of(system, &mut directory, block, asked),
        Err(error) => nothing(&error),
    }
}

/// The names that the directory of a path gives, or nothing if it cannot be read to its end. Before each block of names
/// the walk may give way. It fails soon after the directory has more names than a listing has rows.
fn names_of<S: FileSystem>(
    system: &S,
    directory: &mut S::Directory,
    block: &mut Block<'_>,
    asked: &AskedPath<'_>,
) -> Result<Option<Names>, TreeFault>
    requires { S.reads system.now asked.now.path directory.old [] }
    ensures told { IfOk result (λ names. HasBy (S.holds system.now) (S.missed system.now)
        asked.now.path (option_map (λ names. names_of_text names.bytes.items) names)) }
    ensures entries { IfOk result (λ names. IfSome names (λ names.
        AreAllEntries names.bytes.items names.places.items)) }
    ensures fault { IfErr result
        (IsFailureAt (FailsBy (S.missed system.now)) asked.now.path) }
{
    let mut text = Vec::new(block.allocator());
    let mut read = ReadNames::new();
    for _ in 0..u64::MAX {
        block.way.keep_on()?;
        match system.read(directory, &mut block.bytes) {
            Ok(0) => return Ok(Some(Names::of_text(text)?)),
            Ok(count) => {
                text.extend_from_slice(&block.bytes[..count])?;
                read.add(&block.bytes[..count]);
                read.check(block.allocator(), &text, asked.from_here().len())?;
            }
            Err(error) if error.kind() == ErrorKind::Interrupted => {}
            Err(error) => return nothing(&error),
        }
    }
    // No directory has a longer text.
    Err(TreeFault::NoMemory)
}

/// How many names of a directory were read.
#[derive(Drop)]
struct ReadNames {
    count: usize,
    /// The number of names above which those are counted of which each gives a row.
    most: usize,
}

impl ReadNames {
    /// The count before the first name is read.
    fn new() -> ReadNames {
        ReadNames {
            count: 0,
            // The directory itself and the one above it may be there too.
            most: MAX_LISTING_ROWS + 2,
        }
    }

    /// Counts the names that end in these bytes.
    fn add(&mut self, bytes: &[u8]) {
        for byte in bytes {
            if *byte == 0 {
                self.count = self.count.saturating_add(1);
            }
        }
    }

    /// Fails if so far the text of the directory, whose path has so many bytes, has more names than a listing has rows.
    /// A name that a pass never takes does not count.
    fn check(&mut self, alloc: Global, text: &[u8], path_len: usize) -> Result<(), TreeFault>
        ensures { IfErr result (λ fault. is_of_device fault ≡ false) }
    {
        if self.count <= self.most {
            return Ok(());
        }
        if rows_of(alloc, text, path_len)? > MAX_LISTING_ROWS {
            return Err(TreeFault::TooManyRows);
        }
        self.most = self.count.saturating_add(self.count / 16);
        Ok(())
    }
}

/// Counts the names of entries in the text of a directory, whose path has so many bytes. It counts only names that are
/// in UTF-8, and short enough for a pass even with the root's path before them. So a walk lists a row for each of them,
/// unless the file goes before the walk looks at it.
fn rows_of(alloc: Global, text: &[u8], path_len: usize) -> Result<usize, AllocError> {
    let places = each_once(text, places_in(alloc, text)?);
    let mut count = 0usize;
    for place in &places {
        let name = text_at(text, *place);
        // The path has one byte more than the name at the least, that of the slash after the directory.
        if path_len.saturating_add(name.len()) < MAX_NAME && str::from_utf8(name).is_ok() {
            count = count.saturating_add(1);
        }
    }
    Ok(count)
}

/// The places of the names of entries in a text, in which byte 0 ends each name.
fn places_in(alloc: Global, text: &[u8]) -> Result<Vec<Place>, AllocError>
    ensures names { IfOk result (λ places.
        names_at text.now places.items ≡ filter is_entry (names_of_text text.now)) }
    ensures heads { IfOk result (λ places. HaveHeads text.now places.items) }
{
    let mut places = Vec::new(alloc);
    let mut start = 0;
    while start < text.len() {
        let rest = &text[start..];
        let end = start + memchr(0, rest).unwrap_or(rest.len());
        let name = &text[start..end];
        if is_entry(name) {
            let head = head_of(name);
            places.push(Place { head, start, end })?;
        }
        start = end + 1;
    }
    Ok(places)
}

/// The places in falling order, and each name once.
fn each_once(text: &[u8], mut places: Vec<Place>) -> Vec<Place>
    requires { HaveHeads text.now places.items }
    ensures kept { All (Contains (names_at text.now result.items))
        (names_at text.now places.items) }
    ensures no_more { All (Contains (names_at text.now places.items))
        (names_at text.now result.items) }
    ensures distinct { AreDistinct (names_at text.now result.items) }
{
    places.sort_unstable_by(|a, b| order(text, *b, *a));
    let is_same = |a: &mut Place, b: &mut Place| -> bool
        ensures { (a.exit.now ≡ a.entry.now) × (b.exit.now ≡ b.entry.now)
            × (result ≡ not (is_lt (place_cmp text.entry.now a.entry.now b.entry.now))) }
    { !order(text, *a, *b).is_lt() };
    places.dedup_by(is_same);
    places
}

/// Whether a name that the system gives is that of an entry, and not of the directory itself or the one above it. No
/// entry's name has a slash.
fn is_entry(name: &[u8]) -> bool
    ensures { result ≡ is_entry name.now }
{
    !name.is_empty() && name != b".".as_slice() && name != b"..".as_slice() && has_no_slash(name)
}

fn has_no_slash(name: &[u8]) -> bool
    ensures { result ≡ has_no_slash name.now }
{
    name.iter().all(|byte| *byte != b'/')
}

/// The first bytes of a name as a number. The numbers rise as the names do.
#[tactic(auto, unfolding(crate::specs::Names::name_head))]
fn head_of(name: &[u8]) -> u128
    ensures { result ≡ name_head name.now }
{
    let mut head = [0; HEAD];
    let len = name.len().min(HEAD);
    head[..len].copy_from_slice(&name[..len]);
    u128::from_be_bytes(head)
}

/// The byte order of the names at two places.
fn order(bytes: &[u8], a: Place, b: Place) -> Ordering
    ensures { result ≡ place_cmp bytes.now a b }
{
    match a.head.cmp(&b.head) {
        Ordering::Equal => text_at(bytes, a).cmp(text_at(bytes, b)),
        order => order,
    }
}

fn text_at(bytes: &[u8], place: Place) -> &[u8]
    ensures { result.now ≡ name_at bytes.now place }
{
    bytes.get(place.start..place.end).unwrap_or(b"")
}

/// No names, if an error is about their directory alone.
fn nothing(error: &Error) -> Result<Option<Names>, TreeFault>
    ensures none { IfOk result (λ names. (names ≡ None) × (error_fault error.now ≡ None)) }
    ensures fault { IfErr result (λ fault. error_fault error.now ≡ Some fault) }
{
    match walk_fault(error) {
        Some(fault) => Err(fault),
        None => Ok(None),
    }
}
