ghost use Rattle.std.specs.Prelude.{◌≡◌, ◌<◌, ◌≤◌, ◌⊎◌, ℕ, List as Sequence, true, false, length, drop, count_by, is_some, slice_set, Some, IfOk, IfErr, IfSome, IfNone, OnOk, OnErr};
ghost use Rattle.std.specs.Option.{option_copied};
ghost use Rattle.dm_io.specs.Faults.{Rose};
ghost use Rattle.dm_io.specs.Answers.{HasAtMost};
ghost use Rattle.dm_search.specs.declared.content.Content.{Content};
ghost use Rattle.dm_token.specs.Limits.{header_count, source_length_limit as length_limit};
ghost use Rattle.dm_search.specs.Headers.{header_number, header_text};
ghost use Rattle.dm_search.specs.Joining.{candidates as names_for, places};
ghost use Rattle.dm_search.specs.Loaded.{name_of, number_of, held_at, is_held, is_absent as is_known_absent, with_name, with_bytes, without_file};
ghost use Rattle.dm_search.specs.Fresh.{fresh, StartsWithHeaders};
ghost use Rattle.dm_search.specs.Readable.{AreTokensOf, IsReadable, StopsReading};
ghost use Rattle.dm_token.specs.declared.stop.Stop.TheVariants.{Limit as limit_passed};
ghost use Rattle.dm_search.specs.Loading.{Loads, Keeps, KeepsBytes, StopsReplacing, limit_at};
ghost use Rattle.dm_search.specs.Searching.{Seeks, Finds, IsSettled};

use crate::content::Content;
use crate::header::{header_contents, header_names, header_number_of, text_of};
use crate::joining::candidates;
use dm_io::{Folder, Got};
use dm_token::{
    HEADER_COUNT, Limit, List, MOST_FILES, Memory, PpToken, Stop, Text, limit_numbers,
    source_length_limit,
};
use indexmap::IndexSet;
use std::alloc::Global;
use std::marker::Model;

/// The files of a call of the tool by number. Each file of the folder is read at most once.
#[derive(Drop)]
pub struct Loader {
    numbers: IndexSet<Text>,
    contents: Vec<Option<Content>>,
    absent: IndexSet<Text>,
    /// How many files of the folder are held.
    found: usize,
}

impl Model for Loader {
    ghost use Rattle.dm_search.specs.Loaded.{Loaded};

    ghost Value = { Loaded };

    ghost use Rattle.dm_search.specs.Sound.{bytes_of, AreSound};

    ghost view = { λ loader. record { names = loader.numbers.keys; held = bytes_of loader.contents.items; absent = loader.absent.keys } };

    ghost invariant = { λ loader. AreSound loader.numbers.keys loader.contents.items loader.found };
}

impl Loader {
    /// A loader that holds the built-in headers.
    pub fn new(alloc: Global) -> Result<Loader, Memory>
        ensures { IfOk result (λ loader. loader ≡ fresh) }
    {
        Ok(Loader {
            numbers: header_names(alloc)?,
            contents: header_contents(alloc)?,
            absent: IndexSet::new(alloc),
            found: 0,
        })
    }

    /// The number of a name, which is added last where it is new. After an `Err` nothing is changed.
    pub fn number(&mut self, name: &Text) -> Result<u32, Memory>
        requires { length self.old.names < 4294967295 }
        ensures number { IfOk result (λ number. number ≡ number_of self.old name.now) }
        ensures added { OnOk result (self.new ≡ with_name self.old name.now) }
        ensures err { OnErr result (self.new ≡ self.old) }
    {
        if let Some(number) = self.numbers.get_index_of(name) {
            return Ok(number as u32);
        }
        let name = name.copy()?;
        self.numbers.reserve(1)?;
        self.contents.push(None)?;
        let (number, _) = self.numbers.insert_full(name)?;
        Ok(number as u32)
    }

    /// The names by number.
    pub fn names(&self) -> &[Text]
        ensures names { result.now ≡ self.now.names }
        ensures headers { StartsWithHeaders self.now }
        ensures slots { length self.now.held ≡ length self.now.names }
    {
        self.numbers.as_slice()
    }

    /// Each number is that of its name: no two names are the same.
    pub fn names_differ(&self)
        ensures { (file : ℕ) → file < length self.now.names → number_of self.now (name_of self.now file) ≡ file }
    {
        // The clause `unique` of this call says so.
        let _names = self.numbers.as_slice();
    }

    /// The bytes that are held can be read.
    pub fn held_are_readable(&self)
        ensures { (file : ℕ) (bytes : Sequence ℕ) → held_at self.now file ≡ Some bytes → IsReadable file bytes }
    {
        // What holds of the parts of a loader is known where one of them is looked at.
        let _contents = &self.contents;
    }

    /// The name of a number.
    pub fn name(&self, file: u32) -> &Text
        requires { file < length self.now.names }
        ensures { result.now ≡ name_of self.now file }
    {
        &self.numbers.as_slice()[file as usize]
    }

    /// The bytes of a file that is held.
    pub fn bytes(&self, file: u32) -> &[u8]
        requires { is_held self.now file ≡ true }
        ensures { held_at self.now file ≡ Some result.now }
    {
        self.content(file).bytes.items()
    }

    /// The text of the built-in header of a name, as `stdio.h`.
    pub fn header(name: &Text) -> Option<&'static [u8]>
        ensures { option_copied result ≡ header_text name.now }
    {
        match header_number_of(name.bytes()) {
            Some(number) => Some(text_of(number)),
            None => None,
        }
    }

    /// The preprocessing tokens of a file that is held.
    pub fn tokens(&self, file: u32) -> &[PpToken]
        requires { is_held self.now file ≡ true }
        ensures { IfSome (held_at self.now file) (λ bytes. AreTokensOf file bytes result.now) }
    {
        self.content(file).tokens.items()
    }

    /// The content of a file that is held.
    fn content(&self, file: u32) -> &Content
        requires { is_held self.now file ≡ true }
        ensures bytes { held_at self.now file ≡ Some result.now.bytes }
        ensures tokens { AreTokensOf file result.now.bytes result.now.tokens }
    {
        self.contents[file as usize].as_ref().unwrap()
    }

    /// Whether a file is held.
    pub fn holds(&self, file: u32) -> bool
        ensures { result ≡ is_held self.now file }
    {
        match self.contents.get(file as usize) {
            Some(content) => content.is_some(),
            None => false,
        }
    }

    /// Whether a name is known to have no file.
    fn is_absent(&self, name: &Text) -> bool
        ensures { result ≡ is_known_absent self.now name.now }
    {
        self.absent.contains(name)
    }

    /// The number of a name for which bytes are held.
    fn held_number(&self, name: &Text) -> Option<u32>
        requires { length self.now.names < 4294967295 }
        ensures some { IfSome result (λ number. (number ≡ number_of self.now name.now) × (is_held self.now number ≡ true)) }
        ensures none { IfNone result (is_held self.now (number_of self.now name.now) ≡ false) }
    {
        let file = self.numbers.get_index_of(name)? as u32;
        if self.holds(file) { Some(file) } else { None }
    }

    /// Loads a file, and says whether there is one. A file that is held or known to be absent isn't read. After an
    /// `Err` the file counts as not loaded.
    pub fn load<F: Folder>(&mut self, folder: &mut F, file: u32) -> Result<bool, Stop>
        requires { file < length self.old.names }
        ensures held { is_held self.old file ≡ true → (result ≡ Ok true) × (self.new ≡ self.old) × (folder.new ≡ folder.old) }
        ensures absent { is_held self.old file ≡ false → is_known_absent self.old (name_of self.old file) ≡ true →
            (result ≡ Ok false) × (self.new ≡ self.old) × (folder.new ≡ folder.old) }
        ensures read { is_held self.old file ≡ false → is_known_absent self.old (name_of self.old file) ≡ false →
            Loads (F.files folder.old) (name_of self.old file) self.old file result self.new }
        ensures failed { (number : ℕ) → result ≡ Err (Stop.ReadFault number) → Rose (F.faults folder.old) (F.faults folder.new) }
        ensures files_stay { F.files folder.new ≡ F.files folder.old }
        ensures rooms_stay { (other : Sequence ℕ) → F.room folder.new other ≡ F.room folder.old other }
        ensures later { F.faults folder.old ≤ F.faults folder.new }
    {
        if self.holds(file) {
            return Ok(true);
        }
        if self.is_absent(self.name(file)) {
            return Ok(false);
        }
        self.read(folder, file)
    }

    /// Reads a file of which nothing is known.
    fn read<F: Folder>(&mut self, folder: &mut F, file: u32) -> Result<bool, Stop>
        requires numbered { file < length self.old.names }
        requires unknown { is_known_absent self.old (name_of self.old file) ≡ false }
        ensures loads { Loads (F.files folder.old) (name_of self.old file) self.old file result self.new }
        ensures failed { (number : ℕ) → result ≡ Err (Stop.ReadFault number) → Rose (F.faults folder.old) (F.faults folder.new) }
        ensures files_stay { F.files folder.new ≡ F.files folder.old }
        ensures rooms_stay { (other : Sequence ℕ) → F.room folder.new other ≡ F.room folder.old other }
        ensures later { F.faults folder.old ≤ F.faults folder.new }
    {
        let alloc = *self.contents.allocator();
        let got = folder.read(alloc, self.name(file), source_length_limit())?;
        self.keep(file, got)
    }

    /// Keeps what a reading of a file gave.
    fn keep(&mut self, file: u32, got: Got) -> Result<bool, Stop>
        requires numbered { file < length self.old.names }
        requires bounded { HasAtMost length_limit got }
        requires unknown { got ≡ Got.Absent → is_known_absent self.old (name_of self.old file) ≡ false }
        ensures { Keeps got self.old file result self.new }
    {
        match got {
            Got::Bytes(bytes) => self.keep_bytes(file, bytes),
            Got::Absent => {
                let name = self.name(file).copy()?;
                self.note_absent(name)?;
                Ok(false)
            }
            Got::Long => Err(passed(limit_numbers::FILE_BYTES, file)),
            Got::Failed => Err(Stop::ReadFault(file)),
        }
    }

    /// Holds the bytes of a file that was found.
    fn keep_bytes(&mut self, file: u32, bytes: List<u8>) -> Result<bool, Stop>
        requires numbered { file < length self.old.names }
        requires short { length bytes ≤ length_limit }
        ensures { KeepsBytes bytes self.old file result self.new }
    {
        if self.found >= MOST_FILES {
            return Err(passed(limit_numbers::FILES, file));
        }
        match self.hold(file, bytes) {
            Ok(()) => Ok(true),
            Err(stop) => Err(stop),
        }
    }

    /// Notes that a name has no file. After an `Err` nothing is changed.
    fn note_absent(&mut self, name: Text) -> Result<(), Memory>
        requires { is_known_absent self.old name ≡ false }
        ensures ok { OnOk result (self.new ≡ without_file self.old name) }
        ensures err { OnErr result (self.new ≡ self.old) }
    {
        self.absent.insert(name)?;
        Ok(())
    }

    /// Looks for the file of a name.
    fn seek<F: Folder>(&mut self, folder: &mut F, name: &Text) -> Result<Option<u32>, Stop>
        requires { length self.old.names < 4294967295 }
        ensures seeks { Seeks (F.files folder.old) name.now self.old result self.new }
        ensures held { is_held self.old (number_of self.old name.now) ≡ true → folder.new ≡ folder.old }
        ensures absent { is_known_absent self.old name.now ≡ true → folder.new ≡ folder.old }
        ensures failed { (number : ℕ) → result ≡ Err (Stop.ReadFault number) → Rose (F.faults folder.old) (F.faults folder.new) }
        ensures files_stay { F.files folder.new ≡ F.files folder.old }
        ensures rooms_stay { (other : Sequence ℕ) → F.room folder.new other ≡ F.room folder.old other }
        ensures later { F.faults folder.old ≤ F.faults folder.new }
    {
        if let Some(file) = self.held_number(name) {
            return Ok(Some(file));
        }
        if self.is_absent(name) {
            return Ok(None);
        }
        let alloc = *self.contents.allocator();
        match folder.read(alloc, name, source_length_limit())? {
            Got::Absent => {
                self.note_absent(name.copy()?)?;
                Ok(None)
            }
            got => {
                let file = self.number(name)?;
                self.keep(file, got)?;
                Ok(Some(file))
            }
        }
    }

    /// Searches for the file that a header name means: in the folder of the including file where it is quoted, then in
    /// the include folders in order, and then among the built-in headers. Only the name that is found, or at which the
    /// search stops, gets a number.
    pub fn find<F: Folder>(
        &mut self,
        folder: &mut F,
        from: u32,
        quoted: bool,
        name: &Text,
        include: &[Text],
    ) -> Result<Option<u32>, Stop>
        requires room { length self.old.names < 4294967295 }
        requires numbered { from < length self.old.names }
        ensures search { ((result ≡ Err Stop.Memory) × (self.new ≡ self.old)) ⊎
            Finds (F.files folder.old) (header_number name.now) (names_for name.now (places (name_of self.old from) quoted include.now)) self.old result self.new }
        ensures settled { IsSettled (names_for name.now (places (name_of self.old from) quoted include.now)) self.old → folder.new ≡ folder.old }
        ensures failed { (number : ℕ) → result ≡ Err (Stop.ReadFault number) → Rose (F.faults folder.old) (F.faults folder.new) }
        ensures files_stay { F.files folder.new ≡ F.files folder.old }
        ensures rooms_stay { (other : Sequence ℕ) → F.room folder.new other ≡ F.room folder.old other }
        ensures later { F.faults folder.old ≤ F.faults folder.new }
    {
        let alloc = *self.contents.allocator();
        let names = candidates(
            alloc,
            self.name(from).bytes(),
            quoted,
            name.bytes(),
            include,
        )?;
        self.find_first(folder, &names, header_number_of(name.bytes()))
    }

    /// The number of the first of these names that has a file, or else this one.
    fn find_first<F: Folder>(
        &mut self,
        folder: &mut F,
        names: &[Text],
        header: Option<u32>,
    ) -> Result<Option<u32>, Stop>
        requires { length self.old.names < 4294967295 }
        ensures search { Finds (F.files folder.old) header names.now self.old result self.new }
        ensures settled { IsSettled names.now self.old → folder.new ≡ folder.old }
        ensures failed { (number : ℕ) → result ≡ Err (Stop.ReadFault number) → Rose (F.faults folder.old) (F.faults folder.new) }
        ensures files_stay { F.files folder.new ≡ F.files folder.old }
        ensures rooms_stay { (other : Sequence ℕ) → F.room folder.new other ≡ F.room folder.old other }
        ensures later { F.faults folder.old ≤ F.faults folder.new }
    {
        for name in names {
            match self.seek(folder, name) {
                Ok(None) => {}
                Ok(Some(file)) => return Ok(Some(file)),
                Err(stop) => return Err(stop),
            }
        }
        Ok(header)
    }

    /// Holds new bytes for a file that is held, and writes nothing. After an `Err` the old bytes are held.
    pub fn replace(&mut self, file: u32, bytes: List<u8>) -> Result<(), Stop>
        requires { is_held self.old file ≡ true }
        ensures ok { OnOk result (IsReadable file bytes) }
        ensures replaced { OnOk result (self.new ≡ with_bytes self.old file bytes) }
        ensures stop { IfErr result (StopsReplacing file bytes) }
        ensures err { OnErr result (self.new ≡ self.old) }
    {
        // What holds of the parts of a loader is known where one of them is looked at.
        let _ = &self.contents;
        if bytes.len() > source_length_limit() {
            return Err(passed(limit_numbers::FILE_BYTES, file));
        }
        self.hold(file, bytes)?;
        Ok(())
    }

    /// Holds bytes for a file, if they can be read. After an `Err` nothing is changed.
    fn hold(&mut self, file: u32, bytes: List<u8>) -> Result<(), Stop>
        requires numbered { file < length self.old.names }
        requires short { length bytes ≤ length_limit }
        ensures ok { OnOk result (IsReadable file bytes) }
        ensures held { OnOk result (self.new ≡ with_bytes self.old file bytes) }
        ensures stop { IfErr result (StopsReading file bytes) }
        ensures err { OnErr result (self.new ≡ self.old) }
    {
        let content = Content::read(*self.contents.allocator(), file, bytes)?;
        self.found = found_with(&self.contents, self.found, file as usize);
        self.contents[file as usize] = Some(content);
        Ok(())
    }
}

/// How many files of the folder are held once there is a content at a slot, where so many are held.
fn found_with(contents: &[Option<Content>], found: usize, slot: usize) -> usize
    requires inside { slot < length contents.now }
    requires counted { found ≡ count_by is_some (drop header_count contents.now) }
    ensures { (content : Content) → result ≡ count_by is_some (drop header_count (slice_set contents.now slot (Some content))) }
{
    if slot >= HEADER_COUNT && contents[slot].is_none() {
        found + 1
    } else {
        found
    }
}

/// The limit of this number, passed with a file.
fn passed(number: u8, file: u32) -> Stop
    ensures { result ≡ limit_passed (limit_at number file) }
{
    Stop::Limit(Limit { number, file })
}
