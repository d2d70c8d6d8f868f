// Files and a sink in memory, which fail where they are told to.
ghost use Rattle.std.specs.Prelude.{◌≡◌, ◌≢◌, ◌↔◌, ◌⊎◌, ◌==◌, ◌+◌, ◌-◌, ◌^◌, ◌<◌, ◌≤◌, ◌++◌, min, length, nat_eq, take, find, List, ℕ, [], IfSome, IsNone, IsSome, MatchOption, OnOk, OnErr, Contains, Some, None};
ghost use Rattle.std.specs.Cmp.Lexicographic.{pointwise};
ghost use Rattle.std.specs.Option.{option_copied, option_map};
ghost use Rattle.std.specs.Io.KnownBytes.{Appends, Keeps};
ghost use Rattle.sy_base.specs.Outside.{Rose, AppendsHeld, AppendsFront};
ghost use Rattle.sy_base.specs.Named.{held_in};

use crate::outside::{Files, ReadAnswer, Sink, SinkAnswer};
use binding_terms::Text;
use std::alloc::{AllocError, Global};

/// A file in memory.
#[derive(Drop)]
pub struct MemFile {
    pub name: Text,
    pub bytes: Vec<u8>,
}

/// Files in memory. The calls whose numbers are listed fail, counted from 1.
#[derive(Drop)]
pub struct MemFiles {
    files: Vec<MemFile>,
    failing: Vec<u64>,
    calls: u64,
    faults: u64,
}

// The bytes of the first file of that name.
pub(crate) fn bytes_of<'a>(files: &'a [MemFile], name: &[u8]) -> Option<&'a [u8]>
    ensures { option_copied result ≡ held_in files.now name.now }
{
    files
        .iter()
        .find(|file| file.name.bytes() == name)
        .map(|file| file.bytes.as_slice())
}

// Appends these bytes where there are at most `limit`.
pub(crate) fn append_within(bytes: &[u8], limit: usize, into: &mut Vec<u8>) -> ReadAnswer
    ensures done { result ≡ ReadAnswer.Done → into.new.items ≡ into.old.items ++ bytes.now }
    ensures within { result ≡ ReadAnswer.Done → length bytes.now ≤ limit }
    ensures too_long { result ≡ ReadAnswer.TooLong → limit < length bytes.now }
    ensures unchanged { result ≢ ReadAnswer.Done → into.new.items ≡ into.old.items }
    ensures no_fault { result ≢ ReadAnswer.Failed }
{
    if bytes.len() > limit {
        return ReadAnswer::TooLong;
    }
    match into.extend_from_slice(bytes) {
        Ok(()) => ReadAnswer::Done,
        Err(_) => ReadAnswer::NoMemory,
    }
}

impl MemFiles {
    pub fn new(files: Vec<MemFile>, failing: Vec<u64>) -> MemFiles
        ensures held { (name : List ℕ) → ⟦<MemFiles as Files>⟧.held result name ≡ held_in files.items name }
        ensures failing { result.failing.items ≡ failing.items }
        ensures calls { result.calls ≡ 0 }
        ensures faults { (name : List ℕ) → ⟦<MemFiles as Files>⟧.faults result name ≡ 0 }
    {
        MemFiles {
            files,
            failing,
            calls: 0,
            faults: 0,
        }
    }
}

impl Files for MemFiles {
    ghost use Rattle.sy_base.specs.Named.{held_in, next_call};

    ghost held = { λ s name. held_in s.files.items name };

    ghost faults = { λ s _. s.faults };

    fn read(&mut self, _alloc: Global, name: &str, limit: usize, into: &mut Vec<u8>) -> ReadAnswer
        requires { limit < usize.MAX }
        ensures held_stays { (other : List ℕ) → held_in self.new.files.items other ≡ held_in self.old.files.items other }
        ensures never_falls { (other : List ℕ) → ⟦<MemFiles as Files>⟧.faults self.old other ≤ ⟦<MemFiles as Files>⟧.faults self.new other }
        ensures done { result ≡ ReadAnswer.Done
            → AppendsHeld (held_in self.old.files.items name.now) limit into.old.items into.new.items }
        ensures too_long { result ≢ ReadAnswer.Failed → result ≢ ReadAnswer.NoMemory
            → IfSome (⟦<MemFiles as Files>⟧.held self.old name.now) (λ told. (result ≡ ReadAnswer.TooLong) ↔ (limit < length told)) }
        ensures failed { result ≡ ReadAnswer.Failed → Rose self.old.faults self.new.faults }
        ensures unchanged { result ≢ ReadAnswer.Done → into.new.items ≡ into.old.items }
        // It fails at the listed calls and at an unknown name, and nowhere else.
        ensures counts { self.new.calls ≡ next_call self.old.calls }
        ensures listed { Contains self.old.failing.items (next_call self.old.calls) → result ≡ ReadAnswer.Failed }
        ensures unknown { held_in self.old.files.items name.now ≡ None → result ≡ ReadAnswer.Failed }
        ensures only { result ≡ ReadAnswer.Failed
            → Contains self.old.failing.items (next_call self.old.calls) ⊎ (held_in self.old.files.items name.now ≡ None) }
        ensures failing_stays { self.new.failing.items ≡ self.old.failing.items }
        ensures count_stays { result ≢ ReadAnswer.Failed → self.new.faults ≡ self.old.faults }
    {
        self.calls = self.calls.saturating_add(1);
        if self.failing.contains(&self.calls) {
            self.faults = self.faults.saturating_add(1);
            return ReadAnswer::Failed;
        }
        match bytes_of(&self.files, name.as_bytes()) {
            Some(bytes) => append_within(bytes, limit, into),
            None => {
                self.faults = self.faults.saturating_add(1);
                ReadAnswer::Failed
            }
        }
    }
}

/// A put that fails after so many bytes.
#[derive(Clone, Copy, Debug, PartialEq, Eq)]
pub struct CutPut {
    pub call: u64,
    pub after: usize,
}

/// A sink in memory. The listed calls fail, counted from 1.
#[derive(Drop)]
pub struct MemSink {
    bytes: Vec<u8>,
    failing: Vec<CutPut>,
    calls: u64,
    faults: u64,
}

// After how many bytes this call fails, if it is listed.
fn cut_of(failing: &[CutPut], call: u64) -> Option<usize>
    ensures { result ≡ option_map (λ cut. cut.after) (find (λ cut. cut.call == call) failing.now) }
{
    failing
        .iter()
        .find(|cut| cut.call == call)
        .map(|cut| cut.after)
}

// Appends the bytes in front, at most so many.
fn append_front(bytes: &[u8], most: usize, into: &mut Vec<u8>) -> Result<(), AllocError>
    ensures ok { OnOk result (into.new.items ≡ into.old.items ++ take most bytes.now) }
    ensures err { OnErr result (into.new.items ≡ into.old.items) }
{
    if most < bytes.len() {
        into.extend_from_slice(&bytes[..most])
    } else {
        into.extend_from_slice(bytes)
    }
}

impl MemSink {
    pub fn new(alloc: Global, failing: Vec<CutPut>) -> MemSink
        ensures written { ⟦<MemSink as Sink>⟧.written result ≡ Some [] }
        ensures failing { result.failing.items ≡ failing.items }
        ensures calls { result.calls ≡ 0 }
        ensures faults { ⟦<MemSink as Sink>⟧.faults result ≡ 0 }
    {
        MemSink {
            bytes: Vec::new(alloc),
            failing,
            calls: 0,
            faults: 0,
        }
    }

    /// What was written.
    pub fn bytes(&self) -> &[u8]
        ensures { ⟦<MemSink as Sink>⟧.written self.now ≡ Some result.now }
    {
        &self.bytes
    }
}

impl Sink for MemSink {
    ghost use Rattle.sy_base.specs.Named.{next_call, cut_at};

    ghost written = { λ s. Some s.bytes.items };

    ghost faults = { λ s. s.faults };

    fn put(&mut self, bytes: &[u8]) -> SinkAnswer
        ensures never_falls { self.old.faults ≤ self.new.faults }
        ensures done { result ≡ SinkAnswer.Done → self.new.bytes.items ≡ self.old.bytes.items ++ bytes.now }
        ensures failed { result ≡ SinkAnswer.Failed → Rose self.old.faults self.new.faults }
        ensures cut { result ≡ SinkAnswer.Failed → AppendsFront (Some self.old.bytes.items) (Some self.new.bytes.items) bytes.now }
        ensures no_memory { result ≡ SinkAnswer.NoMemory → self.new.bytes.items ≡ self.old.bytes.items }
        // It fails at the listed calls, after so many bytes, and nowhere else.
        ensures counts { self.new.calls ≡ next_call self.old.calls }
        ensures listed { MatchOption (cut_at self.old.failing.items (next_call self.old.calls)) (result ≢ SinkAnswer.Failed)
            (λ after. (result ≢ SinkAnswer.Done) × (result ≡ SinkAnswer.Failed → self.new.bytes.items ≡ self.old.bytes.items ++ take after bytes.now)) }
        ensures failing_stays { self.new.failing.items ≡ self.old.failing.items }
        ensures count_stays { result ≢ SinkAnswer.Failed → self.new.faults ≡ self.old.faults }
    {
        self.calls = self.calls.saturating_add(1);
        match cut_of(&self.failing, self.calls) {
            Some(after) => match append_front(bytes, after, &mut self.bytes) {
                Ok(()) => {
                    self.faults = self.faults.saturating_add(1);
                    SinkAnswer::Failed
                }
                Err(_) => SinkAnswer::NoMemory,
            },
            None => match self.bytes.extend_from_slice(bytes) {
                Ok(()) => SinkAnswer::Done,
                Err(_) => SinkAnswer::NoMemory,
            },
        }
    }
}
