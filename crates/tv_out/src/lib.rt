//! The traits of what lies outside the program: files, disks, output, input and random bytes.
//!
//! Each object has a count of faults that never falls, and a call answers a failure only where that count rose. What an
//! object holds is told where it can be, as by objects in memory, and `None` elsewhere. An object may also tell
//! beforehand which of its calls will fail, and how much room it has or what it can give: then a call fails for that,
//! and for nothing else.
#![tactic(auto)]

ghost use Rattle.std.specs.Prelude.{◌≡◌, ◌<◌, ◌≤◌, ◌^◌, IfOk, IfErr, OnOk, OnErr, length, take};
ghost use Rattle.std.specs.Option.{option_map};
ghost use Rattle.std.specs.Result.{is_err, result_map_both};
ghost use Rattle.tv_out.specs.Faults.{Rose, HasCause, NameRose, StaysElsewhere};
ghost use Rattle.tv_out.specs.Calls.{with_call, after_call, calls_of, FollowsCalls};
ghost use Rattle.tv_out.specs.Told.{appended, prepended, gone, Holds, IsLonger, IsSpent, FollowsPut, FollowsTake, FollowsFill, IsCreatedSink, IsOpenedSource};
ghost use Rattle.tv_out.specs.Disk.{IsWhole, HoldsSector, after_write, after_flush, after_set_len, sectors_after, FollowsSetLen, IsOpenedDisk};
ghost use Rattle.tv_out.specs.Asked.{HasOpened, disks, sinks, sources, after_load, FollowsLoad};

mod output;

pub use output::put_all;
use std::alloc::Global;
pub use tv_base::Failed;

/// A put that went out in part: the first `taken` bytes did.
#[derive(Clone, Copy, Debug, PartialEq, Eq)]
pub struct Short {
    /// How many bytes went out.
    pub taken: u16,
}

/// Why a file was not loaded.
#[derive(Clone, Copy, Debug, PartialEq, Eq)]
pub enum LoadFault {
    /// The file has more bytes than were asked for at most.
    TooLong,
    /// The store failed, and its count of faults rose.
    Failed,
    /// Want of memory.
    Memory,
}

/// Files by name.
pub trait Store {
    ghost use Rattle.tv_out.specs.Told.{ToldStore};

    /// A disk of this store.
    type Disk: Disk + Drop;

    /// A file of this store that bytes are put to.
    type Sink: Sink + Drop;

    /// A file of this store that bytes are taken from.
    type Source: Source + Drop;

    // What the store tells of itself.
    ghost told: { Self → ToldStore };

    /// The count of faults. It never falls, and stands still at its last value.
    fn faults(&self) -> u64
        ensures { result ≡ (told self.now).faults };

    /// The bytes of the file `name`, of which there are to be at most `most`. It uses nothing up.
    ///
    /// # Errors
    /// `TooLong` exactly where the file is longer, `Failed` where the store failed at this name, `Memory`.
    fn load(&mut self, alloc: Global, name: &str, most: usize) -> Result<Vec<u8>, LoadFault>
        ensures ok { IfOk result (λ bytes. Holds (told self.old).files name.now bytes.items) }
        ensures short { IfOk result (λ bytes. length bytes.items ≤ most) }
        ensures too_long { result ≡ Err LoadFault.TooLong → IsLonger (told self.old).files name.now most }
        ensures failed { result ≡ Err LoadFault.Failed → Rose (told self.old).faults (told self.new).faults }
        ensures at_name { result ≡ Err LoadFault.Failed → NameRose (told self.old).name_faults (told self.new).name_faults name.now }
        ensures follows { FollowsLoad (told self.old).script name.now (told self.old) (told self.new) result }

        // Of everything else that the store tells nothing changes, but for counts that rise.
        ensures later { (told self.old).faults ≤ (told self.new).faults }
        ensures elsewhere { StaysElsewhere (told self.old).name_faults (told self.new).name_faults name.now }
        ensures files { (told self.new).files ≡ (told self.old).files }
        ensures script { (told self.new).script ≡ option_map after_load (told self.old).script };

    /// Opens the file `name` as a disk, for reading alone where `readonly` says so.
    ///
    /// # Errors
    /// `Failed` where the store failed at this name.
    fn open_disk(&mut self, name: &str, readonly: bool) -> Result<Self::Disk, Failed>
        ensures opened { HasOpened disks IsOpenedDisk name.now (told self.old) (told self.new) (result_map_both Self.Disk.told (λ failed. failed) result) };

    /// Creates the file `name`, or empties the one that is there, for bytes to be put to.
    ///
    /// # Errors
    /// `Failed` where the store failed at this name.
    fn create(&mut self, name: &str) -> Result<Self::Sink, Failed>
        ensures opened { HasOpened sinks IsCreatedSink name.now (told self.old) (told self.new) (result_map_both Self.Sink.told (λ failed. failed) result) };

    /// Opens the file `name`, for bytes to be taken from.
    ///
    /// # Errors
    /// `Failed` where the store failed at this name.
    fn open_source(&mut self, name: &str) -> Result<Self::Source, Failed>
        ensures opened { HasOpened sources IsOpenedSource name.now (told self.old) (told self.new) (result_map_both Self.Source.told (λ failed. failed) result) };
}

/// Whole sectors of 512 bytes each, at most 2^31 of them.
pub trait Disk {
    ghost use Rattle.tv_out.specs.Disk.{ToldDisk};

    // What the disk tells of itself.
    ghost told: { Self → ToldDisk };

    /// The count of faults. It never falls, and stands still at its last value.
    fn faults(&self) -> u64
        ensures { result ≡ (told self.now).faults };

    /// The number of sectors.
    fn sectors(&self) -> u32
        ensures value { result ≡ (told self.now).sectors }
        ensures most { result ≤ 2 ^ 31 }
        ensures whole { IsWhole (told self.now) (told self.now).content };

    /// Reads a sector.
    ///
    /// # Errors
    /// `Failed` where the disk failed; what `out` holds is not said then.
    fn read(&mut self, sector: u32, out: &mut [u8; 512]) -> Result<(), Failed>
        requires { sector < (told self.old).sectors }
        ensures ok { OnOk result (HoldsSector (told self.old).content sector out.new) }
        ensures sectors { (told self.new).sectors ≡ (told self.old).sectors }
        ensures content { (told self.new).content ≡ (told self.old).content }
        ensures cause { HasCause (told self.old).faults (told self.new).faults (is_err result) }
        ensures follows { FollowsCalls (calls_of (told self.old).script) (told self.old).faults (told self.new).faults (is_err result) }
        ensures script { (told self.new).script ≡ option_map after_call (told self.old).script };

    /// Writes a sector.
    ///
    /// # Errors
    /// `Failed` where the disk failed; nothing was changed then.
    fn write(&mut self, sector: u32, bytes: &[u8; 512]) -> Result<(), Failed>
        requires { sector < (told self.old).sectors }
        ensures sectors { (told self.new).sectors ≡ (told self.old).sectors }
        ensures content { (told self.new).content ≡ option_map (after_write result sector bytes.now) (told self.old).content }
        ensures cause { HasCause (told self.old).faults (told self.new).faults (is_err result) }
        ensures follows { FollowsCalls (calls_of (told self.old).script) (told self.old).faults (told self.new).faults (is_err result) }
        ensures script { (told self.new).script ≡ option_map after_call (told self.old).script };

    /// Makes the changes so far lasting.
    ///
    /// # Errors
    /// `Failed` where the disk failed.
    fn flush(&mut self) -> Result<(), Failed>
        ensures sectors { (told self.new).sectors ≡ (told self.old).sectors }
        ensures content { (told self.new).content ≡ option_map (after_flush result) (told self.old).content }
        ensures cause { HasCause (told self.old).faults (told self.new).faults (is_err result) }
        ensures follows { FollowsCalls (calls_of (told self.old).script) (told self.old).faults (told self.new).faults (is_err result) }
        ensures script { (told self.new).script ≡ option_map after_call (told self.old).script };

    /// Changes the number of sectors, to 2^31 at most. New sectors are zeros.
    ///
    /// # Errors
    /// `Failed` where the disk failed; nothing was changed then.
    fn set_len(&mut self, sectors: u32) -> Result<(), Failed>
        requires { sectors ≤ 2 ^ 31 }
        ensures sectors { (told self.new).sectors ≡ sectors_after result sectors (told self.old).sectors }
        ensures content { (told self.new).content ≡ option_map (after_set_len result sectors) (told self.old).content }
        ensures cause { HasCause (told self.old).faults (told self.new).faults (is_err result) }
        ensures follows { FollowsSetLen (told self.old).script sectors (told self.old).faults (told self.new).faults (is_err result) }
        ensures script { (told self.new).script ≡ option_map after_call (told self.old).script };
}

/// A file or a stream that bytes are put to.
pub trait Sink {
    ghost use Rattle.tv_out.specs.Told.{ToldSink};

    // What the sink tells of itself.
    ghost told: { Self → ToldSink };

    /// The count of faults. It never falls, and stands still at its last value.
    fn faults(&self) -> u64
        ensures { result ≡ (told self.now).faults };

    /// Puts a piece of 1 to 4096 bytes.
    ///
    /// # Errors
    /// `Short` where the sink failed; it says how many bytes of the piece went out all the same.
    fn put(&mut self, bytes: &[u8]) -> Result<(), Short>
        requires not_empty { 0 < length bytes.now }
        requires fits { length bytes.now ≤ 4096 }
        ensures told { (told self.new).bytes ≡ appended (told self.old).bytes (gone result bytes.now) }
        ensures taken { IfErr result (λ short. short.taken ≤ length bytes.now) }
        ensures cause { HasCause (told self.old).faults (told self.new).faults (is_err result) }
        ensures follows { FollowsPut (told self.old).script (told self.old).bytes (length bytes.now) (told self.old).faults (told self.new).faults result }
        ensures script { (told self.new).script ≡ option_map after_call (told self.old).script };
}

/// A file or a stream that bytes are taken from.
pub trait Source {
    ghost use Rattle.tv_out.specs.Told.{ToldSource};

    // What the source tells of itself.
    ghost told: { Self → ToldSource };

    /// The count of faults. It never falls, and stands still at its last value.
    fn faults(&self) -> u64
        ensures { result ≡ (told self.now).faults };

    /// Takes bytes into the front of the slice, and says how many; 0 for a slice that isn't empty says that nothing is
    /// left.
    ///
    /// # Errors
    /// `Failed` where the source failed; it gives nothing then, and what the slice holds is not said.
    fn take(&mut self, out: &mut [u8]) -> Result<usize, Failed>
        ensures bound { IfOk result (λ count. count ≤ length out.old) }
        ensures ok { IfOk result (λ count. (told self.old).left ≡ prepended (take count out.new) (told self.new).left) }
        ensures end { IfOk result (λ count. count ≡ 0 → 0 < length out.old → IsSpent (told self.old).left) }
        ensures err { OnErr result ((told self.new).left ≡ (told self.old).left) }
        ensures cause { HasCause (told self.old).faults (told self.new).faults (is_err result) }
        ensures follows { FollowsTake (told self.old).calls (told self.old).left (length out.old) (told self.old).faults (told self.new).faults result }
        ensures calls { (told self.new).calls ≡ option_map with_call (told self.old).calls };
}

/// Random bytes.
pub trait Entropy {
    ghost use Rattle.tv_out.specs.Told.{ToldEntropy};

    // What the object tells of itself.
    ghost told: { Self → ToldEntropy };

    /// The count of faults. It never falls, and stands still at its last value.
    fn faults(&self) -> u64
        ensures { result ≡ (told self.now).faults };

    /// Fills the slice with random bytes.
    ///
    /// # Errors
    /// `Failed` where the object failed; it takes nothing then, and what the slice holds is not said.
    fn fill(&mut self, out: &mut [u8]) -> Result<(), Failed>
        ensures ok { OnOk result ((told self.new).bytes ≡ appended (told self.old).bytes out.new) }
        ensures left { OnOk result ((told self.old).left ≡ prepended out.new (told self.new).left) }
        ensures err { OnErr result ((told self.new).bytes ≡ (told self.old).bytes) }
        ensures stays { OnErr result ((told self.new).left ≡ (told self.old).left) }
        ensures cause { HasCause (told self.old).faults (told self.new).faults (is_err result) }
        ensures follows { FollowsFill (told self.old).calls (told self.old).left (length out.old) (told self.old).faults (told self.new).faults (is_err result) }
        ensures calls { (told self.new).calls ≡ option_map with_call (told self.old).calls };
}
