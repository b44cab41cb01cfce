//! A machine.

ghost use Rattle.std.specs.Prelude.{◌≡◌, ◌≤◌, ◌↔◌, IfOk, IsTrue, IsSome};
ghost use Rattle.tv_base.specs.declared.limits.TheConstants.{DISK_SECTORS};
ghost use Rattle.tv_machine.specs.Capabilities.{disk_slot_of, resized, sectors_of};
ghost use Rattle.tv_machine.specs.Machines.{plain_machine, flat_machine};
ghost use Rattle.tv_machine.specs.Valid.{IsFileName, IsValid};

use crate::capabilities::disk_slot;
use crate::lists::{DeviceList, NameList};
use crate::text::KeyText;
use std::alloc::Global;
use tv_base::{
    CapNo, FLAT_RAM_BYTES, HART_EVENTS_DEFAULT, JOURNAL_PAYLOAD_BYTES_DEFAULT,
    JOURNAL_RECORDS_DEFAULT, Memory, RAM_BYTES_DEFAULT, TUBE_MESSAGES_DEFAULT,
};

/// What a machine is made of.
#[derive(Drop)]
pub struct Machine {
    /// The file of the image that lies at the start of guest memory.
    pub image: KeyText,
    /// Bytes of guest memory.
    pub ram: u32,
    /// How many harts it has.
    pub harts: u8,
    /// How many hart events a run may have.
    pub steps: u32,
    /// How many records its journal has room for.
    pub journal_entries: u32,
    /// How many payload bytes its journal has room for.
    pub journal_bytes: u32,
    /// How many messages a device's command tube holds before an access stalls.
    pub tube: u16,
    /// The sockets of its control lines.
    pub control: NameList,
    /// Its devices, by their slots.
    pub device: DeviceList,
}

impl Machine {
    /// The machine that is told by its image alone: one hart, 16 MiB of memory, no line and no device.
    pub fn new(image: KeyText) -> Machine
        ensures machine { result ≡ plain_machine image }
        ensures valid { IsFileName image → IsValid result }
    {
        Machine {
            image,
            ram: RAM_BYTES_DEFAULT,
            harts: 1,
            steps: HART_EVENTS_DEFAULT,
            journal_entries: JOURNAL_RECORDS_DEFAULT,
            journal_bytes: JOURNAL_PAYLOAD_BYTES_DEFAULT,
            tube: TUBE_MESSAGES_DEFAULT,
            control: NameList::new(),
            device: DeviceList::new(),
        }
    }

    /// The machine of flat runs: as [`Machine::new`] makes it, with 1 MiB of memory. The name of its image
    /// stands for no file.
    ///
    /// # Errors
    /// Want of memory.
    pub fn flat(alloc: Global) -> Result<Machine, Memory>
        ensures machine { IfOk result (λ machine. machine ≡ flat_machine) }
        ensures valid { IfOk result IsValid }
    {
        let mut machine = Machine::new(KeyText::new(alloc, "image")?);
        machine.ram = FLAT_RAM_BYTES;
        Ok(machine)
    }

    /// How many sectors the disk with this capability number has; `None` exactly where it is no disk's.
    pub fn sectors(&self, cap: CapNo) -> Option<u32>
        ensures { result ≡ sectors_of self.now cap }
    {
        let devices = self.device.as_slice();
        match disk_slot(devices, usize::from(cap.get())) {
            Some(slot) => Some(devices[slot].sectors),
            None => None,
        }
    }

    /// Notes how many sectors the disk with this capability number has. The answer is `false` exactly where
    /// it is no disk's, and the machine is then as it was.
    pub fn set_sectors(&mut self, cap: CapNo, sectors: u32) -> bool
        requires { sectors ≤ DISK_SECTORS }
        ensures disk { IsTrue result ↔ IsSome (disk_slot_of self.old cap) }
        ensures machine { self.new ≡ resized self.old cap sectors }
        ensures valid { IsValid self.old → IsValid self.new }
    {
        match disk_slot(self.device.as_slice(), usize::from(cap.get())) {
            Some(slot) => {
                self.device.set_sectors(slot, sectors);
                true
            }
            None => false,
        }
    }
}
