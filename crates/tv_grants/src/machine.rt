//! The grants that a machine begins with.

ghost use Rattle.std.specs.Prelude.{◌≡◌, ◌≤◌, ◌+◌, ◌*◌, ◌^◌, ◌<◌, ◌≢◌, ℕ, All, IfOk, None, length, slice_index_or};
ghost use Rattle.tv_base.specs.declared.limits.TheConstants.{DEVICE_GRANTS};
ghost use Rattle.tv_machine.specs.Capabilities.{capabilities};
ghost use Rattle.tv_machine.specs.Valid.{IsInRam, IsValid};
ghost use Rattle.tv_grants.specs.Grants.{ram_bytes};
ghost use Rattle.tv_grants.specs.Machines.{AreNumbered, AreTheirs, machine_grants, with_device, with_optional, with_ranges};

use crate::Grants;
use std::alloc::Global;
use tv_base::{DevNo, Memory};
use tv_machine::{DeviceSpec, KeyText, Machine, MemRange};

impl Grants {
    /// What the devices of a valid machine are granted, in the order of its capability numbers.
    ///
    /// # Errors
    /// Out of memory.
    #[tactic(auto, using(crate::proofs::Machines::all_bytes))]
    pub fn of_machine(alloc: Global, machine: &Machine) -> Result<Grants, Memory>
        requires { IsValid machine.now }
        ensures grants { IfOk result (λ grants. grants ≡ machine_grants machine.now) }
        ensures numbers { IfOk result (AreNumbered (capabilities machine.now)) }
        ensures theirs { IfOk result (AreTheirs machine.now.device) }
    {
        let mut grants = Grants::new(alloc, machine.ram)?;
        let devices = machine.device.as_slice();
        for slot in 0..devices.len() {
            match DevNo::new(slot as u8) {
                Some(dev) => grants.add_device(dev, &devices[slot]),
                None => unreachable!(),
            }
        }
        Ok(grants)
    }

    /// Grants a device what it has.
    pub(crate) fn add_device(&mut self, dev: DevNo, spec: &DeviceSpec)
        requires ranges { length spec.now.mem ≤ DEVICE_GRANTS }
        requires inside { All (IsInRam (ram_bytes self.old)) spec.now.mem }
        requires room { length self.old.ranges ≤ 8 * dev }
        requires numbers { self.old.taken ≤ 12 * dev }
        requires first { slice_index_or self.old.sources dev None ≡ None }
        ensures state { self.new ≡ with_device dev spec.now self.old }
        ensures room { length self.new.ranges ≤ 8 * dev + 8 }
        ensures numbers { self.new.taken ≤ 12 * dev + 12 }
        ensures others { (slot : ℕ) → slot ≢ dev → slice_index_or self.new.sources slot None ≡ slice_index_or self.old.sources slot None }
        ensures pages { self.new.withdrawn ≡ self.old.withdrawn }
    {
        self.add_ranges(dev, spec.mem.as_slice());
        self.add_optional(&spec.disk);
        self.add_optional(&spec.output);
        self.add_optional(&spec.input);
        if spec.irq {
            let _source = self.add_irq(dev);
        }
    }

    /// Grants a device these ranges.
    #[tactic(auto, using(crate::proofs::Machines::not_refused))]
    fn add_ranges(&mut self, dev: DevNo, ranges: &[MemRange])
        requires ranges { length ranges.now ≤ DEVICE_GRANTS }
        requires inside { All (IsInRam (ram_bytes self.old)) ranges.now }
        requires room { length self.old.ranges ≤ 8 * dev }
        requires numbers { self.old.taken ≤ 12 * dev }
        ensures state { self.new ≡ with_ranges dev ranges.now self.old }
        ensures room { length self.new.ranges ≤ 8 * dev + 8 }
        ensures numbers { self.new.taken ≤ 12 * dev + 8 }
        ensures sources { self.new.sources ≡ self.old.sources }
        ensures pages { self.new.withdrawn ≡ self.old.withdrawn }
    {
        for range in ranges {
            let MemRange { base, len, rights } = *range;
            match self.add(dev, base, len, rights) {
                Ok(_) => {}
                Err(_) => unreachable!(),
            }
        }
    }

    /// Takes the capability number of a file, if there is one.
    fn add_optional(&mut self, file: &Option<KeyText>)
        requires numbers { self.old.taken < 2 ^ 16 }
        ensures state { self.new ≡ with_optional file.now self.old }
        ensures numbers { self.new.taken ≤ self.old.taken + 1 }
        ensures ranges { self.new.ranges ≡ self.old.ranges }
        ensures sources { self.new.sources ≡ self.old.sources }
        ensures pages { self.new.withdrawn ≡ self.old.withdrawn }
    {
        match file {
            Some(_) => {
                let _cap = self.add_file();
            }
            None => {}
        }
    }
}
