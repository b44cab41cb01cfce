//! The lists of a machine.

ghost use Rattle.std.specs.Prelude.{◌≡◌, [], ◌∷◌, ◌++◌, OnOk, OnErr, ◌<◌, length};
ghost use Rattle.std.specs.Option.{option_map_or};
ghost use Rattle.tv_machine.specs.Capabilities.{resized_at};

use crate::kinds::{DeviceSpec, MemRange};
use crate::text::KeyText;
use std::alloc::Global;
use std::marker::Model;
use tv_base::Memory;

/// Puts an item at the end of a list, which takes memory with its first item.
fn push_item<T: Drop>(items: &mut Option<Vec<T>>, alloc: Global, item: T) -> Result<(), Memory>
    ensures ok { OnOk result (option_map_or (λ list. list.items) items.new [] ≡ option_map_or (λ list. list.items) items.old [] ++ item ∷ []) }
    ensures err { OnErr result (option_map_or (λ list. list.items) items.new [] ≡ option_map_or (λ list. list.items) items.old []) }
{
    match items {
        Some(items) => match items.push(item) {
            Ok(()) => Ok(()),
            Err(_) => Err(Memory),
        },
        None => {
            let mut list = Vec::new(alloc);
            let pushed = match list.push(item) {
                Ok(()) => Ok(()),
                Err(_) => Err(Memory),
            };
            *items = Some(list);
            pushed
        }
    }
}

/// A list of names.
#[derive(Drop)]
pub struct NameList {
    items: Option<Vec<KeyText>>,
}

impl Model for NameList {
    ghost use Rattle.std.specs.Prelude.{ℕ, List, []};
    ghost use Rattle.std.specs.Option.{option_map_or};

    ghost Value = { List (List ℕ) };

    ghost view = { λ names. option_map_or (λ items. items.items) names.items [] };
}

impl NameList {
    /// The list without a name.
    pub fn new() -> NameList
        ensures { result ≡ [] }
    {
        NameList { items: None }
    }

    /// Puts a name at the end.
    ///
    /// # Errors
    /// Want of memory; the list is then as it was.
    pub fn push(&mut self, alloc: Global, item: KeyText) -> Result<(), Memory>
        ensures ok { OnOk result (self.new ≡ self.old ++ item ∷ []) }
        ensures err { OnErr result (self.new ≡ self.old) }
    {
        push_item(&mut self.items, alloc, item)
    }

    /// The names in their order.
    pub fn as_slice(&self) -> &[KeyText]
        ensures { result.now ≡ self.now }
    {
        match &self.items {
            Some(items) => items.as_slice(),
            None => &[],
        }
    }
}

/// A list of memory ranges.
#[derive(Drop)]
pub struct RangeList {
    items: Option<Vec<MemRange>>,
}

impl Model for RangeList {
    ghost use Rattle.std.specs.Prelude.{List, []};
    ghost use Rattle.std.specs.Option.{option_map_or};
    ghost use Rattle.tv_machine.specs.declared.kinds.MemRange.{MemRange};

    ghost Value = { List MemRange };

    ghost view = { λ ranges. option_map_or (λ items. items.items) ranges.items [] };
}

impl RangeList {
    /// The list without a range.
    pub fn new() -> RangeList
        ensures { result ≡ [] }
    {
        RangeList { items: None }
    }

    /// Puts a range at the end.
    ///
    /// # Errors
    /// Want of memory; the list is then as it was.
    pub fn push(&mut self, alloc: Global, item: MemRange) -> Result<(), Memory>
        ensures ok { OnOk result (self.new ≡ self.old ++ item ∷ []) }
        ensures err { OnErr result (self.new ≡ self.old) }
    {
        push_item(&mut self.items, alloc, item)
    }

    /// The ranges in their order.
    pub fn as_slice(&self) -> &[MemRange]
        ensures { result.now ≡ self.now }
    {
        match &self.items {
            Some(items) => items.as_slice(),
            None => &[],
        }
    }
}

/// A list of devices; a device's place is its slot.
#[derive(Drop)]
pub struct DeviceList {
    items: Option<Vec<DeviceSpec>>,
}

impl Model for DeviceList {
    ghost use Rattle.std.specs.Prelude.{List, []};
    ghost use Rattle.std.specs.Option.{option_map_or};
    ghost use Rattle.tv_machine.specs.declared.kinds.DeviceSpec.{DeviceSpec};

    ghost Value = { List DeviceSpec };

    ghost view = { λ devices. option_map_or (λ items. items.items) devices.items [] };
}

impl DeviceList {
    /// The list without a device.
    pub fn new() -> DeviceList
        ensures { result ≡ [] }
    {
        DeviceList { items: None }
    }

    /// Puts a device into the next slot.
    ///
    /// # Errors
    /// Want of memory; the list is then as it was.
    pub fn push(&mut self, alloc: Global, item: DeviceSpec) -> Result<(), Memory>
        ensures ok { OnOk result (self.new ≡ self.old ++ item ∷ []) }
        ensures err { OnErr result (self.new ≡ self.old) }
    {
        push_item(&mut self.items, alloc, item)
    }

    /// The devices in the order of their slots.
    pub fn as_slice(&self) -> &[DeviceSpec]
        ensures { result.now ≡ self.now }
    {
        match &self.items {
            Some(items) => items.as_slice(),
            None => &[],
        }
    }

    /// Notes how many sectors the disk of the device in a slot has.
    pub(crate) fn set_sectors(&mut self, slot: usize, sectors: u32)
        requires { slot < length self.old }
        ensures { self.new ≡ resized_at slot sectors self.old }
    {
        match &mut self.items {
            Some(items) => set_sectors_at(items, slot, sectors),
            None => {}
        }
    }
}

/// Notes how many sectors the disk of the device in a slot has.
fn set_sectors_at(devices: &mut [DeviceSpec], slot: usize, sectors: u32)
    requires { slot < length devices.old }
    ensures { devices.new ≡ resized_at slot sectors devices.old }
{
    devices[slot].sectors = sectors;
}
