//! Guest memory.
#![tactic(auto)]

ghost use Rattle.std.specs.Prelude.{◌≡◌, ◌<◌, ◌^◌, IfOk, IfSome, IsOkUnless, length};
ghost use Rattle.std.specs.Bool.{OnTrue, OnFalse};
ghost use Rattle.tv_base.specs.Width.{width_bytes};
ghost use Rattle.tv_ram.specs.Memory.{
  IsRamSize,
  is_inside,
  bytes_at,
  with_bytes,
  page_base,
  with_zero_page,
  loaded,
  with_number,
  zeros,
};

mod bytes;

use bytes::{load_at, read_at, store_at, word_at, write_at, zero_page_bytes};
use std::alloc::Global;
use std::marker::Model;
use thiserror::Error;
use tv_base::{PAGE_BYTES, RAM_BYTES, RAM_BYTES_LEAST, Width};

/// Why memory is not made.
#[derive(Debug, Drop, Error)]
pub enum RamError {
    /// Its number of bytes isn't a multiple of 4096 from 65,536 to 268,435,456.
    #[error("memory can't have this size")]
    Size,
    /// Want of memory.
    #[error("out of memory")]
    Memory,
}

/// Guest memory. Contracts see it as the list of its bytes, of which the first is the one at
/// [`RAM_BASE`](tv_base::RAM_BASE). Their number never changes.
#[derive(Drop)]
pub struct Ram {
    bytes: Vec<u8>,
}

impl Model for Ram {
    ghost use Rattle.std.specs.Prelude.{ℕ, List, length, ◌≤◌};

    ghost Value = { List ℕ };

    ghost view = { λ ram. ram.bytes.items };

    ghost invariant = { λ ram. 65536 ≤ length ram.bytes.items };
}

impl Ram {
    /// Memory of `bytes` zeros.
    ///
    /// # Errors
    /// The size is no multiple of 4096 from 65,536 to 268,435,456, or want of memory.
    #[tactic(auto, unfolding(crate::specs::Memory::zeros))]
    pub fn new(alloc: Global, bytes: u32) -> Result<Ram, RamError>
        ensures size { ¬ IsRamSize bytes → result ≡ Err RamError.Size }
        ensures free { IsRamSize bytes → IsOkUnless result RamError.Memory }
        ensures zeros { IfOk result (λ ram. ram ≡ zeros bytes) }
    {
        if bytes < RAM_BYTES_LEAST || bytes > RAM_BYTES || bytes % PAGE_BYTES != 0 {
            return Err(RamError::Size);
        }
        match vec![in alloc; 0u8; bytes as usize] {
            Ok(bytes) => Ok(Ram { bytes }),
            Err(_) => Err(RamError::Memory),
        }
    }

    /// Copies the bytes from an address on into `out`. False where one of them lies outside: `out`
    /// stays as it was then.
    pub fn read(&self, addr: u64, out: &mut [u8]) -> bool
        ensures inside { result ≡ is_inside (length self.now) addr (length out.old) }
        ensures read { OnTrue result (out.new ≡ bytes_at self.now addr (length out.old)) }
        ensures unchanged { OnFalse result (out.new ≡ out.old) }
    {
        read_at(&self.bytes, addr, out)
    }

    /// Writes bytes from an address on. False where one of them would lie outside: nothing changes
    /// then.
    pub fn write(&mut self, addr: u64, bytes: &[u8]) -> bool
        ensures inside { result ≡ is_inside (length self.old) addr (length bytes.now) }
        ensures written { OnTrue result (self.new ≡ with_bytes self.old addr bytes.now) }
        ensures unchanged { OnFalse result (self.new ≡ self.old) }
        ensures size { length self.new ≡ length self.old }
    {
        write_at(&mut self.bytes, addr, bytes)
    }

    /// Fills a page with zeros. Pages have 4096 bytes, and a page's number is its address divided by
    /// 4096. False where the page isn't one of memory's: nothing changes then.
    pub fn zero_page(&mut self, page: u32) -> bool
        ensures inside { result ≡ is_inside (length self.old) (page_base page) 4096 }
        ensures zeroed { OnTrue result (self.new ≡ with_zero_page self.old page) }
        ensures unchanged { OnFalse result (self.new ≡ self.old) }
        ensures size { length self.new ≡ length self.old }
    {
        let address = u64::from(page) * PAGE_BYTES as u64;
        self.write(address, &zero_page_bytes())
    }

    /// The little-endian number in the `width` bytes from an address on; `None` where one of them
    /// lies outside.
    #[inline(always)]
    pub fn load(&self, addr: u64, width: Width) -> Option<u64>
        ensures number { result ≡ loaded self.now addr (width_bytes width) }
        ensures fits { IfSome result (λ value. value < 256 ^ width_bytes width) }
    {
        load_at(&self.bytes, addr, width)
    }

    /// The little-endian word of 4 bytes from an address on; `None` where one of them lies outside.
    #[inline(always)]
    pub fn word(&self, addr: u64) -> Option<u32>
        ensures { result ≡ loaded self.now addr 4 }
    {
        word_at(&self.bytes, addr)
    }

    /// Writes the low `width` bytes of a number from an address on, little-endian. False where one of
    /// them would lie outside: nothing changes then.
    #[inline(always)]
    pub fn store(&mut self, addr: u64, width: Width, value: u64) -> bool
        ensures inside { result ≡ is_inside (length self.old) addr (width_bytes width) }
        ensures stored { OnTrue result (self.new ≡ with_number self.old addr (width_bytes width) value) }
        ensures unchanged { OnFalse result (self.new ≡ self.old) }
        ensures size { length self.new ≡ length self.old }
    {
        store_at(&mut self.bytes, addr, width, value)
    }
}

#[cfg(test)]
mod tests;
