//! Guest memory's bytes as a slice.

ghost use Rattle.std.specs.Prelude.{◌≡◌, ◌<◌, ◌≤◌, ◌%◌, ◌^◌, ◌++◌, IfSome, if◌then◌else◌, length, drop};
ghost use Rattle.std.specs.Bool.{OnTrue, OnFalse};
ghost use Rattle.tv_base.specs.Width.{width_bytes};
ghost use Rattle.byteorder.specs.Endian.{little_number, little_bytes};
ghost use Rattle.tv_ram.specs.Memory.{
  ram_offset,
  is_inside,
  bytes_at,
  with_bytes,
  loaded,
  with_number,
  zeros,
};

use byteorder::{ByteOrder, LittleEndian};
use tv_base::{RAM_BASE, Width};

/// The offset of the first of `n` bytes from an address on; `None` where one of them lies outside.
#[inline(always)]
fn find_offset(held: &[u8], addr: u64, n: usize) -> Option<usize>
    requires some { 0 < n }
    requires fits { n ≤ length held.now }
    ensures { result ≡ (if is_inside (length held.now) addr n then Some (ram_offset addr) else None) }
{
    // An address below memory wraps round to an offset beyond every byte.
    let offset = addr.wrapping_sub(RAM_BASE);
    if offset <= (held.len() - n) as u64 {
        Some(offset as usize)
    } else {
        None
    }
}

/// Copies the bytes from an address on into `out`; false where one of them lies outside.
pub fn read_at(held: &[u8], addr: u64, out: &mut [u8]) -> bool
    ensures inside { result ≡ is_inside (length held.now) addr (length out.old) }
    ensures read { OnTrue result (out.new ≡ bytes_at held.now addr (length out.old)) }
    ensures unchanged { OnFalse result (out.new ≡ out.old) }
{
    let n = out.len();
    if n == 0 {
        return true;
    }
    if n > held.len() {
        return false;
    }
    match find_offset(held, addr, n) {
        Some(offset) => {
            out.copy_from_slice(&held[offset..offset + n]);
            true
        }
        None => false,
    }
}

/// Writes bytes from an address on; false where one of them would lie outside.
pub fn write_at(held: &mut [u8], addr: u64, bytes: &[u8]) -> bool
    ensures inside { result ≡ is_inside (length held.old) addr (length bytes.now) }
    ensures written { OnTrue result (held.new ≡ with_bytes held.old addr bytes.now) }
    ensures unchanged { OnFalse result (held.new ≡ held.old) }
{
    let n = bytes.len();
    if n == 0 {
        return true;
    }
    if n > held.len() {
        return false;
    }
    match find_offset(held, addr, n) {
        Some(offset) => {
            held[offset..offset + n].copy_from_slice(bytes);
            true
        }
        None => false,
    }
}

/// The bytes of a page of zeros.
#[tactic(auto, unfolding(crate::specs::Memory::zeros))]
pub fn zero_page_bytes() -> [u8; 4096]
    ensures { result ≡ zeros 4096 }
{
    [0; 4096]
}

/// The little-endian number in the `width` bytes from an address on; `None` where one lies outside.
#[inline(always)]
pub fn load_at(held: &[u8], addr: u64, width: Width) -> Option<u64>
    requires { 8 ≤ length held.now }
    ensures number { result ≡ loaded held.now addr (width_bytes width) }
    ensures fits { IfSome result (λ value. value < 256 ^ width_bytes width) }
{
    match find_offset(held, addr, usize::from(width.bytes())) {
        Some(offset) => Some(read_number(&held[offset..], width)),
        None => None,
    }
}

/// The little-endian word of 4 bytes from an address on; `None` where one lies outside.
#[inline(always)]
pub fn word_at(held: &[u8], addr: u64) -> Option<u32>
    requires { 4 ≤ length held.now }
    ensures { result ≡ loaded held.now addr 4 }
{
    match find_offset(held, addr, 4) {
        Some(offset) => Some(LittleEndian::read_u32(&held[offset..])),
        None => None,
    }
}

/// Writes the low `width` bytes of a number from an address on; false where one would lie outside.
#[inline(always)]
pub fn store_at(held: &mut [u8], addr: u64, width: Width, value: u64) -> bool
    requires { 8 ≤ length held.old }
    ensures inside { result ≡ is_inside (length held.old) addr (width_bytes width) }
    ensures stored { OnTrue result (held.new ≡ with_number held.old addr (width_bytes width) value) }
    ensures unchanged { OnFalse result (held.new ≡ held.old) }
{
    match find_offset(held, addr, usize::from(width.bytes())) {
        Some(offset) => {
            write_number(&mut held[offset..], width, value);
            true
        }
        None => false,
    }
}

/// The little-endian number in the first `width` bytes.
#[inline(always)]
fn read_number(bytes: &[u8], width: Width) -> u64
    requires { width_bytes width ≤ length bytes.now }
    ensures number { result ≡ little_number (width_bytes width) bytes.now }
    ensures fits { result < 256 ^ width_bytes width }
{
    match width {
        Width::B1 => u64::from(bytes[0]),
        Width::B2 => u64::from(LittleEndian::read_u16(bytes)),
        Width::B4 => u64::from(LittleEndian::read_u32(bytes)),
        Width::B8 => LittleEndian::read_u64(bytes),
    }
}

/// Writes the low `width` bytes of a number over the first bytes, little-endian.
#[inline(always)]
fn write_number(bytes: &mut [u8], width: Width, value: u64)
    requires { width_bytes width ≤ length bytes.old }
    ensures { bytes.new ≡ little_bytes (width_bytes width) (value % 256 ^ width_bytes width) ++ drop (width_bytes width) bytes.old }
{
    match width {
        Width::B1 => bytes[0] = (value & 0xff) as u8,
        Width::B2 => LittleEndian::write_u16(bytes, (value & 0xffff) as u16),
        Width::B4 => LittleEndian::write_u32(bytes, (value & 0xffff_ffff) as u32),
        Width::B8 => LittleEndian::write_u64(bytes, value),
    }
}
