//! The memory of a call (Core 1.0, 4.2.8).

ghost use Rattle.std.specs.Prelude.{◌≡◌, ◌++◌, ◌+◌, ◌*◌, ◌/◌, ◌<◌, ◌≤◌, Some, length, replicate, option_map, take, drop, true, IfOk};
ghost use Rattle.wasm_ast.specs.Widths.{load_type, load_width, store_width};
ghost use Rattle.verified.specs.Memory.{bytes_of, max_minimum, memory_bytes, page};
ghost use Rattle.semantics.specs.Effects.{value};
ghost use Rattle.semantics.specs.Memory.{number_of_bytes, sign_extended, loaded};
ghost use Rattle.interp.specs.inside.Cells.{in_width};
ghost use Rattle.interp.specs.inside.Kept.{count_kept, is_kept, kept_laid, kept_read, kept_write, laid_over, marked_before, masked};
ghost use Rattle.semantics.specs.inside.Touched.{marks};

use crate::cell::of_i32;
use semantics::i64_extend_i32_s;
use std::alloc::{AllocError, Global};
use std::marker::Model;
use verified::Verified;
use wasm_ast::{Limits, Load, Store};

/// The bytes of the memory that loads and stores of the module reach, and the place of each. Its model is a list of
/// all bytes, which marks those that are not kept.
#[derive(Drop)]
pub struct Memory<'a> {
    verified: &'a Verified,
    bytes: Vec<u8>,
}

impl<'a> Model for Memory<'a> {
    ghost use Rattle.std.specs.Prelude.{◌≡◌, ℕ, List, length};
    ghost use Rattle.interp.specs.inside.Kept.{count_kept, spread};
    ghost use Rattle.semantics.specs.inside.Touched.{marks};

    ghost Value = { List ℕ };

    ghost view = { λ a. spread (marks a.verified.now) a.bytes.items };

    // All bytes that are stored are kept ones.
    ghost invariant = { λ a. count_kept (spread (marks a.verified.now) a.bytes.items)
        ≡ length a.bytes.items };
}

impl<'a> Memory<'a> {
    /// Makes a memory that keeps a 0 for each byte that the module reaches. The only error is that the allocation fails.
    pub fn zeros(alloc: Global, verified: &'a Verified) -> Result<Memory<'a>, AllocError>
        ensures zeros { IfOk result (λ memory. memory
            ≡ masked (marks verified.now) (replicate (memory_bytes verified.now) 0)) }
        ensures kept { IfOk result (λ memory. count_kept memory
            ≡ marked_before (marks verified.now) (memory_bytes verified.now)) }
    {
        let bytes = zero_bytes(alloc, verified.reach() as usize)?;
        Ok(Memory { verified, bytes })
    }

    /// Copies another memory of as many kept bytes.
    pub fn copy_from(&mut self, other: &Memory<'a>)
        requires { count_kept self.old ≡ count_kept other.now }
        ensures { self.new ≡ other.now }
    {
        self.verified = other.verified;
        let bytes = other.bytes.as_slice();
        if !bytes.is_empty() {
            self.bytes.copy_from_slice(bytes);
        }
    }

    /// Counts the pages (Core 1.0, 4.4.4, memory.size).
    pub fn size(&self) -> u32
        ensures { result ≡ length self.now / page }
    {
        page_count(self.verified.module().memories.as_slice())
    }

    /// Replaces the bytes from a place on, as far as they are kept. It splits the range in halves while some are
    /// kept, so it takes time by how many are kept and how they are scattered.
    pub fn write_kept(&mut self, place: u64, others: &[u8])
        requires { place + length others.now ≤ length self.old }
        ensures laid { laid_over place others.now self.old ≡ self.new }
        ensures kept { count_kept self.new ≡ count_kept self.old }
    {
        let start = kept_place(self.verified, place);
        let count = kept_place(self.verified, place + others.len() as u64) - start;
        if 0 < count && start < self.bytes.len() {
            if count == others.len() && start + count <= self.bytes.len() {
                self.write(place, others);
            } else {
                let (first, rest) = others.split_at(others.len() / 2);
                self.write_kept(place, first);
                self.write_kept(place + first.len() as u64, rest);
            }
        }
    }

    // Replaces the bytes from a place on, which are all kept.
    #[inline]
    fn write(&mut self, place: u64, others: &[u8])
        requires kept { is_kept place (length others.now) self.old ≡ true }
        requires some { 0 < length others.now }
        ensures laid { kept_laid place others.now self.old ≡ Some self.new }
        ensures kept { count_kept self.new ≡ count_kept self.old }
    {
        let start = kept_place(self.verified, place);
        write_at(&mut self.bytes, start, others);
    }

    /// Loads a value from a place where all its bytes are kept, as a cell.
    #[inline]
    pub fn load(&self, op: Load, place: u64) -> u64
        requires { is_kept place (load_width op) self.now ≡ true }
        ensures number { option_map (loaded op) (kept_read place (load_width op) self.now)
            ≡ Some result }
        ensures fits { in_width (value (load_type op) result) ≡ true }
    {
        match op {
            Load::I32 => of_i32(self.read_4(place)),
            Load::I64 => self.read_8(place),
            Load::I32From8S => of_i32(i32_sign_8(self.read_1(place))),
            Load::I32From8U => of_i32(u32::from(self.read_1(place))),
            Load::I32From16S => of_i32(i32_sign_16(self.read_2(place))),
            Load::I32From16U => of_i32(u32::from(self.read_2(place))),
            Load::I64From8S => i64_sign_8(self.read_1(place)),
            Load::I64From8U => u64::from(self.read_1(place)),
            Load::I64From16S => i64_sign_16(self.read_2(place)),
            Load::I64From16U => u64::from(self.read_2(place)),
            Load::I64From32S => i64_extend_i32_s(self.read_4(place)),
            Load::I64From32U => u64::from(self.read_4(place)),
        }
    }

    /// Stores the lowest bytes of a number at a place where all of them are kept.
    #[inline]
    pub fn store(&mut self, op: Store, place: u64, number: u64)
        requires { is_kept place (store_width op) self.old ≡ true }
        ensures written { kept_write place (store_width op) number self.old ≡ Some self.new }
        ensures kept { count_kept self.new ≡ count_kept self.old }
    {
        let bytes = number.to_le_bytes();
        match op {
            Store::I32To8 | Store::I64To8 => self.write(place, &bytes[..1]),
            Store::I32To16 | Store::I64To16 => self.write(place, &bytes[..2]),
            Store::I32 | Store::I64To32 => self.write(place, &bytes[..4]),
            Store::I64 => self.write(place, &bytes),
        }
    }

    #[inline]
    fn read_1(&self, place: u64) -> u8
        requires { is_kept place 1 self.now ≡ true }
        ensures { kept_read place 1 self.now ≡ Some result }
    {
        number_1(self.bytes.as_slice(), kept_place(self.verified, place))
    }

    #[inline]
    fn read_2(&self, place: u64) -> u16
        requires { is_kept place 2 self.now ≡ true }
        ensures { kept_read place 2 self.now ≡ Some result }
    {
        number_2(self.bytes.as_slice(), kept_place(self.verified, place))
    }

    #[inline]
    fn read_4(&self, place: u64) -> u32
        requires { is_kept place 4 self.now ≡ true }
        ensures { kept_read place 4 self.now ≡ Some result }
    {
        number_4(self.bytes.as_slice(), kept_place(self.verified, place))
    }

    #[inline]
    fn read_8(&self, place: u64) -> u64
        requires { is_kept place 8 self.now ≡ true }
        ensures { kept_read place 8 self.now ≡ Some result }
    {
        number_8(self.bytes.as_slice(), kept_place(self.verified, place))
    }
}

// Counts the kept bytes before this one.
#[inline]
fn kept_place(verified: &Verified, byte: u64) -> usize
    requires { byte ≤ memory_bytes verified.now }
    ensures place { result ≡ marked_before (marks verified.now) byte }
    ensures small { memory_bytes verified.now ≤ page * max_minimum }
{
    // The module is in the profile, so its memory is small.
    let _module = verified.module();
    verified.place(byte as u32) as usize
}

// Makes this many zeros.
fn zero_bytes(alloc: Global, count: usize) -> Result<Vec<u8>, AllocError>
    ensures { IfOk result (λ bytes. bytes.items ≡ replicate count 0) }
{
    let mut bytes = Vec::new(alloc);
    bytes.resize(count, 0)?;
    Ok(bytes)
}

// Replaces the bytes from an index on.
#[inline]
fn write_at(bytes: &mut [u8], start: usize, others: &[u8])
    requires { start + length others.now ≤ length bytes.old }
    ensures value { bytes.new
        ≡ take start bytes.old ++ others.now ++ drop (start + length others.now) bytes.old }
    ensures len { length bytes.new ≡ length bytes.old }
{
    bytes[start..start + others.len()].copy_from_slice(others);
}

// Counts the pages of the one memory, if there is one.
fn page_count(memories: &[Limits]) -> u32
    ensures { page * result ≡ bytes_of memories.now }
{
    match memories.first() {
        Some(limits) => limits.minimum,
        None => 0,
    }
}

// Reads the number in 1 byte at an index.
#[inline]
fn number_1(bytes: &[u8], at: usize) -> u8
    requires { at + 1 ≤ length bytes.now }
    ensures { result ≡ number_of_bytes (take 1 (drop at bytes.now)) }
{
    u8::from_le_bytes([bytes[at]])
}

// Reads the number in 2 bytes from an index on.
#[inline]
fn number_2(bytes: &[u8], at: usize) -> u16
    requires { at + 2 ≤ length bytes.now }
    ensures { result ≡ number_of_bytes (take 2 (drop at bytes.now)) }
{
    u16::from_le_bytes([bytes[at], bytes[at + 1]])
}

// Reads the number in 4 bytes from an index on.
#[inline]
fn number_4(bytes: &[u8], at: usize) -> u32
    requires { at + 4 ≤ length bytes.now }
    ensures { result ≡ number_of_bytes (take 4 (drop at bytes.now)) }
{
    u32::from_le_bytes([bytes[at], bytes[at + 1], bytes[at + 2], bytes[at + 3]])
}

// Reads the number in 8 bytes from an index on.
#[inline]
fn number_8(bytes: &[u8], at: usize) -> u64
    requires { at + 8 ≤ length bytes.now }
    ensures { result ≡ number_of_bytes (take 8 (drop at bytes.now)) }
{
    u64::from_le_bytes([
        bytes[at],
        bytes[at + 1],
        bytes[at + 2],
        bytes[at + 3],
        bytes[at + 4],
        bytes[at + 5],
        bytes[at + 6],
        bytes[at + 7],
    ])
}

// Extends a number of 8 bits to an i32, with its sign (Core 1.0, 4.3.4, extend_s).
#[inline]
fn i32_sign_8(n: u8) -> u32
    ensures { result ≡ sign_extended 8 32 n }
{
    i32::from(n.cast_signed()).cast_unsigned()
}

#[inline]
fn i32_sign_16(n: u16) -> u32
    ensures { result ≡ sign_extended 16 32 n }
{
    i32::from(n.cast_signed()).cast_unsigned()
}

#[inline]
fn i64_sign_8(n: u8) -> u64
    ensures { result ≡ sign_extended 8 64 n }
{
    i64::from(n.cast_signed()).cast_unsigned()
}

#[inline]
fn i64_sign_16(n: u16) -> u64
    ensures { result ≡ sign_extended 16 64 n }
{
    i64::from(n.cast_signed()).cast_unsigned()
}
