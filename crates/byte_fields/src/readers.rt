//! Fields read one after another from the front of some bytes.

ghost use Rattle.std.specs.Prelude.{◌≡◌, ℕ, ◌+◌, ◌^◌, ◌<◌, ◌++◌, ◌∷◌, ◌↔◌, List, [], length, Ok};
ghost use Rattle.std.specs.Prelude.{IfOk, IfErr, OnOk, OnErr, IsErr, IsOk, ℤ, FitsSigned};
ghost use Rattle.std.specs.Int.{w32, w64, to_be_bytes};
ghost use Rattle.byte_fields.specs.Unread.{end_of, signed_bytes};

use crate::faults::{Over, Short};
use std::marker::Model;

/// A reader of the fields that some bytes spell. Offsets count from the start of the bytes given to
/// `new`. A call that finds too few bytes takes none.
#[derive(Debug, Drop)]
pub struct Fields<'a> {
    left: &'a [u8],
    at: usize,
}

impl<'a> Model for Fields<'a> {
    ghost use Rattle.std.specs.Prelude.{◌+◌, ◌<◌, ◌^◌, length};
    ghost use Rattle.byte_fields.specs.Unread.{Unread};

    ghost Value = { Unread };

    ghost view = { λ f. record { at = f.at; left = f.left.now } };

    ghost invariant = { λ f. f.at + length f.left.now < 2 ^ 64 };
}

impl<'a> Fields<'a> {
    /// A reader of all of the bytes.
    pub fn new(bytes: &'a [u8]) -> Fields<'a>
        ensures at { result.at ≡ 0 }
        ensures left { result.left ≡ bytes.now }
    {
        Fields { left: bytes, at: 0 }
    }

    /// How many bytes were taken: the offset of the next field.
    pub fn at(&self) -> usize
        ensures { result ≡ self.now.at }
    {
        self.at
    }

    /// How many bytes are left.
    pub fn left(&self) -> usize
        ensures { result ≡ length self.now.left }
    {
        self.left.len()
    }

    /// The next `count` bytes, as they are.
    pub fn bytes(&mut self, count: usize) -> Result<&'a [u8], Short>
        ensures taken { IfOk result (λ bytes. self.old.left ≡ bytes.now ++ self.new.left) }
        ensures count { IfOk result (λ bytes. length bytes.now ≡ count) }
        ensures passed { OnOk result (self.new.at ≡ self.old.at + count) }
        ensures short { IsErr result ↔ (length self.old.left < count) }
        ensures missing { IfErr result (λ short. short.at ≡ end_of self.old) }
        ensures kept { OnErr result (self.new ≡ self.old) }
    {
        if self.left.len() < count {
            return Err(Short {
                at: self.at + self.left.len(),
            });
        }
        let (bytes, left) = self.left.split_at(count);
        self.left = left;
        self.at += count;
        Ok(bytes)
    }

    /// The next byte.
    pub fn u8(&mut self) -> Result<u8, Short>
        // What is read is spelled at the front, and what is spelled there is read.
        ensures taken { IfOk result (λ v. self.old.left ≡ (v ∷ []) ++ self.new.left) }
        ensures back { (v : ℕ) (rest : List ℕ) → v < 2 ^ 8 → self.old.left ≡ (v ∷ []) ++ rest
            → (result ≡ Ok v) × (self.new.left ≡ rest) }
        ensures passed { OnOk result (self.new.at ≡ self.old.at + 1) }

        ensures short { IsErr result ↔ (length self.old.left < 1) }
        ensures missing { IfErr result (λ short. short.at ≡ end_of self.old) }
        ensures kept { OnErr result (self.new ≡ self.old) }
    {
        let bytes = self.bytes(1)?;
        Ok(bytes[0])
    }

    /// The number that the next four bytes spell.
    pub fn u32(&mut self) -> Result<u32, Short>
        // What is read is spelled at the front, and what is spelled there is read.
        ensures taken { IfOk result (λ v. self.old.left ≡ to_be_bytes w32 v ++ self.new.left) }
        ensures back { (v : ℕ) (rest : List ℕ) → v < 2 ^ 32
            → self.old.left ≡ to_be_bytes w32 v ++ rest → (result ≡ Ok v) × (self.new.left ≡ rest) }
        ensures passed { OnOk result (self.new.at ≡ self.old.at + 4) }

        ensures short { IsErr result ↔ (length self.old.left < 4) }
        ensures missing { IfErr result (λ short. short.at ≡ end_of self.old) }
        ensures kept { OnErr result (self.new ≡ self.old) }
    {
        let bytes = self.bytes(4)?;
        Ok(u32::from_be_bytes([bytes[0], bytes[1], bytes[2], bytes[3]]))
    }

    /// The number that the next eight bytes spell.
    pub fn u64(&mut self) -> Result<u64, Short>
        // What is read is spelled at the front, and what is spelled there is read.
        ensures taken { IfOk result (λ v. self.old.left ≡ to_be_bytes w64 v ++ self.new.left) }
        ensures back { (v : ℕ) (rest : List ℕ) → v < 2 ^ 64
            → self.old.left ≡ to_be_bytes w64 v ++ rest → (result ≡ Ok v) × (self.new.left ≡ rest) }
        ensures passed { OnOk result (self.new.at ≡ self.old.at + 8) }

        ensures short { IsErr result ↔ (length self.old.left < 8) }
        ensures missing { IfErr result (λ short. short.at ≡ end_of self.old) }
        ensures kept { OnErr result (self.new ≡ self.old) }
    {
        let bytes = self.bytes(8)?;
        Ok(u64::from_be_bytes([
            bytes[0], bytes[1], bytes[2], bytes[3], bytes[4], bytes[5], bytes[6], bytes[7],
        ]))
    }

    /// The signed number that the next eight bytes spell.
    pub fn i64(&mut self) -> Result<i64, Short>
        // What is read is spelled at the front, and what is spelled there is read.
        ensures taken { IfOk result (λ v. self.old.left ≡ signed_bytes v ++ self.new.left) }
        ensures back { (v : ℤ) (rest : List ℕ) → FitsSigned w64 v
            → self.old.left ≡ signed_bytes v ++ rest → (result ≡ Ok v) × (self.new.left ≡ rest) }
        ensures passed { OnOk result (self.new.at ≡ self.old.at + 8) }

        ensures short { IsErr result ↔ (length self.old.left < 8) }
        ensures missing { IfErr result (λ short. short.at ≡ end_of self.old) }
        ensures kept { OnErr result (self.new ≡ self.old) }
    {
        let bits = self.u64()?;
        Ok(bits.cast_signed())
    }

    /// Nothing, where no byte is left.
    pub fn end(&self) -> Result<(), Over>
        ensures ended { IsOk result ↔ (self.now.left ≡ []) }
        ensures over { IfErr result (λ over. over.at ≡ self.now.at) }
    {
        if !self.left.is_empty() {
            return Err(Over { at: self.at });
        }
        Ok(())
    }
}

/// No spelling of a number begins another of its kind, so what was written is what
/// is read, whatever follows it.
pub fn one_form()
    ensures u32 { (v w : ℕ) (x y : List ℕ) → v < 2 ^ 32 → w < 2 ^ 32
        → to_be_bytes w32 v ++ x ≡ to_be_bytes w32 w ++ y → (v ≡ w) × (x ≡ y) }
    ensures u64 { (v w : ℕ) (x y : List ℕ) → v < 2 ^ 64 → w < 2 ^ 64
        → to_be_bytes w64 v ++ x ≡ to_be_bytes w64 w ++ y → (v ≡ w) × (x ≡ y) }
    ensures i64 { (v w : ℤ) (x y : List ℕ) → FitsSigned w64 v → FitsSigned w64 w
        → signed_bytes v ++ x ≡ signed_bytes w ++ y → (v ≡ w) × (x ≡ y) }
{}
