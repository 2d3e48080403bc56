//! A line cut into its fields.

ghost use Rattle.std.specs.Prelude.{◌≡◌, ◌<◌, ◌+◌, ◌^◌, false, length, option_map, slice_get, drop};
ghost use Rattle.std.specs.Prelude.{option_and_then, IfNone, IfOk, IfSome, OnOk};
ghost use Rattle.client_lines.specs.Cuts.{fields_of, IsCutAt, Lacks};
ghost use Rattle.client_lines.specs.Forms.{a_number, a_tick, one};
ghost use Rattle.client_lines.specs.Reading.{Gives, field_name, read};

use crate::faults::LineFault;
use crate::numbers::{number_in, tick_in};
use json_fields::name_text::unescaped;
use memchr::memchr;
use no_memory::NoMemory;
use rail_types::Tick;
use std::alloc::Global;
use std::marker::Model;

/// What stands before the first byte of this kind, and what stands behind it.
fn cut_at(byte: u8, bytes: &[u8]) -> Option<(&[u8], &[u8])>
    ensures found { IfSome result (λ parts. IsCutAt byte bytes.now parts.0.now parts.1.now) }
    ensures absent { IfNone result (Lacks byte bytes.now) }
{
    let at = memchr(byte, bytes)?;
    let (front, rest) = bytes.split_at(at);
    let (_, back) = rest.split_at(1);
    Some((front, back))
}

/// The fields of a line that are left, from the left, with the number of the first of them.
#[derive(Drop)]
pub struct Fields<'a> {
    at: u32,
    rest: &'a [u8],
    is_done: bool,
}

impl<'a> Model for Fields<'a> {
    ghost use Rattle.std.specs.Prelude.{◌≡◌, ◌<◌, ◌+◌, ◌^◌, false, length, [], if◌then◌else◌};
    ghost use Rattle.client_lines.specs.Cuts.{fields_of};
    ghost use Rattle.client_lines.specs.Reading.{Left};

    ghost Value = { Left };

    ghost view = { λ a. record {
      at = a.at;
      fields = if a.is_done then [] else fields_of a.rest.now;
    } };

    ghost invariant = { λ a. a.is_done ≡ false → a.at + length a.rest.now + 1 < 2 ^ 32 };
}

impl<'a> Fields<'a> {
    /// The fields of a line.
    pub fn new(line: &'a [u8]) -> Self
        requires { length line.now + 2 < 2 ^ 32 }
        ensures at { result.at ≡ 1 }
        ensures fields { result.fields ≡ fields_of line.now }
    {
        Fields {
            at: 1,
            rest: line,
            is_done: false,
        }
    }

    /// The number of the next field.
    pub fn at(&self) -> u32
        ensures { result ≡ self.now.at }
    {
        self.at
    }

    /// The next field, and None behind the last.
    pub fn next(&mut self) -> Option<&'a [u8]>
        ensures field { option_map (λ field. field.now) result ≡ slice_get self.old.fields 0 }
        ensures others { self.new.fields ≡ drop 1 self.old.fields }
        ensures at { IfSome result (λ field. self.new.at ≡ self.old.at + 1) }
    {
        if self.is_done {
            return None;
        }
        let rest = self.rest;
        self.at += 1;
        match cut_at(b' ', rest) {
            Some((field, others)) => {
                self.rest = others;
                Some(field)
            }
            None => {
                self.is_done = true;
                Some(rest)
            }
        }
    }

    /// Takes the next field, a number from `least` on and below `end`.
    pub fn number(&mut self, least: u64, end: u64) -> Result<u64, LineFault>
        ensures said { Gives self.new result (read (one (a_number least end)) self.old) }
        ensures within { IfOk result (λ number. number < end) }
    {
        let at = self.at;
        let Some(field) = self.next() else {
            return Err(LineFault::Bad { field: at });
        };
        let Some(number) = number_in(least, end, field) else {
            return Err(LineFault::Bad { field: at });
        };
        Ok(number)
    }

    /// Takes the next field, a number from `least` on and below `end`.
    pub fn small_number(&mut self, least: u32, end: u32) -> Result<u32, LineFault>
        ensures said { Gives self.new result (read (one (a_number least end)) self.old) }
        ensures within { IfOk result (λ number. number < end) }
    {
        let number = self.number(u64::from(least), u64::from(end))?;
        Ok(number as u32)
    }

    #[tactic(auto, using(crate::proofs::Passed::passed))]
    /// Takes the next field, a tick that is later than `before` where that is given.
    pub fn tick(&mut self, before: &Option<Tick>) -> Result<Tick, LineFault>
        ensures { Gives self.new result (read (one (a_tick before.now)) self.old) }
    {
        let at = self.at;
        let Some(field) = self.next() else {
            return Err(LineFault::Bad { field: at });
        };
        let Some(tick) = tick_in(before, field) else {
            return Err(LineFault::Bad { field: at });
        };
        Ok(tick)
    }

    /// Takes the next field, and tells the name that it spells.
    pub fn name(&mut self, alloc: Global) -> Result<Option<Vec<u8>>, NoMemory>
        ensures name { IfOk result (λ name. option_map (λ bytes. bytes.items) name
            ≡ option_and_then field_name (slice_get self.old.fields 0)) }
        ensures others { OnOk result (self.new.fields ≡ drop 1 self.old.fields) }
        ensures at { IfOk result (λ name. IfSome name (λ bytes. self.new.at ≡ self.old.at + 1)) }
    {
        let Some(field) = self.next() else {
            return Ok(None);
        };
        field_name(alloc, field)
    }
}

/// The name that a field spells.
fn field_name(alloc: Global, field: &[u8]) -> Result<Option<Vec<u8>>, NoMemory>
    ensures { IfOk result (λ name. option_map (λ bytes. bytes.items) name ≡ field_name field.now) }
{
    if field.is_empty() {
        return Ok(None);
    }
    unescaped(alloc, field)
}
