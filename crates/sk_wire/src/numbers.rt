//! Numbers and counted bytes: what all fields are made of, read from a body and written to a
//! buffer.

ghost use Rattle.std.specs.Prelude.{◌≡◌, ◌^◌, ◌<◌, length};
ghost use Rattle.std.specs.Int.{w8, w16, w32, w64, to_le_bytes};
ghost use Rattle.sk_wire.specs.Reading.{Gives};
ghost use Rattle.sk_wire.specs.Fields.{number_at, counted_at, spelled_counted};
ghost use Rattle.sk_wire.specs.Puts.{Puts};

use crate::fault::{BodyFault, ReadError, What};
use sk_base::WantOfMemory;
use std::marker::Model;

/// The bytes of a body that are still to be read. Contracts see those bytes.
#[derive(Drop)]
pub struct Cursor<'a> {
    rest: &'a [u8],
}

impl<'a> Model for Cursor<'a> {
    ghost use Rattle.std.specs.Prelude.{ℕ, List};

    ghost Value = { List ℕ };

    ghost view = { λ cursor. cursor.rest.now };
}

/// A field that needs more bytes than the body has left from its first byte on.
pub fn short(left: usize) -> ReadError
    ensures { result ≡ ReadError.Fault (record { left = left; what = What.Short }) }
{
    ReadError::Fault(BodyFault {
        left,
        what: What::Short,
    })
}

/// A field out of its range, with what the body has left from its first byte on.
pub fn bad_field(left: usize) -> ReadError
    ensures { result ≡ ReadError.Fault (record { left = left; what = What.BadField }) }
{
    ReadError::Fault(BodyFault {
        left,
        what: What::BadField,
    })
}

impl<'a> Cursor<'a> {
    /// A cursor at the front of these bytes.
    pub fn new(bytes: &'a [u8]) -> Cursor<'a>
        ensures { result ≡ bytes.entry.now }
    {
        Cursor { rest: bytes }
    }

    /// How many bytes the body has left.
    pub fn left(&self) -> usize
        ensures { result ≡ length self.now }
    {
        self.rest.len()
    }

    /// A number of one byte.
    pub fn u8(&mut self) -> Result<u8, ReadError>
        ensures { Gives (λ n. (n, self.new)) result (number_at w8 self.old) }
    {
        match self.rest {
            [] => Err(short(0)),
            [first, rest @ ..] => {
                self.rest = rest;
                Ok(*first)
            }
        }
    }

    /// A number of two bytes, little-endian.
    pub fn u16(&mut self) -> Result<u16, ReadError>
        ensures { Gives (λ n. (n, self.new)) result (number_at w16 self.old) }
    {
        if self.rest.len() < 2 {
            return Err(short(self.rest.len()));
        }
        let (front, rest) = self.rest.split_at(2);
        self.rest = rest;
        Ok(u16::from_le_bytes([front[0], front[1]]))
    }

    /// A number of four bytes, little-endian.
    pub fn u32(&mut self) -> Result<u32, ReadError>
        ensures { Gives (λ n. (n, self.new)) result (number_at w32 self.old) }
    {
        if self.rest.len() < 4 {
            return Err(short(self.rest.len()));
        }
        let (front, rest) = self.rest.split_at(4);
        self.rest = rest;
        Ok(u32::from_le_bytes([front[0], front[1], front[2], front[3]]))
    }

    /// A number of eight bytes, little-endian.
    pub fn u64(&mut self) -> Result<u64, ReadError>
        ensures { Gives (λ n. (n, self.new)) result (number_at w64 self.old) }
    {
        if self.rest.len() < 8 {
            return Err(short(self.rest.len()));
        }
        let (front, rest) = self.rest.split_at(8);
        self.rest = rest;
        Ok(u64::from_le_bytes([
            front[0], front[1], front[2], front[3], front[4], front[5], front[6], front[7],
        ]))
    }

    /// A length of one byte, and so many bytes, 0 to 255.
    pub fn short_bytes(&mut self) -> Result<&'a [u8], ReadError>
        ensures { Gives (λ bytes. (bytes.now, self.new)) result (counted_at w8 self.old) }
    {
        let left = self.rest.len();
        let len = self.u8()? as usize;
        if self.rest.len() < len {
            return Err(short(left));
        }
        let (front, rest) = self.rest.split_at(len);
        self.rest = rest;
        Ok(front)
    }

    /// A length of two bytes, and so many bytes, 0 to 65,535.
    pub fn long_bytes(&mut self) -> Result<&'a [u8], ReadError>
        ensures { Gives (λ bytes. (bytes.now, self.new)) result (counted_at w16 self.old) }
    {
        let left = self.rest.len();
        let len = self.u16()? as usize;
        if self.rest.len() < len {
            return Err(short(left));
        }
        let (front, rest) = self.rest.split_at(len);
        self.rest = rest;
        Ok(front)
    }
}

/// Appends a number of one byte.
pub fn put_u8(to: &mut Vec<u8>, n: u8) -> Result<(), WantOfMemory>
    ensures { Puts result to.old.items to.new.items (to_le_bytes w8 n) }
{
    to.push(n)?;
    Ok(())
}

/// Appends a number of two bytes, little-endian.
pub fn put_u16(to: &mut Vec<u8>, n: u16) -> Result<(), WantOfMemory>
    ensures { Puts result to.old.items to.new.items (to_le_bytes w16 n) }
{
    to.extend_from_slice(&n.to_le_bytes())?;
    Ok(())
}

/// Appends a number of four bytes, little-endian.
pub fn put_u32(to: &mut Vec<u8>, n: u32) -> Result<(), WantOfMemory>
    ensures { Puts result to.old.items to.new.items (to_le_bytes w32 n) }
{
    to.extend_from_slice(&n.to_le_bytes())?;
    Ok(())
}

/// Appends a number of eight bytes, little-endian.
pub fn put_u64(to: &mut Vec<u8>, n: u64) -> Result<(), WantOfMemory>
    ensures { Puts result to.old.items to.new.items (to_le_bytes w64 n) }
{
    to.extend_from_slice(&n.to_le_bytes())?;
    Ok(())
}

/// Appends a length of one byte, and so many bytes, 0 to 255.
pub fn put_short_bytes(to: &mut Vec<u8>, bytes: &[u8]) -> Result<(), WantOfMemory>
    requires { length bytes.now < 2 ^ 8 }
    ensures { Puts result to.old.items to.new.items (spelled_counted w8 bytes.now) }
{
    put_u8(to, bytes.len() as u8)?;
    to.extend_from_slice(bytes)?;
    Ok(())
}

/// Appends a length of two bytes, and so many bytes, 0 to 65,535.
pub fn put_long_bytes(to: &mut Vec<u8>, bytes: &[u8]) -> Result<(), WantOfMemory>
    requires { length bytes.now < 2 ^ 16 }
    ensures { Puts result to.old.items to.new.items (spelled_counted w16 bytes.now) }
{
    put_u16(to, bytes.len() as u16)?;
    to.extend_from_slice(bytes)?;
    Ok(())
}
