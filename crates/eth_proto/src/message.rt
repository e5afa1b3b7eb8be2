ghost use Rattle.std.specs.Prelude.{◌≡◌, ◌↔◌, ◌≤◌, ℕ, List, length, IsSome, IfSome, IfOk};
ghost use Rattle.field_layout.specs.Layout.{IsLaidOut, fault_named};
ghost use Rattle.eth_proto.specs.Frame.{IsFrame};
ghost use Rattle.eth_proto.specs.Spelling.{IsSpelled, ReadsSpelled, table_of, refusal, fault_of};

use crate::eth_bad::EthBad;
use cs_base::items::Octets;
use cs_base::no_memory::NoMemory;
use field_layout::{put_u16, u16_at};
use std::alloc::Global;
use std::marker::Model;

const TY: u8 = 0x70;

const SHORTEST: usize = 14;

const LONGEST: usize = 1514;

/// An Ethernet frame without its frame check sequence: 14 to 1,514 bytes, the destination address first.
#[derive(Debug, Drop)]
pub struct EthMsg {
    frame: Octets,
}

impl Model for EthMsg {
    ghost use Rattle.std.specs.Prelude.{List, ℕ};
    ghost use Rattle.eth_proto.specs.Frame.{IsFrame};

    ghost Value = { List ℕ };

    ghost view = { λ m. m.frame };

    ghost invariant = { λ m. IsFrame m.frame };

    ghost inverse = { λ bytes. record { frame = bytes } };
}

impl EthMsg {
    /// The message of a frame; None where the frame's length is below 14 or above 1,514.
    pub fn new(frame: Octets) -> Option<EthMsg>
        ensures valid { IsSome result ↔ IsFrame frame }
        ensures frame { IfSome result (λ m. m ≡ frame) }
    {
        if SHORTEST <= frame.len() && frame.len() <= LONGEST {
            Some(EthMsg { frame })
        } else {
            None
        }
    }

    /// The frame's bytes.
    pub fn frame(&self) -> &[u8]
        ensures bytes { result.now ≡ self.now }
        ensures valid { IsFrame self.now }
    {
        self.frame.as_slice()
    }

    /// The same frame once more.
    pub fn copy(&self) -> Result<EthMsg, NoMemory>
        ensures { IfOk result (λ copied. copied ≡ self.now) }
    {
        Ok(EthMsg {
            frame: self.frame.copy()?,
        })
    }

    /// The type of the message, 0x70.
    pub fn ty(&self) -> u8
        ensures { result ≡ 0x70 }
    {
        TY
    }

    /// The fields of the message: the frame's length in bytes 0 and 1, little-endian.
    pub fn fields(&self) -> [u8; 48]
        ensures { IsLaidOut 48 (table_of (length self.now)) result }
    {
        fields_of(self.frame.len() as u16)
    }

    /// The payload is the frame.
    pub fn payload(&self) -> &[u8]
        ensures bytes { result.now ≡ self.now }
        ensures valid { IsFrame self.now }
    {
        self.frame()
    }
}

fn fields_of(len: u16) -> [u8; 48]
    ensures { IsLaidOut 48 (table_of len) result }
{
    let mut fields = [0; 48];
    put_u16(&mut fields, 0, len);
    fields
}

/// The frame that a message of this type, with these 48 bytes of fields and this payload, is.
pub fn read(alloc: Global, ty: u8, fields: &[u8], payload: &[u8]) -> Result<EthMsg, EthBad>
    requires { length fields.now ≡ 48 }
    // What is read is spelled so.
    ensures found { IfOk result (λ message. IsSpelled message ty fields.now payload.now) }
    // What is spelled so is read, unless memory runs out.
    ensures only { ReadsSpelled result ty fields.now payload.now }
    // Each refusal comes exactly where it is the first fault, unless memory runs out.
    ensures refused { fault_named fault_of result ≡ refusal ty fields.now payload.now }
{
    parse(alloc, ty, fields, payload)
}

fn parse(alloc: Global, ty: u8, fields: &[u8], payload: &[u8]) -> Result<EthMsg, EthBad>
    requires { length fields.now ≡ 48 }
    ensures found { IfOk result (λ message. IsSpelled message ty fields.now payload.now) }
    ensures refused { fault_named fault_of result ≡ refusal ty fields.now payload.now }
{
    if ty != TY {
        return Err(EthBad::UnknownType);
    }
    if payload.len() < SHORTEST {
        return Err(EthBad::TooShort);
    }
    if payload.len() > LONGEST {
        return Err(EthBad::TooLong);
    }
    let len = u16_at(fields, 0);
    if len as usize != payload.len() {
        return Err(EthBad::LengthDiffers);
    }
    if fields != &fields_of(len)[..] {
        return Err(EthBad::FieldNotZero);
    }
    let mut frame = Octets::new(alloc);
    frame.append(payload)?;
    Ok(EthMsg { frame })
}

#[cfg(test)]
mod tests {
    use super::*;
    use std::test::Fail;

    // What is read of so many zeros behind a header that gives this length.
    fn read_zeros(rt: &HostRuntime, len: u16, told: u16) -> Result<Result<usize, EthBad>, Fail> {
        let mut payload = Vec::new(rt.alloc());
        for _ in 0..len {
            payload.push(0)?;
        }
        Ok(match read(rt.alloc(), 0x70, &fields_of(told), &payload) {
            Ok(message) => Ok(message.payload().len()),
            Err(bad) => Err(bad),
        })
    }

    #[test]
    fn frames_at_the_limits(rt: HostRuntime) -> Result<(), Fail> {
        assert_eq!(rt; read_zeros(&rt, 13, 13)?, Err(EthBad::TooShort));
        assert_eq!(rt; read_zeros(&rt, 14, 14)?, Ok(14));
        assert_eq!(rt; read_zeros(&rt, 1514, 1514)?, Ok(1514));
        assert_eq!(rt; read_zeros(&rt, 1515, 1515)?, Err(EthBad::TooLong));
        assert_eq!(rt; read_zeros(&rt, 60, 61)?, Err(EthBad::LengthDiffers));
        let mut fields = fields_of(14);
        fields[47] = 1;
        assert!(rt; read(rt.alloc(), 0x70, &fields, &[0; 14]).is_err());
        assert!(rt; read(rt.alloc(), 0x71, &fields_of(14), &[0; 14]).is_err());
        Ok(())
    }
}
