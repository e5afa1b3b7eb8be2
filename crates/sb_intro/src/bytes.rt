ghost use Rattle.std.specs.Prelude.{◌≡◌, ◌<◌, [], length, IfOk, Ok, MatchOption};
ghost use Rattle.std.specs.Result.{result_err};
ghost use Rattle.sb_intro.specs.declared.intro.Intro.{Intro};
ghost use Rattle.sb_intro.specs.Spelling.{code_of, IsSpelled, refusal, table_of};
ghost use Rattle.field_layout.specs.Layout.{IsLaidOut};

use crate::intro::Intro;
use crate::intro_bad::IntroBad;
use cs_base::port_kind::PortKind;
use field_layout::{put_u8, put_u32, put_u64, u8_at, u32_at, u64_at};

const TY: u8 = 0x01;

const VERSION: u32 = 1;

fn code_of(kind: PortKind) -> u8
    ensures { result ≡ code_of kind }
{
    match kind {
        PortKind::Eth => 0,
        PortKind::PcieDev => 1,
        PortKind::PcieHost => 2,
        PortKind::MemDev => 3,
        PortKind::MemHost => 4,
    }
}

fn kind_of(code: u8) -> Option<PortKind>
    ensures { MatchOption result (4 < code) (λ kind. code_of kind ≡ code) }
{
    match code {
        0 => Some(PortKind::Eth),
        1 => Some(PortKind::PcieDev),
        2 => Some(PortKind::PcieHost),
        3 => Some(PortKind::MemDev),
        4 => Some(PortKind::MemHost),
        _ => None,
    }
}

impl Intro {
    /// The type of the message, 0x01.
    pub fn ty(&self) -> u8
        ensures { result ≡ 1 }
    {
        TY
    }

    /// The fields of the message, all little-endian: the version in bytes 0 to 3, the sender's kind in byte 4, the
    /// latency in bytes 8 to 15, the interval in bytes 16 to 23, the length of the registers in bytes 24 to 31.
    pub fn fields(&self) -> [u8; 48]
        ensures { IsLaidOut 48 (table_of self.now) result }
    {
        let mut fields = [0; 48];
        put_u32(&mut fields, 0, self.version);
        put_u8(&mut fields, 4, code_of(self.kind));
        put_u64(&mut fields, 8, self.latency);
        put_u64(&mut fields, 16, self.interval);
        put_u64(&mut fields, 24, self.bar_len);
        fields
    }

    /// An introduction has no payload.
    pub fn payload(&self) -> &[u8]
        ensures { result.now ≡ [] }
    {
        &[]
    }
}

/// The introduction that a message of this type, with these 48 bytes of fields and this payload, is.
pub fn read(ty: u8, fields: &[u8], payload: &[u8]) -> Result<Intro, IntroBad>
    requires { length fields.now ≡ 48 }
    // What is read is spelled so.
    ensures found { IfOk result (λ intro. IsSpelled intro ty fields.now payload.now) }
    // What is spelled so is read.
    ensures only { (intro : Intro) → IsSpelled intro ty fields.now payload.now → result ≡ Ok intro }
    // Each refusal comes exactly where it is the first fault.
    ensures refused { result_err result ≡ refusal ty fields.now payload.now }
{
    parse(ty, fields, payload)
}

fn parse(ty: u8, fields: &[u8], payload: &[u8]) -> Result<Intro, IntroBad>
    requires { length fields.now ≡ 48 }
    ensures found { IfOk result (λ intro. IsSpelled intro ty fields.now payload.now) }
    ensures refused { result_err result ≡ refusal ty fields.now payload.now }
{
    if ty != TY {
        return Err(IntroBad::UnknownType);
    }
    let version = u32_at(fields, 0);
    if version != VERSION {
        return Err(IntroBad::Version);
    }
    let Some(kind) = kind_of(u8_at(fields, 4)) else {
        return Err(IntroBad::Kind);
    };
    if !payload.is_empty() {
        return Err(IntroBad::LengthDiffers);
    }
    let intro = Intro {
        version,
        kind,
        latency: u64_at(fields, 8),
        interval: u64_at(fields, 16),
        bar_len: u64_at(fields, 24),
    };
    if fields != &intro.fields()[..] {
        return Err(IntroBad::FieldNotZero);
    }
    Ok(intro)
}

#[cfg(test)]
mod tests {
    use super::*;
    use crate::make::expected;
    use cs_base::time::Time;
    use std::test::Fail;

    #[test]
    fn an_introduction_of_an_ethernet_port(rt: HostRuntime) -> Result<(), Fail> {
        let intro = expected(PortKind::Eth, Time(500), Time(500));
        let mut spelled = [0u8; 48];
        spelled[0] = 0x01;
        spelled[8] = 0xf4;
        spelled[9] = 0x01;
        spelled[16] = 0xf4;
        spelled[17] = 0x01;
        assert_eq!(rt; intro.ty(), 0x01);
        assert_eq!(rt; intro.fields(), spelled);
        assert_eq!(rt; read(0x01, &spelled, &[]), Ok(intro));
        assert_eq!(rt; read(0x01, &spelled, &[0]), Err(IntroBad::LengthDiffers));
        spelled[0] = 0x02;
        assert_eq!(rt; read(0x01, &spelled, &[]), Err(IntroBad::Version));
        Ok(())
    }
}
