ghost use Rattle.std.specs.Prelude.{OnOk, OnErr};
ghost use Rattle.cosim_cmd.specs.Written.{IsWhole, IsCut};

use cs_base::{Failed, Sink};

/// Writes all bytes, in as many pieces as the sink takes. Where it fails, a part of the bytes from the front is
/// written, and its count of faults rose.
pub fn write_all<K: Sink>(sink: &mut K, bytes: &[u8]) -> Result<(), Failed>
    ensures whole { OnOk result (IsWhole (K.seen sink.old) (K.seen sink.new) bytes.now) }
    ensures cut { OnErr result (IsCut (K.seen sink.old) (K.seen sink.new) bytes.now) }
{
    let mut done = 0;
    while done < bytes.len() {
        done += sink.write(&bytes[done..])?;
    }
    Ok(())
}
