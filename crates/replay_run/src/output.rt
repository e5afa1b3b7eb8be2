ghost use Rattle.std.specs.Prelude.{◌≡◌, length, IfOk};
ghost use Rattle.replay_run.specs.Report.{state_line, IsReport};

use cs_base::items::Octets;
use cs_base::name::Name;
use cs_base::no_memory::NoMemory;
use device_api::Logs;
use log_join::join;
use std::alloc::Global;

fn line_of(ended: bool) -> &'static [u8]
    ensures { result.now ≡ state_line ended }
{
    if ended {
        b"state ended\n"
    } else {
        b"state running\n"
    }
}

/// What a replay prints: the joined log so far, and then a line that says whether all components have ended.
pub fn report(alloc: Global, logs: &Logs, names: &[Name], ended: bool) -> Result<Octets, NoMemory>
    requires { length names.now ≡ length logs.now.lists }
    ensures { IfOk result (IsReport names.now logs.now.lists ended) }
{
    let mut text = join(alloc, logs, names)?;
    text.append(line_of(ended))?;
    Ok(text)
}
