ghost use Rattle.std.specs.Prelude.{◌↔◌, IsNone, IfSome, MatchOption, slice_get};
ghost use mathlib.Core.List.{IsPrefix};
ghost use Rattle.tcp_proxy.specs.Comparing.{Differs, IsFirstDiffer, ComesApart};

use lane_kernels::differ::Differ;
use lane_kernels::first_difference;

/// Compares what was sent with what came: None exactly where what came is a beginning of what was sent.
pub fn compare(sent: &[u8], got: &[u8]) -> Option<Differ>
    ensures none { IsNone result ↔ IsPrefix got.now sent.now }
    ensures differ { IfSome result (IsFirstDiffer sent.now got.now) }
{
    let at = coming_apart(sent, got);
    let came = got.get(at).copied()?;
    Some(Differ {
        offset: at as u64,
        sent: sent.get(at).copied(),
        got: came,
    })
}

// Where the two come apart: where they first differ, or else where what was sent ends.
fn coming_apart(sent: &[u8], got: &[u8]) -> usize
    ensures { ComesApart sent.now got.now result }
{
    match first_difference(sent, got) {
        Some(at) => at,
        None => sent.len(),
    }
}
