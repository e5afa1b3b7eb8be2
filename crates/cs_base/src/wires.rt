ghost use Rattle.std.specs.Prelude.{◌≡◌, ◌≤◌, ◌<◌, ◌↔◌, true, length, IsTrue, IfOk, OnOk, OnErr, option_map};
ghost use Rattle.cs_base.specs.Outside.{Rose};
ghost use Rattle.cs_base.specs.Wires.{OutSeen, InSeen, TookSome, GaveSome, taken_after, given_after};

use crate::no_memory::Failed;

/// What a wire did with the bytes that it was to send.
#[derive(Clone, Copy, Debug, PartialEq, Eq, Hash)]
pub enum Sent {
    /// It took so many of them, at least one, from the front.
    Took(usize),
    /// It can take none yet.
    NotYet,
}

/// What a wire gave.
#[derive(Clone, Copy, Debug, PartialEq, Eq, Hash)]
pub enum Got {
    /// So many bytes, at least one, at the front of the buffer.
    Took(usize),
    /// It has none to give yet.
    NotYet,
    /// Nothing, now and for good: the stream has ended.
    End,
}

/// The sending end of a byte stream. It never waits. The bytes that it took may be told to contracts or not; real
/// sockets tell nothing.
pub trait WireOut {
    /// What the end tells of itself: the bytes taken, how many sends failed, how many could take nothing yet.
    ghost seen: { Self → OutSeen };

    /// How many sends have failed; at 2^64 - 1 the count stands still. It never falls.
    fn faults(&self) -> u64
        ensures { result ≡ (seen self.now).faults };

    /// How many sends could take nothing yet; at 2^64 - 1 the count stands still. It never falls.
    fn idles(&self) -> u64
        ensures { result ≡ (seen self.now).idles };

    /// Takes bytes from the front, at least one, and says how many, or takes none: `NotYet` comes only where the count
    /// of idles rose, and `Failed` only where the count of faults rose.
    fn send(&mut self, bytes: &[u8]) -> Result<Sent, Failed>
        requires { 0 < length bytes.now }
        ensures some { IfOk result (λ sent. TookSome sent (length bytes.now)) }
        ensures taken { (seen self.new).taken
            ≡ option_map (taken_after result bytes.now) (seen self.old).taken }
        ensures faults_stay { OnOk result ((seen self.new).faults ≡ (seen self.old).faults) }
        ensures faults_never_fall { (seen self.old).faults ≤ (seen self.new).faults }
        ensures idles_never_fall { (seen self.old).idles ≤ (seen self.new).idles }
        ensures not_yet { result ≡ Ok Sent.NotYet
            → Rose (seen self.old).idles (seen self.new).idles }
        ensures failed { OnErr result (Rose (seen self.old).faults (seen self.new).faults) };
}

/// The receiving end of a byte stream. It never waits. The bytes that it gave may be told to contracts or not; real
/// sockets tell nothing.
pub trait WireIn {
    /// What the end tells of itself: the bytes given, how many receipts failed, how many had nothing to give yet,
    /// whether the stream has ended.
    ghost seen: { Self → InSeen };

    /// How many receipts have failed; at 2^64 - 1 the count stands still. It never falls.
    fn faults(&self) -> u64
        ensures { result ≡ (seen self.now).faults };

    /// How many receipts had nothing to give yet; at 2^64 - 1 the count stands still. It never falls.
    fn idles(&self) -> u64
        ensures { result ≡ (seen self.now).idles };

    /// Whether the end of the stream was given.
    fn ended(&self) -> bool
        ensures { result ≡ (seen self.now).ended };

    /// Fills the buffer from its front with at least one byte, and says with how many, or gives none: `NotYet` comes
    /// only where the count of idles rose, `Failed` only where the count of faults rose, and `End` exactly where the
    /// stream has ended after the call, which it then has for good.
    fn recv(&mut self, buffer: &mut [u8]) -> Result<Got, Failed>
        requires { 0 < length buffer.old }
        ensures some { IfOk result (λ got. GaveSome got (length buffer.new)) }
        ensures given { (seen self.new).given
            ≡ option_map (given_after result buffer.new) (seen self.old).given }
        ensures end { (result ≡ Ok Got.End) ↔ IsTrue (seen self.new).ended }
        ensures for_good { IsTrue (seen self.old).ended → IsTrue (seen self.new).ended }
        ensures faults_stay { OnOk result ((seen self.new).faults ≡ (seen self.old).faults) }
        ensures faults_never_fall { (seen self.old).faults ≤ (seen self.new).faults }
        ensures idles_never_fall { (seen self.old).idles ≤ (seen self.new).idles }
        ensures not_yet { result ≡ Ok Got.NotYet
            → Rose (seen self.old).idles (seen self.new).idles }
        ensures failed { OnErr result (Rose (seen self.old).faults (seen self.new).faults) };
}
