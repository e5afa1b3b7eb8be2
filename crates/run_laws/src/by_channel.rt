ghost use Rattle.std.specs.Prelude.{◌≡◌, ℕ, Some, slice_get, List};
ghost use Rattle.sb_message.specs.declared.message.Msg.{Msg};
ghost use Rattle.device_api.specs.Channels.{Channel, channels};
ghost use Rattle.device_api.specs.World.{Network};
ghost use Rattle.run_laws.specs.Wired.{IsWired};
ghost use Rattle.run_laws.specs.ByChannel.{by_sender, by_receiver};

/// Lists by the numbers of channels serve as lists by ports: the port that sends on channel `k`, and the port
/// that receives there, have the list of number `k`.
pub fn channels_are_known_by_their_ports<S>()
    ensures sender { (net : Network S) (end : ℕ) (lists : ℕ → List Msg) (k : ℕ) (ch : Channel)
        → IsWired net end
        → slice_get (channels net.links) k ≡ Some ch
        → by_sender (channels net.links) 0 lists ch.from ≡ lists k }
    ensures receiver { (net : Network S) (end : ℕ) (lists : ℕ → List Msg) (k : ℕ) (ch : Channel)
        → IsWired net end
        → slice_get (channels net.links) k ≡ Some ch
        → by_receiver (channels net.links) 0 lists ch.to ≡ lists k }
{}
