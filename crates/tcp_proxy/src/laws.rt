ghost use Rattle.std.specs.Prelude.{ℕ, List};
ghost use mathlib.Core.List.{IsPrefix};
ghost use Rattle.cs_base.specs.declared.port_kind.PortKind.{PortKind};
ghost use Rattle.sb_message.specs.declared.message.Msg.{Msg};
ghost use Rattle.sb_frame.specs.Frames.{AreFrames};
ghost use Rattle.tcp_proxy.specs.Receiving.{ArePushedFrom};

/// Where the bytes that came are a beginning of those that were sent, the messages pushed are a beginning of those popped.
pub fn what_was_pushed_was_popped()
    ensures { (kind : PortKind) (sent got : List ℕ) (popped pushed : List Msg)
        → AreFrames kind popped sent → ArePushedFrom kind got pushed → IsPrefix got sent
        → IsPrefix pushed popped }
{}
