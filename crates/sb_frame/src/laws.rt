ghost use Rattle.std.specs.Prelude.{◌≡◌, ℕ, List, None};
ghost use Rattle.cs_base.specs.declared.port_kind.PortKind.{PortKind};
ghost use Rattle.sb_message.specs.declared.message.Msg.{Msg};
ghost use Rattle.sb_frame.specs.declared.frame_bad.FrameBad.{FrameBad};
ghost use Rattle.sb_frame.specs.Faults.{FirstFault, HasOneFirstFault};
ghost use Rattle.sb_frame.specs.Deframing.{Deframing, Stands};

/// A stream has one first fault at most: at one place, for one reason. So what `feed` refuses is told by the stream's
/// bytes alone, in whatever pieces they come.
pub fn one_first_fault()
    ensures { (kind : PortKind) → HasOneFirstFault kind }
{}

/// A deframer that has met no fault stands for a stream that has none: no fault goes by unseen.
pub fn no_fault_goes_unseen()
    ensures { (deframer : Deframing) (stream : List ℕ) (given : List Msg) (b : FrameBad)
        → Stands deframer stream given → deframer.fault ≡ None
        → FirstFault deframer.place.kind stream b → ⊥ }
{}
