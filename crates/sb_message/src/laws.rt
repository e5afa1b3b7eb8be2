ghost use Rattle.cs_base.specs.declared.port_kind.PortKind.{PortKind};
ghost use Rattle.sb_message.specs.Spelling.{HaveOneSpelling, AreOneMessage};

/// Each message has one spelling, and no bytes spell two messages.
pub fn one_spelling()
    ensures bytes { (kind : PortKind) → HaveOneSpelling kind }
    ensures message { (kind : PortKind) → AreOneMessage kind }
{}
