ghost use Rattle.std.specs.Prelude.{◌≡◌, [], ◌∷◌, ◌++◌, OnOk, OnErr};

use crate::line_text::LineText;
use cs_base::items::Items;
use cs_base::no_memory::NoMemory;
use sb_message::Body;
use std::alloc::Global;
use std::marker::Model;

/// What devices do to their surroundings.
#[derive(Debug, Drop)]
pub struct Effects {
    /// What is sent, by which port, in order.
    pub sends: Items<(u32, Body)>,
    /// The lines that are logged, without line feeds.
    pub lines: Items<LineText>,
}

impl Model for Effects {
    ghost use Rattle.device_api.specs.Behaviour.{SendsAndLines};

    ghost Value = { SendsAndLines };

    ghost view = { λ effects. record { sends = effects.sends; lines = effects.lines } };
}

impl Effects {
    /// No effects yet.
    pub fn new(alloc: Global) -> Effects
        ensures sends { result.sends ≡ [] }
        ensures lines { result.lines ≡ [] }
    {
        Effects {
            sends: Items::new(alloc),
            lines: Items::new(alloc),
        }
    }

    /// Adds a send by a port.
    pub fn send(&mut self, port: u32, body: Body) -> Result<(), NoMemory>
        ensures ok { OnOk result (self.new.sends ≡ self.old.sends ++ (port, body) ∷ []) }
        ensures err { OnErr result (self.new.sends ≡ self.old.sends) }
        ensures lines { self.new.lines ≡ self.old.lines }
    {
        self.sends.push((port, body))
    }

    /// Adds a line, given without its line feed.
    pub fn line(&mut self, text: &[u8]) -> Result<(), NoMemory>
        ensures ok { OnOk result (self.new.lines ≡ self.old.lines ++ text.now ∷ []) }
        ensures err { OnErr result (self.new.lines ≡ self.old.lines) }
        ensures sends { self.new.sends ≡ self.old.sends }
    {
        let mut line = LineText::new(self.lines.alloc());
        line.append(text)?;
        self.lines.push(line)
    }

    /// Adds a line, given without its line feed.
    pub fn line_text(&mut self, text: LineText) -> Result<(), NoMemory>
        ensures ok { OnOk result (self.new.lines ≡ self.old.lines ++ text ∷ []) }
        ensures err { OnErr result (self.new.lines ≡ self.old.lines) }
        ensures sends { self.new.sends ≡ self.old.sends }
    {
        self.lines.push(text)
    }

    /// Forgets all effects and keeps their room.
    pub fn clear(&mut self)
        ensures sends { self.new.sends ≡ [] }
        ensures lines { self.new.lines ≡ [] }
    {
        self.sends.clear();
        self.lines.clear();
    }
}
