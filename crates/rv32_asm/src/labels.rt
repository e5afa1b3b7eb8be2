ghost use Rattle.std.specs.Prelude.{◌≡◌, ℕ, List, None, IfOk, OnOk, is_some};
ghost use Rattle.rv32_asm.specs.LabelMap.{place_in, with_place};

use cs_base::{NoMemory, Octets};
use std::alloc::Global;
use std::collections::HashMap;

/// The addresses of a source's labels.
#[derive(Drop)]
pub(crate) struct Labels {
    places: HashMap<Vec<u8>, u128>,
}

impl Labels {
    pub(crate) fn new(alloc: Global) -> Labels
        ensures { (name : List ℕ) → place_in result name ≡ None }
    {
        Labels {
            places: HashMap::new(alloc),
        }
    }

    /// The address that a label means; None where no line has it.
    pub(crate) fn place(&self, name: &[u8]) -> Option<u128>
        ensures { result ≡ place_in self.now name.now }
    {
        self.places.get(name).copied()
    }

    /// Takes in that a line at an address has a label, which means its first place. Answers whether it had one before.
    pub(crate) fn note(&mut self, label: Octets, address: u128) -> Result<bool, NoMemory>
        ensures known { IfOk result (λ known. known ≡ is_some (place_in self.old label)) }
        ensures places { OnOk result ((name : List ℕ) → place_in self.new name ≡ with_place (place_in self.old) label address name) }
    {
        if self.places.contains_key(label.as_slice()) {
            return Ok(true);
        }
        self.places.insert(label.into_vec(), address)?;
        Ok(false)
    }
}
