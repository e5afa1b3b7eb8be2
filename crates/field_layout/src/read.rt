ghost use Rattle.std.specs.Prelude.{◌≡◌, ◌+◌, ◌<◌, ◌≤◌, length};
ghost use Rattle.field_layout.specs.Layout.{field_at, entry, number_in, Holds};

/// The byte at this place, as a number.
#[tactic(auto, unfolding(crate::specs::Layout::number_in))]
pub fn u8_at(bytes: &[u8], place: usize) -> u8
    requires { place + 1 ≤ length bytes.now }
    ensures value { result ≡ number_in bytes.now (field_at place 1) }
    ensures held { Holds bytes.now (entry place 1 result) }
{
    bytes[place]
}

/// The number in the two bytes from this place on, the lowest byte first.
#[tactic(auto, unfolding(crate::specs::Layout::number_in))]
pub fn u16_at(bytes: &[u8], place: usize) -> u16
    requires { place + 2 ≤ length bytes.now }
    ensures value { result ≡ number_in bytes.now (field_at place 2) }
    ensures held { Holds bytes.now (entry place 2 result) }
{
    let mut number = [0; 2];
    number.copy_from_slice(&bytes[place..place + 2]);
    u16::from_le_bytes(number)
}

/// The number in the four bytes from this place on, the lowest byte first.
#[tactic(auto, unfolding(crate::specs::Layout::number_in))]
pub fn u32_at(bytes: &[u8], place: usize) -> u32
    requires { place + 4 ≤ length bytes.now }
    ensures value { result ≡ number_in bytes.now (field_at place 4) }
    ensures held { Holds bytes.now (entry place 4 result) }
{
    let mut number = [0; 4];
    number.copy_from_slice(&bytes[place..place + 4]);
    u32::from_le_bytes(number)
}

/// The number in the eight bytes from this place on, the lowest byte first.
#[tactic(auto, unfolding(crate::specs::Layout::number_in))]
pub fn u64_at(bytes: &[u8], place: usize) -> u64
    requires { place + 8 ≤ length bytes.now }
    ensures value { result ≡ number_in bytes.now (field_at place 8) }
    ensures held { Holds bytes.now (entry place 8 result) }
{
    let mut number = [0; 8];
    number.copy_from_slice(&bytes[place..place + 8]);
    u64::from_le_bytes(number)
}
