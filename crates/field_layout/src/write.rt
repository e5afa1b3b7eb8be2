ghost use Rattle.std.specs.Prelude.{◌≡◌, ◌+◌, ◌≤◌, ℕ, List, ◌++◌, ◌∷◌, [], length, true};
ghost use Rattle.std.specs.Int.{w16, w32, w64, to_le_bytes};
ghost use Rattle.field_layout.specs.Layout.{Entry, field_at, entry, fields_of, is_apart_from, IsLaidOut, overwritten};

fn put(bytes: &mut [u8], place: usize, new: &[u8])
    requires { place + length new.now ≤ length bytes.old }
    ensures { bytes.new ≡ overwritten bytes.old place new.now }
{
    bytes[place..place + new.len()].copy_from_slice(new);
}

/// Writes one byte at this place.
pub fn put_u8(bytes: &mut [u8], place: usize, value: u8)
    requires { place + 1 ≤ length bytes.old }
    ensures written { bytes.new ≡ overwritten bytes.old place (value ∷ []) }
    // A header that is laid out so far has one field more.
    ensures laid_out { (size : ℕ) (table : List Entry) → IsLaidOut size table bytes.old
        → is_apart_from (fields_of table) (field_at place 1) ≡ true
        → IsLaidOut size (table ++ (entry place 1 value) ∷ []) bytes.new }
{
    put(bytes, place, &[value]);
}

/// Writes a number into the two bytes from this place on, the lowest byte first.
pub fn put_u16(bytes: &mut [u8], place: usize, value: u16)
    requires { place + 2 ≤ length bytes.old }
    ensures written { bytes.new ≡ overwritten bytes.old place (to_le_bytes w16 value) }
    // A header that is laid out so far has one field more.
    ensures laid_out { (size : ℕ) (table : List Entry) → IsLaidOut size table bytes.old
        → is_apart_from (fields_of table) (field_at place 2) ≡ true
        → IsLaidOut size (table ++ (entry place 2 value) ∷ []) bytes.new }
{
    put(bytes, place, &value.to_le_bytes());
}

/// Writes a number into the four bytes from this place on, the lowest byte first.
pub fn put_u32(bytes: &mut [u8], place: usize, value: u32)
    requires { place + 4 ≤ length bytes.old }
    ensures written { bytes.new ≡ overwritten bytes.old place (to_le_bytes w32 value) }
    // A header that is laid out so far has one field more.
    ensures laid_out { (size : ℕ) (table : List Entry) → IsLaidOut size table bytes.old
        → is_apart_from (fields_of table) (field_at place 4) ≡ true
        → IsLaidOut size (table ++ (entry place 4 value) ∷ []) bytes.new }
{
    put(bytes, place, &value.to_le_bytes());
}

/// Writes a number into the eight bytes from this place on, the lowest byte first.
pub fn put_u64(bytes: &mut [u8], place: usize, value: u64)
    requires { place + 8 ≤ length bytes.old }
    ensures written { bytes.new ≡ overwritten bytes.old place (to_le_bytes w64 value) }
    // A header that is laid out so far has one field more.
    ensures laid_out { (size : ℕ) (table : List Entry) → IsLaidOut size table bytes.old
        → is_apart_from (fields_of table) (field_at place 8) ≡ true
        → IsLaidOut size (table ++ (entry place 8 value) ∷ []) bytes.new }
{
    put(bytes, place, &value.to_le_bytes());
}
