ghost use Rattle.std.specs.Prelude.{◌≡◌, ◌-◌, slice_index};
ghost use Rattle.bus.specs.Registers.{image_word};

// The image's first address; it ends with FFFF.
pub(crate) const FIRST: u16 = 0xf800;

// The image's byte at an address from F800 on. A shorter image goes on with 0.
pub(crate) fn image_at(image: &[u8], address: u16) -> u8
    ensures { result ≡ slice_index image.now (address - 0xf800) }
{
    let i = address.saturating_sub(FIRST) as usize;
    image.get(i).copied().unwrap_or(0)
}

// The image's word at an address, low byte first.
pub fn image_word(image: &[u8], address: u16) -> u16
    ensures { result ≡ image_word image.now address }
{
    let low = image_at(image, address);
    let high = image_at(image, address.wrapping_add(1));
    u16::from_le_bytes([low, high])
}
