// The image's bytes: made, changed and summed.
ghost use Rattle.std.specs.Prelude.{◌≡◌, ◌+◌, ◌≤◌, length, IfNone, OnSome};
ghost use Rattle.arrayvec.specs.ArrayVec.{array_vec_len};

use arrayvec::ArrayVec;

/// The most bytes of an image.
pub(crate) const IMAGE_LIMIT: usize = 524544;

/// An image, in room for the longest one.
pub(crate) type Image = ArrayVec<u8, IMAGE_LIMIT>;

// How many zeros are put into the image at once: byte by byte it takes twelve times as long.
const PART: usize = 4096;

// Puts these bytes at the image's end.
fn extend(image: &mut Image, bytes: &[u8])
    requires { array_vec_len image.old + length bytes.now ≤ 524544 }
    ensures { array_vec_len image.new ≡ array_vec_len image.old + length bytes.now }
{
    let _fits = image.try_extend_from_slice(bytes);
}

/// Makes the image `size` zeros; `None` if it has no room for them, and it then stays as it was.
pub(crate) fn clear(image: &mut Image, size: u32) -> Option<()>
    ensures made { OnSome result (array_vec_len image.new ≡ size) }
    ensures full { IfNone result (image.new ≡ image.old) }
{
    let size = size as usize;
    if IMAGE_LIMIT < size {
        return None;
    }
    // What stays is filled as one part: `clear` writes zeros over what goes, so that those would be written twice.
    image.truncate(size);
    image.fill(0);
    let zeros = [0; PART];
    let more = size - image.len();
    for _ in 0..more / PART {
        extend(image, &zeros);
    }
    extend(image, &zeros[..more % PART]);
    Some(())
}

/// Puts all of `s` into the image from `at` on; `None` if it would end past the image's end, and the image then stays as it was.
pub(crate) fn poke(image: &mut [u8], at: u32, s: &[u8]) -> Option<()>
    ensures outside { IfNone result (image.new ≡ image.old) }
    ensures len { length image.new ≡ length image.old }
{
    let from = at as usize;
    let to = from + s.len();
    if image.len() < to {
        return None;
    }
    image[from..to].copy_from_slice(s);
    Some(())
}

/// Adler-32 (RFC 1950, 8.2).
pub(crate) fn adler(s: &[u8]) -> u32 {
    let mut a = 1;
    let mut b = 0;
    for &byte in s {
        a = (a + u32::from(byte)) % 65521;
        b = (b + a) % 65521;
    }
    b * 65536 + a
}
