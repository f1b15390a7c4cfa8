//! Bytes of the caller that are written to.

ghost use Rattle.std.specs.Prelude.{◌≡◌, ◌<◌, ◌≤◌, [], ◌∷◌, ◌++◌, length, take};
ghost use Rattle.bh_c.specs.Buffers.{IsWritten, front_replaced};

/// Writes the bytes in front of the buffer, and their length.
pub fn put_front(bytes: &[u8], buffer: &mut [u8], needed: &mut usize)
    requires { length bytes.now ≤ length buffer.old }
    ensures { IsWritten bytes.now buffer.old buffer.new needed.new }
{
    copy_front(bytes, buffer);
    *needed = bytes.len();
}

/// Writes the bytes and a line feed in front of the buffer, and the length of both.
pub fn put_line(bytes: &[u8], buffer: &mut [u8], needed: &mut usize)
    requires { length bytes.now < length buffer.old }
    ensures { IsWritten (bytes.now ++ 10 ∷ []) buffer.old buffer.new needed.new }
{
    put_front(bytes, buffer, needed);
    buffer[*needed] = b'\n';
    *needed += 1;
}

/// Writes the bytes in front of the buffer.
pub fn copy_front(bytes: &[u8], buffer: &mut [u8])
    requires { length bytes.now ≤ length buffer.old }
    ensures { buffer.new ≡ front_replaced bytes.now buffer.old }
{
    buffer[..bytes.len()].copy_from_slice(bytes);
}

/// Writes as many of the bytes as there is room for in front of the buffer, and the length of all of them.
pub fn put_cut(bytes: &[u8], buffer: &mut [u8], needed: &mut usize)
    ensures front { buffer.new ≡ front_replaced (take (length buffer.old) bytes.now) buffer.old }
    ensures count { needed.new ≡ length bytes.now }
{
    let count = bytes.len().min(buffer.len());
    copy_front(&bytes[..count], buffer);
    *needed = bytes.len();
}
