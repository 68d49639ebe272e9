//! What a write leaves in a buffer.
ghost use Rattle.std.specs.Prelude.{◌↔◌, IsTrue};
ghost use Rattle.cases.specs.Buffers.{IsFileThen};

/// Whether a buffer holds this file, and behind it nothing but bytes of one kind.
pub fn holds(buffer: &[u8], file: &[u8], behind: u8) -> bool
    ensures { IsTrue result ↔ IsFileThen buffer.now file.now behind }
{
    match buffer.strip_prefix(file) {
        Some(rest) => rest.iter().all(|b| *b == behind),
        None => false,
    }
}
