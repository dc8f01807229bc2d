// Bytes at a place of a slice.
ghost use Rattle.std.specs.Prelude.{◌≡◌, ◌-◌, min};
ghost use Rattle.std.proofs.lemmas.List.Edits.{sets};

pub use interface_records::group::byte;

// How many of so many bytes fit from a place on into a length.
fn room(length: usize, at: usize, count: usize) -> usize
    ensures { result ≡ min count (length - at) }
{
    length.saturating_sub(at).min(count)
}

// Stores bytes from a place on; what lies past the end is not stored. A place and no array: it cannot fail, and with an array each caller would
// cut and convert, and answer for a slice that is short.
pub fn put(out: &mut [u8], at: usize, s: &[u8])
    ensures { out.new ≡ sets out.old at s.now }
{
    let n = room(out.len(), at, s.len());
    if 0 < n {
        out[at..at + n].copy_from_slice(&s[..n]);
    }
}
