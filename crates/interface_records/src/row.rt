// A row of records of one length, one after the other.
ghost use Rattle.std.specs.Prelude.{◌≡◌, ℕ, ◌*◌, ◌^◌, ◌<◌, List, Option};
ghost use Rattle.interface_records.specs.Row.{filled_row};

// A record that is read from bytes of its own length.
pub trait Record: Copy {
    // How many bytes a record has.
    ghost LENGTH: { ℕ };

    // What bytes are read as, none for bytes that no record is written as.
    ghost reads: { List ℕ → Option Self };

    const LENGTH: usize;

    fn read(s: &[u8]) -> Option<Self>
        ensures { result ≡ reads s.now };

    // A record has bytes.
    ghost some: { 0 < LENGTH };
}

// So many records, in the first places of a row; the other places have the record that fills up.
// None on more than the row has places for, a wrong length or any refused record. How many there are is registered, and not told by
// the bytes.
pub fn read_row<R: Record, const N: usize>(s: &[u8], count: usize, fill: R) -> Option<[R; N]>
    ensures { result ≡ filled_row R.reads R.LENGTH N fill count s.now }
{
    let length = R::LENGTH;
    if N < count || count.checked_mul(length) != Some(s.len()) {
        return None;
    }
    let mut row = [fill; N];
    // (By place: after an `iter_mut` the proof knows how long the row is, and no longer what is in it.)
    for (i, record) in s.chunks_exact(length).enumerate() {
        row[i] = R::read(record)?;
    }
    Some(row)
}
