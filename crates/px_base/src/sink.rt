//! A stream of bytes that go out, with a count of its faults.

ghost use Rattle.std.specs.Prelude.{◌≡◌, ◌<◌, List, ℕ, length, Option};
ghost use Rattle.px_base.specs.Sink.{WriteTakes, WriteHasCause, WritesText};

/// What a write came to.
#[derive(Clone, Copy, Debug, PartialEq, Eq)]
pub enum WriteEnd {
    /// The sink took so many bytes from the front, from one to all of them.
    Took(usize),
    /// The sink failed, and took nothing.
    Failed,
}

/// A stream of bytes that go out. A sink may tell what it has taken, as one in memory does.
pub trait Sink {
    /// The bytes taken so far, where the sink tells.
    ghost taken: { Self → Option (List ℕ) };

    /// How often the sink has failed, up to the last value of a `u64`, where the count stays.
    ghost write_faults: { Self → ℕ };

    /// Offers bytes, of which the sink takes a front.
    fn write(&mut self, bytes: &[u8]) -> WriteEnd
        requires { 0 < length bytes.now }
        ensures bytes { WriteTakes (taken self.old) (taken self.new) bytes.now result }
        ensures cause { WriteHasCause (write_faults self.old) (write_faults self.new) result };

    /// How often the sink has failed.
    fn write_faults(&self) -> u64
        ensures { result ≡ write_faults self.now };
}

/// What writing a whole text came to.
#[derive(Clone, Copy, Debug, PartialEq, Eq)]
pub enum WrittenEnd {
    /// The sink took all of it.
    All,
    /// The sink failed, and had taken a front of it.
    Failed,
}

/// Hands a text to the sink, in as many writes as that takes.
pub fn write_all<O: Sink>(sink: &mut O, text: &[u8]) -> WrittenEnd
    ensures { WritesText (O.taken sink.old) (O.taken sink.new)
        (O.write_faults sink.old) (O.write_faults sink.new) text.now result }
{
    let mut rest = text;
    while !rest.is_empty() {
        match sink.write(rest) {
            WriteEnd::Took(count) => rest = &rest[count..],
            WriteEnd::Failed => return WrittenEnd::Failed,
        }
    }
    WrittenEnd::All
}
