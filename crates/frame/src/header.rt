ghost use Rattle.frame.specs.Header.{Splits};

/// The bytes of a header.
pub const HEADER_BYTES: usize = 3;

/// What a message begins with.
#[derive(Clone, Copy, PartialEq, Eq, Debug)]
pub struct Header {
    pub source: u8,
    pub destination: u8,
    pub length: u8,
}

impl Header {
    /// The header and the bytes behind it; nothing if there are fewer than three bytes.
    pub fn split(bytes: &[u8]) -> Option<(Header, &[u8])>
        ensures { Splits bytes.now result }
    {
        let [source, destination, length, rest @ ..] = bytes else {
            return None;
        };
        let header = Header {
            source: *source,
            destination: *destination,
            length: *length,
        };
        Some((header, rest))
    }
}
