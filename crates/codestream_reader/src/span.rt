// Where the bytes of a code-block stand.

use packet_headers::Entry;

/// What the packets of a codestream say of a code-block (ISO/IEC 15444-1, B.10), and where its
/// bytes stand. The entry of a block that isn't included has zeros.
#[derive(Clone, Copy, Debug, Default, PartialEq, Eq)]
pub struct BlockSpan {
    /// What the packet header says of it, with the number of its bytes.
    pub entry: Entry,
    /// The place of its first byte, counted in bytes from 0.
    pub at: u32,
}
