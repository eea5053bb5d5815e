// JSON: RFC 8259's texts in UTF-8, and where bytes stop being one. The grammar stands in specs/, with no parser, to be read
// beside RFC 8259 (JSON), RFC 3629 (UTF-8) and RFC 5234 (ABNF).
#![tactic(auto)]

// The most arrays or objects that may be open at once.
pub const DEPTH_LIMIT: u64 = 32;

// What is wrong with bytes that are no JSON text within the depth limit. The place is that of the first byte that no such text can have
// after the bytes before it, counted from 0; or the number of bytes, if they only stop early.
#[derive(Clone, Copy, Debug, PartialEq, Eq)]
pub struct JsonFault {
    pub place: usize,
}
