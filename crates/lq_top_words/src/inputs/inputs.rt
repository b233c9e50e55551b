// The texts that a command is about.

/// The greatest number of bytes of a file, a mebibyte.
pub const FILE_LIMIT: usize = 1 << 20;

/// The texts of a program, its measures and its qualifiers. One that the command doesn't name is empty.
#[derive(Debug, Drop)]
pub struct Inputs {
    pub program: Vec<u8>,
    pub measures: Vec<u8>,
    pub quals: Vec<u8>,
}
