use thiserror::Error;

/// Why a file could not be got.
#[derive(Clone, Copy, Debug, PartialEq, Eq, Error)]
pub enum GetFault {
    /// The file is not held, or reading it failed.
    #[error("the file could not be read")]
    Failed,
    /// The file has more bytes than were asked for at most.
    #[error("the file is too long")]
    TooLong,
    /// There is no memory for the bytes.
    #[error("out of memory")]
    Memory,
}

/// Why a file could not be put.
#[derive(Clone, Copy, Debug, PartialEq, Eq, Error)]
pub enum PutFault {
    /// Writing the file failed, and it may hold any bytes.
    #[error("the file could not be written")]
    Failed,
    /// There is no memory for the bytes.
    #[error("out of memory")]
    Memory,
}

/// Why a piece could not be written.
#[derive(Clone, Copy, Debug, PartialEq, Eq, Error)]
pub enum SinkFault {
    /// A prefix of the piece, maybe none of it, was written.
    #[error("the bytes could not be written")]
    Failed,
}
