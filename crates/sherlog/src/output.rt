//! What a command writes.

use diagnoses::Kept;
use plain_data::Bytes;

/// What a command writes to its output, the line on how a run ended, the status once it is written, and the evidence
/// of a diagnosis.
#[derive(Drop)]
pub struct Output {
    pub text: Bytes,
    pub end: Bytes,
    pub status: u8,
    pub evidence: Kept,
}
