// Why nothing of an answer is handed on.
use client_model::Fault;

/// Why nothing of an answer is handed on: the fault, and the answer's status, where it has one.
#[derive(Drop)]
pub struct Failure {
    pub fault: Fault,
    pub status: Option<u16>,
}
