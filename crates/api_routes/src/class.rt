// The class of a request (own: who decides its answer).
use engine_text::{Call, Text};

/// What answers a request.
#[derive(Drop)]
pub enum Class {
    /// An answer that the request's bytes alone decide.
    Direct(DirectAnswer),
    /// A call, answered by its reply.
    Ask(Call),
    /// A call whose reply is a stream, and who takes the connection over for it.
    Stream(Call, Takeover),
}

/// An answer that the request's bytes alone decide.
#[derive(Drop)]
pub struct DirectAnswer {
    pub status: u16,
    /// The message of `Message`, and the body itself of the others; to HEAD it isn't sent.
    pub text: Text,
    pub kind: DirectKind,
}

/// How the text of a direct answer is written.
#[derive(Clone, Copy, PartialEq, Eq, Debug, Drop)]
pub enum DirectKind {
    /// As the message of a JSON object.
    Message,
    /// As a JSON body.
    Json,
    /// As a plain body.
    Plain,
}

/// How a stream uses its connection.
#[derive(Clone, Copy, PartialEq, Eq, Debug, Drop)]
pub enum Takeover {
    /// In chunks; the connection goes on behind them.
    None,
    /// It takes the connection over, behind the head of 200.
    Plain,
    /// It takes the connection over, behind the head of 101.
    Upgrade,
}
