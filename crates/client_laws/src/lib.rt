//! Laws: what the client's bytes are to a daemon, and what its requests are for it.
#![tactic(auto)]

ghost use Rattle.engine_text.specs.Words.{AreUtf8};
ghost use Rattle.client_laws.specs.Spelled.{RequestsAreSpelled};
ghost use Rattle.client_laws.specs.Sent.{EndedCallsSend, BrokenCallsSend, AreReadFirst, AreReadAlone};
ghost use Rattle.client_laws.specs.Asked.{RequestsAreCalls, AsksCalls, EndsByCalls, BreaksOffByCalls};
ghost use Rattle.client_laws.specs.SentCalls.{SendsCalls, SendsCallsSoFar};

use engine_text::Text;

// ---- bytes

/// Each request that a short line asks for is spelled by its bytes.
pub fn law_spelled()
    ensures { RequestsAreSpelled }
{}

/// What each connection of a call was sent begins with its request, and has input behind it where
/// that follows.
pub fn law_sent()
    ensures ended { EndedCallsSend }
    ensures broken { BrokenCallsSend }
{}

/// What was sent is read as the request that was asked.
pub fn law_read()
    ensures first { AreReadFirst }
    ensures alone { AreReadAlone }
{}

// ---- calls

/// The daemon classifies each request that a line of texts asks as the table of commands names it:
/// as the call that the line's words mean, or as the answer that refuses one of them.
pub fn law_requests_are_calls()
    ensures { RequestsAreCalls }
{}

// Does nothing: its clause says that the words are UTF-8.
fn words_are_texts(words: &[Text])
    ensures { AreUtf8 words.now }
{
    'words: for word in words {
        word.utf8();
    }
}

/// So of every line of a program's words, and of every run of the client.
pub fn law_runs_ask_calls(words: &[Text])
    ensures asks { AsksCalls words.now }
    ensures ended { EndsByCalls words.now }
    ensures broken_off { BreaksOffByCalls words.now }
{
    words_are_texts(words);
}

/// What each connection of a run was sent is one spelling of a request that is, for the daemon, the
/// call that the table names, by the line's words and by the answers before it.
pub fn law_runs_send_calls(words: &[Text])
    ensures ended { SendsCalls words.now }
    ensures broken_off { SendsCallsSoFar words.now }
{
    words_are_texts(words);
    law_sent();
}
