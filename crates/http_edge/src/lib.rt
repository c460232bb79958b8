//! The edge of HTTP/1.1: requests are read and answers are written.
#![tactic(auto)]

mod ahead;
mod answer;
mod asks;
mod body;
mod chunk;
mod chunked;
mod fields;
mod fill;
mod framing;
mod front;
mod head;
mod laws;
mod limits;
mod line;
mod parts;
mod reader;
mod request;
mod shown_fields;
mod stored;
mod view;

pub use ahead::Ahead;
pub use answer::{write_answer, write_refusal};
pub use asks::Want;
pub use chunk::{write_chunk, write_last};
pub use framing::Framing;
pub use front::HeadRead;
pub use head::{Form, Head, head_line, write_head};
pub use laws::{
    law_begins_with_none, law_of_requests, law_one_reading, law_refused_is_decided,
    law_refused_stays,
};
pub use limits::{BODY_LIMIT, FIELD_LIMIT, HEAD_LIMIT};
pub use line::Line;
pub use parts::{Part, PartRead, read_part};
pub use reader::{Next, RequestReader, Stopped};
pub use shown_fields::Fields;
pub use stored::Buffers;
pub use view::RequestView;
