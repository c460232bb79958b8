// A reader of one response.
ghost use Rattle.std.specs.Prelude.{◌≡◌, ◌<◌, ◌≤◌, [], length, IfOk};
ghost use Rattle.response_reader.specs.Heads.{first_in};
ghost use Rattle.response_reader.specs.Steps.{head_answer, body_answer, end_of};

use crate::chunks::{LineRead, read_line};
use crate::framing::{Left, left_of};
use crate::front::{FrontRead, read_front};
use crate::got::{Answered, BodyGot, Stage, Stopped};
use crate::pieces::{More, hand_out, is_line, is_line_end, left_after, missing_in, read_more};
use engine_ports::{NoMemory, Source};
use http_edge::{Ahead, Form, Head, Part, PartRead, read_part};
use std::alloc::Global;
use std::marker::Model;

/// A reader of one response.
#[derive(Drop)]
pub struct ResponseReader {
    ahead: Ahead,
    taken: u64,
    from: u64,
    stage: Stage,
}

impl Model for ResponseReader {
    ghost use Rattle.response_reader.specs.Held.{Reading};

    ghost Value = { Reading };

    ghost view = { λ r. record {
      ahead = r.ahead;
      taken = r.taken;
      from = r.from;
      stage = r.stage;
    } };
}

impl ResponseReader {
    ghost use Rattle.response_reader.specs.Reader.{IsAtHead, IsInBody, Follows, HeadSays, BodySays};
    ghost use Rattle.response_reader.specs.Steps.{StepSays, GoSays, BeginSays, IsRunning, IsPastPiece, IsGiving};

    /// Takes all memory that reading needs: room for 16,384 bytes that are read ahead. It is written only
    /// as far as the response needs it.
    pub fn new(alloc: Global) -> Result<ResponseReader, NoMemory>
        ensures { IfOk result
            (λ r. r ≡ record { ahead = []; taken = 0; from = 0; stage = Stage.Head }) }
    {
        Ok(ResponseReader {
            ahead: Ahead::new(alloc)?,
            taken: 0,
            from: 0,
            stage: Stage::Head,
        })
    }

    /// Reads the head. It takes no memory, and reads no more once the input was refused, ended or failed.
    pub fn head<S: Source>(&mut self, source: &mut S) -> Answered
        requires { IsAtHead self.old.stage }
        ensures says { HeadSays result self.old self.new (S.gives source.old) (S.gives source.new) }
        ensures stage { Follows result self.new.stage }
    {
        if let Stage::Stopped(why) = self.stage {
            return head_answer(why);
        }
        match read_front(source, &mut self.ahead) {
            FrontRead::Head(head, len) => self.begin(head, len),
            FrontRead::Never => self.stop(Stopped::BadHead { at: 0 }),
            FrontRead::CutShort => self.stop(Stopped::CutShort),
            FrontRead::Failed => self.stop(Stopped::ReadFault),
        }
    }

    /// Reads on in the body, into a place that isn't empty. It takes no memory, and reads no more once
    /// the input was refused, ended or failed.
    pub fn body<S: Source>(&mut self, source: &mut S, into: &mut [u8]) -> BodyGot
        requires stage { IsInBody self.old.stage }
        requires place { 0 < length into.old }
        ensures says { BodySays result into.new self.old self.new
            (S.gives source.old) (S.gives source.new) }
        ensures stage { IsInBody self.new.stage }
    {
        if let Stage::Stopped(why) = self.stage {
            return body_answer(why);
        }
        match self.go_on(source, into) {
            Ok(got) => got,
            Err(why) => {
                self.stage = Stage::Stopped(why);
                body_answer(why)
            }
        }
    }

    /// Takes the head that the bytes ahead begin with.
    fn begin(&mut self, head: Head, len: usize) -> Answered
        requires within { len ≤ length self.old.ahead }
        ensures { BeginSays head len result self.old self.new }
    {
        self.ahead.skip(len);
        self.taken = len as u64;
        self.from = self.taken;
        self.stage = Stage::Body(left_of(head.form));
        Answered::Head {
            status: head.status,
            first: first_in(head.form),
        }
    }

    /// Stops before a body.
    fn stop(&mut self, why: Stopped) -> Answered
        ensures got { result ≡ head_answer why }
        ensures stage { self.new ≡ record self.old { stage = Stage.Stopped why } }
    {
        self.stage = Stage::Stopped(why);
        head_answer(why)
    }

    /// Reads on where the reader hasn't stopped.
    fn go_on<S: Source>(&mut self, source: &mut S, into: &mut [u8]) -> Result<BodyGot, Stopped>
        requires stage { IsRunning self.old.stage }
        requires place { 0 < length into.old }
        ensures says { GoSays result into.new self.old self.new
            (S.gives source.old) (S.gives source.new) }
        ensures stage { IfOk result (λ got. IsRunning self.new.stage) }
    {
        self.end_piece(source)?;
        self.begin_piece(source)?;
        self.give(source, into)
    }

    /// What is left of the body.
    fn left(&self) -> Left
        requires { IsRunning self.now.stage }
        ensures { self.now.stage ≡ Stage.Body result }
    {
        match self.stage {
            Stage::Body(left) => left,
            _ => unreachable!(),
        }
    }

    /// Takes the line end behind a whole piece.
    fn end_piece<S: Source>(&mut self, source: &mut S) -> Result<(), Stopped>
        requires { IsRunning self.old.stage }
        ensures says { StepSays result self.old self.new (S.gives source.old) (S.gives source.new) }
        ensures stage { IfOk result (λ done. IsPastPiece self.new.stage) }
    {
        if !is_line_end(self.left()) {
            return Ok(());
        }
        match read_part(source, &mut self.ahead, Part::End) {
            PartRead::Whole(_, count) => {
                self.taken = self.taken.saturating_add(count as u64);
                self.from = self.taken;
                self.stage = Stage::Body(Left::Chunk);
                Ok(())
            }
            PartRead::Refused => Err(Stopped::BadChunk { at: self.from }),
            PartRead::CutShort => Err(Stopped::CutShort),
            PartRead::Failed => Err(Stopped::ReadFault),
        }
    }

    /// Takes the line of a chunk, or the end of the body by chunks.
    fn begin_piece<S: Source>(&mut self, source: &mut S) -> Result<(), Stopped>
        requires { IsPastPiece self.old.stage }
        ensures says { StepSays result self.old self.new (S.gives source.old) (S.gives source.new) }
        ensures stage { IfOk result (λ done. IsGiving self.new.stage) }
    {
        if !is_line(self.left()) {
            return Ok(());
        }
        match read_line(source, &mut self.ahead) {
            LineRead::Piece(size, count) => {
                self.taken = self.taken.saturating_add(count as u64);
                self.stage = Stage::Body(Left::Piece(size));
                Ok(())
            }
            LineRead::Last(count) => {
                self.taken = self.taken.saturating_add(count as u64);
                self.stage = Stage::Body(Left::Over);
                Ok(())
            }
            LineRead::Refused => Err(Stopped::BadChunk { at: self.from }),
            LineRead::CutShort => Err(Stopped::CutShort),
            LineRead::Failed => Err(Stopped::ReadFault),
        }
    }

    /// Gives bytes of the body, or its end.
    fn give<S: Source>(&mut self, source: &mut S, into: &mut [u8]) -> Result<BodyGot, Stopped>
        requires stage { IsGiving self.old.stage }
        requires place { 0 < length into.old }
        ensures says { GoSays result into.new self.old self.new
            (S.gives source.old) (S.gives source.new) }
        ensures stage { IfOk result (λ got. IsRunning self.new.stage) }
    {
        let left = self.left();
        let missing = missing_in(left);
        if missing == 0 {
            return Ok(BodyGot::End);
        }
        match read_more(source, &mut self.ahead) {
            More::Some => {}
            More::End => return end_of(left),
            More::Failed => return Err(Stopped::ReadFault),
        }
        let count = hand_out(&mut self.ahead, into, missing);
        self.taken = self.taken.saturating_add(count as u64);
        self.stage = Stage::Body(left_after(left, count as u64));
        Ok(BodyGot::Bytes(count))
    }
}

/// What the end of the input is, where this was left.
fn end_of(left: Left) -> Result<BodyGot, Stopped>
    ensures { result ≡ end_of left }
{
    match left {
        Left::UntilEnd => Ok(BodyGot::End),
        _ => Err(Stopped::CutShort),
    }
}

/// The number of the first event that a head tells.
fn first_in(form: Form) -> Option<u64>
    ensures { result ≡ first_in form }
{
    match form {
        Form::ChunkedJson { first } => first,
        _ => None,
    }
}

/// The answer of one that has stopped before a body.
fn head_answer(why: Stopped) -> Answered
    ensures { result ≡ head_answer why }
{
    match why {
        Stopped::BadHead { at } | Stopped::BadChunk { at } => Answered::BadHead { at },
        Stopped::CutShort => Answered::CutShort,
        Stopped::ReadFault => Answered::ReadFault,
    }
}

/// The answer of one that has stopped in a body.
fn body_answer(why: Stopped) -> BodyGot
    ensures { result ≡ body_answer why }
{
    match why {
        Stopped::BadHead { at } | Stopped::BadChunk { at } => BodyGot::BadChunk { at },
        Stopped::CutShort => BodyGot::CutShort,
        Stopped::ReadFault => BodyGot::ReadFault,
    }
}
