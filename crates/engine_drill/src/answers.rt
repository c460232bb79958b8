// The answer that bytes begin with.
ghost use Rattle.std.specs.Prelude.{◌≡◌, ◌<◌, ◌^◌, ◌++◌, ℕ, List, Some, IfSome, IfNone, IsTrue, drop, length};
ghost use Rattle.http_edge.specs.Response.{head_text};
ghost use Rattle.response_reader.specs.Heads.{IsFinal, is_bare};
ghost use Rattle.response_reader.specs.Numbers.{BeginsWithNumber};
ghost use Rattle.drill_model.specs.Answers.{IsAnswer, HasNoAnswer};
ghost use Rattle.engine_drill.specs.Reading.{before_length, head_by};

use http_edge::{Form, Head, head_line};
use response_reader::leading_number;

/// How many bytes of a head that tells the length 0 stand from that digit on.
const FROM_LENGTH: usize = 54;

/// 204 and 304 have no body.
fn is_bare(status: u16) -> bool
    ensures { result ≡ is_bare status }
{
    status == 204 || status == 304
}

/// The status in the first line.
fn status_in(bytes: &[u8]) -> Option<u16>
    ensures known { IfSome result IsFinal }
    ensures found { (status : ℕ) → IsFinal status → BeginsWithNumber (drop 9 bytes.now) status
        → result ≡ Some status }
{
    let number = leading_number(&bytes[bytes.len().min(9)..]);
    if number < 200 {
        return None;
    }
    if 600 <= number {
        return None;
    }
    Some(number as u16)
}

/// The head of an answer of this status, with a body of so many bytes where it has one.
fn head_of(status: u16, size: u64) -> Head
    ensures { result ≡ head_by status size }
{
    let form = if is_bare(status) {
        Form::Empty
    } else {
        Form::Json(size)
    };
    Head {
        status,
        form,
        close: false,
    }
}

/// The length that the head of a status with a body tells.
fn told_length(bytes: &[u8], status: u16) -> u64
    ensures { (n : ℕ) → n < 2 ^ 64 → BeginsWithNumber
        (drop (length (before_length status)) bytes.now) n → result ≡ n }
{
    let none = Head {
        status,
        form: Form::Json(0),
        close: false,
    };
    let place = head_line(&none).len() - FROM_LENGTH;
    leading_number(&bytes[bytes.len().min(place)..])
}

/// The length of the body behind the head of a status.
fn length_in(bytes: &[u8], status: u16) -> u64
    ensures found { (n : ℕ) (behind : List ℕ) → n < 2 ^ 64 → (IsTrue (is_bare status) → n ≡ 0)
        → bytes.now ≡ head_text (head_by status n) ++ behind → result ≡ n }
    ensures bare { IsTrue (is_bare status) → result ≡ 0 }
{
    if is_bare(status) {
        return 0;
    }
    told_length(bytes, status)
}

/// What stands behind the head that the bytes begin with.
fn behind_head<'a>(bytes: &'a [u8], head: &Head) -> Option<&'a [u8]>
    ensures some { IfSome result (λ b. bytes.now ≡ head_text head.now ++ b.now) }
    ensures none { IfNone result ((b : List ℕ) → bytes.now ≡ head_text head.now ++ b → ⊥) }
{
    let line = head_line(head);
    if bytes.len() < line.len() {
        return None;
    }
    let (front, behind) = bytes.split_at(line.len());
    if front != line.as_slice() {
        return None;
    }
    Some(behind)
}

/// The status of the answer that the bytes begin with, and what stands behind it.
pub fn first_answer(bytes: &[u8]) -> Option<(u16, &[u8])>
    ensures some { IfSome result
        (λ p. (one : List ℕ) × IsAnswer one p.0 × (bytes.now ≡ one ++ p.1.now)) }
    ensures known { IfSome result (λ p. IsFinal p.0) }
    ensures shorter { IfSome result (λ p. length p.1.now < length bytes.now) }
    ensures none { IfNone result (HasNoAnswer bytes.now) }
{
    let status = status_in(bytes)?;
    let size = length_in(bytes, status);
    let head = head_of(status, size);
    let behind = behind_head(bytes, &head)?;
    if (behind.len() as u64) < size {
        return None;
    }
    Some((status, &behind[size as usize..]))
}
