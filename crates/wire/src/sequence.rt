// A request as the wire has it, its sequence of numbers, and the request of a call.
ghost use Rattle.std.specs.Prelude.{◌≡◌, ◌≢◌, IfSome, IfNone};
ghost use Rattle.number.specs.Answers.{encoded};
ghost use Rattle.number.specs.Writer.{write_answer, write_buffer};
ghost use Rattle.wire.specs.Sequences.{sequence_of, is_writable, IsSequenceOf};
ghost use Rattle.wire.specs.declared.sequence.Request.{Request};
ghost use Rattle.wire.specs.Entries.{bytes_of, outgoing_of};
ghost use Rattle.wire.specs.Answers.{outgoing_told};

use number::{NoRoom, encode_all};
use rules::{Answer, Call, codes, is_service, no_reply, no_tran};

// What a sequence says of a request. Yes is 1 and no is 0, so that whatever a host hands in is a value that can be refused.
#[repr(C)]
#[derive(Clone, Copy, Default)]
pub struct Request {
    pub service: u32,
    pub token: u32,
    // a reply is wanted
    pub reply: u32,
    // the link is of a transaction
    pub tx: u32,
}

// The primitives of OSI TP, numbered in the order of their first naming in document 02. Numbers and no enum, since they stand among others, as service
// and token, in sequences that are matched and written as numbers.
const TP_BEGIN_DIALOGUE: u32 = 1;

const TP_DEFERRED_END_DIALOGUE: u32 = 2;

const TP_DATA: u32 = 3;

const TP_GRANT_CONTROL: u32 = 4;

const TP_END_DIALOGUE: u32 = 5;

// Puts the sequence of a request into the buffer, from its front on.
#[tactic(auto, unfolding(crate::specs::Sequences::sequence_of, rules::specs::Choice::pick))]
pub(crate) fn put_sequence(buffer: &mut [u8], r: Request) -> Result<usize, NoRoom>
    ensures answer { encoded result ≡ write_answer buffer.old 0 (bytes_of r) }
    ensures bytes { buffer.new ≡ write_buffer buffer.old 0 (bytes_of r) }
{
    let Request { service, token, .. } = r;
    // A call in each arm: one behind the match would borrow an array of an arm's own, and that gets no proof.
    match (r.reply, r.tx) {
        (1, 1) => encode_all(
            buffer,
            0,
            &[
                TP_BEGIN_DIALOGUE,
                1,
                TP_DEFERRED_END_DIALOGUE,
                TP_DATA,
                service,
                token,
                TP_GRANT_CONTROL,
            ],
        ),
        (1, _) => encode_all(
            buffer,
            0,
            &[
                TP_BEGIN_DIALOGUE,
                0,
                TP_DATA,
                service,
                token,
                TP_GRANT_CONTROL,
            ],
        ),
        _ => encode_all(
            buffer,
            0,
            &[
                TP_BEGIN_DIALOGUE,
                0,
                TP_DATA,
                service,
                token,
                TP_END_DIALOGUE,
            ],
        ),
    }
}

// The request whose sequence these numbers are, whatever its service.
#[tactic(auto, using(crate::proofs::Shapes::seven_own, crate::proofs::Shapes::replied_own, crate::proofs::Shapes::unreplied_own, crate::proofs::Shapes::shapeless))]
pub(crate) fn request_of(numbers: &[u32]) -> Option<Request>
    ensures own { IfSome result (λ r. IsSequenceOf r numbers.now) }
    ensures none { IfNone result ((r : Request) → numbers.now ≢ sequence_of r) }
{
    match *numbers {
        [
            TP_BEGIN_DIALOGUE,
            1,
            TP_DEFERRED_END_DIALOGUE,
            TP_DATA,
            service,
            token,
            TP_GRANT_CONTROL,
        ] => Some(Request {
            service,
            token,
            reply: 1,
            tx: 1,
        }),
        [
            TP_BEGIN_DIALOGUE,
            0,
            TP_DATA,
            service,
            token,
            TP_GRANT_CONTROL,
        ] => Some(Request {
            service,
            token,
            reply: 1,
            tx: 0,
        }),
        [
            TP_BEGIN_DIALOGUE,
            0,
            TP_DATA,
            service,
            token,
            TP_END_DIALOGUE,
        ] => Some(Request {
            service,
            token,
            reply: 0,
            tx: 0,
        }),
        _ => None,
    }
}

// Can it be written?
#[tactic(auto, unfolding(crate::specs::Sequences::is_writable))]
pub(crate) fn is_writable(r: Request) -> bool
    ensures { result ≡ is_writable r }
{
    is_service(r.service) && matches!((r.reply, r.tx), (0 | 1, 0) | (1, 1))
}

// What is to be written of a call with its answer: of an accepted kind 12 a request, of every other nothing.
#[tactic(auto, unfolding(crate::specs::Entries::outgoing_of, crate::specs::Entries::is_accepted, crate::specs::Entries::some_tx, rules::specs::Choice::pick))]
pub fn wire_of(call: Call, answer: Answer) -> Option<Request>
    ensures { outgoing_told result ≡ outgoing_of call answer }
{
    // The one kind that is asked for here, and a call and its answer have numbers as C hands them in.
    if call.kind != 12 || answer.code != codes::TP_ACCEPTED {
        return None;
    }
    Some(Request {
        service: call.a,
        token: call.c,
        reply: u32::from(!no_reply(call.b)),
        tx: u32::from(!no_tran(call.b) && answer.tx != 0),
    })
}
