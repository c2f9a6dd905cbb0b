// The wire side of a request as a host links it: its entries under their names in C, each the library's, told in a
// struct of C's with a number in the place of an error. The contracts are the library's, said of that struct.
#![tactic(auto)]

ghost use Rattle.std.specs.Prelude.{◌≡◌};
ghost use Rattle.wire.specs.Entries.{outgoing_of, read_of, wire_answer, wire_buffer};

use rules::{Answer, Call, codes};
use std::marker::Model;
use wire::{ReadError, Request, WriteError};

// What reading tells: 0 and the request, or a refusal and zeros. A number and a value beside it, here and in the structs below, since C has no `Result`
// and no `Option`; and a struct for each, since it has no generic one.
#[repr(C)]
#[derive(Clone, Copy)]
pub struct Read {
    pub code: i64,
    pub request: Request,
}

// Written out for each struct of C's: a macro of the repository's own that writes an `impl` is refused, and the derives know no view.
impl Model for Read {
    ghost use Rattle.wire.specs.Sequences.{Read as Told};

    ghost Value = { Told };

    ghost view = { λ r. record { code = r.code; request = r.request } };

    ghost inverse = { λ r. record { code = r.code; request = r.request } };
}

impl From<Result<Request, ReadError>> for Read {
    ghost use Rattle.wire.specs.Answers.{read_told};

    ghost from_gives = { λ r told. told ≡ read_told r };

    fn from(read: Result<Request, ReadError>) -> Read {
        match read {
            Ok(request) => Read {
                code: codes::SEQUENCE_DONE,
                request,
            },
            Err(error) => Read {
                code: error.code(),
                request: Request::default(),
            },
        }
    }
}

// What writing tells: 0 and how many bytes were written, or a refusal and 0.
#[repr(C)]
#[derive(Clone, Copy)]
pub struct Written {
    pub code: i64,
    pub length: usize,
}

impl Model for Written {
    ghost use Rattle.wire.specs.Entries.{Written as Told};

    ghost Value = { Told };

    ghost view = { λ w. record { code = w.code; length = w.length } };

    ghost inverse = { λ w. record { code = w.code; length = w.length } };
}

impl From<Result<usize, WriteError>> for Written {
    ghost use Rattle.wire.specs.Answers.{written_told};

    ghost from_gives = { λ r told. told ≡ written_told r };

    fn from(written: Result<usize, WriteError>) -> Written {
        match written {
            Ok(length) => Written {
                code: codes::SEQUENCE_DONE,
                length,
            },
            Err(error) => Written {
                code: error.code(),
                length: 0,
            },
        }
    }
}

// How many requests are to be written of a call, one or none, and which.
#[repr(C)]
#[derive(Clone, Copy)]
pub struct Outgoing {
    pub count: u32,
    pub request: Request,
}

impl Model for Outgoing {
    ghost use Rattle.wire.specs.Entries.{Outgoing as Told};

    ghost Value = { Told };

    ghost view = { λ o. record { count = o.count; request = o.request } };

    ghost inverse = { λ o. record { count = o.count; request = o.request } };
}

impl From<Option<Request>> for Outgoing {
    ghost use Rattle.wire.specs.Answers.{outgoing_told};

    ghost from_gives = { λ r told. told ≡ outgoing_told r };

    fn from(request: Option<Request>) -> Outgoing {
        match request {
            Some(request) => Outgoing { count: 1, request },
            None => Outgoing {
                count: 0,
                request: Request::default(),
            },
        }
    }
}

// What is to be written of a call with its answer: of an accepted kind 12 a request, of every other nothing.
#[unsafe(no_mangle)]
pub extern "C" fn wire_of(call: Call, answer: Answer) -> Outgoing
    ensures { result ≡ outgoing_of call answer }
{
    wire::wire_of(call, answer).into()
}

// Reads every number of the input, of which the first bad one decides, 17 or 18; then what they say, or 33.
#[unsafe(no_mangle)]
pub extern "C" fn wire_read(input: &[u8]) -> Read
    ensures { result ≡ read_of input.now }
{
    wire::wire_read(input).into()
}

// Puts a request's sequence into the buffer, from its front on: 22, then 16. Where it is refused the buffer stays as it was; 11 bytes are always enough.
#[unsafe(no_mangle)]
pub extern "C" fn wire_write(buffer: &mut [u8], request: Request) -> Written
    ensures answer { result ≡ wire_answer buffer.old request }
    ensures bytes { buffer.new ≡ wire_buffer buffer.old request }
{
    wire::wire_write(&mut *buffer, request).into()
}
