// What a call's arguments say: whether a is a service, and the flags in b of a request or a connect. They come in C's numbers, and an enum or a struct of
// them would only be taken apart again; by division, as the rules have them.
ghost use Rattle.std.specs.Prelude.{◌≡◌};
ghost use Rattle.rules.specs.Requests.{no_reply, no_tran};
ghost use Rattle.rules.specs.Services.{is_service};

use super::codes;

// Services are 1 to 64.
pub fn is_service(a: u32) -> bool
    ensures { result ≡ is_service a }
{
    (1..=64).contains(&a)
}

// Is no reply wanted?
pub fn no_reply(b: u32) -> bool
    ensures { result ≡ no_reply b }
{
    b / codes::TPNOREPLY % 2 == 1
}

// Is the link of no transaction?
pub fn no_tran(b: u32) -> bool
    ensures { result ≡ no_tran b }
{
    b / codes::TPNOTRAN % 2 == 1
}
