// The numbers of answers that are no refusals, and of events, flags and returns, by meaning: a name for each place that answers one, as specs/Codes has
// them. Refusals are in `Refusal`. TPESVCFAIL and TPESVCERR have no name: they come of a sum (replies::outcome_code of monitor).
// Numbers and no enums: they come in C's fields, or go into them, and one such field has events and outcomes alike.

// ---- TX (document 002)
pub const TX_OK: i64 = 0;

pub const TX_NOT_SUPPORTED: i64 = 1;
// tx_info: is the caller in a transaction
pub const TX_INFO_OUTSIDE: i64 = 0;

pub const TX_INFO_INSIDE: i64 = 1;

pub const TX_ROLLBACK: i64 = -2;
// partly committed and partly rolled back
pub const TX_MIXED: i64 = -3;
// it may be so
pub const TX_HAZARD: i64 = -4;
// heuristically committed
pub const TX_COMMITTED: i64 = -9;

// added to the code of a transaction that is over, where no new one could begin
pub const TX_NO_BEGIN: i64 = -100;

// ---- a list of calls was run; a drill file, or a piece of one
pub const LIST_RUN: i64 = 0;

pub const FILE_RUN: i64 = 0;

// ---- a request was written in OSI TP's primitives, or read from them
pub const SEQUENCE_DONE: i64 = 0;

// ---- accepted by the XATMI kinds
pub const TP_ACCEPTED: i64 = 0;
// an event came, which the answer names
pub const TPEEVENT: i64 = 29;

// ---- events; how a service returned is its link's outcome, too
pub const TPEV_DISCONIMM: u32 = 1;

pub const TPEV_SVCERR: u32 = 2;

pub const TPEV_SVCFAIL: u32 = 4;

pub const TPEV_SVCSUCC: u32 = 8;

pub const TPEV_SENDONLY: u32 = 32;
// of a dispatch: a request; a conversation whose server receives, or sends
pub const REQUEST_DISPATCHED: u32 = 64;

pub const RECEIVER_DISPATCHED: u32 = 65;

pub const SENDER_DISPATCHED: u32 = 66;

// ---- flags of a request or a connect
pub const TPNOREPLY: u32 = 1;

pub const TPNOTRAN: u32 = 2;

pub const TPSENDONLY: u32 = 4;

pub const TPRECVONLY: u32 = 8;

// ---- flag of a fetch: whichever reply is there
pub const TPGETANY: u32 = 1;

// ---- how a service means to return
pub const TPSUCCESS: u32 = 1;

pub const TPFAIL: u32 = 2;
