// Why a call, a list of calls, a drill file or a sequence on the wire is refused.
ghost use Rattle.std.specs.Prelude.{◌≡◌, true};
ghost use Rattle.rules.specs.Codes.{code_of};
ghost use Rattle.rules.specs.Refusals.{is_refusal};

// A reason has a name for each place that answers it; `code` gives its number.
#[derive(Clone, Copy, PartialEq, Eq)]
pub enum Refusal {
    // of a list, a file or a sequence: the room is too little; it ends inside a call or a number; a number is too long, too large, or longer than needed
    TooLittleRoom,
    CutShort,
    Malformed,
    // before the clock moves; of a list too
    Unsound,
    UnknownKind,
    UnknownParty,
    // the TX calls: TX_PROTOCOL_ERROR, TX_ERROR, TX_EINVAL
    TxProtocolError,
    TxError,
    TxEinval,
    BadArgument,
    // the caller's or the end's state forbids it
    NotAllowedNow,
    NoSuchEnd,
    NotOffered,
    NoRoomLeft,
    InTransaction,
    TimedOut,
    // an empty take
    NothingWaiting,
    // numbers that are no sequence
    NoSuchSequence,
    // a resource manager's report
    BadReport,
    // a party without the right
    NotPermitted,
    // a fetch with no return yet
    NoReplyYet,
    // a receive with nothing unread
    NothingUnread,
    // a send on a full link
    UnreadFull,
}

impl Refusal {
    // Its number. No `From`: `why.code()` says what number it is.
    #[tactic(auto, unfolding(crate::specs::Refusals::is_refusal))]
    pub fn code(self) -> i64
        ensures is { result ≡ code_of self }
        ensures refuses { is_refusal result ≡ true }
    {
        match self {
            Refusal::TooLittleRoom => 16,
            Refusal::CutShort => 17,
            Refusal::Malformed => 18,
            Refusal::Unsound => 19,
            Refusal::UnknownKind => 20,
            Refusal::UnknownParty => 21,
            Refusal::TxProtocolError => -5,
            Refusal::TxError => -6,
            Refusal::TxEinval => -8,
            Refusal::BadArgument => 22,
            Refusal::NotAllowedNow => 23,
            Refusal::NoSuchEnd => 24,
            Refusal::NotOffered => 25,
            Refusal::NoRoomLeft => 26,
            Refusal::InTransaction => 27,
            Refusal::TimedOut => 28,
            Refusal::NothingWaiting => 32,
            Refusal::NoSuchSequence => 33,
            Refusal::BadReport => 34,
            Refusal::NotPermitted => 35,
            Refusal::NoReplyYet => 36,
            Refusal::NothingUnread => 36,
            Refusal::UnreadFull => 37,
        }
    }
}
