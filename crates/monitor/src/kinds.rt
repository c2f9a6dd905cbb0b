// The kinds of calls by name: X/Open's functions, and the four kinds that are none of X/Open's.
ghost use Rattle.monitor.specs.Kinds.{Decodes};

use rules::Refusal;

// Nine of them are rows of the TX table too (`TxCall`): a kind that is no TX call has no row.
#[derive(Clone, Copy, Debug, PartialEq, Eq)]
pub(crate) enum Kind {
    TxOpen,
    TxClose,
    TxBegin,
    TxCommit,
    TxRollback,
    TxInfo,
    TxSetCommitReturn,
    TxSetTransactionControl,
    TxSetTransactionTimeout,
    TpAdvertise,
    TpUnadvertise,
    TpACall,
    TpConnect,
    Dispatch,
    TpGetRply,
    TpCancel,
    TpSend,
    TpRecv,
    TpDiscon,
    TpReturn,
    Terminate,
    Report,
    SetRights,
}

impl TryFrom<u32> for Kind {
    type Error = Refusal;

    ghost try_from_gives = { Decodes };

    fn try_from(number: u32) -> Result<Kind, Refusal> {
        Ok(match number {
            1 => Kind::TxOpen,
            2 => Kind::TxClose,
            3 => Kind::TxBegin,
            4 => Kind::TxCommit,
            5 => Kind::TxRollback,
            6 => Kind::TxInfo,
            7 => Kind::TxSetCommitReturn,
            8 => Kind::TxSetTransactionControl,
            9 => Kind::TxSetTransactionTimeout,
            10 => Kind::TpAdvertise,
            11 => Kind::TpUnadvertise,
            12 => Kind::TpACall,
            13 => Kind::TpConnect,
            14 => Kind::Dispatch,
            15 => Kind::TpGetRply,
            16 => Kind::TpCancel,
            17 => Kind::TpSend,
            18 => Kind::TpRecv,
            19 => Kind::TpDiscon,
            20 => Kind::TpReturn,
            21 => Kind::Terminate,
            22 => Kind::Report,
            23 => Kind::SetRights,
            _ => return Err(Refusal::UnknownKind),
        })
    }
}
