// The TX state table: nine calls by five states.
ghost use Rattle.std.specs.Prelude.{◌≡◌, ◌-◌, ◌≤◌, true, false, MatchResult};
ghost use Rattle.rules.specs.Codes.{code_of, tx_protocol_error};
ghost use Rattle.rules.specs.States.{state_of, is_blank, next_of, in_state, entered};
ghost use Rattle.rules.specs.Tx.{next_state};
ghost use Rattle.monitor.specs.States.{state_number, chained_of, next_number, call_number};
ghost use Rattle.monitor.specs.View.{view};

use self::State::{S0, S1, S2, S3, S4};
use super::party::PartyNumber;
use super::transaction::tx_of;
use super::words::{WORDS, party_at, put_party};
use rules::{Party, Refusal};

// A party's state, by TX's names.
#[derive(Clone, Copy, Debug, PartialEq, Eq)]
pub(crate) enum State {
    // not opened
    S0,
    // opened, in no transaction: unchained, chained
    S1,
    S2,
    // in a transaction: unchained, chained
    S3,
    S4,
}

impl State {
    // The column of the table: its place in the enum. No `From`, here and below: the name says which number it is.
    fn number(self) -> usize
        ensures { result ≡ state_number self }
    {
        self as usize
    }

    // The state at the control chained.
    pub(crate) fn chained(self) -> State
        ensures { result ≡ chained_of self }
    {
        match self {
            S0 => S0,
            S1 | S2 => S2,
            S3 | S4 => S4,
        }
    }
}

// The kinds 1 to 9, rows of the table.
#[derive(Clone, Copy, Debug, PartialEq, Eq)]
pub(crate) enum TxCall {
    Open,
    Close,
    Begin,
    Commit,
    Rollback,
    Info,
    SetCommitReturn,
    SetTransactionControl,
    SetTransactionTimeout,
}

impl TxCall {
    // The row of the table: its place in the enum.
    fn row(self) -> usize
        ensures { result ≡ call_number self - 1 }
    {
        self as usize
    }
}

// The next state of each call in each state; a blank is None.
static NEXT: [[Option<State>; 5]; 9] = [
    // tx_open
    [Some(S1), Some(S1), Some(S2), Some(S3), Some(S4)],
    // tx_close
    [Some(S0), Some(S0), Some(S0), None, None],
    // tx_begin
    [None, Some(S3), Some(S4), None, None],
    // tx_commit
    [None, None, None, Some(S1), Some(S4)],
    // tx_rollback
    [None, None, None, Some(S1), Some(S4)],
    // tx_info
    [None, Some(S1), Some(S2), Some(S3), Some(S4)],
    // tx_set_commit_return
    [None, Some(S1), Some(S2), Some(S3), Some(S4)],
    // tx_set_transaction_control, at unchained
    [None, Some(S1), Some(S1), Some(S3), Some(S3)],
    // tx_set_transaction_timeout
    [None, Some(S1), Some(S2), Some(S3), Some(S4)],
];

#[tactic(auto, unfolding(rules::specs::States::state_of, rules::specs::Choice::pick))]
pub(crate) fn state_of(s: &[u32; WORDS], p: PartyNumber) -> State
    requires { (view s.now).count ≤ 32 }
    ensures { state_number result ≡ state_of (view s.now) p.index }
{
    let q = party_at(s, p.index);
    if q.opened != 1 {
        return S0;
    }
    match (tx_of(s, p) == 0, q.control == 1) {
        (true, false) => S1,
        (true, true) => S2,
        (false, false) => S3,
        (false, true) => S4,
    }
}

// The next state of party p's call, if the table has one.
#[tactic(auto, unfolding(rules::specs::States::next_of, rules::specs::Choice::pick))]
fn state_after(s: &[u32; WORDS], p: PartyNumber, call: TxCall) -> Option<State>
    requires { (view s.now).count ≤ 32 }
    ensures { next_number result ≡ next_of (call_number call) (state_of (view s.now) p.index) }
{
    NEXT[call.row()][state_of(s, p).number()]
}

// The same, a blank refused.
pub(crate) fn next_state(s: &[u32; WORDS], p: PartyNumber, call: TxCall) -> Result<State, Refusal>
    requires { (view s.now).count ≤ 32 }
    ensures { let there = next_state (view s.now) p.index (call_number call) in MatchResult result
        (λ next. (state_number next ≡ there) × (is_blank there ≡ false))
        (λ why. (code_of why ≡ tx_protocol_error) × (is_blank there ≡ true)) }
{
    state_after(s, p, call).ok_or(Refusal::TxProtocolError)
}

// The party, with what the state says of its fields.
#[tactic(auto, unfolding(rules::specs::States::in_state, rules::specs::Choice::pick))]
pub(crate) fn in_state(q: Party, s: State) -> Party
    ensures { result ≡ in_state q (state_number s) }
{
    match s {
        S0 => Party {
            opened: 0,
            control: 0,
            ..q
        },
        S1 | S3 => Party {
            opened: 1,
            control: 0,
            ..q
        },
        S2 | S4 => Party {
            opened: 1,
            control: 1,
            ..q
        },
    }
}

// Party p enters a state.
#[tactic(auto, unfolding(rules::specs::States::entered))]
pub(crate) fn enter(s: &mut [u32; WORDS], p: PartyNumber, state: State)
    ensures { view s.new ≡ entered (view s.old) p.index (state_number state) }
{
    let q = in_state(party_at(s, p.index), state);
    put_party(s, p.index, q);
}
