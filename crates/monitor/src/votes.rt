// Kind 22: what the resource managers report; and how their reports decide a commit.
ghost use Rattle.std.specs.Prelude.{◌≡◌, ◌<◌, ◌≤◌, MatchResult};
ghost use Rattle.rules.specs.Codes.{no_begin};
ghost use Rattle.rules.specs.Lists.{any_of};
ghost use Rattle.rules.specs.Votes.{report_number, report_is, report_of, commit_code, all_can_start};
ghost use Rattle.monitor.specs.Ending.{code_of_end, kind_of};
ghost use Rattle.monitor.specs.View.{view, ruled_by, told_of};

use super::Told;
use super::links::accept;
use super::party::PartyNumber;
use super::transaction::is_owner;
use super::words::{WORDS, party_at, put_party};
use rules::{Refusal, codes};

// What a resource manager reports of a transaction.
#[derive(Clone, Copy, Debug, PartialEq, Eq)]
pub(crate) enum Reported {
    Prepared,
    ReadOnly,
    Veto,
    Committed,
    RolledBack,
    Mixed,
    Hazard,
}

impl TryFrom<u32> for Reported {
    type Error = Refusal;

    ghost use Rattle.rules.specs.declared.refusal.Refusal.TheVariants.{BadReport};

    ghost try_from_gives = { λ b r. MatchResult r (λ reported. kind_of reported ≡ b) (λ e. (e ≡ BadReport) × (6 < b)) };

    fn try_from(number: u32) -> Result<Reported, Refusal> {
        Ok(match number {
            0 => Reported::Prepared,
            1 => Reported::ReadOnly,
            2 => Reported::Veto,
            3 => Reported::Committed,
            4 => Reported::RolledBack,
            5 => Reported::Mixed,
            6 => Reported::Hazard,
            _ => return Err(Refusal::BadReport),
        })
    }
}

impl Reported {
    // Its number in a call, which is its place in the enum. No `From`, here and below: the name says which number it is.
    fn number(self) -> u32
        ensures { result ≡ kind_of self }
    {
        self as u32
    }

    // As the record keeps it, with c = 1 where the manager can't start: C's number, asked here and in `report`.
    #[tactic(auto, unfolding(rules::specs::Votes::report_number, rules::specs::Choice::pick))]
    pub(crate) fn kept(self, c: u32) -> u32
        ensures { result ≡ report_number (kind_of self) c }
    {
        let b = self.number();
        if c == 1 { 8 + b } else { 1 + b }
    }

    // Is it what a manager reported?
    #[tactic(auto, unfolding(rules::specs::Votes::report_is))]
    pub(crate) fn is(self, r: u32) -> bool
        ensures { result ≡ report_is (kind_of self) r }
    {
        let b = self.number();
        (r == 1 + b) | (r == 8 + b)
    }

    // Has a manager reported it? By `|`, as all that a commit asks of the reports: by `any`, `&&` and `||`, one beside 31 links of others' took 1.5 times
    // as long.
    #[tactic(auto, using(rules::proofs::Votes::any_four))]
    pub(crate) fn is_among(self, rs: [u32; 4]) -> bool
        ensures { result ≡ any_of (report_is (kind_of self)) rs }
    {
        self.is(rs[0]) | (self.is(rs[1]) | (self.is(rs[2]) | self.is(rs[3])))
    }
}

// Can all managers start a new transaction?
pub(crate) fn all_can_start(rs: [u32; 4]) -> bool
    ensures { result ≡ all_can_start rs }
{
    rs.iter().all(|&r| r < 8)
}

// How a transaction ended.
#[derive(Clone, Copy, Debug, PartialEq, Eq)]
pub(crate) enum TxEnd {
    // committed after a commit, rolled back after a rollback
    AsAsked,
    // rolled back in the place of a commit
    RolledBack,
    // TX_MIXED, TX_HAZARD, and heuristically committed
    Mixed,
    Hazard,
    Committed,
}

impl TxEnd {
    // Its code.
    pub(crate) fn code(self) -> i64
        ensures { result ≡ code_of_end self }
    {
        match self {
            TxEnd::AsAsked => codes::TX_OK,
            TxEnd::RolledBack => codes::TX_ROLLBACK,
            TxEnd::Mixed => codes::TX_MIXED,
            TxEnd::Hazard => codes::TX_HAZARD,
            TxEnd::Committed => codes::TX_COMMITTED,
        }
    }

    // Its code where no new transaction could begin.
    #[tactic(auto, unfolding(rules::specs::Codes::no_begin))]
    pub(crate) fn code_without_begin(self) -> i64
        ensures { result ≡ no_begin (code_of_end self) }
    {
        self.code() + codes::TX_NO_BEGIN
    }
}

// How a commit ends: do document 01's conditions hold, and what the managers reported.
#[tactic(auto, unfolding(rules::specs::Votes::vote_code, rules::specs::Votes::commit_code, rules::specs::Votes::code_after, rules::specs::Votes::decides, rules::specs::Votes::some_committed, rules::specs::Votes::some_rolled_back, rules::specs::Choice::pick))]
pub(crate) fn committed(can: bool, rs: [u32; 4]) -> TxEnd
    ensures { code_of_end result ≡ commit_code can rs }
{
    let veto = Reported::Veto.is_among(rs);
    let decision = can & !veto;
    let prepared = Reported::Prepared.is_among(rs);
    // Does one count as committed, and does one as rolled back?
    let committed = Reported::Committed.is_among(rs) | (decision & prepared);
    let back = Reported::RolledBack.is_among(rs) | (veto | (!decision & prepared));
    let mixed = Reported::Mixed.is_among(rs);
    let hazard = Reported::Hazard.is_among(rs);
    if mixed | (committed & back) {
        TxEnd::Mixed
    } else if hazard {
        TxEnd::Hazard
    } else if committed {
        if decision {
            TxEnd::AsAsked
        } else {
            TxEnd::Committed
        }
    } else if back | !decision {
        TxEnd::RolledBack
    } else {
        TxEnd::AsAsked
    }
}

// Kind 22.
#[tactic(auto, using(crate::proofs::Talking::refused), unfolding(rules::specs::Votes::report_of, rules::specs::Choice::pick))]
pub(crate) fn report(
    s: &mut [u32; WORDS],
    p: PartyNumber,
    a: u32,
    b: u32,
    c: u32,
) -> Result<Told, Refusal>
    requires { (view s.old).count ≤ 32 }
    ensures { ruled_by (told_of result) (view s.new) ≡ report_of (view s.old) p.index a b c }
{
    if !is_owner(s, p) {
        return Err(Refusal::NotAllowedNow);
    }
    let reported = Reported::try_from(b)?;
    if a > 3 || c > 1 {
        return Err(Refusal::BadReport);
    }
    let mut q = party_at(s, p.index);
    // by `as`: Rust has no `From` from 32 bits to usize, and `try_from` cannot fail
    q.reports[a as usize] = reported.kept(c);
    put_party(s, p.index, q);
    Ok(accept(0))
}
