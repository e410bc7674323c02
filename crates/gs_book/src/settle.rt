//! Settling trials.
#![tactic(auto)]

ghost use Rattle.std.specs.Prelude.{◌≡◌, ◌+◌, ◌-◌, ◌<◌, map, length, true};
ghost use Rattle.gs_book.specs.Book.{AddsNone, IsTrialOf};
ghost use Rattle.gs_book.specs.Journal.{journal_move};
ghost use Rattle.gs_move.specs.Entries.{commits_of};
ghost use Rattle.gs_move.specs.Moves.{is_move};
ghost use Rattle.gs_move.specs.Run.{move_at};
ghost use Rattle.gs_move.specs.Settle.{entries_after, settle_of};
ghost use Rattle.gs_move.specs.State.{sizes_now};
ghost use Rattle.gs_move.specs.Trial.{changed_nets, delta_of};
ghost use Rattle.gs_move.specs.declared.entry.Entry.TheVariants.{Commit};
ghost use Rattle.gs_move.specs.declared.settled.Settled.TheVariants.{Committed, Rejected};

use crate::book::Book;
use gs_design::InstId;
use gs_move::{
    Delta, Entry, JournalEntry, Judge, Move, Outcome, Settled, Site, Trial, delta_is_exact,
    install, judges_are_lawful, moves_fit, settling_is_legal, trials_are_judged,
};

// The instance that the last commit moved.
#[inline]
fn last_moved(journal: &[JournalEntry]) -> InstId
    requires { 0 < length journal.now }
    ensures { result ≡ (move_at (map journal_move journal.now) (length journal.now - 1)).inst }
{
    journal[journal.len() - 1].mv.inst
}

// The entry of a commit.
#[inline]
fn commit_of(mv: &Move, worker: u32) -> Entry
    ensures { result ≡ Commit mv.now worker }
{
    Entry::Commit { mv: *mv, worker }
}

impl<J: Judge> Book<J> {
    // Appends a reject of a move that settling rejects.
    fn reject(&mut self, mv: Move, worker: u32) -> Settled
        requires room { 0 < self.old.spare }
        requires few { length self.old.entries < self.old.budget }
        requires mv { is_move self.old.design (sizes_now self.old.start self.old.entries) mv ≡ true }
        requires now { settle_of (J.answers self.old.judge) self.old.design self.old.start self.old.budget self.old.entries mv (length (commits_of self.old.entries)) ≡ Rejected (length self.old.entries + 1) }
        ensures answer { result ≡ Rejected (length self.old.entries + 1) }
        ensures book { self.new ≡ record self.old { entries = entries_after self.old.entries mv worker result; spare = self.new.spare } }
    {
        moves_fit(&self.design);
        settling_is_legal(&self.design);
        let k = self.entries.len() as u64 + 1;
        self.rejected.put(&mv, k);
        self.entries.push_reserved(Entry::Reject { mv, worker });
        Settled::Rejected { k }
    }

    // Appends a commit of a move that settling commits, and installs what the move changes.
    fn commit(&mut self, mv: Move, worker: u32, delta: Delta) -> Settled
        requires room { 0 < self.old.spare }
        requires few { length self.old.entries < self.old.budget }
        requires mv { is_move self.old.design (sizes_now self.old.start self.old.entries) mv ≡ true }
        requires now { settle_of (J.answers self.old.judge) self.old.design self.old.start self.old.budget self.old.entries mv (length (commits_of self.old.entries)) ≡ Committed (length (commits_of self.old.entries) + 1) }
        requires delta { delta ≡ delta_of mv (changed_nets self.old.design (sizes_now self.old.start self.old.entries) mv) }
        ensures answer { result ≡ Committed (length (commits_of self.old.entries) + 1) }
        ensures book { self.new ≡ record self.old { entries = entries_after self.old.entries mv worker result; spare = self.new.spare } }
    {
        moves_fit(&self.design);
        settling_is_legal(&self.design);
        delta_is_exact(&self.design);
        install(&mut self.sizes, &mut self.timing, &delta);
        self.last = self.entries.len() as u64 + 1;
        self.entries.push_reserved(commit_of(&mv, worker));
        let k = self.journal.len() as u64 + 1;
        self.journal
            .push_reserved(JournalEntry { mv, worker, delta });
        Settled::Committed { k }
    }

    /// Settles a trial: commits its move or rejects it, or answers why it does neither. `settle_of` (`specs/Settle.antt` of `gs_move`) says which
    /// answer comes when, the first of these that stands:
    ///
    /// - `Spent`: there are as many entries as the budget;
    /// - `Stale`: a commit came after the state of the trial; the site is the instance of the last commit, `at` the number of that commit;
    /// - `Known`: the move was rejected, and no commit came after that;
    /// - `Committed`: the move is Fair now by the judge. An entry is appended, and sizes and timing are those after the move;
    /// - `Rejected`: it isn't. An entry is appended.
    ///
    /// Conditions: there is room (`make_room`), and the trial is one by the book's judge and design, of a move at the state after some of the
    /// book's commits. It takes no memory. The judge isn't asked again, and nothing is timed: a commit takes time in proportion to the nets whose
    /// records it changes, and every other answer takes constant time.
    pub fn settle(&mut self, trial: Trial) -> Settled
        requires room { 0 < self.old.spare }
        requires trial { IsTrialOf (J.answers self.old.judge) self.old.design self.old.start self.old.entries trial }
        ensures answer { result ≡ settle_of (J.answers self.old.judge) self.old.design self.old.start self.old.budget self.old.entries trial.mv trial.front }
        ensures book { self.new ≡ record self.old { entries = entries_after self.old.entries trial.mv trial.worker result; spare = self.new.spare } }
        // Where no entry is added, nothing at all changes, and the room stays.
        ensures quiet { AddsNone result → self.new ≡ self.old }
    {
        moves_fit(&self.design);
        judges_are_lawful(&self.judge);
        trials_are_judged(&self.design);
        let settled = self.entries.len() as u64;
        if settled == self.budget {
            return Settled::Spent { settled };
        }
        let commits = self.journal.len() as u64;
        if trial.front < commits {
            let site = Site::Inst(last_moved(self.journal.as_slice()));
            return Settled::Stale { site, at: commits };
        }
        let k = self.rejected.at(&trial.mv);
        if self.last < k {
            return Settled::Known { k };
        }
        match trial.outcome {
            Outcome::NotFair(_) => self.reject(trial.mv, trial.worker),
            Outcome::Fair => self.commit(trial.mv, trial.worker, trial.delta),
        }
    }
}
