//! Laws of moves that the crates above reason with. The calls do nothing.
#![tactic(auto)]

ghost use Rattle.std.specs.Prelude.{◌≡◌, ◌<◌, ◌≤◌, ◌+◌, ◌*◌, ◌↔◌, ℕ, List, length, true};
ghost use Rattle.gs_design.specs.Sizes.{FitSizes, move_count};
ghost use Rattle.gs_design.specs.Timing.{FitTiming, timing_of};
ghost use Rattle.gs_design.specs.declared.time.NetTime.{NetTime};
ghost use Rattle.gs_move.specs.Alone.{after_round, alone_from, sweep_of};
ghost use Rattle.gs_move.specs.Change.{change_of};
ghost use Rattle.gs_move.specs.Delta.{AreInstalled, AreRecordsFor};
ghost use Rattle.gs_move.specs.Earned.{IsEarned};
ghost use Rattle.gs_move.specs.Entries.{IsMoveOf, commits_of};
ghost use Rattle.gs_move.specs.Fair.{IsFair};
ghost use Rattle.gs_move.specs.Judge.{Answers, IsLawful, fair_moves, is_fair_by};
ghost use Rattle.gs_move.specs.Legal.{IsLegal};
ghost use Rattle.gs_move.specs.Minimum.{IsMinimum, IsMinimumBy};
ghost use Rattle.gs_move.specs.Moves.{after, is_move};
ghost use Rattle.gs_move.specs.Recovery.{recovery};
ghost use Rattle.gs_move.specs.Run.{IsRun};
ghost use Rattle.gs_move.specs.Settle.{entries_after, known_at, settle_of};
ghost use Rattle.gs_move.specs.State.{sizes_now};
ghost use Rattle.gs_move.specs.Trial.{changed_nets, delta_of, trial_of};
ghost use Rattle.gs_move.specs.declared.ended.Ended.TheVariants.{Settled, Spent};
ghost use Rattle.gs_move.specs.declared.entry.Entry.{Entry};
ghost use Rattle.gs_move.specs.declared.moves.Move.{Move};

use crate::judge::Judge;
use gs_design::Design;

/// A move is one of the design, and the sizes after it fit where those before it do.
pub fn moves_fit(design: &Design)
    ensures places { (s : List ℕ) (m : Move) → is_move design.now s m ≡ true → IsMoveOf design.now m }
    ensures sizes { (s : List ℕ) (m : Move) → FitSizes design.now s → is_move design.now s m ≡ true → FitSizes design.now (after s m) }
{
    let _ = design;
}

/// Leakage recovery finds a move Fair exactly where it is Fair.
pub fn recovery_finds_fair(design: &Design)
    ensures { (s : List ℕ) (m : Move) → (is_fair_by recovery design.now s m ≡ true) ↔ IsFair design.now s m }
{
    let _ = design;
}

/// The records that a move changes can be installed in the timing before the move, which has a record for each net, and installing them gives
/// the timing after it.
pub fn delta_is_exact(design: &Design)
    ensures whole { (s : List ℕ) → FitTiming design.now (timing_of design.now s) }
    ensures fits { (s : List ℕ) (m : Move) → AreRecordsFor (length design.now.nets) (changed_nets design.now s m) }
    ensures exact { (s : List ℕ) (m : Move) (t : List NetTime) → AreInstalled (changed_nets design.now s m) (timing_of design.now s) t → t ≡ timing_of design.now (after s m) }
{
    let _ = design;
}

/// The answers of every judge keep the law of judges.
pub fn judges_are_lawful<J: Judge>(judge: &J)
    ensures { IsLawful (J.answers judge.now) }
{
    let _ = judge;
}

/// The outcome of a trial by a lawful judge is what the judge says of the move's change, at a glance too; and where the move is Fair by it,
/// the delta names all records that the move changes.
pub fn trials_are_judged(design: &Design)
    ensures outcome { (J : Answers) (s : List ℕ) (m : Move) (front worker : ℕ) → IsLawful J → (trial_of J design.now s m front worker).outcome ≡ J.judge (change_of design.now s m) }
    ensures delta { (J : Answers) (s : List ℕ) (m : Move) (front worker : ℕ) → IsLawful J → is_fair_by J design.now s m ≡ true → (trial_of J design.now s m front worker).delta ≡ delta_of m (changed_nets design.now s m) }
{
    let _ = design;
}

/// Sizes are a minimum for a judge exactly where none of all moves is Fair by it; for leakage recovery, exactly where no move is Fair.
pub fn minimum_is_none_fair(design: &Design)
    ensures none { (J : Answers) (s : List ℕ) → (length (fair_moves J design.now s) ≡ 0) ↔ IsMinimumBy J design.now s }
    ensures recovery { (s : List ℕ) → IsMinimumBy recovery design.now s ↔ IsMinimum design.now s }
{
    let _ = design;
}

/// The commits of entries that are legal under leakage recovery are a run.
pub fn legal_is_run(design: &Design)
    ensures { (start : List ℕ) (budget : ℕ) (es : List Entry) → IsLegal recovery design.now start budget es → IsRun design.now start (commits_of es) }
{
    let _ = design;
}

/// Entries that are legal under leakage recovery have at most as many commits as there are moves away from any sizes, and at most that
/// number times the number plus two entries.
pub fn legal_is_few(design: &Design)
    ensures commits { (start : List ℕ) (budget : ℕ) (es : List Entry) → FitSizes design.now start → IsLegal recovery design.now start budget es → length (commits_of es) ≤ move_count design.now }
    ensures entries { (start : List ℕ) (budget : ℕ) (es : List Entry) → FitSizes design.now start → IsLegal recovery design.now start budget es → length es ≤ move_count design.now * (move_count design.now + 2) }
{
    let _ = design;
}

/// Settling keeps entries legal, whatever the judge is; and a move that is Fair by the judge isn't known.
pub fn settling_is_legal(design: &Design)
    ensures legal { (J : Answers) (start : List ℕ) (budget : ℕ) (es : List Entry) (m : Move) (w front : ℕ) → IsLegal J design.now start budget es → is_move design.now (sizes_now start es) m ≡ true → IsLegal J design.now start budget (entries_after es m w (settle_of J design.now start budget es m front)) }
    ensures unknown { (J : Answers) (start : List ℕ) (budget : ℕ) (es : List Entry) (m : Move) → IsLegal J design.now start budget es → is_fair_by J design.now (sizes_now start es) m ≡ true → known_at es (length es) m ≡ 0 }
{
    let _ = design;
}

/// Recovery without further workers, whatever the judge is: it ends settled where a sweep finds no move, and spent where there is one and the
/// entries equal the budget. Else the round is run: it keeps the entries legal and the rejects earned, adds an entry, and recovery goes on from
/// there.
pub fn recovery_goes_on(design: &Design)
    ensures settled { (J : Answers) (start : List ℕ) (budget : ℕ) (es : List Entry) → length (sweep_of J design.now start es) ≡ 0 → alone_from J design.now start budget es ≡ (es, Settled) }
    ensures spent { (J : Answers) (start : List ℕ) (budget : ℕ) (es : List Entry) → 0 < length (sweep_of J design.now start es) → length es ≡ budget → alone_from J design.now start budget es ≡ (es, Spent) }
    ensures goes_on { (J : Answers) (start : List ℕ) (budget : ℕ) (es : List Entry) → IsLegal J design.now start budget es → 0 < length (sweep_of J design.now start es) → length es < budget → alone_from J design.now start budget (after_round J design.now start budget es (sweep_of J design.now start es)) ≡ alone_from J design.now start budget es }
    ensures grows { (J : Answers) (start : List ℕ) (budget : ℕ) (es : List Entry) → IsLegal J design.now start budget es → 0 < length (sweep_of J design.now start es) → length es < budget → length es < length (after_round J design.now start budget es (sweep_of J design.now start es)) }
    ensures legal { (J : Answers) (start : List ℕ) (budget : ℕ) (es : List Entry) → IsLegal J design.now start budget es → IsLegal J design.now start budget (after_round J design.now start budget es (sweep_of J design.now start es)) }
    ensures earned { (J : Answers) (start : List ℕ) (budget : ℕ) (es : List Entry) (n : ℕ) → IsLegal J design.now start budget es → length es < budget → IsEarned J design.now start es n → IsEarned J design.now start (after_round J design.now start budget es (sweep_of J design.now start es)) n }
{
    let _ = design;
}
