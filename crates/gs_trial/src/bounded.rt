//! That quantities have 64 bits. The calls do nothing.
#![tactic(auto)]

ghost use Rattle.gs_trial.specs.Bounded.{IsBounded, IsBoundedIfGiven, IsBoundedRecord};

use gs_design::NetTime;
use gs_quantity::Micro;

#[inline]
fn bounded(amount: Micro)
    ensures { IsBounded amount }
{
    let _number = amount.0;
}

#[inline]
fn bounded_if_given(amount: &Option<Micro>)
    ensures { IsBoundedIfGiven amount.now }
{
    match *amount {
        Some(amount) => bounded(amount),
        None => {}
    }
}

/// The numbers of a record have 64 bits.
#[inline]
pub fn bounded_record(time: &NetTime)
    ensures { IsBoundedRecord time.now }
{
    bounded(time.load);
    bounded(time.rise.arrival);
    bounded(time.rise.slew);
    bounded(time.fall.arrival);
    bounded(time.fall.slew);
    bounded_if_given(&time.load_bound);
    bounded_if_given(&time.slew_bound);
}
