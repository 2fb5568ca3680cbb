//! Whether a node has anything left to see or to count.

ghost use Rattle.std.specs.Prelude.{◌≡◌, ◌<◌, ◌||◌};
ghost use Rattle.std.specs.List.{list_all, AllByRecursion};
ghost use Rattle.flu_model.specs.declared.events.Itag.{Itag as ItagNote};
ghost use Rattle.flu_model.specs.Itags.{count_of_itags};
ghost use Rattle.flu_model.specs.Listed.{listed};
ghost use Rattle.flu_fork.specs.Lots.{job};
ghost use Rattle.flu_mail.specs.Mailboxes.{seen_of, counts_of, IsOver};
ghost use Rattle.flu_worker.specs.Choosing.{sight_at};
ghost use Rattle.flu_worker.specs.Finishing.{is_over, has_done_all};
ghost use Rattle.flu_worker.specs.Hands.{is_whole, is_down};
ghost use Rattle.flu_worker.specs.Sights.{IsMailFor};

use crate::choosing::{above_itags, own_itags};
use crate::hand::Hand;
use flu_fork::Case;
use flu_mail::Mailbox;
use flu_model::Itag;

// Whether all items of an itag are seen, and all its events counted.
fn is_over(case: &Case, mail: &Mailbox, i: Itag) -> bool
    requires over { IsOver (listed case.now.streams) mail.now }
    requires known { i.0 < count_of_itags (job case.now) }
    ensures { result ≡ is_over (listed case.now.streams) (seen_of mail.now) (counts_of mail.now) i.0 }
{
    let s = case.streams();
    mail.seen(i) == s.items(i).len() as u64 && mail.pending(s, i).is_none()
}

// Whether this holds for each of some itags.
fn are_over(case: &Case, mail: &Mailbox, itags: &[Itag]) -> bool
    requires over { IsOver (listed case.now.streams) mail.now }
    requires known { AllByRecursion (λ (i : ItagNote). i.0 < count_of_itags (job case.now)) itags.now }
    ensures { result ≡ list_all (λ (i : ItagNote). is_over (listed case.now.streams) (seen_of mail.now) (counts_of mail.now) i.0) itags.now }
{
    for i in itags {
        if !is_over(case, mail, *i) {
            return false;
        }
    }
    true
}

/// Whether a worker with this hand has nothing left to do.
pub fn has_done_all(case: &Case, node: u32, mail: &Mailbox, hand: Hand) -> bool
    requires { IsMailFor case.now node mail.now }
    ensures { result ≡ has_done_all (sight_at case.now node mail.now) hand }
{
    if !is_at_rest(hand) {
        return false;
    }
    if !are_over(case, mail, own_itags(case, node)) {
        return false;
    }
    are_over(case, mail, above_itags(case, node))
}

// Whether the lot is whole, or both its parts are lent.
fn is_at_rest(hand: Hand) -> bool
    ensures { result ≡ (is_whole hand || is_down hand) }
{
    matches!(hand, Hand::Whole | Hand::Down)
}
